//! The part of the script that reads the page's controls, fills its foot, and starts it.

pub(crate) const CONTROLS: &str = r##"
function choose(number) {
  shown = vms.get(number) ?? vm(number);
  cursor = null;
  byId("vm").value = number;
  plot.setAttribute("aria-label", `Frames of vm ${number}: ${numbered(shown.stays.length, "frame", "frames")}, ${numbered(shown.refusals.length, "refused call", "refused calls")}, ${numbered(shown.accesses.length, "read or write", "reads and writes")} of the host`);
  byId("hover").textContent = "";
  draw();
  fillLives();
  fillShares();
  fillRefusals();
  fillAccesses();
}

function textOfAnswer(number, frame, line) {
  const said = answer(number, frame, line);
  if (said.first === null) return `The machine has frames 0 to ${head.frames - 1}, and the trace lines 1 to ${placed(lastLine)}.`;
  const when = `After line ${placed(line)}, frame ${frame}`;
  if (said.owner === null && said.isIts === false) return `${when} was not vm ${number}'s.`;
  if (said.owner === null) return `The lines do not say whose frame ${frame} was after line ${placed(line)}.`;
  const owner = vmOf(said.owner), since = said.first === 1 ? "from the beginning" : `since line ${placed(said.first)}`;
  const whose = owner === null ? said.owner === "free" ? "free" : `the ${said.owner}'s` : `vm ${owner}'s, at guest frame ${said.gfn}, ${sharing(said)}`;
  return `${when} was ${whose}: ${since}, up to line ${placed(said.last)}.`;
}

// The line that the box names: a line of all, or a volume and a line of it, as 3:17; 0 if there is no such line.
function lineOf(words) {
  const [first, second] = words.split(":").map(Number);
  if (second === undefined) return first;
  const volume = volumes[first - 1];
  return volume && second >= 1 && second <= volume.calls + 1 ? volume.line + second - 2 : 0;
}

function ask() {
  const frame = byId("frame"), line = byId("line");
  if (frame.value === "" || line.value === "") return;
  byId("answer").textContent = textOfAnswer(shown.number, Number(frame.value), lineOf(line.value));
}

// The browser runs a script of this digest alone.
function scriptDigest() {
  const policy = document.querySelector("meta[http-equiv]").content;
  const bytes = atob(/script-src 'sha256-([^']+)'/.exec(policy)[1]);
  return [...bytes].map(it => it.charCodeAt(0).toString(16).padStart(2, "0")).join("");
}

function fillDigests() {
  const known = { default: "the default one", head: "the machine in the head of the trace" };
  const config = known[head.config] ?? head.config ?? (head.state ? "none: the calls begin in a state's text" : null);
  const read = volumes.some(it => it.trace) ? volumes.map(it => [`SHA-256 of volume ${it.volume}`, it.trace]) : [[`SHA-256 of the ${volumes.length ? "volumes" : "trace"}`, head.trace]];
  const rows = [["kcore", head.kcore], ...read, ["of the configuration", config], ["of the state's text", head.state ?? (head.state === null ? "none: the calls begin at boot" : null)], ["of this page's script", scriptDigest()]];
  for (const [name, text] of rows) {
    const term = document.createElement("dt"), said = document.createElement("dd"), code = document.createElement("code");
    term.textContent = name;
    code.textContent = text ?? "not in the lines";
    said.append(code);
    byId("digests").append(term, said);
  }
}

// The VM that the address names, as `#vm=3`, if it can be shown, or the first.
function addressed() {
  const options = [...byId("vm").options].map(it => it.value), named = /^#vm=(\d+)$/.exec(location.hash)?.[1];
  return Number(options.includes(named) ? named : options[0]);
}

// Shows the lines that are asked for, or says that there are none.
function lookAtAsked() {
  const [first, last] = ["first", "last"].map(it => byId(it).value);
  const areThere = Number(first) >= 1 && Number(first) <= Math.min(Number(last), lastLine);
  byId("hover").textContent = areThere ? "" : `There are no lines from ${first || "?"} to ${last || "?"}. The trace has lines 1 to ${lastLine}.`;
  if (areThere) look(Number(first), Number(last) + 1);
}

function listen() {
  byId("vm").onchange = () => location.hash = `vm=${byId("vm").value}`;
  window.onhashchange = () => choose(addressed());
  // On paper all lives are shown, and the drawing is as wide as the paper.
  window.onbeforeprint = () => {
    isPrinting = true;
    fillLives(shown.lives.length);
    draw();
  };
  window.onafterprint = () => {
    isPrinting = false;
    draw();
  };
  byId("everyone").onchange = fillRefusals;
  byId("in").onclick = () => zoom(1 / 1.6);
  byId("out").onclick = () => zoom(1.6);
  byId("left").onclick = () => move(-.25);
  byId("right").onclick = () => move(.25);
  byId("all").onclick = lookAtAll;
  for (const id of ["first", "last"]) byId(id).onchange = lookAtAsked;
  byId("question").oninput = () => byId("answer").textContent = "";
  byId("question").onsubmit = event => {
    event.preventDefault();
    ask();
  };
  plot.onkeydown = event => {
    const keys = { ArrowLeft: () => move(-.1), ArrowRight: () => move(.1), "+": () => zoom(1 / 1.6), "=": () => zoom(1 / 1.6), "-": () => zoom(1.6), 0: lookAtAll, ArrowUp: () => moveCursor(-1), ArrowDown: () => moveCursor(1), Home: () => look(1, 1 + until - from), End: () => look(lastLine + 1 - (until - from), lastLine + 1) };
    const act = event.ctrlKey || event.metaKey || event.altKey ? undefined : keys[event.key];
    if (!act) return;
    event.preventDefault();
    act();
    if (cursor && ["ArrowLeft", "ArrowRight", "+", "=", "-", "0", "Home", "End"].includes(event.key)) moveCursor(0);
  };
  plot.addEventListener("wheel", event => {
    event.preventDefault();
    zoom(event.deltaY > 0 ? 1.25 : .8, lineAt(event.offsetX));
  }, { passive: false });
  plot.onpointerdown = event => plot.setPointerCapture(event.pointerId);
  plot.onpointermove = event => {
    if (event.buttons === 1) {
      const by = -event.movementX / (width() - GUTTER - 8) * (until - from);
      look(from + by, until + by);
      return;
    }
    const row = Math.floor((event.offsetY - STRIP) / rowHeight);
    say(row, Math.floor(lineAt(event.offsetX)), event.offsetX, event.offsetY);
  };
  window.onresize = draw;
}

// Which volumes the lines are of: how many, and their numbers in their heads, and whether their order was judged.
function volumesRead() {
  const count = volumes.length, what = count ? numbered(count, "volume", "volumes") : "the trace";
  if (head.first === undefined) return head.order ? `${what}, order ${head.order}` : what;
  const order = head.order ? `, order by ${head.order} alone` : "";
  return count ? `${what}, by their heads volumes ${head.first} to ${head.last}${order}` : `${what}, by its head volume ${head.first}`;
}

function start() {
  read(byId("lines").textContent);
  const count = end.refused ?? refusals.length;
  byId("about").textContent = `${numbered(head.frames, "frame", "frames")} and ${numbered(head.slots, "slot", "slots")}; ${numbered(end.calls, "call", "calls")}, on lines 2 to ${placed(lastLine)} of ${volumesRead()}; ${numbered(count, "call was", "calls were")} refused.`;
  byId("main").hidden = false;
  fillDigests();
  const numbers = offered();
  for (const number of numbers) byId("vm").add(new Option(`vm ${number}`, number));
  if (!numbers.length) {
    byId("vm").add(new Option("none", 0));
    byId("everyone").checked = true;
  }
  if (volumes.length) Object.assign(byId("line"), { type: "text", pattern: "[0-9]+(:[0-9]+)?", placeholder: "or as 3:17", title: "A line of all volumes, or a volume and a line of it, as 3:17" });
  listen();
  from = 1;
  until = lastLine + 1;
  choose(addressed());
}

try {
  start();
} catch (fault) {
  byId("fault").hidden = false;
  byId("fault").textContent = `The lines in this page are damaged or cut off: ${fault.message}`;
  throw fault;
}
</script>
</body>
</html>
"##;
