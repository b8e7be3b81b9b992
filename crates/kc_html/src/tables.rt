//! The part of the script that fills the tables.

pub(crate) const TABLES: &str = r##"
// Tables.

function cell(row, content, kind = "") {
  const it = row.insertCell();
  if (kind) it.className = kind;
  if (content instanceof Node) it.append(content);
  else it.textContent = content;
}

function goTo(line) {
  const it = document.createElement("button");
  it.type = "button";
  it.className = "line";
  it.textContent = placedShort(line);
  it.onclick = () => {
    const length = Math.min(until - from, 400);
    look(line - length / 2, line + length / 2);
    plot.focus();
  };
  return it;
}

// A table with these columns, whose first rows are there at once, and the others when they are asked for.
function fill(id, columns, data, add, caption, atOnce = 300) {
  const table = byId(id);
  table.replaceChildren();
  table.createCaption().textContent = caption;
  const heads = table.createTHead().insertRow();
  for (const [name, kind] of columns) {
    const it = document.createElement("th");
    it.scope = "col";
    it.textContent = name;
    if (kind) it.className = kind;
    heads.append(it);
  }
  const body = table.createTBody();
  let done = 0;
  const more = count => {
    for (const it of data.slice(done, done + count)) add(body.insertRow(), it);
    done = Math.min(done + count, data.length);
    if (done === data.length) return;
    const row = body.insertRow(), it = document.createElement("button");
    it.type = "button";
    it.className = "more";
    it.textContent = `Show more: ${numbered(data.length - done, "row", "rows")} are not shown`;
    it.onclick = () => {
      row.remove();
      more(5000);
    };
    row.insertCell().colSpan = columns.length;
    row.cells[0].append(it);
  };
  more(atOnce);
}

const byLines = () => volumes.length ? "by volume and line, as 3:17" : "by lines of the trace";

// The boot images of a life have a row of their own below it, so that there is room for their digests and for the launch
// measurement.
function addImages(row, images, launch) {
  row.insertCell().colSpan = 8;
  const add = (words, sha256) => {
    const line = document.createElement("div"), digest = document.createElement("code");
    digest.textContent = sha256;
    line.append(words, digest);
    row.cells[0].append(line);
  };
  for (const image of images) add(`boot image: guest frame ${image.base}, ${numbered(image.len, "byte", "bytes")}, SHA-256 `, image.sha256);
  if (launch) add("launch measurement: ", launch);
}

function fillLives(atOnce) {
  const columns = ["registered", "measured", "rejected", "cleared", "frames", "reads", "writes", "refused"].map(it => [it, "number"]);
  const add = (row, it) => {
    const kind = it.dead !== null ? "rejected" : "";
    row.className = kind;
    for (const line of [it.registered ?? `before ${placedShort(2)}`, it.active ?? "", it.dead ?? "", it.cleared ?? ""]) cell(row, typeof line === "number" ? goTo(line) : line, "number");
    const unseen = head.accesses === "unseen" ? "not recorded" : null;
    for (const count of [it.frames.size, unseen ?? it.reads, unseen ?? it.writes, it.aimed]) cell(row, count, "number");
    if (!it.images.length) return;
    row.classList.add("measured");
    const images = row.parentNode.insertRow();
    images.className = kind;
    addImages(images, it.images, it.launch);
  };
  fill("lives", columns, shown.lives, add, `${numbered(shown.lives.length, "life", "lives")} of vm ${shown.number}, ${byLines()}`, atOnce);
}

// The stretches in which frames were shared, each from the call that shared the frame to the one that ended that.
function stretchesOf(stays) {
  const found = [];
  for (const { frame, gfn, parts } of stays) {
    let open = null;
    for (const it of parts) {
      if (it.share === 0) open = null;
      else if (!open) found.push(open = { frame, gfn, from: it.first, to: null });
      if (open) open.to = it.last < lastLine ? it.last + 1 : null;
    }
  }
  return found.sort((a, b) => a.from - b.from || a.frame - b.frame);
}

function fillShares() {
  const columns = ["frame", "guest frame", "from", "to"].map(it => [it, "number"]), found = stretchesOf(shown.stays);
  const add = (row, it) => {
    for (const value of [it.frame, it.gfn, goTo(it.from), it.to === null ? "still shared" : goTo(it.to)]) cell(row, value, "number");
  };
  const others = head.state === null ? "" : "; a frame that no line names is not among them";
  fill("shares", columns, found, add, `${numbered(found.length, "stretch", "stretches")} in which vm ${shown.number} shared a frame: from the call that shared it to the one that ended that, ${byLines()}${others}`);
}

function fillRefusals() {
  const isOfAll = byId("everyone").checked, some = isOfAll ? refusals : shown.refusals;
  const columns = [["line", "number"], ["call"], ["why"], ["slot that it names", "number"], ["frame", "number"], ["owner"], ["guest frame", "number"]];
  const add = (row, told) => {
    if (told.rejected !== undefined) row.className = "rejected";
    cell(row, goTo(told.line), "number");
    cell(row, told.call);
    cell(row, outcome(told));
    cell(row, told.slot ?? "", "number");
    cell(row, told.frame ?? "", "number");
    cell(row, told.owner === null ? "" : named(told.owner));
    cell(row, told.gfn ?? "", "number");
  };
  fill("refusals", columns, some, add, `${numbered(some.length, "refused call", "refused calls")} ${isOfAll ? "in all" : `that name vm ${shown.number} or a frame of its`}`);
}

function fillAccesses() {
  const columns = [["line", "number"], ["call"], ["frame", "number"], ["guest frame", "number"], ["first byte", "number"], ["bytes", "number"]];
  const add = (row, told) => {
    cell(row, goTo(told.line), "number");
    cell(row, told.call);
    for (const it of [told.frame, told.gfn ?? "", told.off, told.len]) cell(row, it, "number");
  };
  const unseen = head.accesses === "unseen" ? "; the machine's own reads and writes are not in the trace" : "";
  fill("accesses", columns, shown.accesses, add, numbered(shown.accesses.length, "read or write", "reads and writes") + unseen);
}
"##;
