//! The part of the script that draws the frames of one VM.

pub(crate) const DRAWING: &str = r##"
// The page.

let shown, from, until, rows = [], marks = [], rowHeight = 0, cursor = null, scale = 1, isPrinting = false;
const plot = byId("plot"), pen = plot.getContext("2d");
const GUTTER = 126, STRIP = 48, AXIS = 22, MOST = 520, PAPER = 720;
const COLOURS = { private: "#7aa2cf", shared: "#8f4300", reached: "#120300", refusal: "#d4002a", ink: "#1a1a1a" };

// A shared frame that the host has not mapped is hatched, if its row is high enough.
const hatch = (() => {
  const tile = new OffscreenCanvas(6, 6), tint = tile.getContext("2d");
  tint.fillStyle = COLOURS.shared;
  tint.fillRect(0, 0, 6, 6);
  tint.strokeStyle = "#ffdcb8";
  for (const at of [-6, 0, 6]) {
    tint.moveTo(at - 1, 7);
    tint.lineTo(at + 7, -1);
  }
  tint.stroke();
  return pen.createPattern(tile, "repeat");
})();

const lookOf = it => it.share === 0 ? "private" : it.present ? "reached" : "shared";
const lines = (first, last) => first === last ? `line ${placed(first)}` : `lines ${placed(first)} to ${placed(last)}`;
const sharing = it => it.share === 0 ? "private" : `${numbered(it.share, "grant", "grants")}${it.present ? ", reached by the host" : ", not mapped by the host"}`;
const outcome = told => told.refused !== undefined ? `refused: ${told.refused}` : `rejected: image ${told.rejected} is not approved`;
const reached = told => `${told.call === "hread" ? "the host read" : "the host wrote"} ${numbered(told.len, "byte", "bytes")} from byte ${told.off} on`;

function textOfRefusal(told) {
  const whose = told.owner === null ? "" : ` of ${named(told.owner)}${told.gfn === null ? "" : `, guest frame ${told.gfn}`}`;
  const at = told.frame === null ? "" : `, frame ${told.frame}${whose}`;
  return `line ${placed(told.line)}: ${told.call} ${outcome(told)}${at}`;
}

const across = line => GUTTER + (line - from) / (until - from) * (width() - GUTTER - 8);
const width = () => plot.width / scale;
const lineAt = x => from + (x - GUTTER) / (width() - GUTTER - 8) * (until - from);
const topOf = row => STRIP + row * rowHeight;

function draw() {
  scale = isPrinting ? 3 : Math.max(1, window.devicePixelRatio || 1);
  rows = shown.stays.filter(it => it.first < until && it.last + 1 > from);
  rowHeight = Math.min(18, MOST / Math.max(rows.length, 1));
  const wide = isPrinting ? PAPER : Math.max(plot.clientWidth, 400), high = STRIP + Math.max(rows.length * rowHeight, 18) + AXIS;
  plot.width = Math.round(wide * scale);
  plot.height = Math.round(high * scale);
  plot.style.height = `${high}px`;
  pen.setTransform(scale, 0, 0, scale, 0, 0);
  pen.fillStyle = "#fff";
  pen.fillRect(0, 0, wide, high);
  pen.font = "12px system-ui, sans-serif";
  drawAxis(high);
  drawBars();
  drawLives(high);
  drawMarks();
  drawCursor(high);
  byId("first").value = Math.ceil(from);
  byId("last").value = Math.max(Math.ceil(until) - 1, Math.ceil(from));
}

function drawAxis(high) {
  const steps = [1, 2, 5].flatMap(it => [0, 1, 2, 3, 4, 5].map(power => it * 10 ** power)).sort((a, b) => a - b);
  const step = steps.find(it => (until - from) / it <= (width() - GUTTER) / 80) ?? 1e6;
  pen.textAlign = "center";
  for (let line = Math.max(1, Math.ceil(from / step) * step); line < until; line += step) {
    const x = across(line);
    pen.fillStyle = "#d0d0d0";
    pen.fillRect(x, STRIP, 1, high - STRIP - AXIS);
    pen.fillStyle = COLOURS.ink;
    pen.fillText(String(line), Math.min(Math.max(x, GUTTER + 12), width() - 26), high - 6);
  }
  pen.textAlign = "left";
  pen.fillText("line", 4, high - 6);
  pen.fillText("frame, guest frame", 4, 29);
}

function drawBars() {
  const gap = rowHeight > 6 ? 1.5 : 0, tall = Math.max(rowHeight - gap, 1);
  for (const look of ["private", "shared", "reached"]) {
    pen.fillStyle = look === "shared" && tall >= 5 ? hatch : COLOURS[look];
    for (let row = 0; row < rows.length; row++) {
      for (const it of rows[row].parts) {
        if (lookOf(it) !== look || it.first >= until || it.last + 1 <= from) continue;
        const x = Math.max(across(it.first), GUTTER);
        pen.fillRect(x, topOf(row), Math.max(Math.min(across(it.last + 1), width() - 8) - x, 1), tall);
      }
    }
  }
  pen.fillStyle = COLOURS.ink;
  const each = Math.max(1, Math.ceil(14 / rowHeight));
  for (let row = 0; row < rows.length; row += each) {
    const { frame, gfn } = rows[row];
    pen.fillText(`${frame}, ${gfn}`, 4, topOf(row) + Math.min(tall, 14) - 2, GUTTER - 8);
  }
}

function textOfLife(it) {
  const began = it.registered === null ? "began before the first line" : `registered on line ${placed(it.registered)}`;
  const measured = it.active !== null ? `, measured on line ${placed(it.active)}` : it.dead !== null ? `, REJECTED on line ${placed(it.dead)}` : ", not measured";
  return began + measured + (it.cleared === null ? "" : `, cleared on line ${placed(it.cleared)}`);
}

// The mark of measuring in the box of a life, and words beside it, where there is room.
function drawMeasured(it, x, to) {
  const isSeen = it.active !== null && it.active >= from && it.active < until, at = across(it.active);
  if (isSeen) pen.fillRect(at - .5, 17, 2, 16);
  const said = it.active !== null ? `measured on line ${placed(it.active)}` : it.dead !== null ? "" : "not measured";
  const rooms = isSeen ? [[at + 1.5, to], [x, at - .5]] : [[x, to]], length = pen.measureText(said).width + 10;
  const room = rooms.find(([first, last]) => last - first > length);
  if (room) pen.fillText(said, room[0] + 5, 29);
}

// Lives are boxes above the rows, and a boot that was rejected is a line through all of them, with words above.
function drawLives(high) {
  let free = 0;
  for (const it of shown.lives) {
    const first = it.registered ?? 1, last = it.cleared ?? lastLine + 1, isDead = it.dead !== null;
    if (first >= until || last <= from) continue;
    const x = Math.max(across(first), GUTTER), to = Math.min(across(last), width() - 8), wide = Math.max(to - x, isDead ? 6 : 2);
    pen.fillStyle = isDead ? COLOURS.refusal : "#e6e6e6";
    pen.fillRect(x, 17, wide, 16);
    pen.strokeStyle = COLOURS.ink;
    pen.lineWidth = 1;
    pen.strokeRect(x + .5, 17.5, wide - 1, 15);
    pen.fillStyle = COLOURS.ink;
    drawMeasured(it, x, x + wide);
    if (!isDead || it.dead < from || it.dead >= until) continue;
    const at = across(it.dead + .5);
    pen.fillStyle = COLOURS.refusal;
    pen.fillRect(at - 1.5, 4, 3, high - AXIS - 4);
    const words = `rejected on line ${placed(it.dead)}`, length = pen.measureText(words).width;
    const place = at + 5 + length < width() ? at + 5 : at - 5 - length;
    if (place < free) continue;
    pen.fillStyle = "#a00020";
    pen.fillText(words, place, 13);
    free = place + length + 6;
  }
}

function drawMarks() {
  const rowOf = new Map(rows.map((it, row) => [it, row]));
  marks = [];
  for (const told of shown.accesses) {
    const row = rowOf.get(told.stay);
    if (row === undefined || told.line < from || told.line >= until) continue;
    const x = across(told.line + .5), y = topOf(row) + Math.min(rowHeight, 18) / 2, tall = Math.max(Math.min(rowHeight - 3, 12), 7);
    const isRead = told.call === "hread";
    pen.fillStyle = isRead ? "#000" : "#fff";
    pen.fillRect(x - 2.5, y - tall / 2 - 1, 5, tall + 2);
    pen.fillStyle = isRead ? "#fff" : "#000";
    pen.fillRect(x - 1.5, y - tall / 2, 3, tall);
    marks.push({ x, y, text: () => `line ${placed(told.line)}: ${reached(told)} of frame ${told.frame}, guest frame ${told.gfn}` });
  }
  pen.lineJoin = "round";
  for (const told of shown.refusals) {
    if (told.line < from || told.line >= until) continue;
    // (a refusal that names no frame of the VM's has its mark below the lives)
    const row = vmOf(told.owner) === shown.number ? rowOf.get(told.stay) : undefined;
    const x = across(told.line + .5), y = row === undefined ? STRIP - 7 : topOf(row) + Math.min(rowHeight, 18) / 2;
    pen.beginPath();
    pen.moveTo(x, y - 5.5);
    pen.lineTo(x - 5.5, y + 4.5);
    pen.lineTo(x + 5.5, y + 4.5);
    pen.closePath();
    pen.strokeStyle = "#fff";
    pen.lineWidth = 2.5;
    pen.stroke();
    pen.fillStyle = COLOURS.refusal;
    pen.fill();
    marks.push({ x, y, text: () => textOfRefusal(told) });
  }
}

function drawCursor(high) {
  if (!cursor || !rows.length) return;
  cursor.row = Math.min(cursor.row, rows.length - 1);
  const y = topOf(cursor.row) + rowHeight / 2, x = across(cursor.line + .5);
  pen.strokeStyle = COLOURS.ink;
  pen.lineWidth = 1;
  pen.setLineDash([4, 3]);
  pen.beginPath();
  pen.moveTo(GUTTER, y);
  pen.lineTo(width() - 8, y);
  pen.moveTo(x, STRIP);
  pen.lineTo(x, high - AXIS);
  pen.stroke();
  pen.setLineDash([]);
}
"##;
