//! The part of the script that says what is at a place in the drawing, and chooses the lines that it shows.

pub(crate) const VIEWING: &str = r##"
// What is at a row and a line.
function textAt(row, line) {
  const stay = rows[row];
  if (!stay || line < 1 || line > lastLine) return "";
  const it = stay.parts.find(it => it.first <= line && line <= it.last);
  if (!it) return `frame ${stay.frame}: vm ${stay.vm} has it in ${lines(stay.first, stay.last)}`;
  return `frame ${stay.frame}, guest frame ${stay.gfn}, ${lines(it.first, it.last)}: vm ${stay.vm}, ${sharing(it)}`;
}

function say(row, line, x, y) {
  const near = marks.filter(it => Math.abs(it.x - x) <= 6 && Math.abs(it.y - y) <= 7).slice(0, 3).map(it => it.text());
  const lives = row < 0 ? shown.lives.filter(it => (it.registered ?? 1) <= line && line < (it.cleared ?? lastLine + 1)).map(textOfLife) : [];
  byId("hover").textContent = [textAt(row, line), ...lives, ...near].filter(it => it).join("; ");
}

function look(first, last) {
  const least = Math.min(4, lastLine);
  const length = Math.min(Math.max(last - first, least), lastLine);
  from = Math.min(Math.max(first, 1), lastLine + 1 - length);
  until = from + length;
  draw();
}

function zoom(factor, line = (from + until) / 2) {
  const length = Math.min(Math.max((until - from) * factor, Math.min(4, lastLine)), lastLine);
  const first = line - (line - from) * length / (until - from);
  look(first, first + length);
}
const move = part => look(from + part * (until - from), until + part * (until - from));
const lookAtAll = () => look(1, lastLine + 1);

function moveCursor(rowsOn) {
  const line = Math.min(Math.floor((from + until) / 2), lastLine);
  cursor = { row: Math.min(Math.max((cursor ? cursor.row : -1) + rowsOn, 0), Math.max(rows.length - 1, 0)), line };
  draw();
  if (rows.length) say(cursor.row, line, across(line + .5), topOf(cursor.row) + rowHeight / 2);
}
"##;
