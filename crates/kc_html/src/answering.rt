//! The part of the script that says who owned a frame after a call.

pub(crate) const ANSWERING: &str = r##"
// Who owned a frame after the call on a line, and from which line to which that did not change: `owner` is null if the lines
// do not say it. `isIts` is whether it was this VM's, null if they do not say even that.
function answer(number, frame, line) {
  const said = { owner: null, gfn: null, share: null, present: null, first: null, last: null, isIts: null };
  if (!(frame >= 0 && frame < head.frames && line >= 1 && line <= lastLine)) return said;
  const told = changes.get(frame) ?? [];
  let low = 0, high = told.length;
  while (low < high) {
    const middle = (low + high) >> 1;
    if (told[middle].line <= line) low = middle + 1;
    else high = middle;
  }
  said.first = low > 0 ? told[low - 1].line : 1;
  said.last = low < told.length ? told[low].line - 1 : lastLine;
  let custody = low > 0 ? told[low - 1].to : low < told.length ? told[low].from : null;
  if (!custody && head.state === null) {
    // The calls begin at boot, and none changed it.
    const owner = frame < head.core ? "core" : frame < head.core + head.host ? "host" : "free";
    custody = { owner, gfn: null, share: 0, present: false };
  }
  if (!custody) return said;
  const owner = vmOf(custody.owner), isOfAll = common !== null && common.size === 0;
  // The lines of one VM say of the frames of others only that they are not that VM's.
  if (isOfAll || common !== null && common.size === 1 && common.has(number)) said.isIts = owner === number;
  return isOfAll || said.isIts ? Object.assign(said, custody) : said;
}
"##;
