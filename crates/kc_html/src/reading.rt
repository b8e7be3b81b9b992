//! The part of the script that reads the lines: the stays and lives of VMs, and what was refused and served.

pub(crate) const READING: &str = r##"</script>
<script>
"use strict";
// Reads the lines of `kcore custody --refused --accesses` or `--refused --unseen`, which docs/TEXTS.md describes, and shows
// them.

const byId = id => document.getElementById(id);
const numbered = (count, one, many) => `${count.toLocaleString("en")} ${count === 1 ? one : many}`;
const vmOf = owner => owner !== null && owner.startsWith("vm") ? Number(owner.slice(2)) : null;
const named = owner => owner.startsWith("vm") ? `vm ${owner.slice(2)}` : owner;

// What the lines say.

let head, end, lastLine, volumes;
const changes = new Map(), vms = new Map(), refusals = [];
// The VMs that every line concerns, of which one may have been chosen by `--vm`; null before the first line.
let common = null;

function vm(number) {
  if (!vms.has(number)) vms.set(number, { number, stays: [], lives: [], accesses: [], refusals: [], aimed: 0 });
  return vms.get(number);
}

// A life of a VM, of which it may be under way before the first line.
function life(of, registered) {
  const begun = { vm: of.number, registered, active: null, dead: null, cleared: null, images: [], launch: null, frames: new Set(), reads: 0, writes: 0, aimed: of.aimed };
  of.aimed = 0;
  of.lives.push(begun);
  return begun;
}
const lastLife = of => of.lives.length ? of.lives[of.lives.length - 1] : life(of, null);

// The volume that a line is in, if there are volumes, and its line there. (Line 1 is the header of the first.)
function within(line) {
  const volume = volumes.findLast(it => it.line <= line) ?? volumes[0];
  return volume ? [volume.volume, line - volume.line + 2] : null;
}

// A line as it is shown in a sentence, and in a table, there as the box takes it.
function placed(line) {
  const it = within(line);
  return it ? `${line} (volume ${it[0]}, line ${it[1]})` : String(line);
}
const placedShort = line => within(line)?.join(":") ?? String(line);

// The VMs that can be shown: the one that all lines concern, as with `--vm`, or those that had anything.
function offered() {
  const alone = common?.size === 1 ? [...common].filter(it => vms.has(it)) : [];
  return alone.length ? alone : [...vms.values()].filter(it => it.lives.length || it.stays.length).map(it => it.number).sort((a, b) => a - b);
}

function concern(one, other) {
  if (common === null) common = new Set([one, other].filter(it => it !== null));
  else for (const it of common) if (it !== one && it !== other) common.delete(it);
}

function read(text) {
  const all = JSON.parse(`[${text.trim().replaceAll("\n", ",")}]`);
  head = all[0];
  end = all[all.length - 1];
  volumes = all.slice(1, 1 + (head.volumes ?? 0));
  const rest = all.slice(1 + volumes.length, -1), areVolumes = volumes.every((it, at) => it.volume === at + 1 && it.calls >= 0);
  if (!(head.custody >= 1) || !areVolumes || end.calls === undefined || end.lines !== rest.length) throw new Error("lines are lacking");
  lastLine = end.calls + 1;
  const open = new Map();
  for (const told of rest) {
    if (told.to !== undefined) readChange(told, open);
    else if (told.phase !== undefined) readPhase(told);
    else if (told.off !== undefined) readAccess(told, open);
    else readRefusal(told, open);
  }
  for (const it of vms.values()) it.stays.sort((a, b) => a.first - b.first || a.order - b.order);
}

function begin(told, owner, custody, first) {
  const of = vm(owner), stay = { frame: told.frame, gfn: custody.gfn, vm: owner, first, last: lastLine, order: of.stays.length, parts: [] };
  of.stays.push(stay);
  lastLife(of).frames.add(told.frame);
  return stay;
}

const part = (custody, first) => ({ first, last: lastLine, share: custody.share, present: custody.present });

function readChange(told, open) {
  const from = vmOf(told.from.owner), to = vmOf(told.to.owner);
  concern(from, to);
  let stay = open.get(told.frame);
  if (from !== null && !stay) {
    // The VM had the frame in the state that the calls begin in.
    stay = begin(told, from, told.from, 1);
    stay.parts.push(part(told.from, 1));
    open.set(told.frame, stay);
  }
  if (stay) stay.parts[stay.parts.length - 1].last = told.line - 1;
  if (stay && (from !== to || told.from.gfn !== told.to.gfn)) {
    stay.last = told.line - 1;
    open.delete(told.frame);
    stay = undefined;
  }
  if (to !== null) {
    if (!stay) {
      stay = begin(told, to, told.to, told.line);
      open.set(told.frame, stay);
    }
    stay.parts.push(part(told.to, told.line));
  }
  if (changes.has(told.frame)) changes.get(told.frame).push(told);
  else changes.set(told.frame, [told]);
}

function readPhase(told) {
  concern(told.vm, null);
  const of = vm(told.vm);
  if (told.phase === "booting") {
    life(of, told.line);
    return;
  }
  const now = lastLife(of);
  if (told.phase === "empty") now.cleared = told.line;
  else {
    now[told.phase] = told.line;
    now.images = told.images;
    now.launch = told.measured ?? null;
  }
}

function readAccess(told, open) {
  concern(told.vm, null);
  const of = vm(told.vm);
  told.stay = open.get(told.frame) ?? null;
  of.accesses.push(told);
  lastLife(of)[told.call === "hread" ? "reads" : "writes"]++;
}

function readRefusal(told, open) {
  const owner = vmOf(told.owner);
  concern(told.slot, owner);
  told.stay = owner === null ? null : open.get(told.frame) ?? null;
  refusals.push(told);
  for (const number of new Set([told.slot, owner])) {
    if (number !== null && number < head.slots) vm(number).refusals.push(told);
  }
  if (owner === null) return;
  // (of a life that is under way in the state that the calls begin in there may be no other line yet)
  const of = vm(owner), now = of.lives[of.lives.length - 1] ?? of;
  now.aimed++;
}
"##;
