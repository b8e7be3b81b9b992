//! The marks of the picture of one VM: what each is of, where it is drawn, and what its title says.
ghost use Rattle.std.specs.Prelude.{◌≡◌, ◌++◌, IfOk, OnOk, string_bytes};
ghost use Rattle.kc_picture.specs.Marks.{mark_of, marks, line_of, denied_kind, access_kind, kind_of, frame_if_held, frame_of, reason_words, foreign_words, named_words, access_words, mark_title, kind_words, marks_title};

use crate::lane_titles::Run;
use crate::shapes::MarkKind;
use crate::titles::{push_owner, push_place};
use kc_remarks::{Access, CallKind, Denial, Denied, NamedFrame, Note, is_owned_by};
use kc_trace::call_name;
use kc_types::Memory;
use std::alloc::Global;

/// What a mark is of.
#[derive(Clone, Copy, Debug, PartialEq, Eq)]
pub enum Mark {
    /// A call that was refused or rejected.
    Denied(Denied),
    /// A read or write of the host that was served.
    Access(Access),
}

/// The mark of a note, if it has one.
fn mark_of(note: &Note) -> Option<Mark>
    ensures { result ≡ mark_of note.now }
{
    match note {
        Note::Denied(denied) => Some(Mark::Denied(*denied)),
        Note::Access(access) => Some(Mark::Access(*access)),
        Note::Event(_) => None,
    }
}

/// Makes the marks of notes, in their order. `Memory` if there was none for them.
pub fn marks_of(alloc: Global, notes: &[Note]) -> Result<Vec<Mark>, Memory>
    ensures { IfOk result (λ made. made.items ≡ marks notes.now) }
{
    let made = notes
        .iter()
        .filter_map(|note| mark_of(note))
        .collect(alloc)?;
    Ok(made)
}

/// What the mark of a call that was denied looks like.
fn denied_kind(reason: Denial) -> MarkKind
    ensures { result ≡ denied_kind reason }
{
    match reason {
        Denial::Refused(_) => MarkKind::Refused,
        Denial::Rejected(_) => MarkKind::Rejected,
    }
}

/// What the mark of an access looks like.
fn access_kind(call: CallKind) -> MarkKind
    ensures { result ≡ access_kind call }
{
    match call {
        CallKind::HostWrite => MarkKind::Write,
        _ => MarkKind::Read,
    }
}

/// The frame that a call names, if it is the VM's in this slot.
fn frame_if_held(named: Option<NamedFrame>, vm: u32) -> Option<u32>
    ensures { result ≡ frame_if_held vm named }
{
    match named {
        Some(named) if is_owned_by(named.owner, vm) => Some(named.frame),
        _ => None,
    }
}

impl Mark {
    /// The line of its call.
    pub(crate) fn line(self) -> u32
        ensures { result ≡ line_of self }
    {
        match self {
            Mark::Denied(denied) => denied.line,
            Mark::Access(access) => access.line,
        }
    }

    /// What it looks like.
    pub(crate) fn kind(self) -> MarkKind
        ensures { result ≡ kind_of self }
    {
        match self {
            Mark::Denied(denied) => denied_kind(denied.reason),
            Mark::Access(access) => access_kind(access.call),
        }
    }

    /// The frame in whose row it is drawn, if it is at a frame of the VM's in this slot.
    pub(crate) fn frame(self, vm: u32) -> Option<u32>
        ensures { result ≡ frame_of vm self }
    {
        match self {
            Mark::Denied(denied) => frame_if_held(denied.named, vm),
            Mark::Access(access) => Some(access.frame),
        }
    }
}

/// Appends why a call was denied.
fn push_reason(words: &mut String, reason: Denial) -> Result<(), Memory>
    ensures { OnOk result (string_bytes words.new ≡ string_bytes words.old ++ reason_words reason) }
{
    match reason {
        Denial::Refused(refusal) => {
            words.push_str(" refused, ")?;
            words.push_str(refusal.name())?;
        },
        Denial::Rejected(image) => write!(words, " rejected, image {image}")?,
    }
    Ok(())
}

/// Appends the number of a frame of another VM, if a call names one.
fn push_foreign(words: &mut String, foreign: Option<u32>) -> Result<(), Memory>
    ensures { OnOk result (string_bytes words.new ≡ string_bytes words.old ++ foreign_words foreign) }
{
    if let Some(frame) = foreign {
        write!(words, ": frame {frame}")?;
    }
    Ok(())
}

/// Appends the frame that a call names, if there is one.
fn push_named(
    words: &mut String,
    foreign: Option<u32>,
    named: Option<NamedFrame>,
) -> Result<(), Memory>
    ensures { OnOk result (string_bytes words.new ≡ string_bytes words.old ++ named_words foreign named) }
{
    let Some(named) = named else {
        return push_foreign(words, foreign);
    };
    let frame = named.frame;
    write!(words, ": frame {frame}, ")?;
    push_owner(words, named.owner, named.gfn)
}

/// The title of a call that was denied.
fn denied_title(alloc: Global, denied: &Denied) -> Result<String, Memory>
    ensures { IfOk result (λ title. string_bytes title ≡ mark_title (Mark.Denied denied.now)) }
{
    let (line, name) = (denied.line, call_name(denied.call));
    let mut title = format!(in alloc; "line {line}: {name}")?;
    push_reason(&mut title, denied.reason)?;
    push_named(&mut title, denied.foreign, denied.named)?;
    Ok(title)
}

/// Spells which bytes of which frame were accessed, and by which call.
fn access_words(alloc: Global, access: &Access) -> Result<String, Memory>
    ensures { IfOk result (λ words. string_bytes words ≡ access_words access.now) }
{
    let (line, name) = (access.line, call_name(access.call));
    let (len, offset, frame) = (access.len, access.offset, access.frame);
    Ok(format!(in alloc; "line {line}: {name} of {len} bytes from byte {offset} of frame {frame}")?)
}

/// The title of an access.
fn access_title(alloc: Global, access: &Access) -> Result<String, Memory>
    ensures { IfOk result (λ title. string_bytes title ≡ mark_title (Mark.Access access.now)) }
{
    let mut title = access_words(alloc, access)?;
    push_place(&mut title, access.gfn)?;
    Ok(title)
}

/// The title of a mark: "line 25: hwrite refused, not-present: frame 3, vm 0 at guest frame 7".
pub(crate) fn mark_title(alloc: Global, mark: Mark) -> Result<String, Memory>
    ensures { IfOk result (λ title. string_bytes title ≡ mark_title mark) }
{
    match mark {
        Mark::Denied(denied) => denied_title(alloc, &denied),
        Mark::Access(access) => access_title(alloc, &access),
    }
}

/// What several marks of a kind are.
fn words_of(kind: MarkKind) -> &'static str
    ensures { result.now ≡ kind_words kind }
{
    match kind {
        MarkKind::Read => "reads",
        MarkKind::Write => "writes",
        MarkKind::Refused => "refused",
        MarkKind::Rejected => "rejected",
    }
}

/// The title of marks that are drawn as one: "12 refused, lines 17 to 40".
pub(crate) fn marks_title(alloc: Global, kind: MarkKind, run: &Run) -> Result<String, Memory>
    ensures { IfOk result (λ title. string_bytes title ≡ marks_title run.now.count kind run.now.first run.now.last) }
{
    let words = words_of(kind);
    let (count, first, last) = (run.count, run.first, run.last);
    Ok(format!(in alloc; "{count} {words}, lines {first} to {last}")?)
}
