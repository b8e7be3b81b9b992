//! Custody as lines, alone or in a page for a browser: what is around them, and how they are given to a sink.
ghost use Rattle.std.specs.Prelude.{◌≡◌, ◌≤◌, ◌++◌, ◌⊎◌, false, is_err, vec_capacity, IfOk, IfErr, OnOk, OnErr};
ghost use Rattle.std.specs.List.{flat_map};
ghost use Rattle.std.specs.Io.KnownBytes.{Appends};
ghost use Rattle.kc_html.specs.Html.{html_text_of};
ghost use Rattle.kc_trace.specs.CustodyText.{header_line, volumes_text, end_line, AreInLine};
ghost use Rattle.kc_texts.specs.Written.{AppendsBeginning, longest_placed};
ghost use Rattle.kc_faults.specs.Outcomes.{TellsSink};
ghost use Rattle.kc_cli.specs.Ledgers.{framed_text, lined_text, viewed, written};

use crate::account::Subject;
use kc_faults::TextFault;
use kc_html::{HEAD, TAIL};
use kc_texts::{Failed, Placed, Sink, empty_piece, give_placed, write_whole};
use kc_trace::{VolumeEntry, push_custody_end, push_custody_header, push_volumes};
use kc_types::Memory;
use std::alloc::Global;

/// How the lines of custody are given.
#[derive(Clone, Copy)]
pub(crate) enum View {
    /// As a text.
    Text,
    /// As that text in a page for a browser.
    Page,
}

/// What is around the lines of custody.
#[derive(Drop)]
struct Frame {
    /// What comes before them, with room for a line.
    piece: Vec<u8>,
    /// The last line.
    end: Vec<u8>,
}

/// Makes what comes before and after this number of lines of custody. All memory that writing takes is allocated before
/// the first byte is written.
fn frame_of(alloc: Global, subject: &Subject, lines: usize) -> Result<Frame, Memory>
    ensures piece { IfOk result (λ frame. frame.piece.items
        ≡ header_line subject.now.heading subject.now.config ++ volumes_text subject.now.volumes.items) }
    ensures end { IfOk result (λ frame. frame.end.items
        ≡ end_line subject.now.answered.calls lines subject.now.answered.denials.total) }
    ensures room { IfOk result (λ frame. longest_placed ≤ vec_capacity frame.piece) }
{
    let mut piece = empty_piece(alloc)?;
    let mut end = empty_piece(alloc)?;
    push_custody_header(&mut piece, &subject.heading, &subject.config);
    push_volumes(&mut piece, subject.volumes.as_slice())?;
    push_custody_end(
        &mut end,
        subject.answered.calls,
        lines,
        subject.answered.denials.total as usize,
    );
    Ok(Frame { piece, end })
}

/// Gives a sink some lines, each with its volume, and what is around them: memory does not grow. After an `Err` the
/// sink has taken a beginning of it.
fn give_text<K: Sink, L: Placed + Drop>(
    out: &mut K,
    frame: Frame,
    volumes: &[VolumeEntry],
    lines: Vec<L>,
) -> Result<(), Failed>
    requires out { K.failed out.old ≡ false }
    requires room { longest_placed ≤ vec_capacity frame.piece }
    requires order { AreInLine volumes.now }
    ensures ok { OnOk result (Appends (K.taken out.old) (K.taken out.new)
        (framed_text L.place L.line frame.piece.items volumes.now lines.items frame.end.items)) }
    ensures begun { OnErr result (AppendsBeginning (K.taken out.old) (K.taken out.new)
        (framed_text L.place L.line frame.piece.items volumes.now lines.items frame.end.items)) }
    ensures mark { K.failed out.new ≡ is_err result }
{
    let Frame { piece, end } = frame;
    give_placed(out, piece, lines, volumes)?;
    write_whole(out, &end)
}

/// The fault of a write that failed.
pub(crate) fn written(given: Result<(), Failed>) -> Result<(), TextFault>
    ensures { result ≡ written given }
{
    match given {
        Ok(()) => Ok(()),
        Err(_) => Err(TextFault::Write),
    }
}

/// Gives a sink the parts of a text. After an `Err` the sink has taken a beginning of it.
fn give_parts<K: Sink>(out: &mut K, parts: &[&str]) -> Result<(), Failed>
    requires { K.failed out.old ≡ false }
    ensures ok { OnOk result
        (Appends (K.taken out.old) (K.taken out.new) (flat_map (λ part. part.now) parts.now)) }
    ensures begun { OnErr result
        (AppendsBeginning (K.taken out.old) (K.taken out.new) (flat_map (λ part. part.now) parts.now)) }
    ensures mark { K.failed out.new ≡ is_err result }
{
    for part in parts {
        write_whole(out, part.as_bytes())?;
    }
    Ok(())
}

/// Gives a sink the text that `give_text` gives, in a page for a browser. After an `Err` the sink has taken a beginning
/// of it.
fn give_page<K: Sink, L: Placed + Drop>(
    out: &mut K,
    frame: Frame,
    volumes: &[VolumeEntry],
    lines: Vec<L>,
) -> Result<(), Failed>
    requires out { K.failed out.old ≡ false }
    requires room { longest_placed ≤ vec_capacity frame.piece }
    requires order { AreInLine volumes.now }
    ensures ok { OnOk result (Appends (K.taken out.old) (K.taken out.new) (html_text_of
        (framed_text L.place L.line frame.piece.items volumes.now lines.items frame.end.items))) }
    ensures begun { OnErr result (AppendsBeginning (K.taken out.old) (K.taken out.new) (html_text_of
        (framed_text L.place L.line frame.piece.items volumes.now lines.items frame.end.items))) }
    ensures mark { K.failed out.new ≡ is_err result }
{
    write_whole(out, HEAD.as_bytes())?;
    give_text(out, frame, volumes, lines)?;
    give_parts(out, &TAIL)
}

/// Gives these lines, with what is around them.
pub(crate) fn give_lines<K: Sink, L: Placed + Drop>(
    alloc: Global,
    subject: &Subject,
    lines: Vec<L>,
    view: View,
    out: &mut K,
) -> Result<(), TextFault>
    requires out { K.failed out.old ≡ false }
    requires order { AreInLine subject.now.volumes.items }
    ensures ok { OnOk result (Appends (K.taken out.old) (K.taken out.new)
        (viewed view (lined_text L.place L.line subject.now lines.items))) }
    ensures sink { TellsSink (K.failed out.new) (AppendsBeginning (K.taken out.old) (K.taken out.new)
        (viewed view (lined_text L.place L.line subject.now lines.items))) (out.new ≡ out.old) result }
    ensures fault { IfErr result (λ fault. (fault ≡ TextFault.Memory) ⊎ (fault ≡ TextFault.Write)) }
{
    let Ok(frame) = frame_of(alloc, subject, lines.len()) else {
        return Err(TextFault::Memory);
    };
    let volumes = subject.volumes.as_slice();
    match view {
        View::Text => written(give_text(out, frame, volumes, lines)),
        View::Page => written(give_page(out, frame, volumes, lines)),
    }
}

/// Gives a text that was made whole.
pub(crate) fn give_whole<K: Sink>(text: &[u8], out: &mut K) -> Result<(), TextFault>
    requires { K.failed out.old ≡ false }
    ensures ok { OnOk result (Appends (K.taken out.old) (K.taken out.new) text.now) }
    ensures sink { TellsSink (K.failed out.new) (AppendsBeginning (K.taken out.old) (K.taken out.new) text.now)
        (out.new ≡ out.old) result }
    ensures fault { IfErr result (λ fault. fault ≡ TextFault.Write) }
{
    written(write_whole(out, text))
}
