//! What is written of a replay: its replies, alone or with its calls, or the core that it leaves.
ghost use Rattle.std.specs.Prelude.{◌≡◌, ◌≤◌, ◌⊎◌, false, is_err, vec_capacity, IfErr, IfOk, OnOk, OnErr};
ghost use Rattle.std.specs.Io.KnownBytes.{Appends};
ghost use Rattle.kc_trace.specs.ReplyText.{reply_text_of};
ghost use Rattle.kc_trace.specs.AnswerText.{answer_text_of};
ghost use Rattle.kc_dump_text.specs.DumpText.{dump_text};
ghost use Rattle.kc_snapshot.specs.Dumping.{dump_of};
ghost use Rattle.kc_state_text.specs.StateText.{placed_state_text};
ghost use Rattle.kc_state_text.specs.Pieces.{longest_page_line, to_come};
ghost use Rattle.kc_texts.specs.Written.{AppendsBeginning};
ghost use Rattle.kc_faults.specs.Outcomes.{TellsSink};
ghost use Rattle.kc_cli.specs.Engine.{written_text};

use crate::order::ReplayOrder;
use kc_core::KCore;
use kc_digests::Lanes;
use kc_dump_text::write_dump;
use kc_faults::TextFault;
use kc_remarks::Answered;
use kc_snapshot::dump;
use kc_state_text::StatePieces;
use kc_texts::{Failed, ReplayForm, Sink, empty_piece, give_replies, write_whole};
use kc_trace::Position;
use kc_types::{Call, Memory, Reply, SecretBytes};
use std::alloc::Global;
use std::thread::Threads;

/// What came of a trace that was replayed.
#[derive(Drop)]
pub(crate) struct Replayed {
    /// The calls, if they are written too.
    pub calls: Vec<Call>,
    pub replies: Vec<Reply>,
    /// How the calls were answered.
    pub answered: Answered,
    /// The core that it leaves.
    pub core: KCore,
    /// Where the next volume comes, if that was asked for and the trace has a head.
    pub next: Option<Position>,
}

/// Gives the text of replies.
fn give_text<K: Sink>(alloc: Global, replies: Vec<Reply>, out: &mut K) -> Result<(), TextFault>
    requires { K.failed out.old ≡ false }
    ensures ok { OnOk result (Appends (K.taken out.old) (K.taken out.new) (reply_text_of replies.items)) }
    ensures sink { TellsSink (K.failed out.new)
        (AppendsBeginning (K.taken out.old) (K.taken out.new) (reply_text_of replies.items))
        (out.new ≡ out.old) result }
    ensures fault { IfErr result (λ fault. (fault ≡ TextFault.Memory) ⊎ (fault ≡ TextFault.Write)) }
{
    // All memory that writing takes is there before the first byte is written.
    let Ok(piece) = empty_piece(alloc) else {
        return Err(TextFault::Memory);
    };
    match give_replies(out, piece, replies) {
        Ok(()) => Ok(()),
        Err(_) => Err(TextFault::Write),
    }
}

/// Gives the lines of calls with their replies.
fn give_answers<K: Sink>(
    alloc: Global,
    calls: &[Call],
    replies: &[Reply],
    out: &mut K,
) -> Result<(), TextFault>
    requires { K.failed out.old ≡ false }
    ensures ok { OnOk result (Appends (K.taken out.old) (K.taken out.new) (answer_text_of calls.now replies.now)) }
    ensures sink { TellsSink (K.failed out.new)
        (AppendsBeginning (K.taken out.old) (K.taken out.new) (answer_text_of calls.now replies.now))
        (out.new ≡ out.old) result }
    ensures fault { IfErr result (λ fault. (fault ≡ TextFault.Memory) ⊎ (fault ≡ TextFault.Write)) }
{
    let Ok(piece) = empty_piece(alloc) else {
        return Err(TextFault::Memory);
    };
    match kc_texts::give_answers(out, piece, calls, replies) {
        Ok(()) => Ok(()),
        Err(_) => Err(TextFault::Write),
    }
}

/// The text of a core's dump.
fn text_of(
    rt: &(impl Threads + Sync),
    alloc: Global,
    core: &KCore,
    lanes: Lanes,
) -> Result<Vec<u8>, Memory>
    ensures { IfOk result (λ text. text.items ≡ dump_text (dump_of core.now.state)) }
{
    let dumped = dump(rt, alloc, core, lanes)?;
    write_dump(alloc, &dumped)
}

/// Gives the text of a core's dump.
fn give_dump<K: Sink>(
    rt: &(impl Threads + Sync),
    alloc: Global,
    core: &KCore,
    lanes: Lanes,
    out: &mut K,
) -> Result<(), TextFault>
    requires { K.failed out.old ≡ false }
    ensures ok { OnOk result (Appends (K.taken out.old) (K.taken out.new) (dump_text (dump_of core.now.state))) }
    ensures sink { TellsSink (K.failed out.new)
        (AppendsBeginning (K.taken out.old) (K.taken out.new) (dump_text (dump_of core.now.state)))
        (out.new ≡ out.old) result }
    ensures fault { IfErr result (λ fault. (fault ≡ TextFault.Memory) ⊎ (fault ≡ TextFault.Write)) }
{
    let Ok(text) = text_of(rt, alloc, core, lanes) else {
        return Err(TextFault::Memory);
    };
    match write_whole(out, &text) {
        Ok(()) => Ok(()),
        Err(_) => Err(TextFault::Write),
    }
}

/// Gives what is left of a core's text to a sink, a piece at a time. After an `Err` it has taken a beginning of it.
fn give_pieces<K: Sink>(
    core: &KCore,
    pieces: StatePieces,
    piece: &mut Vec<u8>,
    out: &mut K,
) -> Result<(), Failed>
    requires room { longest_page_line ≤ vec_capacity piece.old }
    requires out { K.failed out.old ≡ false }
    ensures ok { OnOk result (Appends (K.taken out.old) (K.taken out.new) (to_come core.now.state pieces)) }
    ensures begun { OnErr result (AppendsBeginning (K.taken out.old) (K.taken out.new) (to_come core.now.state pieces)) }
    ensures mark { K.failed out.new ≡ is_err result }
{
    let mut pieces = pieces;
    'pieces: loop {
        pieces.fill(core, piece);
        if piece.is_empty() {
            return Ok(());
        }
        write_whole(out, piece)?;
    }
}

/// Gives the text of a core's state, which says where the next volume comes if that is known, a piece at a time. The
/// memory of a piece is wiped.
fn give_state<K: Sink>(
    rt: &(impl Threads + Sync),
    alloc: Global,
    core: &KCore,
    next: Option<Position>,
    lanes: Lanes,
    out: &mut K,
) -> Result<(), TextFault>
    requires { K.failed out.old ≡ false }
    ensures ok { OnOk result (Appends (K.taken out.old) (K.taken out.new) (placed_state_text next core.now.state)) }
    ensures sink { TellsSink (K.failed out.new)
        (AppendsBeginning (K.taken out.old) (K.taken out.new) (placed_state_text next core.now.state)) (out.new ≡ out.old) result }
    ensures fault { IfErr result (λ fault. (fault ≡ TextFault.Memory) ⊎ (fault ≡ TextFault.Write)) }
{
    // All memory that writing takes is there before the first byte is written.
    let Ok(pieces) = StatePieces::new(rt, alloc, core, next, lanes) else {
        return Err(TextFault::Memory);
    };
    let Ok(mut piece) = empty_piece(alloc) else {
        return Err(TextFault::Memory);
    };
    let given = give_pieces(core, pieces, &mut piece, out);
    let _zeroed = SecretBytes::new(piece);
    match given {
        Ok(()) => Ok(()),
        Err(_) => Err(TextFault::Write),
    }
}

/// Gives what is wanted of calls, their replies, and the core after them, with where the next volume comes.
fn give_wanted<K: Sink>(
    rt: &(impl Threads + Sync),
    alloc: Global,
    calls: Vec<Call>,
    replies: Vec<Reply>,
    core: &KCore,
    next: Option<Position>,
    order: ReplayOrder,
    out: &mut K,
) -> Result<(), TextFault>
    requires { K.failed out.old ≡ false }
    ensures ok { OnOk result
        (Appends (K.taken out.old) (K.taken out.new) (written_text order.form calls.items replies.items next core.now.state)) }
    ensures sink { TellsSink (K.failed out.new) (AppendsBeginning (K.taken out.old) (K.taken out.new)
        (written_text order.form calls.items replies.items next core.now.state)) (out.new ≡ out.old) result }
    ensures fault { IfErr result (λ fault. (fault ≡ TextFault.Memory) ⊎ (fault ≡ TextFault.Write)) }
{
    match order.form {
        ReplayForm::Replies => give_text(alloc, replies, out),
        ReplayForm::Lines => give_answers(alloc, &calls, &replies, out),
        ReplayForm::Dump => give_dump(rt, alloc, core, order.lanes, out),
        ReplayForm::State => give_state(rt, alloc, core, next, order.lanes, out),
    }
}

/// Gives what is wanted of a replay. Its core is wiped before it goes, whatever the outcome.
pub(crate) fn give_replayed<K: Sink>(
    rt: &(impl Threads + Sync),
    alloc: Global,
    made: Replayed,
    order: ReplayOrder,
    out: &mut K,
) -> Result<(), TextFault>
    requires { K.failed out.old ≡ false }
    ensures ok { OnOk result (Appends (K.taken out.old) (K.taken out.new)
        (written_text order.form made.calls.items made.replies.items made.next made.core.state)) }
    ensures sink { TellsSink (K.failed out.new) (AppendsBeginning (K.taken out.old) (K.taken out.new)
        (written_text order.form made.calls.items made.replies.items made.next made.core.state)) (out.new ≡ out.old) result }
    ensures fault { IfErr result (λ fault. (fault ≡ TextFault.Memory) ⊎ (fault ≡ TextFault.Write)) }
{
    let Replayed {
        calls,
        replies,
        answered: _,
        core,
        next,
    } = made;
    let mut core = core;
    let given = give_wanted(rt, alloc, calls, replies, &core, next, order, out);
    core.wipe(rt);
    given
}
