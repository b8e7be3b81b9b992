//! Giving text to a sink: whole, or in lines, a piece at a time.
ghost use Rattle.std.specs.Prelude.{◌≡◌, ◌≤◌, ◌+◌, ◌++◌, [], false, ℕ, List, vec_len, vec_capacity, is_err, IfOk, OnOk, OnErr};
ghost use Rattle.std.specs.List.{flat_map};
ghost use Rattle.std.specs.Io.KnownBytes.{Appends};
ghost use Rattle.kc_trace.specs.AnswerText.{answer_text_of, longest_answer};
ghost use Rattle.kc_trace.specs.CustodyText.{AreInLine, placed_text};
ghost use Rattle.kc_trace.specs.ReplyText.{reply_text_of};
ghost use Rattle.kc_trace.specs.Spelling.{trace_of, longest_call};
ghost use Rattle.kc_texts.specs.Written.{AppendsBeginning, longest_placed};

use crate::line::Line;
use crate::placed::{LONGEST_PLACED, Placed, push_placed};
use crate::source::{Failed, PIECE, Sink};
use kc_trace::{LONGEST_ANSWER, LONGEST_CALL, VolumeEntry, header_of, push_answer, push_header};
use kc_types::{Call, Memory, Reply};
use std::alloc::Global;

/// Gives all bytes to a sink. After an `Err` it has taken a beginning of them.
pub fn write_whole<S: Sink>(sink: &mut S, bytes: &[u8]) -> Result<(), Failed>
    requires { S.failed sink.old ≡ false }
    ensures ok { OnOk result (Appends (S.taken sink.old) (S.taken sink.new) bytes.now) }
    ensures begun { OnErr result (AppendsBeginning (S.taken sink.old) (S.taken sink.new) bytes.now) }
    ensures mark { S.failed sink.new ≡ is_err result }
{
    let mut rest = bytes;
    while !rest.is_empty() {
        let n = sink.write(rest)?;
        (_, rest) = rest.split_at(n);
    }
    Ok(())
}

/// Makes an empty piece, which has room for 65,536 bytes: for many of the longest lines.
pub fn empty_piece(alloc: Global) -> Result<Vec<u8>, Memory>
    ensures empty { IfOk result (λ piece. piece.items ≡ []) }
    ensures room { IfOk result (λ piece. longest_call ≤ vec_capacity piece) }
    ensures placed { IfOk result (λ piece. longest_placed ≤ vec_capacity piece) }
    ensures answers { IfOk result (λ piece. longest_answer ≤ vec_capacity piece) }
{
    Ok(Vec::with_capacity(alloc, PIECE)?)
}

/// How lines are written.
trait Way<L> {
    /// What is written of a line.
    ghost written: { Self → L → List ℕ };

    /// At least as many bytes as are written of a line.
    ghost most: { Self → ℕ };

    /// At least as many bytes as are written of a line.
    fn most(&self) -> usize
        ensures { result ≡ most self.now };

    /// Appends what is written of a line, for which there is room: memory does not grow.
    fn push(&self, text: &mut Vec<u8>, line: &L)
        requires { vec_len text.old + most self.now ≤ vec_capacity text.old }
        ensures line { text.new.items ≡ text.old.items ++ written self.now line.now }
        ensures capacity { vec_capacity text.old ≤ vec_capacity text.new };
}

/// Each line as it is.
struct Plain;

impl<L: Line> Way<L> for Plain {
    ghost written = { λ way line. L.line line };

    ghost most = { λ way. longest_call };

    fn most(&self) -> usize {
        LONGEST_CALL
    }

    fn push(&self, text: &mut Vec<u8>, line: &L) {
        line.push(text);
    }
}

/// Each line with the number of its volume first, if there are volumes.
#[derive(Drop)]
struct InVolumes<'a> {
    volumes: &'a [VolumeEntry],
    ghost in_line: { AreInLine volumes.now },
}

impl<'a, L: Placed> Way<L> for InVolumes<'a> {
    ghost written = { λ way line. placed_text way.volumes.now (L.place line) (L.line line) };

    ghost most = { λ way. longest_placed };

    fn most(&self) -> usize {
        LONGEST_PLACED
    }

    fn push(&self, text: &mut Vec<u8>, line: &L) {
        push_placed(text, line, self.volumes);
    }
}

/// Gives a sink what the piece holds and then some lines, each written in this way, in pieces as large as that piece
/// has room for.
fn give_by<K: Sink, L: Drop, W: Way<L>>(
    out: &mut K,
    mut piece: Vec<u8>,
    lines: Vec<L>,
    way: &W,
) -> Result<(), Failed>
    requires out { K.failed out.old ≡ false }
    requires room { W.most way.now ≤ vec_capacity piece }
    ensures ok { OnOk result
        (Appends (K.taken out.old) (K.taken out.new) (piece.items ++ flat_map (W.written way.now) lines.items)) }
    ensures begun { OnErr result
        (AppendsBeginning (K.taken out.old) (K.taken out.new) (piece.items ++ flat_map (W.written way.now) lines.items)) }
    ensures mark { K.failed out.new ≡ is_err result }
{
    for line in lines {
        if piece.capacity() - piece.len() < way.most() {
            write_whole(out, &piece)?;
            piece.clear();
        }
        way.push(&mut piece, &line);
    }
    write_whole(out, &piece)
}

/// Gives a sink what the piece holds and then some lines, in pieces as large as that piece has room for: memory does
/// not grow. Each line's owner is dropped once its line is in a piece, while its bytes are still in the cache. After an
/// `Err` the sink has taken a beginning of it.
pub fn give_lines<K: Sink, L: Line + Drop>(
    out: &mut K,
    piece: Vec<u8>,
    lines: Vec<L>,
) -> Result<(), Failed>
    requires out { K.failed out.old ≡ false }
    requires room { longest_call ≤ vec_capacity piece }
    ensures ok { OnOk result
        (Appends (K.taken out.old) (K.taken out.new) (piece.items ++ flat_map L.line lines.items)) }
    ensures begun { OnErr result
        (AppendsBeginning (K.taken out.old) (K.taken out.new) (piece.items ++ flat_map L.line lines.items)) }
    ensures mark { K.failed out.new ≡ is_err result }
{
    give_by(out, piece, lines, &Plain)
}

/// Gives a sink what `give_lines` gives, but each line with the number of its volume first, if there are volumes. After
/// an `Err` the sink has taken a beginning of it.
pub fn give_placed<K: Sink, L: Placed + Drop>(
    out: &mut K,
    piece: Vec<u8>,
    lines: Vec<L>,
    volumes: &[VolumeEntry],
) -> Result<(), Failed>
    requires out { K.failed out.old ≡ false }
    requires room { longest_placed ≤ vec_capacity piece }
    requires order { AreInLine volumes.now }
    ensures ok { OnOk result (Appends (K.taken out.old) (K.taken out.new)
        (piece.items ++ flat_map (λ x. placed_text volumes.now (L.place x) (L.line x)) lines.items)) }
    ensures begun { OnErr result (AppendsBeginning (K.taken out.old) (K.taken out.new)
        (piece.items ++ flat_map (λ x. placed_text volumes.now (L.place x) (L.line x)) lines.items)) }
    ensures mark { K.failed out.new ≡ is_err result }
{
    give_by(out, piece, lines, &InVolumes { volumes })
}

/// Gives the text of some replies to a sink, in pieces as large as the empty buffer has room for: memory does not
/// grow. After an `Err` the sink has taken a beginning of the text.
pub fn give_replies<K: Sink>(out: &mut K, piece: Vec<u8>, replies: Vec<Reply>) -> Result<(), Failed>
    requires out { K.failed out.old ≡ false }
    requires empty { piece.items ≡ [] }
    requires room { longest_call ≤ vec_capacity piece }
    ensures ok { OnOk result (Appends (K.taken out.old) (K.taken out.new) (reply_text_of replies.items)) }
    ensures begun { OnErr result (AppendsBeginning (K.taken out.old) (K.taken out.new) (reply_text_of replies.items)) }
    ensures mark { K.failed out.new ≡ is_err result }
{
    give_lines(out, piece, replies)
}

/// Gives the trace of some calls to a sink, in pieces as large as the empty buffer has room for: memory does not
/// grow. After an `Err` the sink has taken a beginning of it.
pub fn give_trace<K: Sink>(out: &mut K, mut piece: Vec<u8>, calls: Vec<Call>) -> Result<(), Failed>
    requires out { K.failed out.old ≡ false }
    requires empty { piece.items ≡ [] }
    requires room { longest_call ≤ vec_capacity piece }
    ensures ok { OnOk result (Appends (K.taken out.old) (K.taken out.new) (trace_of calls.items)) }
    ensures begun { OnErr result (AppendsBeginning (K.taken out.old) (K.taken out.new) (trace_of calls.items)) }
    ensures mark { K.failed out.new ≡ is_err result }
{
    push_header(&mut piece, &header_of(&calls));
    give_lines(out, piece, calls)
}

/// The line of a trace's first call: its header is line 1.
const FIRST_LINE: usize = 2;

/// Gives the lines of a trace's calls with their replies to a sink, in pieces as large as the empty buffer has room
/// for: memory does not grow. After an `Err` the sink has taken a beginning of them.
pub fn give_answers<K: Sink>(
    out: &mut K,
    mut piece: Vec<u8>,
    calls: &[Call],
    replies: &[Reply],
) -> Result<(), Failed>
    requires out { K.failed out.old ≡ false }
    requires empty { piece.items ≡ [] }
    requires room { longest_answer ≤ vec_capacity piece }
    ensures ok { OnOk result (Appends (K.taken out.old) (K.taken out.new) (answer_text_of calls.now replies.now)) }
    ensures begun { OnErr result (AppendsBeginning (K.taken out.old) (K.taken out.new) (answer_text_of calls.now replies.now)) }
    ensures mark { K.failed out.new ≡ is_err result }
{
    let count = calls.len().min(replies.len());
    for i in 0..count {
        if piece.capacity() - piece.len() < LONGEST_ANSWER {
            write_whole(out, &piece)?;
            piece.clear();
        }
        push_answer(&mut piece, FIRST_LINE + i, &calls[i], &replies[i]);
    }
    write_whole(out, &piece)
}
