//! The lines of the calls of several volumes with their replies, and what comes before them.
ghost use Rattle.std.specs.Prelude.{◌≡◌, ◌≤◌, ◌<◌, ◌+◌, ◌^◌, ◌++◌, ◌⊎◌, length, false, is_err, vec_len, vec_capacity, IfErr, IfOk, OnOk, OnErr};
ghost use Rattle.std.specs.Io.KnownBytes.{Appends};
ghost use Rattle.kc_model.specs.Custody.{first_line};
ghost use Rattle.kc_trace.specs.AnswerText.{answer_line};
ghost use Rattle.kc_trace.specs.CustodyText.{AreInLine, placed_text, volumes_text};
ghost use Rattle.kc_texts.specs.Written.{AppendsBeginning};
ghost use Rattle.kc_faults.specs.Outcomes.{TellsSink};
ghost use Rattle.kc_cli.specs.Lines.{replies_line, placed_answers, longest_placed_answer, lines_text};

use crate::account::FIRST_LINE;
use crate::lined::written;
use crate::sequence::chain_of;
use kc_faults::TextFault;
use kc_texts::{Failed, PIECE, Sink, write_whole};
use kc_trace::{
    Chain, Heading, LONGEST_ANSWER, LONGEST_CHANGE, LONGEST_PLACE, VolumeEntry, push_answer,
    push_custody_header, push_place, push_volumes, volume_of,
};
use kc_types::{Call, Config, Memory, Reply};
use std::alloc::Global;

/// The most bytes that the line of a call and its reply has with the number of its volume.
const LONGEST_PLACED: usize = LONGEST_ANSWER + LONGEST_PLACE;

/// What the first line of custody begins with, and what that of replies begins with in its place.
const CUSTODY_KEY: &[u8] = b"{\"custody\":";

const REPLIES_KEY: &[u8] = b"{\"replies\":";

/// Appends the line of a call and its reply, with the number of its volume first, for which there is room: memory does
/// not grow. If there are no volumes, it is the line alone.
fn push_placed(text: &mut Vec<u8>, line: u32, call: &Call, reply: &Reply, volumes: &[VolumeEntry])
    requires room { vec_len text.old + longest_placed_answer ≤ vec_capacity text.old }
    requires order { AreInLine volumes.now }
    ensures line { text.new.items ≡ text.old.items ++ placed_text volumes.now line (answer_line line call.now reply.now) }
    ensures capacity { vec_capacity text.old ≤ vec_capacity text.new }
{
    if volumes.is_empty() {
        push_answer(text, line as usize, call, reply);
        return;
    }
    push_place(text, volume_of(volumes, line));
    let start = text.len();
    push_answer(text, line as usize, call, reply);
    // The line is an object: the comma takes the place of its opening brace.
    text[start] = b',';
}

/// Gives a sink what the piece holds and then the lines of calls with their replies, each with the number of its volume
/// first, in pieces as large as that piece has room for: memory does not grow. After an `Err` the sink has taken a
/// beginning of it.
fn give_placed<K: Sink>(
    out: &mut K,
    mut piece: Vec<u8>,
    calls: &[Call],
    replies: &[Reply],
    volumes: &[VolumeEntry],
) -> Result<(), Failed>
    requires out { K.failed out.old ≡ false }
    requires room { longest_placed_answer ≤ vec_capacity piece }
    requires order { AreInLine volumes.now }
    requires few { length calls.now + first_line < 2 ^ 32 }
    ensures ok { OnOk result (Appends (K.taken out.old) (K.taken out.new)
        (piece.items ++ placed_answers volumes.now calls.now replies.now)) }
    ensures begun { OnErr result (AppendsBeginning (K.taken out.old) (K.taken out.new)
        (piece.items ++ placed_answers volumes.now calls.now replies.now)) }
    ensures mark { K.failed out.new ≡ is_err result }
{
    let count = calls.len().min(replies.len());
    for i in 0..count {
        if piece.capacity() - piece.len() < LONGEST_PLACED {
            write_whole(out, &piece)?;
            piece.clear();
        }
        push_placed(
            &mut piece,
            FIRST_LINE + i as u32,
            &calls[i],
            &replies[i],
            volumes,
        );
    }
    write_whole(out, &piece)
}

/// Makes what comes before the lines of calls, with room for such a line: the first line is that of custody under
/// another name.
fn front_of(
    alloc: Global,
    chain: Chain,
    config: &Config,
    volumes: &[VolumeEntry],
) -> Result<Vec<u8>, Memory>
    ensures front { IfOk result (λ piece. piece.items ≡ replies_line chain config.now ++ volumes_text volumes.now) }
    ensures room { IfOk result (λ piece. longest_placed_answer ≤ vec_capacity piece) }
{
    let heading = Heading {
        digests: None,
        is_unseen: false,
        chain,
    };
    let mut line = Vec::with_capacity(alloc, LONGEST_CHANGE)?;
    push_custody_header(&mut line, &heading, config);
    let mut piece = Vec::with_capacity(alloc, PIECE)?;
    piece.extend_from_slice(REPLIES_KEY)?;
    piece.extend_from_slice(&line[CUSTODY_KEY.len()..])?;
    push_volumes(&mut piece, volumes)?;
    Ok(piece)
}

/// Gives the lines of the calls of some volumes with their replies, with what comes before them.
pub(crate) fn give_volumes<K: Sink>(
    alloc: Global,
    config: &Config,
    entries: Vec<VolumeEntry>,
    calls: &[Call],
    replies: &[Reply],
    out: &mut K,
) -> Result<(), TextFault>
    requires out { K.failed out.old ≡ false }
    requires order { AreInLine entries.items }
    requires entries { length entries.items < 2 ^ 32 }
    requires calls { length calls.now + first_line < 2 ^ 32 }
    ensures ok { OnOk result (Appends (K.taken out.old) (K.taken out.new)
        (lines_text config.now entries.items calls.now replies.now)) }
    ensures sink { TellsSink (K.failed out.new) (AppendsBeginning (K.taken out.old) (K.taken out.new)
        (lines_text config.now entries.items calls.now replies.now)) (out.new ≡ out.old) result }
    ensures fault { IfErr result (λ fault. (fault ≡ TextFault.Memory) ⊎ (fault ≡ TextFault.Write)) }
{
    let (chain, volumes) = chain_of(alloc, entries);
    // All memory that writing takes is there before the first byte is written.
    let Ok(front) = front_of(alloc, chain, config, volumes.as_slice()) else {
        return Err(TextFault::Memory);
    };
    written(give_placed(out, front, calls, replies, volumes.as_slice()))
}
