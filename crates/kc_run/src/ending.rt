//! How the program ends: its exit status, and what it reports on the error sink.
ghost use Rattle.std.specs.Prelude.{◌≡◌, ◌≤◌, false, true, length, None, Ok};
ghost use Rattle.arrayvec.specs.ArrayString.{array_string_len};
ghost use Rattle.std.specs.Io.KnownBytes.{Appends};
ghost use Rattle.kc_texts.specs.Written.{AppendsBeginning};
ghost use Rattle.kc_remarks.specs.Denials.{is_doubted};
ghost use Rattle.kc_args.specs.Clashes.{clash_text};
ghost use Rattle.kc_run.specs.Faults.{empty_line};
ghost use Rattle.kc_run.specs.Endings.{Takes, took, status_after, fault_in, answered_in, difference_in, volume_in, warning_of, warning_line, warning_text, another_text, IsWarned, IsReported};

use arrayvec::ArrayString;
use itoa::Buffer;
use kc_args::Clash;
use kc_faults::{TextFault, tell, tell_volume};
use kc_remarks::Answered;
use kc_texts::{Sink, write_whole};
use kc_trace::TraceFault;

/// How a job ends that meets no fault.
#[derive(Clone, Copy, Debug, PartialEq, Eq)]
pub enum Ending {
    /// What was asked for is written.
    Done,
    /// The same, and this is how the trace's calls were answered.
    Answered(Answered),
    /// The same, and the state that the trace leaves is not that of the text that it was compared with, whose first
    /// line that differs has this number, from 1.
    Another { answered: Answered, line: usize },
    /// The same, and something is found in the dump.
    Unsound,
    /// The volume of this number, from 1, is refused, and nothing is written.
    Refused { volume: usize, fault: TraceFault },
    /// The boot image of this number, from 1, is empty, and nothing is written.
    EmptyImage { number: usize },
}

/// How the program ends.
#[derive(Clone, Copy, Debug, PartialEq, Eq)]
pub struct Exit {
    /// The exit status.
    pub status: u8,
    /// The fault whose line was written, if there is one.
    pub fault: Option<TextFault>,
    /// How the trace's calls were answered, if that was counted.
    pub answered: Option<Answered>,
    /// The number of the first line that differs, in the text that the state was compared with, if one does.
    pub difference: Option<usize>,
    /// The number of the volume whose fault it is, if it is that of one of several volumes.
    pub volume: Option<usize>,
}

impl Exit {
    /// Ends without a fault.
    fn with_status(status: u8) -> Exit
        ensures status { result.status ≡ status }
        ensures fault { result.fault ≡ None }
        ensures answered { result.answered ≡ None }
        ensures difference { result.difference ≡ None }
        ensures volume { result.volume ≡ None }
    {
        Exit {
            status,
            fault: None,
            answered: None,
            difference: None,
            volume: None,
        }
    }
}

/// Writes a text, of which a sink that fails may take a beginning.
fn say<L: Sink>(text: &str, err: &mut L)
    requires { L.failed err.old ≡ false }
    ensures whole { L.failed err.new ≡ false → Appends (L.taken err.old) (L.taken err.new) text.now }
    ensures begun { L.failed err.new ≡ true → AppendsBeginning (L.taken err.old) (L.taken err.new) text.now }
{
    let _ = write_whole(err, text.as_bytes());
}

/// Returns the line of a warning: so many of so many calls, and what is said of them.
fn warning_of(count: usize, all: usize, end: &str) -> ArrayString<256>
    requires { length end.now ≤ 100 }
    ensures bytes { result.bytes ≡ warning_of count all end.now }
    ensures short { array_string_len result ≤ 200 }
{
    let mut line = ArrayString::new();
    line.push_str("kcore: warning: ");
    line.push_str(Buffer::new().format(count));
    line.push_str(" of ");
    line.push_str(Buffer::new().format(all));
    line.push_str(end);
    line
}

/// Returns the warning of a trace that is probably of another machine.
fn warning_line(answered: &Answered) -> ArrayString<256>
    ensures bytes { result.bytes ≡ warning_line answered.now }
    ensures short { array_string_len result ≤ 200 }
{
    if answered.is_mostly_denied() {
        warning_of(
            answered.denials.total as usize,
            answered.calls,
            " calls were refused: is this the trace's machine?\n",
        )
    } else {
        warning_of(
            answered.denials.outside(),
            answered.naming(),
            " calls that name a frame or a slot name one that the machine lacks: is this the trace's machine?\n",
        )
    }
}

/// Returns that warning, or nothing if the trace is not doubted.
fn warning_text(answered: &Answered) -> ArrayString<256>
    ensures bytes { result.bytes ≡ warning_text answered.now }
    ensures short { array_string_len result ≤ 200 }
{
    if !answered.is_doubted() {
        return ArrayString::new();
    }
    warning_line(answered)
}

/// Returns what is reported if the state differs, after the warning.
fn another_text(answered: &Answered) -> ArrayString<256>
    ensures { result.bytes ≡ another_text answered.now }
{
    let mut text = warning_text(answered);
    text.push_str("kcore: another state\n");
    text
}

/// Returns the line of a boot image that is empty.
fn empty_line(number: usize) -> ArrayString<256>
    ensures { result.bytes ≡ empty_line number }
{
    let mut line = ArrayString::new();
    line.push_str("kcore: boot image ");
    line.push_str(Buffer::new().format(number));
    line.push_str(" is empty\n");
    line
}

/// Warns of a trace that is probably of another machine.
fn warn<L: Sink>(answered: &Answered, err: &mut L)
    requires { L.failed err.old ≡ false }
    ensures { IsWarned (is_doubted answered.now) answered.now (took L.failed L.taken err.old err.new) (err.new ≡ err.old) }
{
    if answered.is_doubted() {
        say(warning_line(answered).as_str(), err);
    }
}

/// Reports the ending of a job that meets no fault, but perhaps a volume or an image that is refused.
fn end_well<L: Sink>(ending: Ending, err: &mut L) -> Exit
    requires { L.failed err.old ≡ false }
    ensures status { result.status ≡ status_after (Ok ending) }
    ensures fault { result.fault ≡ fault_in (Ok ending) }
    ensures answered { result.answered ≡ answered_in (Ok ending) }
    ensures difference { result.difference ≡ difference_in (Ok ending) }
    ensures volume { result.volume ≡ volume_in (Ok ending) }
    ensures reported { IsReported (Ok ending) (took L.failed L.taken err.old err.new) (err.new ≡ err.old) }
{
    match ending {
        Ending::Done => Exit::with_status(0),
        Ending::Answered(answered) => {
            warn(&answered, err);
            Exit {
                answered: Some(answered),
                ..Exit::with_status(0)
            }
        },
        Ending::Another { answered, line } => {
            say(another_text(&answered).as_str(), err);
            Exit {
                answered: Some(answered),
                difference: Some(line),
                ..Exit::with_status(1)
            }
        },
        Ending::Unsound => Exit::with_status(1),
        Ending::Refused { volume, fault } => Exit {
            fault: Some(TextFault::Trace(fault)),
            volume: Some(volume),
            ..Exit::with_status(tell_volume(volume, fault, err))
        },
        Ending::EmptyImage { number } => {
            say(empty_line(number).as_str(), err);
            Exit::with_status(2)
        },
    }
}

/// Reports how a job ended.
pub(crate) fn end<L: Sink>(ended: Result<Ending, TextFault>, err: &mut L) -> Exit
    requires { L.failed err.old ≡ false }
    ensures status { result.status ≡ status_after ended }
    ensures fault { result.fault ≡ fault_in ended }
    ensures answered { result.answered ≡ answered_in ended }
    ensures difference { result.difference ≡ difference_in ended }
    ensures volume { result.volume ≡ volume_in ended }
    ensures reported { IsReported ended (took L.failed L.taken err.old err.new) (err.new ≡ err.old) }
{
    match ended {
        Ok(ending) => end_well(ending, err),
        Err(fault) => Exit {
            fault: Some(fault),
            ..Exit::with_status(tell(&fault, err))
        },
    }
}

/// Reports options that contradict each other, in the form in which a wrong command line is reported. The exit status
/// is 2, even if the sink fails.
pub fn refuse<L: Sink>(clash: Clash, err: &mut L) -> Exit
    requires { L.failed err.old ≡ false }
    ensures status { result.status ≡ 2 }
    ensures fault { result.fault ≡ None }
    ensures answered { result.answered ≡ None }
    ensures reported { Takes (took L.failed L.taken err.old err.new) (clash_text clash) }
{
    say(clash.text().as_str(), err);
    Exit::with_status(2)
}
