//! The line and the exit status of a fault.
ghost use Rattle.std.specs.Prelude.{◌≡◌, ◌≤◌, ◌++◌, false};
ghost use Rattle.arrayvec.specs.ArrayString.{array_string_len};
ghost use Rattle.std.specs.Io.KnownBytes.{Appends};
ghost use Rattle.kc_texts.specs.Written.{AppendsBeginning};
ghost use Rattle.kc_faults.specs.declared.fault.TextFault.TheVariants as texts;
ghost use Rattle.kc_faults.specs.Faults.{status_of, fault_number, numeral_of, fault_finding, fault_line, volume_fault_line};

use crate::TextFault;
use arrayvec::ArrayString;
use itoa::Buffer;
use kc_audit::finding_text;
use kc_state_text::StateFault;
use kc_texts::{Sink, write_whole};
use kc_trace::TraceFault;

/// What follows the text of a fault: a number, what an audit finds, or nothing.
fn detail(fault: &TextFault) -> ArrayString<160>
    ensures bytes { result.bytes ≡ numeral_of (fault_number fault.now) ++ fault_finding fault.now }
    ensures short { array_string_len result ≤ 160 }
{
    if let TextFault::State(StateFault::Found(finding)) = fault {
        return finding_text(*finding);
    }
    let mut text = ArrayString::new();
    if let Some(number) = fault.number() {
        text.push_str(Buffer::new().format(number));
    }
    text
}

/// The line of a fault, with its line feed.
fn line(fault: &TextFault) -> ArrayString<256>
    ensures { result.bytes ≡ fault_line fault.now }
{
    let mut line = ArrayString::new();
    line.push_str("kcore: ");
    line.push_str(fault.words());
    line.push_str(detail(fault).as_str());
    line.push_str(fault.end());
    line.push_str("\n");
    line
}

/// Writes a line, of which a sink that fails may have taken a beginning.
fn say<K: Sink>(line: ArrayString<256>, sink: &mut K)
    requires { K.failed sink.old ≡ false }
    ensures line { K.failed sink.new ≡ false → Appends (K.taken sink.old) (K.taken sink.new) line.bytes }
    ensures begun { AppendsBeginning (K.taken sink.old) (K.taken sink.new) line.bytes }
{
    let _ = write_whole(sink, line.as_bytes());
}

/// Writes the fault's line, and returns the exit status, even if the sink fails. It takes no memory.
pub fn tell<K: Sink>(fault: &TextFault, sink: &mut K) -> u8
    requires { K.failed sink.old ≡ false }
    ensures status { result ≡ status_of fault.now }
    ensures line { K.failed sink.new ≡ false → Appends (K.taken sink.old) (K.taken sink.new) (fault_line fault.now) }
    // A sink that fails may have taken a beginning of the line.
    ensures begun { AppendsBeginning (K.taken sink.old) (K.taken sink.new) (fault_line fault.now) }
{
    say(line(fault), sink);
    fault.status()
}

/// The line of a fault of a trace that is one of several volumes, with its line feed.
fn volume_line(volume: usize, fault: TraceFault) -> ArrayString<256>
    ensures { result.bytes ≡ volume_fault_line volume fault }
{
    let fault = TextFault::Trace(fault);
    let mut line = ArrayString::new();
    line.push_str("kcore: volume ");
    line.push_str(Buffer::new().format(volume));
    line.push_str(": ");
    line.push_str(fault.words());
    line.push_str(detail(&fault).as_str());
    line.push_str("\n");
    line
}

/// Writes the line of a fault of a trace that is one of several volumes, by its number from 1, and returns the exit
/// status, even if the sink fails. It takes no memory.
pub fn tell_volume<K: Sink>(volume: usize, fault: TraceFault, sink: &mut K) -> u8
    requires { K.failed sink.old ≡ false }
    ensures status { result ≡ status_of (texts.Trace fault) }
    ensures line { K.failed sink.new ≡ false
        → Appends (K.taken sink.old) (K.taken sink.new) (volume_fault_line volume fault) }
    // A sink that fails may have taken a beginning of the line.
    ensures begun { AppendsBeginning (K.taken sink.old) (K.taken sink.new) (volume_fault_line volume fault) }
{
    say(volume_line(volume, fault), sink);
    TextFault::Trace(fault).status()
}
