//! The report of an audit, and a line for each finding.
ghost use Rattle.std.specs.Prelude.{◌≡◌, ◌≤◌, ◌+◌, ◌++◌, length, IfOk};
ghost use Rattle.std.specs.List.{flat_map};
ghost use Rattle.arrayvec.specs.ArrayString.{array_string_len};
ghost use Rattle.std.specs.Fmt.{decimal};
ghost use Rattle.kc_audit.specs.Report.{finding_text, first_text, found_text, report_of, finding_line, all_text, written_of};

use crate::finding::Finding;
use arrayvec::ArrayString;
use itoa::Buffer;
use kc_types::Memory;
use std::alloc::Global;

/// Appends a number.
fn push_number(line: &mut ArrayString<160>, number: usize)
    requires { array_string_len line.old + 20 ≤ 160 }
    ensures bytes { line.new.bytes ≡ line.old.bytes ++ decimal number }
    ensures short { array_string_len line.new ≤ array_string_len line.old + 20 }
{
    line.push_str(Buffer::new().format(number));
}

/// Appends the name of a kind and a number.
fn push_named(line: &mut ArrayString<160>, name: &str, number: usize)
    requires { array_string_len line.old + (length name.now + 20) ≤ 160 }
    ensures bytes { line.new.bytes ≡ line.old.bytes ++ (name.now ++ decimal number) }
    ensures short { array_string_len line.new ≤ array_string_len line.old + (length name.now + 20) }
{
    line.push_str(name);
    push_number(line, number);
}

/// Appends the text of a finding.
fn push_finding(line: &mut ArrayString<160>, finding: Finding)
    requires { array_string_len line.old + 56 ≤ 160 }
    ensures bytes { line.new.bytes ≡ line.old.bytes ++ finding_text finding }
    ensures short { array_string_len line.new ≤ array_string_len line.old + 56 }
{
    match finding {
        Finding::CoreOwner(frame) => push_named(line, "core-owner ", frame.index()),
        Finding::Linked(frame) => push_named(line, "linked ", frame.index()),
        Finding::FreeChain => line.push_str("chain free"),
        Finding::Chain(vm) => push_named(line, "chain ", vm.index()),
        Finding::Entry(vm, gfn) => {
            push_named(line, "entry ", vm.index());
            push_named(line, " ", gfn.number() as usize);
        }
        Finding::Gfn(frame) => push_named(line, "gfn ", frame.index()),
        Finding::Share(frame) => push_named(line, "share ", frame.index()),
        Finding::Present(frame) => push_named(line, "present ", frame.index()),
        Finding::Leaves(vm) => push_named(line, "leaves ", vm.index()),
        Finding::Empty(vm) => push_named(line, "empty ", vm.index()),
        Finding::Bytes(frame) => push_named(line, "bytes ", frame.index()),
    }
}

/// The text of a finding: its kind, followed by the slot, guest frame or frame.
pub fn finding_text(finding: Finding) -> ArrayString<160>
    ensures { result.bytes ≡ finding_text finding }
{
    let mut text = ArrayString::new();
    push_finding(&mut text, finding);
    text
}

/// Appends the text of the first finding, if there is one.
fn push_first(line: &mut ArrayString<160>, found: &[Finding])
    requires { array_string_len line.old + 56 ≤ 160 }
    ensures bytes { line.new.bytes ≡ line.old.bytes ++ first_text found.now }
    ensures short { array_string_len line.new ≤ array_string_len line.old + 56 }
{
    if let Some(first) = found.first() {
        push_finding(line, *first);
    }
}

/// Appends the number of findings, and the first.
fn push_found(line: &mut ArrayString<160>, found: &[Finding])
    requires { array_string_len line.old + 99 ≤ 160 }
    ensures bytes { line.new.bytes ≡ line.old.bytes ++ found_text found.now }
    ensures short { array_string_len line.new ≤ array_string_len line.old + 99 }
{
    line.push_str("{\"findings\":");
    push_number(line, found.len());
    line.push_str(",\"first\":\"");
    push_first(line, found);
}

/// The report of an audit of a dump of `frames` frames: a compact JSON object (RFC 8259) with the number of findings,
/// the text of the first (empty if there is none) and the number of frames, and a line feed.
fn report(found: &[Finding], frames: usize) -> ArrayString<160>
    ensures { result.bytes ≡ report_of found.now frames }
{
    let mut line = ArrayString::new();
    push_found(&mut line, found);
    push_named(&mut line, "\",\"frames\":", frames);
    line.push_str("}\n");
    line
}

/// A finding as a line of JSON.
fn finding_line(finding: Finding) -> ArrayString<160>
    ensures { result.bytes ≡ finding_line finding }
{
    let mut line = ArrayString::new();
    line.push_str("{\"finding\":\"");
    push_finding(&mut line, finding);
    line.push_str("\"}\n");
    line
}

/// Writes each finding as a line.
fn finding_lines(alloc: Global, found: &[Finding]) -> Result<Vec<u8>, Memory>
    ensures { IfOk result (λ text. text.items ≡ flat_map finding_line found.now) }
{
    let mut text = Vec::new(alloc);
    for finding in found {
        text.extend_from_slice(finding_line(*finding).as_bytes())?;
    }
    Ok(text)
}

/// Writes each finding as a line if all are wanted, and nothing otherwise.
fn all_text(alloc: Global, all: bool, found: &[Finding]) -> Result<Vec<u8>, Memory>
    ensures { IfOk result (λ text. text.items ≡ all_text all found.now) }
{
    if all {
        finding_lines(alloc, found)
    } else {
        Ok(Vec::new(alloc))
    }
}

/// Writes the output of an audit of a dump of `frames` frames: its report, as one line, and if `all` is set, before it
/// each finding in order, as a compact JSON object on a line of its own. `Memory` if memory runs out.
pub fn written(
    alloc: Global,
    all: bool,
    found: &[Finding],
    frames: usize,
) -> Result<Vec<u8>, Memory>
    ensures { IfOk result (λ text. text.items ≡ written_of all found.now frames) }
{
    let mut text = all_text(alloc, all, found)?;
    text.extend_from_slice(report(found, frames).as_bytes())?;
    Ok(text)
}
