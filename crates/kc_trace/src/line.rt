//! Lines as calls, and which texts may have a call.
ghost use Rattle.std.specs.Prelude.{◌≡◌, codes, not, IfOk, option_map, option_and_then};
ghost use Rattle.std.specs.Str.{bytes_eq};
ghost use Rattle.kc_types.specs.declared.call.Call.TheVariants.{HostWrite};
ghost use Rattle.kc_lines.specs.Words.{data_of};
ghost use Rattle.kc_trace.specs.Spelling.{is_range_call, is_allowed_in};
ghost use Rattle.kc_trace.specs.Redacting.{data_by, call_by};
ghost use Rattle.kc_trace.specs.Reading.{one_word, with_one_number, with_two_numbers, with_three_numbers, with_four_numbers, read_guest_access, call_of};

use crate::header::Header;
use kc_lines::{read_blanked, read_data, read_number, split_number, split_word};
use kc_types::{Call, Data};
use std::alloc::{AllocError, Global};

/// What becomes of the bytes that a virtual processor writes: they are read, or they are only checked, and zeros take
/// their place.
#[derive(Clone, Copy)]
pub(crate) enum GuestData {
    Read,
    Blanked,
}

/// Whether traces with the first header may not have the call.
pub fn is_range_call(call: &Call) -> bool
    ensures { result ≡ is_range_call call.now }
{
    matches!(call, Call::GrantRange { .. } | Call::RevokeRange { .. })
}

/// Whether a trace with this header may have the call.
pub fn is_allowed_in(header: &Header, call: &Call) -> bool
    ensures { result ≡ is_allowed_in header.now call.now }
{
    match header {
        Header::One => !is_range_call(call),
        Header::Two => true,
        Header::Three(_) => true,
    }
}

fn read_one_word(name: &[u8]) -> Option<Call>
    ensures { result ≡ one_word name.now }
{
    if name == b"take".as_slice() {
        Some(Call::Take)
    } else {
        None
    }
}

fn with_one_number(name: &[u8], number: u32) -> Option<Call>
    ensures { result ≡ with_one_number name.now number }
{
    if name == b"give".as_slice() {
        Some(Call::Give { frame: number })
    } else if name == b"hfault".as_slice() {
        Some(Call::HostFault { frame: number })
    } else if name == b"regvm".as_slice() {
        Some(Call::RegisterVm { vm: number })
    } else if name == b"verify".as_slice() {
        Some(Call::Verify { vm: number })
    } else if name == b"clear".as_slice() {
        Some(Call::Clear { vm: number })
    } else {
        None
    }
}

fn with_two_numbers(name: &[u8], first: u32, second: u32) -> Option<Call>
    ensures { result ≡ with_two_numbers name.now first second }
{
    if name == b"regvcpu".as_slice() {
        Some(Call::RegisterVcpu {
            vm: first,
            vcpu: second,
        })
    } else {
        None
    }
}

fn with_three_numbers(name: &[u8], first: u32, second: u32, third: u32) -> Option<Call>
    ensures { result ≡ with_three_numbers name.now first second third }
{
    if name == b"hread".as_slice() {
        Some(Call::HostRead {
            frame: first,
            offset: second,
            len: third,
        })
    } else if name == b"setboot".as_slice() {
        Some(Call::SetBoot {
            vm: first,
            base: second,
            len: third,
        })
    } else if name == b"remap".as_slice() {
        Some(Call::Remap {
            vm: first,
            image: second,
            frame: third,
        })
    } else if name == b"map".as_slice() {
        Some(Call::Map {
            vm: first,
            vcpu: second,
            frame: third,
        })
    } else if name == b"grant".as_slice() {
        Some(Call::Grant {
            vm: first,
            vcpu: second,
            gfn: third,
        })
    } else if name == b"revoke".as_slice() {
        Some(Call::Revoke {
            vm: first,
            vcpu: second,
            gfn: third,
        })
    } else if name == b"drop".as_slice() {
        Some(Call::Drop {
            vm: first,
            vcpu: second,
            gfn: third,
        })
    } else {
        None
    }
}

fn with_four_numbers(name: &[u8], first: u32, second: u32, third: u32, fourth: u32) -> Option<Call>
    ensures { result ≡ with_four_numbers name.now first second third fourth }
{
    if name == b"grantr".as_slice() {
        Some(Call::GrantRange {
            vm: first,
            vcpu: second,
            gfn: third,
            count: fourth,
        })
    } else if name == b"revoker".as_slice() {
        Some(Call::RevokeRange {
            vm: first,
            vcpu: second,
            gfn: third,
            count: fourth,
        })
    } else {
        None
    }
}

fn read_two_words(name: &[u8], first: Option<u32>) -> Option<Call>
    ensures { result ≡ option_and_then (with_one_number name.now) first }
{
    with_one_number(name, first?)
}

fn read_three_words(name: &[u8], first: Option<u32>, second: Option<u32>) -> Option<Call>
    ensures { result ≡ option_and_then (λ a. option_and_then (with_two_numbers name.now a) second) first }
{
    with_two_numbers(name, first?, second?)
}

fn read_four_words(
    name: &[u8],
    first: Option<u32>,
    second: Option<u32>,
    third: Option<u32>,
) -> Option<Call>
    ensures { result ≡ option_and_then (λ a. option_and_then (λ b. option_and_then (with_three_numbers name.now a b) third) second) first }
{
    with_three_numbers(name, first?, second?, third?)
}

fn read_five_words(
    name: &[u8],
    first: Option<u32>,
    second: Option<u32>,
    third: Option<u32>,
    fourth: Option<u32>,
) -> Option<Call>
    ensures { result ≡ option_and_then (λ a. option_and_then (λ b. option_and_then (λ c. option_and_then (with_four_numbers name.now a b c) fourth) third) second) first }
{
    with_four_numbers(name, first?, second?, third?, fourth?)
}

/// Reads two numbers and bytes.
fn read_host_write(
    alloc: Global,
    first: Option<u32>,
    second: Option<u32>,
    last: &[u8],
) -> Result<Option<Call>, AllocError>
    ensures { IfOk result (λ found. found ≡ option_and_then (λ a. option_and_then (λ b. option_map (HostWrite a b) (data_of last.now)) second) first) }
{
    let (Some(frame), Some(offset)) = (first, second) else {
        return Ok(None);
    };
    Ok(read_data(alloc, last)?.map(|data| Call::HostWrite {
        frame,
        offset,
        data,
    }))
}

/// Reads the bytes that a virtual processor writes, or puts zeros in their place.
fn read_guest_data(
    alloc: Global,
    guests: GuestData,
    word: &[u8],
) -> Result<Option<Data>, AllocError>
    ensures { IfOk result (λ found. found ≡ data_by guests (data_of word.now)) }
{
    match guests {
        GuestData::Read => read_data(alloc, word),
        GuestData::Blanked => read_blanked(alloc, word),
    }
}

/// Reads four numbers, and a number or bytes.
fn read_guest_access(
    alloc: Global,
    guests: GuestData,
    name: &[u8],
    numbers: (Option<u32>, Option<u32>, Option<u32>, Option<u32>),
    last: &[u8],
) -> Result<Option<Call>, AllocError>
    ensures { IfOk result (λ found. found ≡ call_by guests (option_and_then (λ a. option_and_then (λ b. option_and_then (λ c. option_and_then (λ d. read_guest_access name.now a b c d last.now) numbers.3) numbers.2) numbers.1) numbers.0)) }
{
    let (Some(vm), Some(vcpu), Some(gfn), Some(offset)) = numbers else {
        return Ok(None);
    };
    if name == b"gwrite".as_slice() {
        Ok(read_guest_data(alloc, guests, last)?.map(|data| Call::GuestWrite {
            vm,
            vcpu,
            gfn,
            offset,
            data,
        }))
    } else if name == b"gread".as_slice() {
        Ok(read_number(last).map(|len| Call::GuestRead {
            vm,
            vcpu,
            gfn,
            offset,
            len,
        }))
    } else {
        Ok(None)
    }
}

fn is_host_write(name: &[u8]) -> bool
    ensures { result ≡ bytes_eq name.now (codes "hwrite") }
{
    name == b"hwrite".as_slice()
}

/// Reads a line, without its newline, as a call. Each word is read once, as a number if it may be one.
pub(crate) fn read_call(
    alloc: Global,
    guests: GuestData,
    line: &[u8],
) -> Result<Option<Call>, AllocError>
    ensures { IfOk result (λ found. found ≡ call_by guests (call_of line.now)) }
{
    let Some((name, rest)) = split_word(line) else {
        return Ok(read_one_word(line));
    };
    let (first, rest) = split_number(rest);
    let Some(rest) = rest else {
        return Ok(read_two_words(name, first));
    };
    let (second, rest) = split_number(rest);
    let Some(rest) = rest else {
        return Ok(read_three_words(name, first, second));
    };
    if is_host_write(name) {
        let None = split_word(rest) else {
            return Ok(None);
        };
        return read_host_write(alloc, first, second, rest);
    }
    let (third, rest) = split_number(rest);
    let Some(rest) = rest else {
        return Ok(read_four_words(name, first, second, third));
    };
    let (fourth, rest) = split_number(rest);
    let Some(rest) = rest else {
        return Ok(read_five_words(name, first, second, third, fourth));
    };
    let None = split_word(rest) else {
        return Ok(None);
    };
    read_guest_access(alloc, guests, name, (first, second, third, fourth), rest)
}

/// Reads a line, without its newline, as a call.
pub fn call_of_line(alloc: Global, line: &[u8]) -> Result<Option<Call>, AllocError>
    ensures { IfOk result (λ found. found ≡ call_of line.now) }
{
    read_call(alloc, GuestData::Read, line)
}
