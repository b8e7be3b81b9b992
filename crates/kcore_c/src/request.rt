//! A call by numbers and bytes, and a reply in numbers and bytes.
ghost use Rattle.std.specs.Prelude.{◌≡◌, ◌≤◌, length, take, IfOk, IfSome, Some, None, if◌then◌else◌};
ghost use Rattle.kc_types.specs.Limits.{page_size};
ghost use Rattle.kc_types.specs.Bytes.{IsData};
ghost use Rattle.kc_model.specs.Ranged.{IsRanged};
ghost use Rattle.kcore_c.specs.Request.{is_data, numbered, requested, answer_of, bytes_of};

use kc_types::{Call, Data, PAGE_SIZE, Reply};
use std::alloc::{AllocError, Global};

/// A call: which one, and its numbers in the order of a trace's line. Numbers that it does not have are not read.
#[repr(C)]
#[derive(Clone, Copy)]
pub struct Request {
    pub call: u32,
    pub first: u32,
    pub second: u32,
    pub third: u32,
    pub fourth: u32,
    pub fifth: u32,
}

/// A reply: its kind and its number, which is a frame, an image, a number of bytes, a guest frame or a refusal; 0 if it
/// has none.
#[repr(C)]
#[derive(Clone, Copy)]
pub struct Answer {
    pub kind: u32,
    pub number: u32,
}

/// The call with these numbers and no bytes.
fn numbered(request: Request) -> Option<Call>
    ensures call { result ≡ numbered request }
    ensures ranged { IfSome result IsRanged }
{
    match request.call {
        0 => Some(Call::Take),
        1 => Some(Call::Give {
            frame: request.first,
        }),
        2 => Some(Call::HostFault {
            frame: request.first,
        }),
        3 => Some(Call::HostRead {
            frame: request.first,
            offset: request.second,
            len: request.third,
        }),
        5 => Some(Call::RegisterVm { vm: request.first }),
        6 => Some(Call::RegisterVcpu {
            vm: request.first,
            vcpu: request.second,
        }),
        7 => Some(Call::SetBoot {
            vm: request.first,
            base: request.second,
            len: request.third,
        }),
        8 => Some(Call::Remap {
            vm: request.first,
            image: request.second,
            frame: request.third,
        }),
        9 => Some(Call::Verify { vm: request.first }),
        10 => Some(Call::Map {
            vm: request.first,
            vcpu: request.second,
            frame: request.third,
        }),
        11 => Some(Call::GuestRead {
            vm: request.first,
            vcpu: request.second,
            gfn: request.third,
            offset: request.fourth,
            len: request.fifth,
        }),
        13 => Some(Call::Grant {
            vm: request.first,
            vcpu: request.second,
            gfn: request.third,
        }),
        14 => Some(Call::Revoke {
            vm: request.first,
            vcpu: request.second,
            gfn: request.third,
        }),
        15 => Some(Call::GrantRange {
            vm: request.first,
            vcpu: request.second,
            gfn: request.third,
            count: request.fourth,
        }),
        16 => Some(Call::RevokeRange {
            vm: request.first,
            vcpu: request.second,
            gfn: request.third,
            count: request.fourth,
        }),
        17 => Some(Call::Drop {
            vm: request.first,
            vcpu: request.second,
            gfn: request.third,
        }),
        18 => Some(Call::Clear { vm: request.first }),
        _ => None,
    }
}

/// Takes the bytes of a call; `None` if there are too many or too few.
fn data_of(alloc: Global, bytes: &[u8]) -> Result<Option<Data>, AllocError>
    ensures value { IfOk result (λ made. made ≡ if is_data bytes.now then Some bytes.now else None) }
    ensures within { IfOk result (λ made. IfSome made IsData) }
{
    if bytes.len() > PAGE_SIZE as usize {
        return Ok(None);
    }
    let mut copy = Vec::with_capacity(alloc, bytes.len())?;
    copy.extend_from_slice(bytes)?;
    Ok(Data::try_new(copy))
}

/// The call that a request is.
pub fn requested(alloc: Global, request: Request, bytes: &[u8]) -> Result<Option<Call>, AllocError>
    ensures call { IfOk result (λ call. call ≡ requested request bytes.now) }
    ensures ranged { IfOk result (λ call. IfSome call IsRanged) }
{
    if request.call == 4 {
        let Some(data) = data_of(alloc, bytes)? else {
            return Ok(None);
        };
        return Ok(Some(Call::HostWrite {
            frame: request.first,
            offset: request.second,
            data,
        }));
    }
    if request.call == 12 {
        let Some(data) = data_of(alloc, bytes)? else {
            return Ok(None);
        };
        return Ok(Some(Call::GuestWrite {
            vm: request.first,
            vcpu: request.second,
            gfn: request.third,
            offset: request.fourth,
            data,
        }));
    }
    Ok(numbered(request))
}

/// The numbers of a reply.
pub fn answer_of(reply: &Reply) -> Answer
    ensures { result ≡ answer_of reply.now }
{
    match reply {
        Reply::Done => Answer { kind: 0, number: 0 },
        Reply::Frame(frame) => Answer {
            kind: 1,
            number: *frame,
        },
        Reply::Image(image) => Answer {
            kind: 2,
            number: *image,
        },
        Reply::Data(data) => Answer {
            kind: 3,
            number: data.as_slice().len() as u32,
        },
        Reply::Fault(gfn) => Answer {
            kind: 4,
            number: *gfn,
        },
        Reply::Rejected(image) => Answer {
            kind: 5,
            number: *image,
        },
        Reply::Refused(refusal) => Answer {
            kind: 6,
            number: u32::from(refusal.number()),
        },
    }
}

/// The bytes of a reply.
pub fn bytes_of(reply: &Reply) -> &[u8]
    ensures bytes { result.now ≡ bytes_of reply.now }
    ensures few { length result.now ≤ page_size }
{
    match reply {
        Reply::Data(data) => data.as_slice(),
        _ => &[],
    }
}
