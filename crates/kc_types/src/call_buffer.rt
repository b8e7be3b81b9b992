//! The buffer of a call, made before the call is answered.
ghost use Rattle.std.specs.Prelude.{◌≡◌, ◌<◌, ◌≤◌, [], length, IfOk, IsOk, vec_capacity};
ghost use Rattle.kc_types.specs.Limits.{page_size};
ghost use Rattle.kc_types.specs.ReplyBytes.{bytes_in, readable, most_reply_bytes, most_bytes};

use crate::{Call, Data, Memory, PAGE_SIZE, Reply, SHORT_SIZE};
use std::alloc::Global;
use std::marker::Model;

/// The buffer of one call: for the bytes of its reply, or for those of a page that it is the first to write. It is seen as
/// the number of bytes it has room for. Every buffer has room for 20 bytes of a reply, which need no memory.
#[derive(Debug, Drop)]
pub struct CallBuffer {
    reserved: Vec<u8>,
}

impl Model for CallBuffer {
    ghost use Rattle.std.specs.Prelude.{◌≡◌, ℕ, [], max, vec_capacity};
    ghost use Rattle.kc_types.specs.Bytes.{short_size};

    ghost Value = { ℕ };

    ghost view = { λ s. max short_size (vec_capacity s.reserved) };

    ghost invariant = { λ s. s.reserved.items ≡ [] };
}

impl CallBuffer {
    /// Makes a buffer for no bytes, which takes no memory.
    pub fn none(alloc: Global) -> CallBuffer {
        CallBuffer {
            reserved: Vec::new(alloc),
        }
    }

    /// Grows the buffer to `len` bytes if it has room for fewer; `Memory` if memory runs out.
    pub fn at_least(self, len: usize) -> Result<CallBuffer, Memory>
        // No clause can rule out that memory runs out: tests make reads.
        ensures enough { IfOk result (λ buffer. len ≤ buffer) }
        ensures none { len ≤ self → IsOk result }
    {
        let CallBuffer { mut reserved } = self;
        if len > SHORT_SIZE {
            reserved.reserve_exact(len)?;
        }
        Ok(CallBuffer { reserved })
    }

    /// Puts these 1 to 4,096 bytes into the buffer, which takes no memory.
    pub fn filled(self, bytes: &[u8]) -> Data
        requires some { 0 < length bytes.now }
        requires page { length bytes.now ≤ page_size }
        requires fits { length bytes.now ≤ self }
        ensures { result ≡ bytes.now }
    {
        if bytes.len() <= SHORT_SIZE {
            return Data::short(bytes);
        }
        let CallBuffer { mut reserved } = self;
        reserved.extend_from_slice(bytes).unwrap();
        Data::try_new(reserved).unwrap()
    }

    /// Gives the buffer up for memory with room for a page, empty; `Memory` if it has room for fewer bytes and memory runs
    /// out.
    pub fn into_room(self) -> Result<Vec<u8>, Memory>
        // No clause can rule out that memory runs out: tests make writes.
        ensures empty { IfOk result (λ room. room.items ≡ []) }
        ensures enough { IfOk result (λ room. page_size ≤ vec_capacity room) }
        ensures none { page_size ≤ self → IsOk result }
    {
        let CallBuffer { reserved } = self.at_least(PAGE_SIZE as usize)?;
        Ok(reserved)
    }
}

/// The most bytes that a read of this length can answer.
fn readable(len: u32) -> usize
    ensures { result ≡ readable len }
{
    if len <= PAGE_SIZE { len as usize } else { 0 }
}

impl Call {
    /// Makes a buffer for the bytes of the call's reply, before the call is answered; `Memory` if memory cannot be
    /// had, which only happens for reads.
    pub fn reply_buffer(&self, alloc: Global) -> Result<CallBuffer, Memory>
        ensures enough { IfOk result (λ buffer. most_reply_bytes self.now ≤ buffer) }
        ensures none { most_reply_bytes self.now ≡ 0 → IsOk result }
    {
        match self {
            Call::HostRead { len, .. } | Call::GuestRead { len, .. } => {
                CallBuffer::none(alloc).at_least(readable(*len))
            },
            _ => Ok(CallBuffer::none(alloc)),
        }
    }

    /// Makes a buffer for all bytes for which the call may need memory, before the call is answered; `Memory` if memory
    /// runs out, which only happens for reads and writes.
    pub fn buffer(&self, alloc: Global) -> Result<CallBuffer, Memory>
        ensures enough { IfOk result (λ buffer. most_bytes self.now ≤ buffer) }
        ensures none { most_bytes self.now ≡ 0 → IsOk result }
    {
        match self {
            Call::HostWrite { .. } | Call::GuestWrite { .. } => {
                CallBuffer::none(alloc).at_least(PAGE_SIZE as usize)
            },
            _ => self.reply_buffer(alloc),
        }
    }
}

impl Reply {
    /// Makes two equal replies, which share their bytes. If the memory that sharing needs cannot be allocated, the bytes are
    /// copied into `buffer`, which was made before, so that memory cannot run out.
    pub fn share(self, alloc: Global, buffer: CallBuffer) -> (Reply, Reply)
        requires { bytes_in self ≤ buffer }
        ensures reply { result.0 ≡ self }
        ensures other { result.1 ≡ self }
    {
        match self {
            Reply::Data(data) => match data.share(alloc) {
                Ok((data, other)) => (Reply::Data(data), Reply::Data(other)),
                Err(data) => {
                    let copy = buffer.filled(data.as_slice());
                    (Reply::Data(data), Reply::Data(copy))
                },
            },
            Reply::Done => (Reply::Done, Reply::Done),
            Reply::Frame(frame) => (Reply::Frame(frame), Reply::Frame(frame)),
            Reply::Image(image) => (Reply::Image(image), Reply::Image(image)),
            Reply::Fault(gfn) => (Reply::Fault(gfn), Reply::Fault(gfn)),
            Reply::Rejected(image) => (Reply::Rejected(image), Reply::Rejected(image)),
            Reply::Refused(refusal) => (Reply::Refused(refusal), Reply::Refused(refusal)),
        }
    }
}
