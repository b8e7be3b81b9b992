//! The bytes of one read or write.
ghost use Rattle.std.specs.Prelude.{◌≡◌, ℕ, ◌<◌, ◌≤◌, List, length, ◌↔◌, IsSome, IfSome, IfOk, MatchResult};
ghost use Rattle.kc_types.specs.Limits.{page_size};
ghost use Rattle.kc_types.specs.Bytes.{IsData, short_size};

use crate::{Memory, PAGE_SIZE, SecretBytes};
use arrayvec::ArrayVec;
use std::alloc::Global;
use std::marker::Model;
use std::sync::Arc;

/// The most bytes that need no memory of their own.
pub const SHORT_SIZE: usize = 20;

/// Bytes inside the value itself, or that it owns, or that several values share.
#[derive(Debug, Drop)]
enum Owned {
    Short(ArrayVec<u8, SHORT_SIZE>),
    Alone(SecretBytes),
    Shared(Arc<SecretBytes>),
}

/// One byte to a whole page of 4,096 bytes, seen as a list. Equal if the bytes are equal. Up to 20 bytes are kept
/// inside the value itself, without memory of their own; the memory of more is zeroed before it is freed.
#[derive(Debug, Drop)]
pub struct Data {
    bytes: Owned,
}

impl Model for Data {
    ghost use Rattle.std.specs.Prelude.{ℕ, List};
    ghost use Rattle.kc_types.specs.Bytes.{IsData, owned_bytes};

    ghost Value = { List ℕ };

    ghost view = { λ d. owned_bytes d.bytes };

    ghost invariant = { λ d. IsData (owned_bytes d.bytes) };
}

impl Data {
    /// Makes data of these bytes; `None` if there are none or more than 4,096.
    pub fn try_new(bytes: Vec<u8>) -> Option<Data>
        ensures valid { IsSome result ↔ ((0 < length bytes.items) × (length bytes.items ≤ page_size)) }
        ensures value { IfSome result (λ made. made ≡ bytes.items) }
    {
        if bytes.is_empty() || bytes.len() > PAGE_SIZE as usize {
            None
        } else {
            Some(Data {
                bytes: Owned::Alone(SecretBytes::new(bytes)),
            })
        }
    }

    /// Makes data of 1 to 20 bytes, without memory of its own.
    pub fn short(bytes: &[u8]) -> Data
        requires some { 0 < length bytes.now }
        requires few { length bytes.now ≤ short_size }
        ensures { result ≡ bytes.now }
    {
        Data {
            bytes: Owned::Short(ArrayVec::try_from(bytes).unwrap()),
        }
    }

    /// The bytes.
    pub fn as_slice(&self) -> &[u8]
        ensures value { result.now ≡ self.now }
        ensures within { IsData self.now }
    {
        match &self.bytes {
            Owned::Short(bytes) => bytes.as_slice(),
            Owned::Alone(bytes) => bytes.as_slice(),
            Owned::Shared(bytes) => bytes.as_slice(),
        }
    }

    /// Makes an equal value, which shares the bytes if they are shared already; `Memory` if memory runs out.
    pub fn copy(&self) -> Result<Data, Memory>
        // No clause can rule out that memory runs out: a test makes a copy.
        ensures { IfOk result (λ made. made ≡ self.now) }
    {
        let bytes = match &self.bytes {
            Owned::Short(bytes) => return Ok(Data::short(bytes.as_slice())),
            Owned::Alone(bytes) => Owned::Alone(bytes.copy()?),
            Owned::Shared(bytes) => Owned::Shared(Arc::try_clone(bytes)?),
        };
        Ok(Data { bytes })
    }

    /// Makes two equal values, which share the bytes if these have memory of their own. Hands the data back if the
    /// memory that sharing needs cannot be allocated.
    pub fn share(self, alloc: Global) -> Result<(Data, Data), Data>
        // No clause can rule out that memory runs out: tests share data.
        ensures { MatchResult result (λ both. (both.0 ≡ self) × (both.1 ≡ self)) (λ back. back ≡ self) }
    {
        let Data { bytes } = self;
        let shared = match bytes {
            Owned::Short(bytes) => {
                return Ok((
                    Data::short(bytes.as_slice()),
                    Data {
                        bytes: Owned::Short(bytes),
                    },
                ));
            },
            Owned::Shared(bytes) => bytes,
            Owned::Alone(bytes) => match Arc::new(alloc, bytes) {
                Ok(shared) => shared,
                Err(refused) => return Err(Data {
                    bytes: Owned::Alone(refused.value),
                }),
            },
        };
        match Arc::try_clone(&shared) {
            Ok(other) => Ok((
                Data {
                    bytes: Owned::Shared(shared),
                },
                Data {
                    bytes: Owned::Shared(other),
                },
            )),
            Err(_) => Err(Data {
                bytes: Owned::Shared(shared),
            }),
        }
    }
}

impl PartialEq for Data {
    ghost use Rattle.std.specs.Prelude.{◌==◌};
    ghost use Rattle.std.specs.Cmp.Rules.{comparing};
    ghost use Rattle.std.specs.Cmp.Lexicographic.{pointwise};
    ghost use Rattle.std.proofs.Common.{rules};

    ghost eq = { pointwise ◌==◌ };

    ghost laws = { Prim.search (comparing, rules) };

    fn eq(&self, other: &Data) -> bool {
        self.as_slice() == other.as_slice()
    }
}
