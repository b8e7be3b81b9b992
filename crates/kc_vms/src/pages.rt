//! The number of pages of an image.
ghost use Rattle.std.specs.Prelude.{◌≡◌};
ghost use Rattle.kc_model.specs.Refusals.{pages_of};

use kc_types::PAGE_SIZE;

/// The number of pages of 4,096 bytes that an image of `len` bytes fills, the last perhaps only in part: 0 for no
/// bytes, and at most 1,048,576.
pub fn pages_of(len: u32) -> u32
    ensures { result ≡ pages_of len }
{
    len.div_ceil(PAGE_SIZE)
}
