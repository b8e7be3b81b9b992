//! Vectors of words, with one lane for each message: of four lanes and of eight.
ghost use Rattle.std.specs.Prelude.{◌≡◌, ℕ, ◌+◌, ◌-◌, ◌*◌, ◌/◌, ◌^◌, ◌<◌, ◌≤◌, All, bit_and, bit_xor, length, slice_index};
ghost use Rattle.std.specs.Mem.{type_size};
ghost use Rattle.std.specs.Int.{w32, bit_not, rotate_right};
ghost use Rattle.sha2.specs.Sha256.{add32, word_at};
ghost use Rattle.kc_digests.specs.Lanes.{part_of};
ghost use Rattle.std.proofs.Common.{rules};

use std::simd::{u32x4, u32x8};

/// The most lanes of a vector.
pub(crate) const MOST_LANES: usize = 8;

/// A vector that has a word of each message.
pub(crate) trait Vector: Copy {
    /// The word of a message.
    ghost word: { Self → ℕ → ℕ };

    /// How many messages there are.
    ghost LANES: { ℕ };

    const LANES: usize;

    /// The same word for each message.
    fn splat(number: u32) -> Self
        ensures { (j : ℕ) → j < LANES → word result j ≡ number };

    /// The sums modulo 2^32.
    fn add(self, other: Self) -> Self
        ensures { (j : ℕ) → j < LANES → word result j ≡ add32 (word self j) (word other j) };

    fn xor(self, other: Self) -> Self
        ensures { (j : ℕ) → j < LANES → word result j ≡ bit_xor (word self j) (word other j) };

    fn and(self, other: Self) -> Self
        ensures { (j : ℕ) → j < LANES → word result j ≡ bit_and (word self j) (word other j) };

    fn not(self) -> Self
        ensures { (j : ℕ) → j < LANES → word result j ≡ bit_not w32 (word self j) };

    fn shift_right(self, count: u32) -> Self
        requires { count < 32 }
        ensures { (j : ℕ) → j < LANES → word result j ≡ word self j / 2 ^ count };

    fn rotate_right(self, count: u32) -> Self
        requires { (0 < count) × (count < 32) }
        ensures { (j : ℕ) → j < LANES → word result j ≡ rotate_right w32 (word self j) count };

    /// Loads the word at a byte of each message (FIPS 180-4, 5.2.1).
    fn load(parts: &[&[u8]], at: usize) -> Self
        requires count { length parts.now ≡ LANES }
        requires room { All (λ part. at + 4 ≤ length part.now) parts.now }
        ensures { (j : ℕ) → j < LANES → word result j ≡ word_at (part_of j parts.now) at };

    /// The word of a message.
    fn lane(self, lane: usize) -> u32
        requires { lane < LANES }
        ensures { result ≡ word self lane };

    ghost some: { 0 < LANES };

    /// MOST_LANES.
    ghost few: { LANES ≤ 8 };

    /// The words of a block fit in memory.
    ghost small: { 16 * type_size Self.row < 2 ^ 63 };
}

fn load_word(block: &[u8], at: usize) -> u32
    requires { at + 4 ≤ length block.now }
    ensures { result ≡ word_at block.now at }
{
    u32::from_be_bytes([block[at], block[at + 1], block[at + 2], block[at + 3]])
}

impl Vector for u32x4 {
    ghost word = { slice_index };

    ghost LANES = { 4 };

    const LANES: usize = 4;

    #[inline(always)]
    fn splat(number: u32) -> Self {
        u32x4::splat(number)
    }

    #[inline(always)]
    fn add(self, other: Self) -> Self {
        self + other
    }

    #[inline(always)]
    fn xor(self, other: Self) -> Self {
        self ^ other
    }

    #[inline(always)]
    fn and(self, other: Self) -> Self {
        self & other
    }

    #[inline(always)]
    fn not(self) -> Self {
        !self
    }

    #[inline(always)]
    fn shift_right(self, count: u32) -> Self {
        self >> u32x4::splat(count)
    }

    #[inline(always)]
    fn rotate_right(self, count: u32) -> Self {
        (self >> u32x4::splat(count)) | (self << u32x4::splat(32 - count))
    }

    #[inline(always)]
    fn load(parts: &[&[u8]], at: usize) -> Self {
        u32x4::from_array([
            load_word(parts[0], at),
            load_word(parts[1], at),
            load_word(parts[2], at),
            load_word(parts[3], at),
        ])
    }

    fn lane(self, lane: usize) -> u32 {
        self.to_array()[lane]
    }

    ghost some = { Prim.search rules };

    ghost few = { Prim.search rules };

    ghost small = { Prim.search rules };
}

impl Vector for u32x8 {
    ghost word = { slice_index };

    ghost LANES = { 8 };

    const LANES: usize = 8;

    #[inline(always)]
    fn splat(number: u32) -> Self {
        u32x8::splat(number)
    }

    #[inline(always)]
    fn add(self, other: Self) -> Self {
        self + other
    }

    #[inline(always)]
    fn xor(self, other: Self) -> Self {
        self ^ other
    }

    #[inline(always)]
    fn and(self, other: Self) -> Self {
        self & other
    }

    #[inline(always)]
    fn not(self) -> Self {
        !self
    }

    #[inline(always)]
    fn shift_right(self, count: u32) -> Self {
        self >> u32x8::splat(count)
    }

    #[inline(always)]
    fn rotate_right(self, count: u32) -> Self {
        (self >> u32x8::splat(count)) | (self << u32x8::splat(32 - count))
    }

    #[inline(always)]
    fn load(parts: &[&[u8]], at: usize) -> Self {
        u32x8::from_array([
            load_word(parts[0], at),
            load_word(parts[1], at),
            load_word(parts[2], at),
            load_word(parts[3], at),
            load_word(parts[4], at),
            load_word(parts[5], at),
            load_word(parts[6], at),
            load_word(parts[7], at),
        ])
    }

    fn lane(self, lane: usize) -> u32 {
        self.to_array()[lane]
    }

    ghost some = { Prim.search rules };

    ghost few = { Prim.search rules };

    ghost small = { Prim.search rules };
}
