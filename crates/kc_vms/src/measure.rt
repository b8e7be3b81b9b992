//! Measuring a boot image, page by page, or a boot as a whole.
ghost use Rattle.std.specs.Prelude.{◌≡◌, ℕ, ◌++◌, ◌≤◌, List, [], take, length};
ghost use Rattle.std.specs.Int.{w64, to_le_bytes};
ghost use Rattle.sha2.specs.Sha256.{sha256};
ghost use Rattle.kc_types.specs.Limits.{page_size};

use kc_page::PageBytes;
use sha2::{Digest, Sha256};

/// The SHA-256 digest (FIPS 180-4) of numbers and pages.
#[derive(Drop)]
pub struct Measure {
    hasher: Sha256,
}

impl Measure {
    ghost use Rattle.kc_vms.specs.Measure.{WasFed};

    /// Makes a measure that was fed no bytes.
    pub fn new() -> Measure
        ensures { WasFed result [] }
    {
        Measure {
            hasher: Sha256::new(),
        }
    }

    /// Feeds the first `used` bytes of a page, 0 to 4,096.
    pub fn page(&mut self, bytes: &PageBytes, used: usize)
        requires { used ≤ page_size }
        ensures fed { (fed : List ℕ) → WasFed self.old fed → WasFed self.new (fed ++ take used bytes.now.bytes) }
        ensures whole { length bytes.now.bytes ≡ page_size }
    {
        self.hasher.update(&bytes.as_slice()[..used]);
    }

    /// Feeds a number, as eight bytes with the lowest first.
    pub fn number(&mut self, number: u32)
        ensures { (fed : List ℕ) → WasFed self.old fed → WasFed self.new (fed ++ to_le_bytes w64 number) }
    {
        self.hasher.update(&u64::from(number).to_le_bytes());
    }

    /// Returns the digest of all bytes that were fed, in the order in which they were fed.
    pub fn finish(self) -> [u8; 32]
        ensures { (fed : List ℕ) → WasFed self fed → result ≡ sha256 fed }
    {
        self.hasher.finalize()
    }
}
