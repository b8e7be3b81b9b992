//! What has the bytes of a page.
ghost use Rattle.std.specs.Prelude.{◌≡◌, ℕ, List};

use kc_page::PageBytes;

/// What has the bytes of a page.
pub(crate) trait Bytes {
    /// The bytes.
    ghost bytes: { Self → List ℕ };

    fn bytes(&self) -> &PageBytes
        ensures { result.now.bytes ≡ bytes self.now };
}

impl Bytes for PageBytes {
    ghost bytes = { λ page. page.bytes };

    fn bytes(&self) -> &PageBytes {
        self
    }
}

impl Bytes for &PageBytes {
    ghost bytes = { λ page. page.now.bytes };

    fn bytes(&self) -> &PageBytes {
        *self
    }
}
