//! The digests of the boot images that may run.
ghost use Rattle.std.specs.Prelude.{◌≡◌, ◌↔◌, ℕ, List, IsTrue, Contains};

use std::marker::Model;

/// The SHA-256 digests of the boot images that may run, seen as a list. They are borrowed, for example from the
/// trusted configuration.
#[derive(Drop)]
pub struct Approved<'a> {
    digests: &'a [[u8; 32]],
}

impl<'a> Model for Approved<'a> {
    ghost Value = { List (List ℕ) };

    ghost view = { λ a. a.digests.now };
}

impl<'a> Approved<'a> {
    /// Borrows these digests.
    pub fn new(digests: &'a [[u8; 32]]) -> Approved<'a>
        ensures { result ≡ digests.now }
    {
        Approved { digests }
    }

    /// Whether this digest is one of them.
    pub fn is_approved(&self, digest: &[u8; 32]) -> bool
        ensures { IsTrue result ↔ Contains self.now digest.now }
    {
        self.digests.contains(digest)
    }
}
