//! A set of numbers that only grows, and keeps the order in which they came.

ghost use Rattle.std.specs.Prelude.{◌≡◌, length, slice_get, [], OnOk, OnErr};
ghost use Rattle.kc_footprints.specs.Members.{position_in, with_member};

use indexmap::IndexSet;
use std::alloc::{AllocError, Global};
use std::marker::Model;

/// The members, in the order in which they came.
#[derive(Drop)]
pub(crate) struct ReachSet {
    members: IndexSet<u32>,
}

impl Model for ReachSet {
    ghost use Rattle.std.specs.Prelude.{ℕ, List};

    ghost Value = { List ℕ };

    ghost view = { λ s. s.members.keys };
}

impl ReachSet {
    pub(crate) fn new(alloc: Global) -> ReachSet
        ensures { result ≡ [] }
    {
        ReachSet {
            members: IndexSet::new(alloc),
        }
    }

    pub(crate) fn len(&self) -> usize
        ensures { result ≡ length self.now }
    {
        self.members.len()
    }

    /// The place of a member.
    pub(crate) fn place_of(&self, number: u32) -> Option<usize>
        ensures { result ≡ position_in self.now number }
    {
        self.members.get_index_of(&number)
    }

    /// The member at a place.
    pub(crate) fn at(&self, place: usize) -> Option<u32>
        ensures { result ≡ slice_get self.now place }
    {
        self.members.get_index(place).copied()
    }

    /// Adds a number.
    pub(crate) fn add(&mut self, number: u32) -> Result<(), AllocError>
        ensures ok { OnOk result (self.new ≡ with_member self.old number) }
        ensures err { OnErr result (self.new ≡ self.old) }
    {
        self.members.insert_full(number)?;
        Ok(())
    }
}
