//! The sets of several principals, in which membership takes one look-up.
ghost use Rattle.std.specs.Prelude.{◌≡◌, ◌<◌, ◌^◌, length, get_or, set, replicate, [], IfOk, OnOk, OnErr};
ghost use Rattle.kc_footprints.specs.Members.{has_member, with_member};

use crate::reach_set::ReachSet;
use std::alloc::{AllocError, Global};
use std::marker::Model;

/// A set for each principal. Seen as the list of the sets.
#[derive(Drop)]
pub(crate) struct ReachSets {
    sets: Vec<ReachSet>,
    // For each number from 0 on, a flag for each principal: whether its set has the number. Missing flags are false.
    flags: Vec<bool>,
}

impl Model for ReachSets {
    ghost use Rattle.std.specs.Prelude.{ℕ, List};
    ghost use Rattle.kc_footprints.specs.Members.{AreFlags};

    ghost Value = { List (List ℕ) };

    ghost view = { λ s. s.sets.items };

    ghost invariant = { λ s. AreFlags s.sets.items s.flags.items };
}

impl ReachSets {
    /// Makes empty sets, with room for the flags of this many numbers; those of higher numbers are made when they
    /// come.
    pub(crate) fn new(
        alloc: Global,
        principals: usize,
        numbers: usize,
    ) -> Result<ReachSets, AllocError>
        requires { principals < 2 ^ 32 }
        ensures { IfOk result (λ s. s ≡ replicate principals []) }
    {
        let mut sets = Vec::with_capacity(alloc, principals)?;
        for _ in 0..principals {
            sets.push(ReachSet::new(alloc))?;
        }
        let flags = vec![in alloc; false; numbers.saturating_mul(principals)]?;
        Ok(ReachSets { sets, flags })
    }

    /// The number of principals.
    pub(crate) fn len(&self) -> usize
        ensures value { result ≡ length self.now }
        ensures few { result < 2 ^ 32 }
    {
        self.sets.len()
    }

    /// Whether a number is in a principal's set.
    pub(crate) fn contains(&self, principal: usize, number: u32) -> bool
        requires { principal < length self.now }
        ensures { result ≡ has_member (get_or self.now principal []) number }
    {
        let place = number as usize * self.sets.len() + principal;
        place < self.flags.len() && self.flags[place]
    }

    /// The set of a principal.
    pub(crate) fn of(&self, principal: usize) -> &ReachSet
        requires { principal < length self.now }
        ensures { result.now ≡ get_or self.now principal [] }
    {
        &self.sets[principal]
    }

    /// Adds a number to a principal's set.
    pub(crate) fn add(&mut self, principal: usize, number: u32) -> Result<(), AllocError>
        requires { principal < length self.old }
        ensures ok { OnOk result (self.new ≡ set self.old principal (with_member (get_or self.old principal []) number)) }
        ensures err { OnErr result (self.new ≡ self.old) }
    {
        if self.contains(principal, number) {
            return Ok(());
        }
        let place = number as usize * self.sets.len() + principal;
        let room = self.flags.len().max(place + 1);
        self.flags.resize(room, false)?;
        self.sets[principal].add(number)?;
        self.flags[place] = true;
        Ok(())
    }

    /// Returns the sets only.
    pub(crate) fn into_sets(self) -> Vec<ReachSet>
        ensures { result.items ≡ self }
    {
        self.sets
    }
}
