//! The number of a leaf.
ghost use Rattle.std.specs.Prelude.{◌≡◌, ℕ, ◌<◌};
ghost use Rattle.kc_types.specs.Limits.{leaf_limit};

use kc_types::LEAF_LIMIT;
use std::marker::Model;

/// The number of a leaf table, below 262,144.
#[derive(Clone, Copy, Debug, PartialEq, Eq)]
pub struct LeafNo {
    number: u32,
}

impl Model for LeafNo {
    ghost Value = { ℕ };

    ghost view = { λ l. l.number };

    ghost invariant = { λ l. l.number < leaf_limit };

    ghost inverse = { λ n. record { number = n } };
}

impl LeafNo {
    pub(crate) fn of(number: u32) -> LeafNo
        requires { number < leaf_limit }
        ensures { result ≡ number }
    {
        LeafNo { number }
    }

    /// The number as an index.
    pub fn index(self) -> usize
        ensures value { result ≡ self }
        ensures within { result < leaf_limit }
    {
        self.number as usize
    }
}

/// A leaf or none, in four bytes. Contracts see an option.
#[derive(Clone, Copy, Debug, PartialEq, Eq)]
pub struct MaybeLeaf {
    // The limit stands for none.
    number: u32,
}

impl Model for MaybeLeaf {
    ghost use Rattle.std.specs.Prelude.{ℕ, ◌≤◌, Option};
    ghost use Rattle.kc_types.specs.Limits.{leaf_limit};
    ghost use Rattle.kc_types.specs.Maybe.{below, or_limit, back};

    ghost Value = { Option ℕ };

    ghost view = { λ m. below leaf_limit m.number };

    ghost invariant = { λ m. m.number ≤ leaf_limit };

    ghost inverse = { λ o. record { number = or_limit leaf_limit o } };

    ghost inverse_ok = { λ m h i. record { number = back leaf_limit m.number h i } };
}

impl MaybeLeaf {
    /// Packs a leaf, or none.
    pub(crate) fn of(leaf: Option<LeafNo>) -> MaybeLeaf
        ensures { result ≡ leaf }
    {
        match leaf {
            Some(leaf) => MaybeLeaf {
                number: leaf.number,
            },
            None => MaybeLeaf { number: LEAF_LIMIT },
        }
    }

    /// Returns the leaf, if there is one.
    pub(crate) fn get(self) -> Option<LeafNo>
        ensures { result ≡ self }
    {
        if self.number < LEAF_LIMIT {
            Some(LeafNo::of(self.number))
        } else {
            None
        }
    }
}
