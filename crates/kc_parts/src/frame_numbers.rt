//! The numbers of the frames that there are places for.
ghost use Rattle.std.specs.Prelude.{◌≡◌, ◌++◌, length, IsSome, ◌↔◌, ◌<◌};
ghost use Rattle.std.specs.List.{range_with_len};
ghost use Rattle.std.specs.Option.{option_to_list};
ghost use Rattle.kc_parts.specs.Parts.{IsRising, place_of};

use crate::place::place_of;
use std::marker::Model;

/// All numbers below a limit, which are not listed, or a list.
#[derive(Drop)]
enum Numbers {
    Below(u32),
    Listed(Vec<u32>),
}

/// Numbers of frames, seen as the list of them.
#[derive(Drop)]
pub(crate) struct FrameNumbers {
    numbers: Numbers,
}

impl Model for FrameNumbers {
    ghost use Rattle.std.specs.Prelude.{ℕ, List};
    ghost use Rattle.kc_parts.specs.Numbers.{numbers_of};

    ghost Value = { List ℕ };

    ghost view = { λ n. numbers_of n.numbers };
}

impl FrameNumbers {
    /// All numbers below a limit.
    pub(crate) fn below(limit: u32) -> FrameNumbers
        ensures { result ≡ range_with_len 0 limit }
    {
        FrameNumbers {
            numbers: Numbers::Below(limit),
        }
    }

    /// These numbers.
    pub(crate) fn listed(numbers: Vec<u32>) -> FrameNumbers
        ensures { result ≡ numbers.items }
    {
        FrameNumbers {
            numbers: Numbers::Listed(numbers),
        }
    }

    /// How many numbers there are.
    pub(crate) fn len(&self) -> usize
        ensures { result ≡ length self.now }
    {
        match &self.numbers {
            Numbers::Below(limit) => *limit as usize,
            Numbers::Listed(numbers) => numbers.len(),
        }
    }

    /// The place of a number, if they ascend; how many there are if it is not among them.
    pub(crate) fn place_of(&self, number: u32) -> usize
        requires { IsRising self.now }
        ensures { result ≡ place_of self.now number }
    {
        match &self.numbers {
            Numbers::Below(limit) => number.min(*limit) as usize,
            Numbers::Listed(numbers) => place_of(numbers.as_slice(), number),
        }
    }

    /// Takes the last number away; `None` if there is none.
    pub(crate) fn pop(&mut self) -> Option<u32>
        ensures items { self.old ≡ self.new ++ option_to_list result }
        ensures some { IsSome result ↔ (0 < length self.old) }
    {
        match &mut self.numbers {
            Numbers::Below(0) => None,
            Numbers::Below(limit) => {
                *limit -= 1;
                Some(*limit)
            },
            Numbers::Listed(numbers) => numbers.pop(),
        }
    }
}
