//! Which places are filled.
ghost use Rattle.std.specs.Prelude.{◌≡◌, ◌<◌, ◌≤◌, ◌++◌, [], true, length, replicate, get_or, set, vec_capacity, IfOk, IsSome, ◌↔◌};
ghost use Rattle.std.specs.Option.{option_to_list};
ghost use Rattle.kc_parts.specs.Numbers.{flags_of, AreFlags};

use kc_types::Memory;
use std::alloc::Global;
use std::marker::Model;

/// A flag for each place, seen as the list of them. There is none in memory as long as all are set: the room for them is
/// taken at the start, so that writing them takes no memory.
#[derive(Drop)]
pub(crate) struct Flags {
    count: usize,
    each: Vec<bool>,
}

impl Model for Flags {
    ghost use Rattle.std.specs.Prelude.{Bool, List, vec_capacity};
    ghost use Rattle.kc_parts.specs.Numbers.{flags_of, AreFlags};

    ghost Value = { List Bool };

    ghost view = { λ f. flags_of f.count f.each.items };

    ghost invariant = { λ f. AreFlags f.count f.each.items (vec_capacity f.each) };
}

/// Writes the flags, if none is in memory. What is seen stays.
fn write_all(count: usize, each: &mut Vec<bool>)
    requires { AreFlags count each.old.items (vec_capacity each.old) }
    ensures items { each.new.items ≡ flags_of count each.old.items }
    ensures capacity { vec_capacity each.old ≤ vec_capacity each.new }
{
    if each.is_empty() {
        each.resize(count, true).unwrap();
    }
}

impl Flags {
    /// This many flags, all set; `Memory` if there is no room for them.
    pub(crate) fn all_set(alloc: Global, count: usize) -> Result<Flags, Memory>
        ensures { IfOk result (λ flags. flags ≡ replicate count true) }
    {
        Ok(Flags {
            count,
            each: Vec::with_capacity(alloc, count)?,
        })
    }

    /// The flag of a place.
    pub(crate) fn get(&self, at: usize) -> bool
        requires { at < length self.now }
        ensures { result ≡ get_or self.now at true }
    {
        self.each.is_empty() || self.each[at]
    }

    /// Sets the flag of a place, or takes it back. It takes no memory.
    pub(crate) fn set(&mut self, at: usize, flag: bool)
        requires { at < length self.old }
        ensures { self.new ≡ set self.old at flag }
    {
        write_all(self.count, &mut self.each);
        self.each[at] = flag;
    }

    /// Takes the last flag away; `None` if there is none.
    pub(crate) fn pop(&mut self) -> Option<bool>
        ensures items { self.old ≡ self.new ++ option_to_list result }
        ensures some { IsSome result ↔ (0 < length self.old) }
    {
        write_all(self.count, &mut self.each);
        let flag = self.each.pop()?;
        self.count -= 1;
        Some(flag)
    }
}
