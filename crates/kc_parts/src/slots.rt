//! VM slots in places, and how they move between places.
ghost use Rattle.std.specs.Prelude.{◌≡◌, ◌≤◌, ℕ, [], ◌∷◌, length, replicate, slice_index_or, IfOk, Some, None};
ghost use Rattle.std.specs.Option.{option_copied, option_copied_mut};
ghost use Rattle.std.specs.Borrow.{sem};
ghost use Rattle.kc_types.specs.Limits.{slot_limit};
ghost use Rattle.kc_vms.specs.Vm.{VmSlot};
ghost use Rattle.kc_parts.specs.Parts.{IsRising, HasPlace, place_of, held_slot};
ghost use Rattle.kc_parts.specs.Booting.{slots_of};
ghost use Rattle.kc_parts.specs.Lending.{LendsSlot};
ghost use Rattle.kc_parts.specs.Cuts.{either};
ghost use Rattle.kc_parts.specs.Moves.{IsEmptySlot, IsSlotWrite, AreMoved};

use crate::boot::all_numbers;
use crate::place::place_of;
use kc_types::{Memory, VmId};
use kc_vms::Vm;
use std::alloc::Global;
use std::marker::Model;

/// VM slots in places of their own, in the order of their numbers. A place stays when its slot is taken out, so that
/// putting it back takes no memory.
#[derive(Drop)]
pub(crate) struct VmSlots {
    numbers: Vec<u32>,
    slots: Vec<Option<Vm>>,
}

impl Model for VmSlots {
    ghost use Rattle.std.specs.Coded.{codes, coded_ℕ};
    ghost use Rattle.std.specs.Ordering.{nat_cmp};
    ghost use Rattle.std.specs.FinMap as map;
    ghost use Rattle.kc_parts.specs.Parts.{HeldSlots, AreHeldSlots};

    ghost Value = { HeldSlots };

    ghost coded = { Prim.hlevel (codes, map.code {R = nat_cmp} coded_ℕ coded_ℕ) };

    ghost view = { λ s. record { numbers = s.numbers.items; slots = s.slots.items } };

    ghost invariant = { λ s. AreHeldSlots s.numbers.items s.slots.items };
}

impl VmSlots {
    /// Puts these slots each in the place of its number.
    pub(crate) fn whole(alloc: Global, slots: Vec<Option<Vm>>) -> Result<VmSlots, Memory>
        requires { length slots.items ≤ slot_limit }
        ensures { IfOk result (λ made. made ≡ slots_of slots.items) }
    {
        Ok(VmSlots {
            numbers: all_numbers(alloc, slots.len() as u32)?,
            slots,
        })
    }

    /// Makes a place for each of these slots, with nothing in it.
    pub(crate) fn places(alloc: Global, numbers: Vec<u32>) -> Result<VmSlots, Memory>
        requires { IsRising numbers.items }
        ensures { IfOk result (λ slots. slots ≡ record { numbers = numbers.items; slots = replicate (length numbers.items) None }) }
    {
        let mut slots = Vec::with_capacity(alloc, numbers.len())?;
        for _ in 0..numbers.len() {
            slots.push(None)?;
        }
        Ok(VmSlots { numbers, slots })
    }

    /// The number of slots that there are places for.
    pub(crate) fn count(&self) -> usize
        ensures { result ≡ length self.now.numbers }
    {
        self.numbers.len()
    }

    /// The place of a slot, or the number of places if it has none.
    #[tactic(auto, using(crate::proofs::Cells::cell_place))]
    fn place(&self, number: u32) -> usize
        ensures place { result ≡ place_of self.now.numbers number }
        ensures slot { slice_index_or self.now.slots result None ≡ held_slot self.now number }
    {
        place_of(self.numbers.as_slice(), number)
    }

    /// A slot; `None` if it is not here.
    pub(crate) fn get(&self, vm: VmId) -> Option<&Vm>
        ensures { option_copied result ≡ held_slot self.now vm }
    {
        let at = self.place(vm.index() as u32);
        self.slots.get(at)?.as_ref()
    }

    /// Lends a slot for writing; `None` if it is not here.
    pub(crate) fn get_mut(&mut self, vm: VmId) -> Option<&mut Vm>
        ensures value { option_copied_mut result ≡ held_slot self.old vm }
        ensures* writes_back { sem 𝓛 (LendsSlot self.entry vm result) }
    {
        let at = self.place(vm.index() as u32);
        self.slots.get_mut(at)?.as_mut()
    }

    /// Takes a slot out of its place; `None` if it is not here.
    fn take(&mut self, number: u32) -> Option<Vm>
        ensures taken { result ≡ held_slot self.old number }
        ensures rest { IsSlotWrite number None self.old self.new }
    {
        let at = self.place(number);
        self.slots.get_mut(at)?.take()
    }

    /// Lays a slot into its place.
    fn lay(&mut self, number: u32, vm: Vm)
        requires { HasPlace self.old.numbers number }
        ensures { IsSlotWrite number (Some vm) self.old self.new }
    {
        let at = self.place(number);
        self.slots[at] = Some(vm);
    }

    /// Fills the places, which are empty, with those of their slots that another has.
    pub(crate) fn take_from(&mut self, other: &mut VmSlots)
        requires { (v : ℕ) → held_slot self.old v ≡ None }
        ensures { AreMoved self.old.numbers other.old self.old other.new self.new }
    {
        for at in 0..self.numbers.len() {
            let number = self.numbers[at];
            move_slot(other, self, number);
        }
    }

    /// Puts slots back into their places, which are empty.
    pub(crate) fn put_back(&mut self, mut other: VmSlots)
        requires { (v : ℕ) (vm : VmSlot) → held_slot other v ≡ Some vm → IsEmptySlot self.old v }
        ensures joined { (v : ℕ) → held_slot self.new v ≡ either (held_slot self.old v) (held_slot other v) }
        ensures places { self.new.numbers ≡ self.old.numbers }
    {
        for at in 0..other.numbers.len() {
            let number = other.numbers[at];
            move_slot(&mut other, self, number);
        }
    }
}

/// Moves a slot, if it is there, into its place, which is empty.
fn move_slot(from: &mut VmSlots, to: &mut VmSlots, number: u32)
    requires { (vm : VmSlot) → held_slot from.old number ≡ Some vm → IsEmptySlot to.old number }
    ensures { AreMoved (number ∷ []) from.old to.old from.new to.new }
{
    if let Some(vm) = from.take(number) {
        to.lay(number, vm);
    }
}
