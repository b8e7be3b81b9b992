//! Looking up by number: what is not here counts as untouched.
ghost use Rattle.std.specs.Prelude.{◌≡◌, ◌<◌, not, false, IfOk, IfSome, Some, None};
ghost use Rattle.kc_types.specs.declared.owner.Owner.TheVariants.{Core};
ghost use Rattle.std.specs.Option.{option_copied};
ghost use Rattle.kc_types.specs.Configuration.{gfns_of, slot_count};
ghost use Rattle.kc_types.specs.Refusals.{Answers};
ghost use Rattle.kc_model.specs.State.{slot_at, vcpu_at, mapped_at};
ghost use Rattle.kc_types.specs.declared.refusal.Refusal.TheVariants.{TablesFull};
ghost use Rattle.kc_model.specs.Refusals.{when, tables_full, next_gfn};
ghost use Rattle.kc_model.specs.Linked.{linked_slot};
ghost use Rattle.kc_vms.specs.Vm.{VmSlot};
ghost use Rattle.kc_vms.specs.Refusals.{next_page_refusal};
ghost use Rattle.kc_parts.specs.Parts.{page_at, vm_at, links_of};
ghost use Rattle.kc_parts.specs.States.{frame_in, state_of, slot_in, IsLinked};
ghost use Rattle.kc_parts.specs.LookUps.{IsMetaOf};

use crate::Parts;
use kc_page::PageRecord;
use kc_types::{
    Config, FrameNo, Gfn, MaybeFrame, MaybeGfn, Owner, OwnerCode, Phase, Refusal, VcpuId, VmId,
};
use kc_vms::Vm;

/// The record of an untouched frame of the core's.
fn untouched() -> PageRecord
    ensures { result ≡ record { owner = Core; share = 0; present = false; gfn = None; prev = None; next = None } }
{
    PageRecord {
        owner: OwnerCode::of(Owner::Core),
        share: 0,
        present: false,
        gfn: MaybeGfn::of(None),
        prev: MaybeFrame::of(None),
        next: MaybeFrame::of(None),
    }
}

impl Parts {
    /// The record of a frame.
    pub fn record_of(&self, frame: FrameNo) -> PageRecord
        ensures { IsMetaOf (frame_in (page_at self.now frame)) result }
    {
        match self.try_page(frame) {
            Some(page) => page.meta,
            None => untouched(),
        }
    }

    /// A slot that exists, if it is here.
    fn slot_of(&self, config: &Config, vm: VmId) -> Option<&Vm>
        requires { vm < slot_count config.now }
        ensures value { slot_at (state_of config.now self.now) vm ≡ slot_in (links_of self.now) (option_copied result) }
        ensures here { (slot : VmSlot) → option_copied result ≡ Some slot → vm_at self.now vm ≡ Some slot }
    {
        self.try_slot(vm)
    }

    /// The phase of a slot.
    pub fn phase_of(&self, config: &Config, vm: VmId) -> Phase
        requires { vm < slot_count config.now }
        ensures { result ≡ (slot_at (state_of config.now self.now) vm).phase }
    {
        match self.slot_of(config, vm) {
            Some(slot) => slot.phase(),
            None => Phase::Empty,
        }
    }

    /// The frame at a guest frame of a slot.
    pub fn mapping_of(&self, config: &Config, vm: VmId, gfn: Gfn) -> Option<FrameNo>
        requires { vm < slot_count config.now }
        ensures { result ≡ mapped_at (state_of config.now self.now) vm gfn }
    {
        match self.slot_of(config, vm) {
            Some(slot) => slot.table().get(gfn),
            None => None,
        }
    }

    /// The guest frame that a virtual processor of a slot waits for.
    pub fn pending_of(&self, config: &Config, vm: VmId, vcpu: VcpuId) -> Option<Gfn>
        requires low { vm < slot_count config.now }
        requires linked { IsLinked config.now self.now }
        ensures value { result ≡ (vcpu_at (state_of config.now self.now) vm vcpu).fault }
        ensures within { IfSome result (λ gfn. gfn < gfns_of config.now.version) }
    {
        match self.slot_of(config, vm) {
            Some(slot) => match slot.vcpu(vcpu).fault {
                Some(gfn) => Gfn::try_new(gfn),
                None => None,
            },
            None => None,
        }
    }

    /// The guest frame of the next page of a slot's image, or why there is none.
    pub fn next_page_of(&self, config: &Config, vm: VmId, image: u32) -> Result<Gfn, Refusal>
        requires low { vm < slot_count config.now }
        requires linked { IsLinked config.now self.now }
        ensures answer { Answers result (next_page_refusal (linked_slot (slot_at (state_of config.now self.now) vm)) image) }
        ensures gfn { IfOk result (λ gfn. gfn ≡ next_gfn (state_of config.now self.now) vm image) }
        ensures within { IfOk result (λ gfn. gfn < gfns_of config.now.version) }
    {
        match self.slot_of(config, vm) {
            Some(slot) => slot.next_page(image),
            None => Err(Refusal::NoVm),
        }
    }

    /// Whether the root slot of a slot's guest frame has a leaf or can take one.
    pub fn fits_in(&self, config: &Config, vm: VmId, gfn: Gfn) -> bool
        requires low { vm < slot_count config.now }
        requires linked { IsLinked config.now self.now }
        ensures { tables_full (state_of config.now self.now) vm gfn ≡ when (not result) TablesFull }
    {
        match self.slot_of(config, vm) {
            Some(slot) => slot.table().fits(gfn),
            None => config.leaves() > 0,
        }
    }
}
