//! The core, seen as a state that is lawful after every call.
ghost use Rattle.std.specs.Prelude.{◌≡◌, ◌+◌, ◌<◌, ◌≤◌, map, IsSome, IfSome, ◌↔◌, IfOk, IfErr, IsErr, OnOk, OnErr, None, true, false, ℕ, slice_index_or};
ghost use Rattle.kc_types.specs.ReplyBytes.{is_data, may_lack, most_bytes};
ghost use Rattle.kc_types.specs.declared.call.Call.TheVariants.{Verify};
ghost use Rattle.kc_model.specs.Boot.{boot};
ghost use Rattle.kc_model.specs.Next.{next, replies_from, state_after};
ghost use Rattle.kc_model.specs.Custody.{measurement_by};
ghost use Rattle.kc_model.specs.Lawful.{IsLawful};
ghost use Rattle.kc_core.specs.Runs.{StopsAfter};
ghost use Rattle.kc_model.specs.Promises.{KeepsPromises};
ghost use Rattle.kc_model.specs.Blind.{ShowsNothing};
ghost use Rattle.kc_types.specs.Configuration.{gfns_of, slot_count, vcpus_of};
ghost use Rattle.std.specs.FinMap as finite;
ghost use Rattle.kc_model.specs.State.{frame_at, slot_at, vcpu_at, mapped_at};
ghost use Rattle.kc_model.specs.Links.{frames_of};
ghost use Rattle.kc_model.specs.Linked.{ends_of};
ghost use Rattle.kc_model.specs.Wiped.{wiped};
ghost use Rattle.kc_model.specs.Blanking.{blank_state};
ghost use Rattle.kc_model.specs.Refusals.{is_active};
ghost use Rattle.kc_page.specs.Page.{IsRecordOf};
ghost use Rattle.kc_parts.specs.States.{unlinked_slot};
ghost use Rattle.kc_core.specs.KCore.{core_of, IsCore, AreBytesOf, frames_to_hash};

use crate::dispatch::{answer, apply};
use crate::look_ups::{frames_of, page_record};
use crate::verify::{Verified, booted_slot, verify};
use kc_page::{PageBytes, PageRecord};
use kc_parts::{Marks, Parts};
use kc_types::{
    Call, CallBuffer, Config, Ends, FrameNo, Gfn, Image, Memory, Owner, Phase, Reply, Vcpu,
};
use kc_vms::Vm;
use std::alloc::Global;
use std::marker::Model;
use std::thread::Threads;

/// The trusted core, seen as its state, and whether it is reserved. Every value is lawful, and every call leaves it so.
#[derive(Drop)]
pub struct KCore {
    alloc: Global,
    config: Config,
    parts: Parts,
}

impl Model for KCore {
    ghost use Rattle.std.specs.Coded.{codes, coded_ℕ};
    ghost use Rattle.std.specs.FinMap as map;
    ghost use Rattle.std.specs.Ordering.{nat_cmp};
    ghost use Rattle.kc_core.specs.KCore.{SeenCore, core_of, IsCore};

    ghost Value = { SeenCore };

    ghost coded = { Prim.hlevel (codes, map.code {R = nat_cmp} coded_ℕ coded_ℕ) };

    ghost view = { λ k. core_of k.config k.parts };

    ghost invariant = { λ k. IsCore k.config k.parts };
}

/// Where a run stopped when memory ran out.
#[derive(Drop)]
pub struct RunStop {
    /// The number of calls of the trace that are done.
    pub done: usize,
    /// Their replies, in order.
    pub replies: Vec<Reply>,
}

impl KCore {
    /// Makes a reserved core in the boot state of its configuration, with memory for all its frames, zeroed; `Memory` if memory
    /// runs out.
    pub fn boot(alloc: Global, config: Config) -> Result<KCore, Memory>
        // No clause can rule out that memory runs out: tests boot cores.
        ensures state { IfOk result (λ core. core.state ≡ boot config) }
        ensures reserved { IfOk result (λ core. core.is_reserved ≡ true) }
        ensures lawful { OnOk result (IsLawful (boot config)) }
    {
        let parts = Parts::boot(alloc, &config)?;
        Ok(KCore {
            alloc,
            config,
            parts,
        })
    }

    /// Makes a sparse core in the boot state of its configuration: its frames have no memory while their bytes are zero.
    /// `Memory` if memory runs out.
    pub fn boot_sparse(alloc: Global, config: Config) -> Result<KCore, Memory>
        // No clause can rule out that memory runs out: tests boot cores.
        ensures state { IfOk result (λ core. core.state ≡ boot config) }
        ensures reserved { IfOk result (λ core. core.is_reserved ≡ false) }
        ensures lawful { OnOk result (IsLawful (boot config)) }
    {
        let parts = Parts::boot_sparse(alloc, &config)?;
        Ok(KCore {
            alloc,
            config,
            parts,
        })
    }

    /// Makes a core of a configuration and parts: all of them are here, linked, and those of a lawful state.
    pub fn from_parts(alloc: Global, config: Config, parts: Parts) -> KCore
        requires { IsCore config parts }
        ensures { result ≡ core_of config parts }
    {
        KCore {
            alloc,
            config,
            parts,
        }
    }

    /// Takes the core apart into its configuration and its parts, all of them here, of which `from_parts` makes it
    /// again.
    pub fn into_parts(self) -> (Config, Parts)
        ensures core { IsCore result.0 result.1 }
        ensures state { core_of result.0 result.1 ≡ self }
    {
        (self.config, self.parts)
    }

    /// Answers a call: with the first refusal that applies, and then nothing changes, or with its effect. The bytes of
    /// the reply, or of a page that it is the first to write, go into a buffer made before by `Call::buffer`, and nothing takes
    /// memory.
    pub fn answer(&mut self, call: &Call, buffer: CallBuffer) -> Reply
        requires { most_bytes call.now ≤ buffer }
        ensures reply { result ≡ (next self.old.state call.now).0 }
        ensures state { self.new.state ≡ (next self.old.state call.now).1 }
        ensures lawful { IsLawful self.new.state }
        ensures reserved { self.new.is_reserved ≡ self.old.is_reserved }
    {
        answer(&mut self.parts, &self.config, call, buffer)
    }

    /// Answers a call. `Memory` if memory runs out, and then nothing changes. That only happens if the reply would be bytes, or,
    /// in a sparse core, if bytes would be written.
    pub fn call(&mut self, call: &Call) -> Result<Reply, Memory>
        ensures reply { IfOk result (λ reply. reply ≡ (next self.old.state call.now).0) }
        ensures state { OnOk result (self.new.state ≡ (next self.old.state call.now).1) }
        ensures err { OnErr result (self.new ≡ self.old) }
        ensures lawful { IsLawful self.new.state }
        ensures reserved { self.new.is_reserved ≡ self.old.is_reserved }
        ensures memory { self.old.is_reserved ≡ true → IsErr result → is_data (next self.old.state call.now).0 ≡ true }
        ensures sparse { IsErr result → may_lack call.now (next self.old.state call.now).0 ≡ true }
    {
        let buffer = CallBuffer::none(self.alloc);
        apply(&mut self.parts, &self.config, call, buffer)
    }

    /// Answers `verify` of a VM slot as `call` does, and returns what it measured.
    pub fn verify(&mut self, vm: u32) -> Verified
        ensures reply { result.reply ≡ (next self.old.state (Verify vm)).0 }
        ensures images { result.images.items ≡ (measurement_by self.old.state (Verify vm)).images }
        ensures launch { result.launch ≡ (measurement_by self.old.state (Verify vm)).launch }
        ensures state { self.new.state ≡ (next self.old.state (Verify vm)).1 }
        ensures lawful { IsLawful self.new.state }
        ensures reserved { self.new.is_reserved ≡ self.old.is_reserved }
    {
        match verify(&mut self.parts, &self.config, vm) {
            Ok(verified) => verified,
            Err(refusal) => Verified::refused(refusal),
        }
    }

    /// Answers a trace, call by call, and returns the replies in order.
    pub fn run(&mut self, alloc: Global, calls: &[Call]) -> Result<Vec<Reply>, RunStop>
        ensures promises { KeepsPromises self.old.state calls.now }
        ensures blind { IfOk result (λ replies. ShowsNothing self.old.state calls.now replies.items self.new.state) }
        ensures replies { IfOk result (λ replies. replies.items ≡ replies_from self.old.state calls.now) }
        ensures state { OnOk result (self.new.state ≡ state_after self.old.state calls.now) }
        // The run only stops if memory runs out, which no clause can rule out: tests run to the end.
        ensures stop { IfErr result (λ stop. StopsAfter self.old.state calls.now stop.done stop.replies.items self.new.state) }
        ensures reserved { self.new.is_reserved ≡ self.old.is_reserved }
    {
        // Using the parts here shows that the core is lawful from the first call on.
        let _ = &self.parts;
        let Ok(mut replies) = Vec::with_capacity(alloc, calls.len()) else {
            return Err(RunStop {
                done: 0,
                replies: Vec::new(alloc),
            });
        };
        for (done, call) in calls.iter().enumerate() {
            let Ok(reply) = self.call(call) else {
                return Err(RunStop { done, replies });
            };
            replies.push(reply).unwrap();
        }
        Ok(replies)
    }

    /// What the core was started with.
    pub fn config(&self) -> &Config
        ensures value { result.now ≡ self.now.state.config }
        ensures lawful { IsLawful self.now.state }
    {
        &self.config
    }

    /// The record of a frame, with its neighbours in the list of its owner; `None` if the frame does not exist.
    pub fn page_record(&self, frame: u32) -> Option<PageRecord>
        ensures exists { IsSome result ↔ (frame < self.now.state.config.frames) }
        ensures value { IfSome result (IsRecordOf self.now.state frame) }
    {
        let frame = self.config.frame(frame)?;
        Some(page_record(&self.parts, frame))
    }

    /// The bytes of a frame; `None` if the frame does not exist.
    pub fn bytes(&self, frame: u32) -> Option<&PageBytes>
        ensures exists { IsSome result ↔ (frame < self.now.state.config.frames) }
        ensures value { IfSome result (λ bytes. bytes.now.bytes ≡ (frame_at self.now.state frame).bytes) }
    {
        let frame = self.config.frame(frame)?;
        match self.parts.try_page(frame) {
            Some(page) => Some(page.bytes),
            None => None,
        }
    }

    /// Lists the frames of an owner: free frames and a VM's in the order of their list, the core's and the host's in
    /// ascending order. `Memory` if memory runs out.
    pub fn frames_of(&self, owner: Owner) -> Result<Vec<FrameNo>, Memory>
        // No clause can rule out that memory runs out: a test lists frames.
        ensures { IfOk result (λ frames. frames.items ≡ frames_of self.now.state owner) }
    {
        frames_of(self.alloc, &self.parts, &self.config, owner)
    }

    /// The ends of the free list.
    pub fn free_ends(&self) -> Ends
        ensures { result ≡ ends_of self.now.state.free }
    {
        match self.parts.free() {
            Some(ends) => *ends,
            None => Ends::empty(),
        }
    }

    /// The ends of the list of a VM slot's frames; `None` if the slot does not exist.
    pub fn slot_ends(&self, vm: u32) -> Option<Ends>
        ensures exists { IsSome result ↔ (vm < slot_count self.now.state.config) }
        ensures value { IfSome result (λ ends. ends ≡ ends_of (slot_at self.now.state vm).frames) }
    {
        Some(*self.try_slot(vm)?.list())
    }

    /// Lists the mapped guest frames of a VM slot with their frames, by ascending guest frame; none if the slot does
    /// not exist. `Memory` if memory runs out.
    pub fn entries(&self, alloc: Global, vm: u32) -> Result<Vec<(Gfn, FrameNo)>, Memory>
        // No clause can rule out that memory runs out: a test lists entries.
        ensures { IfOk result (λ entries. entries.items ≡ finite.entries (slot_at self.now.state vm).mapped) }
    {
        match self.try_slot(vm) {
            Some(slot) => slot.table().entries(alloc),
            None => Ok(Vec::new(alloc)),
        }
    }

    /// The VM slot of this number, which is the state's except for the list of its frames; `None` if there is none.
    fn try_slot(&self, vm: u32) -> Option<&Vm>
        ensures exists { IsSome result ↔ (vm < slot_count self.now.state.config) }
        ensures value { IfSome result (λ slot. slot_at self.now.state vm ≡ unlinked_slot slot.now.slot (slot_at self.now.state vm).frames) }
        ensures lawful { IsLawful self.now.state }
        ensures linked { IfSome result (λ slot. slot.now.slot.frames ≡ ends_of (slot_at self.now.state vm).frames) }
    {
        self.parts.try_slot(self.config.vm(vm)?)
    }

    /// The phase of a VM slot; `None` if the slot does not exist.
    pub fn phase(&self, vm: u32) -> Option<Phase>
        ensures exists { IsSome result ↔ (vm < slot_count self.now.state.config) }
        ensures value { IfSome result (λ phase. phase ≡ (slot_at self.now.state vm).phase) }
    {
        Some(self.try_slot(vm)?.phase())
    }

    /// The number of frames that `verify` of a VM slot hashes: all that the slot has, or none if the call is refused.
    pub fn frames_to_hash(&self, vm: u32) -> u32
        ensures { result ≡ frames_to_hash self.now.state vm }
    {
        if booted_slot(&self.parts, &self.config, vm).is_err() {
            return 0;
        }
        match self.slot_ends(vm) {
            Some(ends) => ends.count,
            None => 0,
        }
    }

    /// The guest frame that a virtual processor of a VM slot waits for; `None` if the slot or the virtual processor does
    /// not exist, or if it waits for nothing.
    pub fn fault(&self, vm: u32, vcpu: u32) -> Option<Gfn>
        ensures exists { IsSome result → (vm < slot_count self.now.state.config) × (vcpu < vcpus_of self.now.state.config.version) }
        ensures value { result ≡ (vcpu_at self.now.state vm vcpu).fault }
    {
        let slot = self.try_slot(vm)?;
        Gfn::try_new(slot.vcpu(self.config.vcpu(vcpu)?).fault?)
    }

    /// A virtual processor of a VM slot; `None` if either does not exist.
    pub fn vcpu(&self, vm: u32, vcpu: u32) -> Option<Vcpu>
        ensures exists { IsSome result ↔ ((vm < slot_count self.now.state.config) × (vcpu < vcpus_of self.now.state.config.version)) }
        ensures value { IfSome result (λ there. there ≡ vcpu_at self.now.state vm vcpu) }
    {
        let slot = self.try_slot(vm)?;
        Some(slot.vcpu(self.config.vcpu(vcpu)?))
    }

    /// The boot images of a VM slot, in the order of their numbers; `None` if the slot does not exist.
    pub fn images(&self, vm: u32) -> Option<&[Image]>
        ensures exists { IsSome result ↔ (vm < slot_count self.now.state.config) }
        ensures value { IfSome result (λ images. images.now ≡ (slot_at self.now.state vm).images) }
    {
        Some(self.try_slot(vm)?.images())
    }

    /// The frame at a guest frame of a VM slot; `None` if the slot or the guest frame does not exist, or if nothing is
    /// mapped there.
    pub fn lookup(&self, vm: u32, gfn: u32) -> Option<FrameNo>
        ensures exists { IsSome result → (vm < slot_count self.now.state.config) × (gfn < gfns_of self.now.state.config.version) }
        ensures value { result ≡ mapped_at self.now.state vm gfn }
    {
        let table = self.try_slot(vm)?.table();
        table.get(self.config.gfn(gfn)?)
    }

    /// The root slots that have leaves in the table of a VM slot, in the order in which they took them; `None` if the
    /// VM slot does not exist.
    pub fn leaves(&self, vm: u32) -> Option<&[u32]>
        ensures exists { IsSome result ↔ (vm < slot_count self.now.state.config) }
        ensures value { IfSome result (λ leaves. leaves.now ≡ (slot_at self.now.state vm).leaves) }
    {
        Some(self.try_slot(vm)?.table().leaves())
    }

    /// Lists the bytes of all frames, by frame number. `Memory` if memory runs out.
    pub fn all_bytes(&self, alloc: Global) -> Result<Vec<&PageBytes>, Memory>
        // No clause can rule out that memory runs out: a test dumps a core.
        ensures { IfOk result (λ all. AreBytesOf self.now.state all.items) }
    {
        let mut all = Vec::with_capacity(alloc, self.config.frames() as usize)?;
        for number in 0..self.config.frames() {
            all.push(self.bytes(number).unwrap())?;
        }
        Ok(all)
    }

    /// Whether the VM in a slot is active; false if the slot does not exist.
    fn is_active(&self, vm: u32) -> bool
        ensures value { result ≡ is_active (slot_at self.now.state vm).phase }
        ensures lawful { IsLawful self.now.state }
    {
        match self.try_slot(vm) {
            Some(slot) => matches!(slot.phase(), Phase::Active),
            None => false,
        }
    }

    /// A mark for each slot whose VM is active.
    fn active_slots(&self) -> Marks
        ensures { (v : ℕ) → slice_index_or result v false ≡ is_active (slot_at self.now.state v).phase }
    {
        let mut marks = [false; 1_024];
        'slots: for vm in 0..1_024 {
            marks[vm] = self.is_active(vm as u32);
        }
        marks
    }

    /// Zeroes the pages of active VMs, and changes nothing else: what is left shows nothing of what they wrote there,
    /// and leads to the same custody (law `blanking`).
    pub fn blank(&mut self)
        ensures state { self.new.state ≡ blank_state self.old.state }
        ensures reserved { self.new.is_reserved ≡ self.old.is_reserved }
    {
        let active = self.active_slots();
        self.parts.scrub_marked(&active);
    }

    /// Zeroes all bytes, with several threads, and changes nothing else. It cannot fail: if no thread can be started,
    /// this one does everything.
    pub fn wipe(&mut self, rt: &(impl Threads + Sync))
        ensures state { self.new.state ≡ wiped self.old.state }
        ensures reserved { self.new.is_reserved ≡ self.old.is_reserved }
    {
        self.parts.wipe(rt);
    }
}
