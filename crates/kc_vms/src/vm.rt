//! A VM slot.
ghost use Rattle.std.specs.Prelude.{◌≡◌, ◌+◌, ◌<◌, ◌≤◌, Some, None, true, [], ◌∷◌, length, IfOk, OnOk, OnErr};
ghost use Rattle.std.specs.List.{list_any};
ghost use Rattle.std.specs.Borrow.{sem};
ghost use Rattle.kc_types.specs.Limits.{leaf_limit};
ghost use Rattle.kc_types.specs.Configuration.{vcpus_of, gfns_of, most_images, most_image_bytes};
ghost use Rattle.kc_types.specs.Refusals.{Answers};
ghost use Rattle.kc_model.specs.State.{no_vcpus};
ghost use Rattle.kc_model.specs.Refusals.{pages_of, first_of_these, overlaps};
ghost use Rattle.kc_vms.specs.Vm.{IsVm, IsSlot, capacity_for, empty_vm, slot_table};
ghost use Rattle.kc_model.specs.Slot.{vcpu_of, next_gfn_of, in_phase, with_vcpu, awaiting, with_image, with_image_page};
ghost use Rattle.kc_vms.specs.Refusals.{no_vm_in, not_booting_in, register_refusal, add_vcpu_refusal, add_image_refusal, next_page_refusal};

use crate::pages::pages_of;
use crate::table::Stage2;
use arrayvec::ArrayVec;
use kc_types::{Ends, Gfn, IMAGE_LIMIT, Image, Memory, Phase, Refusal, Vcpu, VcpuId, Version};
use std::alloc::Global;
use std::marker::Model;

/// A VM slot: the version whose limits it has, its phase, its virtual processors, its boot images, the ends of the list
/// of its frames, and its table. Once made, it takes no more memory.
#[derive(Drop)]
pub struct Vm {
    version: Version,
    phase: Phase,
    vcpus: Vec<Vcpu>,
    images: ArrayVec<Image, IMAGE_LIMIT>,
    list: Ends,
    table: Stage2,
}

impl Model for Vm {
    ghost use Rattle.std.specs.Coded.{codes, coded_ℕ};
    ghost use Rattle.std.specs.Ordering.{nat_cmp};
    ghost use Rattle.std.specs.FinMap as map;
    ghost use Rattle.kc_vms.specs.Vm.{VmSlot, IsSlot};

    ghost Value = { VmSlot };

    ghost coded = { Prim.hlevel (codes, map.code {R = nat_cmp} coded_ℕ coded_ℕ) };

    ghost view = { λ v. record { slot = record { phase = v.phase; vcpus = v.vcpus.items; images = v.images.items; frames = v.list; mapped = v.table.mapped; leaves = v.table.leaves }; capacity = record { version = v.version; roots = v.table.roots; leaves = v.table.capacity } } };

    ghost invariant = { λ v. IsSlot v.version v.phase v.vcpus.items v.images.items };
}

impl Vm {
    ghost use Rattle.kc_vms.specs.Lending.{LendsList, LendsTable};

    /// Makes an empty slot of a version, whose table has room for this many leaves of 512 entries; `Memory` if memory
    /// runs out.
    pub fn try_new(alloc: Global, version: Version, leaves: u32) -> Result<Vm, Memory>
        requires { leaves ≤ leaf_limit }
        ensures { IfOk result (λ vm. vm ≡ empty_vm (capacity_for version leaves)) }
    {
        Ok(Vm {
            version,
            phase: Phase::Empty,
            vcpus: absent_vcpus(alloc, version)?,
            images: ArrayVec::new(),
            list: Ends::empty(),
            table: Stage2::try_new(alloc, version, leaves)?,
        })
    }

    /// Makes a slot of a version in this phase, with these virtual processors and boot images, the ends of the list of
    /// its frames, and its table.
    pub fn with(
        version: Version,
        phase: Phase,
        vcpus: Vec<Vcpu>,
        images: ArrayVec<Image, IMAGE_LIMIT>,
        list: Ends,
        table: Stage2,
    ) -> Vm
        requires { IsSlot version phase vcpus.items images.items }
        ensures { result ≡ record { slot = record { phase = phase; vcpus = vcpus.items; images = images.items; frames = list; mapped = table.mapped; leaves = table.leaves }; capacity = record { version = version; roots = table.roots; leaves = table.capacity } } }
    {
        Vm {
            version,
            phase,
            vcpus,
            images,
            list,
            table,
        }
    }

    /// The phase.
    pub fn phase(&self) -> Phase
        ensures value { result ≡ self.now.slot.phase }
        ensures kept { IsVm self.now }
    {
        self.phase
    }

    /// A virtual processor, registered or not; one that the version does not have is not.
    pub fn vcpu(&self, vcpu: VcpuId) -> Vcpu
        ensures value { result ≡ vcpu_of self.now.slot vcpu }
        ensures kept { IsVm self.now }
    {
        match self.vcpus.get(vcpu.index()) {
            Some(there) => *there,
            None => Vcpu::default(),
        }
    }

    /// The boot images, in the order of their numbers.
    pub fn images(&self) -> &[Image]
        ensures value { result.now ≡ self.now.slot.images }
        ensures kept { IsVm self.now }
    {
        self.images.as_slice()
    }

    /// The ends of the list of its frames.
    pub fn list(&self) -> &Ends
        ensures { result.now ≡ self.now.slot.frames }
    {
        &self.list
    }

    /// Lends the ends of the list of its frames for writing.
    pub fn list_mut(&mut self) -> &mut Ends
        ensures* writes_back { sem 𝓛 (LendsList self.entry result) }
        ensures value { result.now ≡ self.old.slot.frames }
    {
        &mut self.list
    }

    /// The table from guest frames to frames.
    pub fn table(&self) -> &Stage2
        ensures { result.now ≡ slot_table self.now }
    {
        &self.table
    }

    /// Lends the table from guest frames to frames for writing.
    pub fn table_mut(&mut self) -> &mut Stage2
        ensures* writes_back { sem 𝓛 (LendsTable self.entry result) }
        ensures value { result.now ≡ slot_table self.old }
    {
        &mut self.table
    }

    /// Registers a VM: the empty slot becomes booting. `SlotUsed` if it is not empty, and then nothing changes.
    pub fn register(&mut self) -> Result<(), Refusal>
        ensures answer { Answers result (register_refusal self.old.slot) }
        ensures ok { OnOk result (self.new ≡ record self.old { slot = in_phase self.old.slot Phase.Booting }) }
        ensures err { OnErr result (self.new ≡ self.old) }
    {
        if self.phase != Phase::Empty {
            return Err(Refusal::SlotUsed);
        }
        self.phase = Phase::Booting;
        Ok(())
    }

    /// Checks that the slot is booting: `NoVm` if it is empty, `WrongPhase` if it is in another phase.
    fn expect_booting(&self) -> Result<(), Refusal>
        ensures { Answers result (first_of_these (no_vm_in self.now.slot ∷ not_booting_in self.now.slot ∷ [])) }
    {
        match self.phase {
            Phase::Empty => Err(Refusal::NoVm),
            Phase::Booting => Ok(()),
            Phase::Active | Phase::Dead => Err(Refusal::WrongPhase),
        }
    }

    /// Registers a virtual processor, which waits for nothing. If refused, nothing changes, and the first reason that
    /// applies is returned: `NoVm` if the slot is empty, `WrongPhase` if it is not booting, `VcpuUsed` if the virtual
    /// processor is registered.
    pub fn add_vcpu(&mut self, vcpu: VcpuId) -> Result<(), Refusal>
        requires { vcpu < vcpus_of self.old.capacity.version }
        ensures answer { Answers result (add_vcpu_refusal self.old.slot vcpu) }
        ensures ok { OnOk result (self.new ≡ record self.old { slot = with_vcpu self.old.slot vcpu (record { registered = true; fault = None }) }) }
        ensures err { OnErr result (self.new ≡ self.old) }
    {
        self.expect_booting()?;
        if self.vcpus[vcpu.index()].registered {
            return Err(Refusal::VcpuUsed);
        }
        self.vcpus[vcpu.index()] = Vcpu {
            registered: true,
            fault: None,
        };
        Ok(())
    }

    /// Adds a boot image of `len` bytes, within the version's limits, whose first guest frame is `base`, and returns its
    /// number. It has no pages yet. If refused, nothing changes, and the first reason that applies is returned: `NoVm` if
    /// the slot is empty, `WrongPhase` if it is not booting, `ImagesFull` if it has as many images as the version allows,
    /// `Overlap` if a guest frame of the image belongs to one of them.
    pub fn add_image(&mut self, base: u32, len: u32) -> Result<u32, Refusal>
        requires some { 0 < len }
        requires small { len ≤ most_image_bytes self.old.capacity.version }
        requires within { base + pages_of len ≤ gfns_of self.old.capacity.version }
        ensures answer { Answers result (add_image_refusal (most_images self.old.capacity.version) self.old.slot base len) }
        ensures number { IfOk result (λ number. number ≡ length self.old.slot.images) }
        ensures ok { OnOk result (self.new ≡ record self.old { slot = with_image self.old.slot base len }) }
        ensures err { OnErr result (self.new ≡ self.old) }
    {
        self.expect_booting()?;
        if self.images.len() as u32 >= self.version.most_images() {
            return Err(Refusal::ImagesFull);
        }
        if overlaps_any(base, len, self.images.as_slice()) {
            return Err(Refusal::Overlap);
        }
        let number = self.images.len() as u32;
        self.images.push(Image {
            base,
            len,
            pages: 0,
        });
        Ok(number)
    }

    /// The guest frame of the next page of an image, or the first reason that applies: `NoVm` if the slot is empty,
    /// `WrongPhase` if it is not booting, `NoImage` if no image has this number, `ImageFull` if all pages of the image
    /// are there.
    pub fn next_page(&self, image: u32) -> Result<Gfn, Refusal>
        ensures answer { Answers result (next_page_refusal self.now.slot image) }
        ensures gfn { IfOk result (λ gfn. gfn ≡ next_gfn_of self.now.slot image) }
        ensures within { IfOk result (λ gfn. gfn < gfns_of self.now.capacity.version) }
    {
        self.expect_booting()?;
        let Some(image) = self.images.get(image as usize) else {
            return Err(Refusal::NoImage);
        };
        if image.pages >= pages_of(image.len) {
            return Err(Refusal::ImageFull);
        }
        Ok(Gfn::try_new(image.base + image.pages).unwrap())
    }

    /// Counts one more page of an image that has a next page.
    pub fn add_page(&mut self, image: u32)
        requires { next_page_refusal self.old.slot image ≡ None }
        ensures { self.new ≡ record self.old { slot = with_image_page self.old.slot image } }
    {
        self.images[image as usize].pages += 1;
    }

    /// Lets a registered virtual processor of an active slot wait for a guest frame.
    pub fn set_fault(&mut self, vcpu: VcpuId, gfn: Gfn)
        requires active { self.old.slot.phase ≡ Phase.Active }
        requires registered { (vcpu_of self.old.slot vcpu).registered ≡ true }
        requires within { gfn < gfns_of self.old.capacity.version }
        ensures { self.new ≡ record self.old { slot = awaiting self.old.slot vcpu (Some gfn) } }
    {
        self.vcpus[vcpu.index()].fault = Some(gfn.number());
    }

    /// Lets a virtual processor wait for nothing.
    pub fn spend_fault(&mut self, vcpu: VcpuId)
        ensures { self.new ≡ record self.old { slot = awaiting self.old.slot vcpu None } }
    {
        if let Some(there) = self.vcpus.get_mut(vcpu.index()) {
            there.fault = None;
        }
    }

    /// Activates a booting slot.
    pub fn activate(&mut self)
        requires { self.old.slot.phase ≡ Phase.Booting }
        ensures { self.new ≡ record self.old { slot = in_phase self.old.slot Phase.Active } }
    {
        self.phase = Phase::Active;
    }

    /// Makes a booting slot dead.
    pub fn kill(&mut self)
        requires { self.old.slot.phase ≡ Phase.Booting }
        ensures { self.new ≡ record self.old { slot = in_phase self.old.slot Phase.Dead } }
    {
        self.phase = Phase::Dead;
    }

    /// Empties the slot, which is then as it was made: no virtual processors, no images, no frames, all leaves back in
    /// the pool.
    pub fn reset(&mut self)
        ensures { self.new ≡ empty_vm self.old.capacity }
    {
        self.phase = Phase::Empty;
        self.vcpus.fill(Vcpu::default());
        self.images.clear();
        self.list = Ends::empty();
        self.table.clear();
    }
}

/// Makes the virtual processors of a VM of a version, none of them registered; `Memory` if memory runs out.
#[tactic(auto, unfolding(kc_model::specs::Slot::no_vcpus))]
fn absent_vcpus(alloc: Global, version: Version) -> Result<Vec<Vcpu>, Memory>
    // No clause can rule out that memory runs out: a test makes a slot.
    ensures { IfOk result (λ vcpus. vcpus.items ≡ no_vcpus version) }
{
    Ok(vec![in alloc; Vcpu::default(); version.vcpus() as usize]?)
}

/// Whether an image of `len` bytes at guest frame `base` shares a guest frame with this image.
fn overlaps(base: u32, len: u32, image: &Image) -> bool
    ensures { result ≡ overlaps base len image.now }
{
    u64::from(base) < u64::from(image.base) + u64::from(pages_of(image.len))
        && u64::from(image.base) < u64::from(base) + u64::from(pages_of(len))
}

/// Whether an image of `len` bytes at guest frame `base` shares a guest frame with one of these images.
pub(crate) fn overlaps_any(base: u32, len: u32, images: &[Image]) -> bool
    ensures { result ≡ list_any (overlaps base len) images.now }
{
    images.iter().any(|image| overlaps(base, len, image))
}
