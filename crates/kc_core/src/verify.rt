//! Verifying a VM: its boot images are measured, and it becomes active or dead.
ghost use Rattle.std.specs.Prelude.{ℕ, List, ◌++◌, ◌≡◌, ◌+◌, ◌<◌, ◌≤◌, ◌↔◌, ◌||◌, ◌==◌, [], All, IsTrue, IfOk, IsSome, MatchResult, OnErr, Some, None, true, is_some, length, map};
ghost use Rattle.std.specs.List.{list_any};
ghost use Rattle.std.specs.FinMap as finite;
ghost use Rattle.sha2.specs.Sha256.{sha256};
ghost use Rattle.kc_types.specs.Limits.{gfn_limit, page_size, image_limit};
ghost use Rattle.kc_types.specs.Configuration.{slot_count};
ghost use Rattle.kc_types.specs.declared.call.Call.TheVariants.{Verify};
ghost use Rattle.kc_types.specs.declared.reply.Reply.TheVariants.{Refused};
ghost use Rattle.kc_types.specs.Refusals.{Answers};
ghost use Rattle.kc_model.specs.State.{slot_at};
ghost use Rattle.kc_model.specs.Refusals.{refusal, backing, pages_of, is_short};
ghost use Rattle.kc_model.specs.Effects.{first_failing, launch_digest, unapproved, trimmed, all_trimmed};
ghost use Rattle.kc_model.specs.Custody.{measured_images, launch_of, measurement_by, nothing_measured};
ghost use Rattle.kc_types.specs.declared.custody.MeasuredImage.{MeasuredImage};
ghost use Rattle.kc_vms.specs.Measure.{WasFed};
ghost use Rattle.kc_parts.specs.Chunks.{page_of};
ghost use Rattle.kc_parts.specs.Parts.{vm_at};
ghost use Rattle.kc_parts.specs.States.{state_of, IsLinked};
ghost use Rattle.kc_core.specs.Applying.{IsAble, IsAnswer, KeepsPlaces, reply_of};
ghost use Rattle.kc_core.specs.Verifying.{mapped_in, page_under, bytes_under, bytes_of_image, is_approved_digest, rejected_for, AreFourAlike, IsImageHere, IsMeasurable};

use arrayvec::ArrayVec;
use kc_digests::MeasureFour;
use kc_parts::{PageRef, Parts};
use kc_types::{
    Config, FrameNo, Gfn, IMAGE_LIMIT, Image, MeasuredImage, PAGE_SIZE, Phase, Refusal, Reply, VmId,
};
use kc_vms::{Approved, Measure, Stage2, Vm, pages_of};

/// The frame that backs a mapped guest frame.
fn backing(table: &Stage2, gfn: u32) -> FrameNo
    requires low { gfn < gfn_limit }
    requires mapped { is_some (finite.get table.now.mapped gfn) ≡ true }
    ensures { result ≡ backing (finite.get table.now.mapped gfn) }
{
    let gfn = Gfn::try_new(gfn).unwrap();
    table.get(gfn).unwrap()
}

/// The page at a mapped guest frame, which is here.
fn page_under<'a>(parts: &'a Parts, table: &Stage2, gfn: u32) -> PageRef<'a>
    requires low { gfn < gfn_limit }
    requires mapped { is_some (finite.get table.now.mapped gfn) ≡ true }
    requires here { is_some (page_under parts.now (finite.get table.now.mapped) gfn) ≡ true }
    ensures { page_under parts.now (finite.get table.now.mapped) gfn ≡ Some (page_of result) }
{
    parts.page(backing(table, gfn))
}

/// The bytes of a page of an image, by its number, counted from the image's first page.
fn page_of<'a>(parts: &'a Parts, table: &Stage2, image: &Image, number: u32) -> &'a [u8]
    requires measurable { IsMeasurable image.now }
    requires here { IsImageHere parts.now (finite.get table.now.mapped) image.now }
    requires within { number < pages_of image.now.len }
    ensures value { result.now ≡ bytes_under parts.now (finite.get table.now.mapped) (image.now.base + number) }
    ensures whole { length result.now ≡ page_size }
{
    page_under(parts, table, image.base + number)
        .bytes
        .as_slice()
}

/// The bytes of a page of each of four images.
fn pages_of_four<'a>(
    parts: &'a Parts,
    table: &Stage2,
    images: &[Image],
    number: u32,
) -> [&'a [u8]; 4]
    requires four { length images.now ≡ 4 }
    requires measurable { All IsMeasurable images.now }
    requires here { All (IsImageHere parts.now (finite.get table.now.mapped)) images.now }
    requires within { All (λ image. number < pages_of image.len) images.now }
    ensures value { map (λ page. page.now) result ≡ map (λ image. bytes_under parts.now (finite.get table.now.mapped) (image.base + number)) images.now }
    ensures whole { All (λ page. length page.now ≡ page_size) result }
{
    [
        page_of(parts, table, &images[0], number),
        page_of(parts, table, &images[1], number),
        page_of(parts, table, &images[2], number),
        page_of(parts, table, &images[3], number),
    ]
}

/// The digests of the bytes of four images of one length, computed side by side.
fn digests_of_four(parts: &Parts, table: &Stage2, images: &[Image]) -> [[u8; 32]; 4]
    requires four { AreFourAlike images.now }
    requires measurable { All IsMeasurable images.now }
    requires here { All (IsImageHere parts.now (finite.get table.now.mapped)) images.now }
    ensures { result ≡ map (λ image. sha256 (bytes_of_image parts.now (finite.get table.now.mapped) image)) images.now }
{
    let len = images[0].len;
    let last = pages_of(len) - 1;
    let mut measure = MeasureFour::new();
    for number in 0..last {
        measure.pages(pages_of_four(parts, table, images, number));
    }
    let used = len - last * PAGE_SIZE;
    measure.finish(pages_of_four(parts, table, images, last), used as usize)
}

/// Feeds a measure the bytes of an image, page by page.
fn feed_image(parts: &Parts, table: &Stage2, image: &Image, measure: &mut Measure)
    requires measurable { IsMeasurable image.now }
    requires here { IsImageHere parts.now (finite.get table.now.mapped) image.now }
    ensures { (fed : List ℕ) → WasFed measure.old fed
        → WasFed measure.new (fed ++ bytes_of_image parts.now (finite.get table.now.mapped) image.now) }
{
    let mut left = image.len;
    for gfn in image.base..image.base + pages_of(image.len) {
        let used = left.min(PAGE_SIZE);
        measure.page(page_under(parts, table, gfn).bytes, used as usize);
        left -= used;
    }
}

/// The digest of an image's bytes.
fn digest_of(parts: &Parts, table: &Stage2, image: &Image) -> [u8; 32]
    requires measurable { IsMeasurable image.now }
    requires here { IsImageHere parts.now (finite.get table.now.mapped) image.now }
    ensures { result ≡ sha256 (bytes_of_image parts.now (finite.get table.now.mapped) image.now) }
{
    let mut measure = Measure::new();
    feed_image(parts, table, image, &mut measure);
    measure.finish()
}

/// The launch measurement of what a slot boots: of each image, in order, where it is, how long it is, and its bytes.
fn launch_digest(parts: &Parts, config: &Config, vm: VmId) -> [u8; 32]
    requires low { vm < slot_count config.now }
    requires linked { IsLinked config.now parts.now }
    requires slot { IsSome (vm_at parts.now vm) }
    requires here { All (IsImageHere parts.now (mapped_in (vm_at parts.now vm))) (slot_at (state_of config.now parts.now) vm).images }
    ensures { result ≡ launch_digest (state_of config.now parts.now) vm }
{
    let slot = parts.slot(vm);
    let images = slot.images();
    let mut measure = Measure::new();
    for image in images {
        measure.number(image.base);
        measure.number(image.len);
        feed_image(parts, slot.table(), image, &mut measure);
    }
    measure.finish()
}

/// Whether these are four images of one length.
fn are_four_alike(images: &[Image]) -> bool
    ensures { IsTrue result ↔ AreFourAlike images.now }
{
    images.len() == 4 && images.iter().all(|image| image.len == images[0].len)
}

/// An image with the digest of its bytes.
fn measured(image: &Image, digest: [u8; 32]) -> MeasuredImage
    ensures { result ≡ record { base = image.now.base; len = image.now.len; digest = digest } }
{
    MeasuredImage {
        base: image.base,
        len: image.len,
        digest,
    }
}

/// A slot's images, each with the digest of its bytes.
fn measured_images(parts: &Parts, config: &Config, vm: VmId) -> ArrayVec<MeasuredImage, IMAGE_LIMIT>
    requires low { vm < slot_count config.now }
    requires linked { IsLinked config.now parts.now }
    requires slot { IsSome (vm_at parts.now vm) }
    requires here { All (IsImageHere parts.now (mapped_in (vm_at parts.now vm))) (slot_at (state_of config.now parts.now) vm).images }
    ensures { result.items ≡ measured_images (state_of config.now parts.now) vm }
{
    let slot = parts.slot(vm);
    let images = slot.images();
    let mut measured_images = ArrayVec::new();
    if are_four_alike(images) {
        let digests = digests_of_four(parts, slot.table(), images);
        for i in 0..4 {
            measured_images.push(measured(&images[i], digests[i]));
        }
    } else {
        for image in images {
            measured_images.push(measured(image, digest_of(parts, slot.table(), image)));
        }
    }
    measured_images
}

/// The number of the first image whose digest is not approved.
fn first_unapproved(config: &Config, images: &[MeasuredImage]) -> Option<u32>
    requires { length images.now ≤ image_limit }
    ensures { result ≡ first_failing (λ (image : MeasuredImage). is_approved_digest config.now image.digest) images.now }
{
    let approved = Approved::new(config.approved());
    for i in 0..images.len() {
        if !approved.is_approved(&images[i].digest) {
            return Some(i as u32);
        }
    }
    None
}

/// The launch measurement of what a slot boots, if its version approves boots as a whole.
fn launch_of(parts: &Parts, config: &Config, vm: VmId) -> Option<[u8; 32]>
    requires low { vm < slot_count config.now }
    requires linked { IsLinked config.now parts.now }
    requires slot { IsSome (vm_at parts.now vm) }
    requires here { All (IsImageHere parts.now (mapped_in (vm_at parts.now vm))) (slot_at (state_of config.now parts.now) vm).images }
    ensures { result ≡ launch_of (state_of config.now parts.now) vm }
{
    if config.version().measures_launch() {
        Some(launch_digest(parts, config, vm))
    } else {
        None
    }
}

/// Whether a digest is approved.
fn approves(config: &Config, digest: &[u8; 32]) -> bool
    ensures { result ≡ is_approved_digest config.now digest.now }
{
    Approved::new(config.approved()).is_approved(digest)
}

/// The number of the image for which a boot is rejected, if it is: the first that is not approved, or the first of all if
/// boots are approved as a whole.
fn unapproved(config: &Config, images: &[MeasuredImage], launch: &Option<[u8; 32]>) -> Option<u32>
    requires { length images.now ≤ image_limit }
    ensures { result ≡ rejected_for config.now images.now launch.now }
{
    match launch {
        None => first_unapproved(config, images),
        Some(digest) if approves(config, digest) => None,
        Some(_) => Some(0),
    }
}

/// Zeroes the bytes past an image's end in its last page.
fn trim_image(parts: &mut Parts, config: &Config, vm: VmId, image: &Image)
    requires low { vm < slot_count config.now }
    requires linked { IsLinked config.now parts.old }
    requires measurable { IsMeasurable image.now }
    requires here { IsImageHere parts.old (mapped_in (vm_at parts.old vm)) image.now }
    ensures state { state_of config.now parts.new ≡ trimmed (state_of config.now parts.old) vm image.now }
    ensures linked { IsLinked config.now parts.new }
    ensures places { KeepsPlaces parts.old parts.new }
    ensures slots { parts.new.vms ≡ parts.old.vms }
{
    let slot = parts.slot(vm);
    let frame = backing(slot.table(), image.base + (pages_of(image.len) - 1));
    let page = parts.page_mut(frame);
    let used = (image.len - 1) % PAGE_SIZE + 1;
    page.bytes.zero_from(used as usize);
}

/// Zeroes the bytes past the end of each of a slot's images.
fn trim_images(parts: &mut Parts, config: &Config, vm: VmId)
    requires low { vm < slot_count config.now }
    requires linked { IsLinked config.now parts.old }
    requires slot { IsSome (vm_at parts.old vm) }
    requires here { All (IsImageHere parts.old (mapped_in (vm_at parts.old vm))) (slot_at (state_of config.now parts.old) vm).images }
    ensures state { state_of config.now parts.new ≡ all_trimmed (state_of config.now parts.old) vm (slot_at (state_of config.now parts.old) vm).images }
    ensures linked { IsLinked config.now parts.new }
    ensures places { KeepsPlaces parts.old parts.new }
    ensures slots { parts.new.vms ≡ parts.old.vms }
{
    let count = parts.slot(vm).images().len();
    for i in 0..count {
        let image = parts.slot(vm).images()[i];
        trim_image(parts, config, vm, &image);
    }
}

/// Whether the image lacks a page.
fn is_short(image: &Image) -> bool
    ensures { result ≡ is_short image.now }
{
    image.pages < pages_of(image.len)
}

/// Whether one of the images lacks a page.
fn any_is_short(images: &[Image]) -> bool
    ensures { result ≡ list_any is_short images.now }
{
    images.iter().any(|image| is_short(image))
}

/// Whether a slot has no image, or one that lacks a page.
fn lacks_pages(slot: &Vm) -> bool
    ensures { result ≡ (length slot.now.slot.images == 0 || list_any is_short slot.now.slot.images) }
{
    let images = slot.images();
    images.is_empty() || any_is_short(images)
}

/// The slot of this number, if it is booting and has all pages of its images. A slot that is not here counts as empty.
pub(crate) fn booted_slot(parts: &Parts, config: &Config, vm: u32) -> Result<VmId, Refusal>
    ensures answer { Answers result (refusal (state_of config.now parts.now) (Verify vm)) }
    ensures slot { IfOk result (λ slot. slot ≡ vm) }
{
    let Some(vm) = config.vm(vm) else {
        return Err(Refusal::BadVm);
    };
    let Some(slot) = parts.try_slot(vm) else {
        return Err(Refusal::NoVm);
    };
    match slot.phase() {
        Phase::Empty => Err(Refusal::NoVm),
        Phase::Booting => if lacks_pages(slot) {
            Err(Refusal::ImageShort)
        } else {
            Ok(vm)
        },
        Phase::Active | Phase::Dead => Err(Refusal::WrongPhase),
    }
}

/// The reply to `verify`, and what it measured.
#[derive(Drop)]
pub struct Verified {
    pub reply: Reply,
    /// The slot's images, in the order of their numbers, if the call was not refused.
    pub images: ArrayVec<MeasuredImage, IMAGE_LIMIT>,
    /// The launch measurement, if the call was not refused and the version approves boots as a whole.
    pub launch: Option<[u8; 32]>,
}

impl Verified {
    /// The reply to a `verify` that is refused: it measured nothing.
    pub(crate) fn refused(refusal: Refusal) -> Verified
        ensures reply { result.reply ≡ Refused refusal }
        ensures images { result.images.items ≡ [] }
        ensures launch { result.launch ≡ None }
    {
        Verified {
            reply: Reply::Refused(refusal),
            images: ArrayVec::new(),
            launch: None,
        }
    }
}

/// The number of the image for which a slot's boot is rejected, if it is. Of a boot that is approved as a whole, nothing but
/// the whole is measured.
fn rejected(parts: &Parts, config: &Config, vm: VmId) -> Option<u32>
    requires low { vm < slot_count config.now }
    requires linked { IsLinked config.now parts.now }
    requires slot { IsSome (vm_at parts.now vm) }
    requires here { All (IsImageHere parts.now (mapped_in (vm_at parts.now vm))) (slot_at (state_of config.now parts.now) vm).images }
    ensures { result ≡ unapproved (state_of config.now parts.now) vm }
{
    let launch = launch_of(parts, config, vm);
    if launch.is_some() {
        return unapproved(config, &[], &launch);
    }
    unapproved(
        config,
        measured_images(parts, config, vm).as_slice(),
        &launch,
    )
}

/// Ends the boot of a slot, which is booting and has all pages of its images: it becomes dead if an image is rejected,
/// and active if none is.
fn end_boot(parts: &mut Parts, config: &Config, vm: VmId, rejected: Option<u32>) -> Reply
    requires served { refusal (state_of config.now parts.old) (Verify vm) ≡ None }
    requires able { IsAble config.now parts.old (Verify vm) }
    requires rejected { rejected ≡ unapproved (state_of config.now parts.old) vm }
    ensures { IsAnswer config.now parts.old parts.new (Verify vm) result }
{
    if let Some(image) = rejected {
        parts.slot_mut(vm).kill();
        return Reply::Rejected(image);
    }
    trim_images(parts, config, vm);
    parts.slot_mut(vm).activate();
    Reply::Done
}

/// Verifies a slot: it becomes active if what it boots is approved, and dead if it is not.
#[inline(never)]
pub fn verify(parts: &mut Parts, config: &Config, vm: u32) -> Result<Verified, Refusal>
    requires { IsAble config.now parts.old (Verify vm) }
    ensures answer { MatchResult result (λ verified. IsAnswer config.now parts.old parts.new (Verify vm) verified.reply) (λ why. IsAnswer config.now parts.old parts.new (Verify vm) (Refused why)) }
    ensures images { IfOk result (λ verified. verified.images.items ≡ (measurement_by (state_of config.now parts.old) (Verify vm)).images) }
    ensures launch { IfOk result (λ verified. verified.launch ≡ (measurement_by (state_of config.now parts.old) (Verify vm)).launch) }
    ensures nothing { OnErr result (measurement_by (state_of config.now parts.old) (Verify vm) ≡ nothing_measured) }
{
    let vm = booted_slot(parts, config, vm)?;
    let images = measured_images(parts, config, vm);
    let launch = launch_of(parts, config, vm);
    let rejected = unapproved(config, images.as_slice(), &launch);
    let reply = end_boot(parts, config, vm, rejected);
    Ok(Verified {
        reply,
        images,
        launch,
    })
}

/// Verifies a slot for the reply alone. This is a function of its own, so that no other call clears room for images.
#[inline(never)]
pub fn verify_slot(parts: &mut Parts, config: &Config, vm: u32) -> Result<Reply, Refusal>
    requires { IsAble config.now parts.old (Verify vm) }
    ensures { IsAnswer config.now parts.old parts.new (Verify vm) (reply_of result) }
{
    let vm = booted_slot(parts, config, vm)?;
    let rejected = rejected(parts, config, vm);
    Ok(end_boot(parts, config, vm, rejected))
}
