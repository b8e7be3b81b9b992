//! Whether a slot may be as described.
ghost use Rattle.std.specs.Prelude.{◌≡◌, ◌↔◌, IsTrue, All, length};
ghost use Rattle.kc_types.specs.Configuration.{vcpus_of};
ghost use Rattle.kc_model.specs.State.{absent_vcpu, no_vcpus};
ghost use Rattle.kc_model.specs.Lawful.{IsLawfulVcpu, IsLawfulImage, Apart};
ghost use Rattle.kc_vms.specs.Vm.{IsSlot};

use crate::pages::pages_of;
use crate::vm::overlaps_any;
use kc_types::{Image, Phase, Vcpu, Version};

/// Whether a virtual processor of a slot in this phase may wait for what it waits for.
fn is_vcpu(version: Version, phase: Phase, vcpu: &Vcpu) -> bool
    ensures { IsTrue result ↔ IsLawfulVcpu version phase vcpu.now }
{
    match vcpu.fault {
        Some(gfn) => vcpu.registered && phase == Phase::Active && gfn < version.gfns(),
        None => true,
    }
}

fn are_vcpus(version: Version, phase: Phase, vcpus: &[Vcpu]) -> bool
    ensures { IsTrue result ↔ All (IsLawfulVcpu version phase) vcpus.now }
{
    for vcpu in vcpus {
        if !is_vcpu(version, phase, vcpu) {
            return false;
        }
    }
    true
}

fn is_absent(vcpu: &Vcpu) -> bool
    ensures { IsTrue result ↔ (vcpu.now ≡ absent_vcpu) }
{
    !vcpu.registered && vcpu.fault.is_none()
}

/// Whether none of a VM's virtual processors is registered.
fn are_absent(version: Version, vcpus: &[Vcpu]) -> bool
    requires { length vcpus.now ≡ vcpus_of version }
    ensures { IsTrue result ↔ (vcpus.now ≡ no_vcpus version) }
{
    for vcpu in vcpus {
        if !is_absent(vcpu) {
            return false;
        }
    }
    true
}

/// Whether an image is within the limits.
fn is_image(version: Version, image: &Image) -> bool
    ensures { IsTrue result ↔ IsLawfulImage version image.now }
{
    let pages = pages_of(image.len);
    0 < image.len
        && image.len <= version.most_image_bytes()
        && u64::from(image.base) + u64::from(pages) <= u64::from(version.gfns())
        && image.pages <= pages
}

fn are_images(version: Version, images: &[Image]) -> bool
    ensures { IsTrue result ↔ All (IsLawfulImage version) images.now }
{
    for image in images {
        if !is_image(version, image) {
            return false;
        }
    }
    true
}

/// Whether no guest frame is in two images.
fn are_apart(images: &[Image]) -> bool
    ensures { IsTrue result ↔ Apart images.now }
{
    for i in 0..images.len() {
        if overlaps_any(images[i].base, images[i].len, &images[..i]) {
            return false;
        }
    }
    true
}

/// Whether a slot of this version in this phase may have these virtual processors and these boot images.
pub fn is_slot(version: Version, phase: Phase, vcpus: &[Vcpu], images: &[Image]) -> bool
    ensures { IsTrue result ↔ IsSlot version phase vcpus.now images.now }
{
    let (count, most) = (version.vcpus() as usize, version.most_images() as usize);
    if vcpus.len() != count || images.len() > most {
        return false;
    }
    if !are_vcpus(version, phase, vcpus) {
        return false;
    }
    if !are_images(version, images) {
        return false;
    }
    if !are_apart(images) {
        return false;
    }
    if phase != Phase::Empty {
        return true;
    }
    images.is_empty() && are_absent(version, vcpus)
}
