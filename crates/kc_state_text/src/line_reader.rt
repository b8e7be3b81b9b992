//! What a line before the dump says.
ghost use Rattle.std.specs.Prelude.{ℕ, List, ◌≡◌, ◌∷◌, [], codes, MatchOption};
ghost use Rattle.kc_model.specs.State.{Vcpu};
ghost use Rattle.kc_model.specs.Volumes.{IsDigest};
ghost use Rattle.kc_state_text.specs.Words.{vcpu_in};
ghost use Rattle.kc_state_text.specs.StateText.{sizes_words, approved_words, vcpu_words, image_words, vcpus_words, images_words, slot_words};
ghost use Rattle.kc_state_text.specs.Reading.{LacksFirst, LacksWhole, BeginsAs, IsWhole, after_name, AreVcpus, AreImages};
ghost use Rattle.kc_state_text.specs.Refused.{AreSizes, IsVcpuWord, AreImageWords, IsSlotLine};
ghost use Rattle.kc_trace.specs.HeadReading.{words_in};

use crate::sizes::Sizes;
use crate::words::{take_name, take_number, take_number_to};
use arrayvec::ArrayVec;
use kc_lines::{LineWords, read_digest, read_number};
use kc_snapshot::SlotRest;
use kc_types::{
    DIGEST_LIMIT, FIRST_GFN_LIMIT, FIRST_IMAGE_LIMIT, FIRST_VCPU_LIMIT, Image, SECOND_FRAME_LIMIT,
    SECOND_SLOT_LIMIT, Vcpu,
};

/// Reads the line of sizes, each one that a configuration may have.
pub fn read_sizes(line: &[u8]) -> Option<Sizes>
    ensures { MatchOption result
        (LacksWhole AreSizes (after_name (codes "config") sizes_words) (words_in line.now))
        (λ sizes. IsWhole AreSizes (after_name (codes "config") sizes_words) (words_in line.now) sizes) }
{
    let mut words = LineWords::new(line);
    take_name(&mut words, b"config")?;
    let slots = take_number_to(&mut words, SECOND_SLOT_LIMIT)?;
    let frames = take_number_to(&mut words, SECOND_FRAME_LIMIT)?;
    let host = take_number_to(&mut words, SECOND_FRAME_LIMIT)?;
    let approved = take_number_to(&mut words, DIGEST_LIMIT as u32)?;
    words.end()?;
    Some(Sizes {
        slots,
        frames,
        host,
        approved,
    })
}

/// Reads the line of an approved digest.
pub fn read_approved(line: &[u8]) -> Option<[u8; 32]>
    ensures { MatchOption result
        (LacksWhole IsDigest (after_name (codes "approved") approved_words) (words_in line.now))
        (λ digest. IsWhole IsDigest (after_name (codes "approved") approved_words) (words_in line.now) digest) }
{
    let mut words = LineWords::new(line);
    take_name(&mut words, b"approved")?;
    let digest = read_digest(words.next()?)?;
    words.end()?;
    Some(digest)
}

/// Reads a virtual processor's word.
#[tactic(auto, unfolding(crate::specs::Words::vcpu_in))]
fn vcpu_of(word: &[u8]) -> Option<Vcpu>
    ensures { result ≡ vcpu_in word.now }
{
    if word == b"-".as_slice() {
        return Some(Vcpu {
            registered: false,
            fault: None,
        });
    }
    if word == b".".as_slice() {
        return Some(Vcpu {
            registered: true,
            fault: None,
        });
    }
    let gfn = read_number(word)?;
    if gfn < FIRST_GFN_LIMIT {
        Some(Vcpu {
            registered: true,
            fault: Some(gfn),
        })
    } else {
        None
    }
}

/// Reads the next virtual processor.
fn read_vcpu(words: &mut LineWords) -> Option<Vcpu>
    ensures { MatchOption result
        (LacksFirst IsVcpuWord vcpu_words words.old)
        (λ vcpu. BeginsAs IsVcpuWord vcpu_words words.old vcpu words.new) }
{
    vcpu_of(words.next()?)
}

/// Reads the next 8 virtual processors.
fn read_vcpus(words: &mut LineWords) -> Option<ArrayVec<Vcpu, FIRST_VCPU_LIMIT>>
    ensures { MatchOption result
        (LacksFirst AreVcpus vcpus_words words.old)
        (λ vcpus. BeginsAs AreVcpus vcpus_words words.old vcpus.items words.new) }
{
    let mut vcpus = ArrayVec::new();
    for _number in 0..FIRST_VCPU_LIMIT {
        vcpus.push(read_vcpu(words)?);
    }
    Some(vcpus)
}

/// Reads the next image.
fn read_image(words: &mut LineWords) -> Option<Image>
    ensures { MatchOption result
        (LacksFirst AreImageWords image_words words.old)
        (λ image. BeginsAs AreImageWords image_words words.old image words.new) }
{
    let base = take_number(words)?;
    let len = take_number(words)?;
    let pages = take_number(words)?;
    Some(Image { base, len, pages })
}

/// Reads the words that are left as images, at most 4.
fn read_images(words: &mut LineWords) -> Option<ArrayVec<Image, FIRST_IMAGE_LIMIT>>
    ensures { MatchOption result
        (LacksWhole AreImages images_words words.old)
        (λ images. IsWhole AreImages images_words words.old images.items) }
{
    let mut images = ArrayVec::new();
    while !words.is_end() {
        let image = read_image(words)?;
        if images.is_full() {
            return None;
        }
        images.push(image);
    }
    Some(images)
}

/// Reads the line of a slot.
pub fn read_slot(line: &[u8]) -> Option<SlotRest>
    ensures { MatchOption result
        (LacksWhole IsSlotLine (after_name (codes "slot") slot_words) (words_in line.now))
        (λ slot. IsWhole IsSlotLine (after_name (codes "slot") slot_words) (words_in line.now) slot) }
{
    let mut words = LineWords::new(line);
    take_name(&mut words, b"slot")?;
    let vcpus = read_vcpus(&mut words)?;
    let images = read_images(&mut words)?;
    Some(SlotRest { vcpus, images })
}

/// The word of a line of a page.
pub fn page_word(line: &[u8]) -> Option<&[u8]>
    ensures { MatchOption result
        ((word : List ℕ) → words_in line.now ≡ codes "page" ∷ word ∷ [] → ⊥)
        (λ word. words_in line.now ≡ codes "page" ∷ word.now ∷ []) }
{
    let mut words = LineWords::new(line);
    take_name(&mut words, b"page")?;
    let word = words.next()?;
    words.end()?;
    Some(word)
}
