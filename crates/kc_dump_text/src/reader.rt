//! Reading a dump.
ghost use Rattle.std.specs.Prelude.{ℕ, List, ◌≡◌, ◌<◌, ◌≤◌, ◌+◌, ◌==◌, ◌&&◌, ◌⊎◌, ◌++◌, [], true, false, length, MatchOption, MatchResult};
ghost use Rattle.std.specs.List.{flat_map};
ghost use Rattle.kc_types.specs.Limits.{byte_limit};
ghost use Rattle.kc_types.specs.Configuration.{slots_of, has_dump};
ghost use Rattle.kc_types.specs.declared.version.Version.{Version};
ghost use Rattle.kc_dump.specs.Dump.{Dumped};
ghost use Rattle.kc_dump_text.specs.declared.fault.DumpFault.TheVariants.{Memory};
ghost use Rattle.kc_dump_text.specs.DumpText.{dump_header, spell};
ghost use Rattle.kc_dump_text.specs.Grammar.{IsDumpText};
ghost use Rattle.kc_dump_text.specs.Places.{is_other, may};
ghost use Rattle.kc_dump_text.specs.Begun.{newlines, HasNone, HasOther, begun_lines, IsBegun, IsTextOf, IsStuck};
ghost use Rattle.kc_dump_text.specs.Refused.{IsRefusedDump};

use crate::begun::Begun;
use crate::fault::DumpFault;
use crate::next::{next_free, next_other, next_size, read_lines};
use crate::place::{Place, Sizes};
use kc_dump::Dump;
use kc_types::Version;
use std::alloc::Global;

fn count_newlines(bytes: &[u8]) -> u32
    requires { length bytes.now ≤ byte_limit }
    ensures value { result ≡ newlines bytes.now }
    ensures few { result ≤ length bytes.now }
{
    let mut count = 0;
    for i in 0..bytes.len() {
        if bytes[i] == b'\n' {
            count += 1;
        }
    }
    count
}

/// The number of the first line of the rest, if the text is what is after the header.
fn line_number(text: &[u8], rest: &[u8]) -> u32
    requires few { length text.now ≤ byte_limit }
    requires within { length rest.now ≤ length text.now }
    ensures { (before : List ℕ) → text.now ≡ before ++ rest.now → result ≡ newlines before + 2 }
{
    count_newlines(&text[..text.len() - rest.len()]) + 2
}

/// Whether a frame should come at this place, and there is no rest, or the rest begins with the line of another frame.
fn lacks_frame(sizes: Sizes, place: Place, rest: &[u8]) -> bool
    ensures yes { result ≡ true → (place.vm ≡ slots_of sizes.version) × (place.frame < sizes.frames) × ((rest.now ≡ []) ⊎ HasOther sizes.version sizes.frames place.frame rest.now) }
    ensures no { result ≡ false → place.vm ≡ slots_of sizes.version → place.frame < sizes.frames → (rest.now ≡ [] → ⊥) × HasNone (is_other sizes.version sizes.frames place.frame) rest.now }
{
    if place.vm != sizes.version.slots() || sizes.frames <= place.frame {
        return false;
    }
    if rest.is_empty() {
        return true;
    }
    let Some(_other) = next_other(sizes, place.frame, rest) else {
        return false;
    };
    true
}

/// Whether all slots and frames were read, and there is no rest.
fn is_whole(sizes: Sizes, place: Place, rest: &[u8]) -> bool
    ensures { result ≡ (place.vm == slots_of sizes.version && place.frame == sizes.frames && length rest.now == 0) }
{
    place.vm == sizes.version.slots() && place.frame == sizes.frames && rest.is_empty()
}

/// Returns the dump if it is whole, and otherwise what is wrong after what was read.
fn finish(
    sizes: Sizes,
    begun: Begun,
    place: Place,
    text: &[u8],
    rest: &[u8],
) -> Result<Dump, DumpFault>
    requires begun { IsBegun sizes.version sizes.frames begun place }
    requires whole { text.now ≡ flat_map spell (begun_lines sizes.frames begun) ++ rest.now }
    requires none { HasNone (may sizes.version sizes.frames place) rest.now }
    requires few { length text.now ≤ byte_limit }
    ensures { MatchResult result (λ dump. IsTextOf sizes.version text.now dump) (λ fault. IsStuck sizes.version text.now fault) }
{
    if is_whole(sizes, place, rest) {
        return Ok(begun.into_dump());
    }
    if lacks_frame(sizes, place, rest) {
        return Err(DumpFault::Frame(place.frame));
    }
    Err(DumpFault::BadLine(line_number(text, rest)))
}

/// Reads the dump that has these lines.
fn read_after_header(alloc: Global, version: Version, text: &[u8]) -> Result<Dump, DumpFault>
    requires { length text.now ≤ byte_limit }
    ensures { MatchResult result (λ dump. IsTextOf version text.now dump) (λ fault. IsStuck version text.now fault) }
{
    let Some((frames, core, leaves, rest)) = next_size(version, text) else {
        return Err(DumpFault::BadLine(2));
    };
    let Some((free, rest)) = next_free(frames, rest) else {
        return Err(DumpFault::BadLine(3));
    };
    let sizes = Sizes { version, frames };
    let mut begun = Begun::new(alloc, version, core, leaves, free);
    let (place, rest) = read_lines(alloc, sizes, &mut begun, rest)?;
    finish(sizes, begun, place, text, rest)
}

/// The version of the dump and what is after its header, if the text begins with one.
fn after_header(text: &[u8]) -> Option<(Version, &[u8])>
    ensures { MatchOption result ((version : Version) (rest : List ℕ) → has_dump version ≡ true → text.now ≡ dump_header version ++ rest → ⊥)
        (λ cut. (has_dump cut.0 ≡ true) × (text.now ≡ dump_header cut.0 ++ cut.1.now)) }
{
    if text.len() < 13 {
        return None;
    }
    let (head, rest) = text.split_at(13);
    if head == b"kcore-dump 1\n".as_slice() {
        Some((Version::One, rest))
    } else if head == b"kcore-dump 2\n".as_slice() {
        Some((Version::Two, rest))
    } else {
        None
    }
}

/// Reads the dump that a text spells, of at most 1,073,741,824 bytes. `Memory` is the only fault that says nothing
/// about the text.
pub fn read_dump(alloc: Global, text: &[u8]) -> Result<Dump, DumpFault>
    requires { length text.now ≤ byte_limit }
    // What is read is a dump, and what is refused is not, for its first fault.
    ensures found { MatchResult result (λ dump. IsDumpText text.now dump) (λ fault. IsRefusedDump text.now fault) }

    // A dump's text is read as that dump, unless memory runs out.
    ensures only { (dump : Dumped) → IsDumpText text.now dump → MatchResult result (λ read. read ≡ dump) (λ fault. fault ≡ Memory) }
{
    let Some((version, rest)) = after_header(text) else {
        return Err(DumpFault::NoHeader);
    };
    read_after_header(alloc, version, rest)
}
