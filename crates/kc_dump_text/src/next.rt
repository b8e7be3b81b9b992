//! The next line of a dump's text, if it is one that may come.
ghost use Rattle.std.specs.Prelude.{◌≡◌, ◌++◌, true, None, Some, IfOk, MatchOption};
ghost use Rattle.kc_dump.specs.Ranges.{are_ends};
ghost use Rattle.kc_dump_text.specs.DumpText.{spell};
ghost use Rattle.kc_dump_text.specs.Places.{is_size, is_free, is_other, start, may, place_after};
ghost use Rattle.kc_dump_text.specs.Begun.{first_line, HasNone, ReadsOn, IsBegun};
ghost use Rattle.kc_dump_text.specs.declared.dump_line.DumpLine.TheVariants.{SizeOf, FreeOf, FrameOf};

use crate::begun::Begun;
use crate::dump_line::DumpLine;
use crate::line_reader::read_line;
use crate::place::{Place, Sizes};
use crate::ranges::{are_ends, are_sizes, is_frame};
use kc_dump::FrameLine;
use kc_lines::split_line;
use kc_types::{Ends, Memory, Version};
use std::alloc::Global;

/// The first line, if it is one of a dump, and what is after it.
pub fn next_line(text: &[u8]) -> Option<(DumpLine, &[u8])>
    ensures { MatchOption result (first_line text.now ≡ None) (λ cut. (first_line text.now ≡ Some cut.0) × (text.now ≡ spell cut.0 ++ cut.1.now)) }
{
    let Some((bytes, rest)) = split_line(text) else {
        return None;
    };
    let Some(line) = read_line(bytes) else {
        return None;
    };
    Some((line, rest))
}

/// The line of sizes.
pub fn next_size(version: Version, text: &[u8]) -> Option<(u32, u32, u32, &[u8])>
    ensures { MatchOption result (HasNone (is_size version) text.now)
        (λ cut. (text.now ≡ spell (SizeOf cut.0 cut.1 cut.2) ++ cut.3.now) × (is_size version (SizeOf cut.0 cut.1 cut.2) ≡ true)) }
{
    let Some((line, rest)) = next_line(text) else {
        return None;
    };
    match line {
        DumpLine::SizeOf(frames, core, leaves) => {
            if are_sizes(version, frames, core, leaves) {
                Some((frames, core, leaves, rest))
            } else {
                None
            }
        }
        _ => None,
    }
}

/// The line of the free list.
pub fn next_free(frames: u32, text: &[u8]) -> Option<(Ends, &[u8])>
    ensures { MatchOption result (HasNone (is_free frames) text.now) (λ cut. (text.now ≡ spell (FreeOf cut.0) ++ cut.1.now) × (are_ends frames cut.0 ≡ true)) }
{
    let Some((line, rest)) = next_line(text) else {
        return None;
    };
    match line {
        DumpLine::FreeOf(ends) => {
            if are_ends(frames, &ends) {
                Some((ends, rest))
            } else {
                None
            }
        }
        _ => None,
    }
}

/// The line that may come at this place, and the place after it.
fn next_at(sizes: Sizes, place: Place, text: &[u8]) -> Option<(DumpLine, Place, &[u8])>
    ensures { MatchOption result (HasNone (may sizes.version sizes.frames place) text.now)
        (λ cut. (text.now ≡ spell cut.0 ++ cut.2.now) × (may sizes.version sizes.frames place cut.0 ≡ true) × (cut.1 ≡ place_after place cut.0)) }
{
    let Some((line, rest)) = next_line(text) else {
        return None;
    };
    let Some(next) = place.after(sizes, &line) else {
        return None;
    };
    Some((line, next, rest))
}

/// Reads the lines after the first two, as long as one may come, and returns the place after them and the rest.
pub fn read_lines<'a>(
    alloc: Global,
    sizes: Sizes,
    begun: &mut Begun,
    text: &'a [u8],
) -> Result<(Place, &'a [u8]), Memory>
    requires { IsBegun sizes.version sizes.frames begun.old start }
    ensures { IfOk result (λ cut. IsBegun sizes.version sizes.frames begun.new cut.0 × ReadsOn sizes.frames begun.old text.now begun.new cut.1.now × HasNone (may sizes.version sizes.frames cut.0) cut.1.now) }
{
    let mut place = Place::start();
    let mut rest = text;
    while let Some((line, next, more)) = next_at(sizes, place, rest) {
        begun.push(alloc, line)?;
        place = next;
        rest = more;
    }
    Ok((place, rest))
}

/// The line of a frame in range other than this one.
pub fn next_other(sizes: Sizes, number: u32, text: &[u8]) -> Option<(u32, FrameLine, &[u8])>
    ensures { MatchOption result (HasNone (is_other sizes.version sizes.frames number) text.now)
        (λ cut. (text.now ≡ spell (FrameOf cut.0 cut.1) ++ cut.2.now) × (is_other sizes.version sizes.frames number (FrameOf cut.0 cut.1) ≡ true)) }
{
    let Some((line, rest)) = next_line(text) else {
        return None;
    };
    match line {
        DumpLine::FrameOf(other, frame) => {
            if other != number
                && other < sizes.frames
                && is_frame(sizes.version, sizes.frames, &frame)
            {
                Some((other, frame, rest))
            } else {
                None
            }
        }
        _ => None,
    }
}
