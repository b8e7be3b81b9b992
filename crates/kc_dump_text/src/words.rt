//! How the words of a dump's line are read.
ghost use Rattle.std.specs.Prelude.{◌≡◌};
ghost use Rattle.kc_types.specs.Limits.{frame_limit, slot_limit, gfn_limit};
ghost use Rattle.kc_dump_text.specs.Words.{below_of, or_dash_of, bit_of, phase_of, owner_of};

use kc_lines::read_number;
use kc_types::{FrameNo, Gfn, Owner, Phase, VmId};

pub fn read_frame(word: &[u8]) -> Option<FrameNo>
    ensures { result ≡ below_of frame_limit word.now }
{
    FrameNo::try_new(read_number(word)?)
}

pub fn read_gfn(word: &[u8]) -> Option<Gfn>
    ensures { result ≡ below_of gfn_limit word.now }
{
    Gfn::try_new(read_number(word)?)
}

fn read_vm(word: &[u8]) -> Option<VmId>
    ensures { result ≡ below_of slot_limit word.now }
{
    VmId::try_new(read_number(word)?)
}

/// A frame, or `None` for a dash.
pub fn read_frame_or_dash(word: &[u8]) -> Option<Option<FrameNo>>
    ensures { result ≡ or_dash_of frame_limit word.now }
{
    if word == b"-".as_slice() {
        return Some(None);
    }
    Some(Some(read_frame(word)?))
}

/// A guest frame, or `None` for a dash.
pub fn read_gfn_or_dash(word: &[u8]) -> Option<Option<Gfn>>
    ensures { result ≡ or_dash_of gfn_limit word.now }
{
    if word == b"-".as_slice() {
        return Some(None);
    }
    Some(Some(read_gfn(word)?))
}

pub fn read_bit(word: &[u8]) -> Option<bool>
    ensures { result ≡ bit_of word.now }
{
    if word == b"1".as_slice() {
        Some(true)
    } else if word == b"0".as_slice() {
        Some(false)
    } else {
        None
    }
}

pub fn read_phase(word: &[u8]) -> Option<Phase>
    ensures { result ≡ phase_of word.now }
{
    if word == b"empty".as_slice() {
        Some(Phase::Empty)
    } else if word == b"booting".as_slice() {
        Some(Phase::Booting)
    } else if word == b"active".as_slice() {
        Some(Phase::Active)
    } else if word == b"dead".as_slice() {
        Some(Phase::Dead)
    } else {
        None
    }
}

pub fn read_owner(word: &[u8]) -> Option<Owner>
    ensures { result ≡ owner_of word.now }
{
    if word == b"core".as_slice() {
        Some(Owner::Core)
    } else if word == b"host".as_slice() {
        Some(Owner::Host)
    } else if word == b"free".as_slice() {
        Some(Owner::Free)
    } else {
        Some(Owner::Vm(read_vm(word)?))
    }
}
