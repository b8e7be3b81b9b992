//! The titles of bars and of cells.
ghost use Rattle.std.specs.Prelude.{◌≡◌, ◌++◌, IfOk, OnOk, codes};
ghost use Rattle.std.specs.String.{string_bytes};
ghost use Rattle.kc_picture.specs.Titles.{place_words, owner_words, grant_words, reach_words, custody_words, bar_title, frames_words, whose_words, cell_title};

use crate::cells::Whose;
use kc_types::{Bar, Custody, Gfn, Memory, Owner};
use std::alloc::Global;

/// Appends the guest frame at which a VM sees a frame, if it does.
pub fn push_place(words: &mut String, gfn: Option<Gfn>) -> Result<(), Memory>
    ensures { OnOk result (string_bytes words.new ≡ string_bytes words.old ++ place_words gfn) }
{
    if let Some(gfn) = gfn {
        write!(words, " at guest frame {}", gfn.number())?;
    }
    Ok(())
}

/// Appends who owns a frame, and of a VM's at which guest frame.
pub fn push_owner(words: &mut String, owner: Owner, gfn: Option<Gfn>) -> Result<(), Memory>
    ensures { OnOk result (string_bytes words.new ≡ string_bytes words.old ++ owner_words owner gfn) }
{
    match owner {
        Owner::Core => words.push_str("core")?,
        Owner::Host => words.push_str("host")?,
        Owner::Free => words.push_str("free")?,
        Owner::Vm(vm) => {
            write!(words, "vm {}", vm.index())?;
            push_place(words, gfn)?;
        },
    }
    Ok(())
}

/// Appends how often a frame is granted, if it is.
fn push_grants(words: &mut String, grants: u32) -> Result<(), Memory>
    ensures { OnOk result (string_bytes words.new ≡ string_bytes words.old ++ grant_words grants) }
{
    match grants {
        0 => {},
        1 => words.push_str(", 1 grant")?,
        _ => write!(words, ", {grants} grants")?,
    }
    Ok(())
}

/// Appends that the host reaches a frame, if it does.
fn push_reach(words: &mut String, reached: bool) -> Result<(), Memory>
    ensures { OnOk result (string_bytes words.new ≡ string_bytes words.old ++ reach_words reached) }
{
    if reached {
        words.push_str(", reached by the host")?;
    }
    Ok(())
}

/// Appends a frame's custody.
fn push_custody(words: &mut String, custody: &Custody) -> Result<(), Memory>
    ensures { OnOk result (string_bytes words.new ≡ string_bytes words.old ++ custody_words custody.now) }
{
    push_owner(words, custody.owner, custody.gfn)?;
    push_grants(words, custody.share)?;
    push_reach(words, custody.present)
}

/// The title of a bar: "frame 3, lines 17 to 22: vm 0 at guest frame 7, 1 grant, reached by the host".
pub(crate) fn bar_title(alloc: Global, bar: &Bar) -> Result<String, Memory>
    ensures { IfOk result (λ title. string_bytes title ≡ bar_title bar.now) }
{
    let (frame, from, last) = (bar.frame, bar.from, bar.to.saturating_sub(1));
    let mut title = format!(in alloc; "frame {frame}, lines {from} to {last}: ")?;
    push_custody(&mut title, &bar.custody)?;
    Ok(title)
}

/// Cells side by side in one row: their frames, and the lines that fall into them, each from the first to the last.
#[derive(Clone, Copy)]
pub(crate) struct Block {
    pub first_frame: u64,
    pub last_frame: u64,
    pub first_line: u64,
    pub last_line: u64,
}

/// Spells the frames of some cells.
fn frames_words(alloc: Global, first: u64, last: u64) -> Result<String, Memory>
    ensures { IfOk result (λ words. string_bytes words ≡ frames_words first last) }
{
    if first == last {
        return Ok(format!(in alloc; "frame {first}")?);
    }
    Ok(format!(in alloc; "frames {first} to {last}")?)
}

/// Appends whose a cell is; of a picture of one VM alone, whether that had any of it.
fn push_whose(words: &mut String, whose: Whose, alone: bool) -> Result<(), Memory>
    ensures { OnOk result (string_bytes words.new ≡ string_bytes words.old ++ whose_words alone whose) }
{
    match whose {
        Whose::Vm(vm) if alone => write!(words, "vm {vm} had some of it")?,
        Whose::Vm(vm) => write!(words, "vm {vm} had more of it than all other VMs together")?,
        Whose::Several => words.push_str(
            "several VMs had some of it, none more than all others together",
        )?,
        Whose::Rest(_) if alone => words.push_str("the VM had none of it")?,
        Whose::Rest(_) => words.push_str("no VM had any of it")?,
    }
    Ok(())
}

/// The title of cells of one owner: "frames 64 to 95, lines 17 to 256: vm 3 had more of it than all other VMs together".
pub(crate) fn cell_title(
    alloc: Global,
    block: &Block,
    whose: Whose,
    alone: bool,
) -> Result<String, Memory>
    ensures { IfOk result (λ title. string_bytes title ≡ cell_title alone block.now whose) }
{
    let mut title = frames_words(alloc, block.first_frame, block.last_frame)?;
    let (from, to) = (block.first_line, block.last_line);
    write!(title, ", lines {from} to {to}: ")?;
    push_whose(&mut title, whose, alone)?;
    Ok(title)
}
