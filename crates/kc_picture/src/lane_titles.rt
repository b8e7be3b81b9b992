//! The titles of lives, and of the marks in lanes.
ghost use Rattle.std.specs.Prelude.{◌≡◌, ◌++◌, IfOk, OnOk};
ghost use Rattle.std.specs.String.{string_bytes};
ghost use Rattle.kc_picture.specs.LaneTitles.{registered_words, measured_words, cleared_words, stay_title, tick_title, lives_title, deaths_title};

use crate::scale::Scale;
use crate::vms::{HEADER_LINE, Measured, Stay};
use kc_types::Memory;
use std::alloc::Global;

/// Appends at which line a life began, or that it did so before the first call.
fn push_registered(words: &mut String, line: u32) -> Result<(), Memory>
    ensures { OnOk result (string_bytes words.new ≡ string_bytes words.old ++ registered_words line) }
{
    if line == HEADER_LINE {
        words.push_str(": there before the first call")?;
    } else {
        write!(words, ": registered at line {line}")?;
    }
    Ok(())
}

/// Appends how the measuring of a VM's images ended, and at which line.
fn push_measured(words: &mut String, measured: Measured) -> Result<(), Memory>
    ensures { OnOk result (string_bytes words.new ≡ string_bytes words.old ++ measured_words measured) }
{
    match measured {
        Measured::Not => words.push_str(", never measured")?,
        Measured::Active(HEADER_LINE) => words.push_str(", active")?,
        Measured::Dead(HEADER_LINE) => words.push_str(", dead")?,
        Measured::Active(line) => write!(words, ", measured and active from line {line}")?,
        Measured::Dead(line) => write!(words, ", measured and dead from line {line}")?,
    }
    Ok(())
}

/// Appends at which line a life ended, if it did.
fn push_cleared(words: &mut String, cleared: Option<u32>) -> Result<(), Memory>
    ensures { OnOk result (string_bytes words.new ≡ string_bytes words.old ++ cleared_words cleared) }
{
    match cleared {
        Some(line) => write!(words, ", cleared at line {line}")?,
        None => words.push_str(", there at the end")?,
    }
    Ok(())
}

/// The title of a life: "vm 0: registered at line 4, measured and active from line 8, cleared at line 29".
pub(crate) fn stay_title(alloc: Global, vm: u32, stay: &Stay) -> Result<String, Memory>
    ensures { IfOk result (λ title. string_bytes title ≡ stay_title vm stay.now) }
{
    let mut title = format!(in alloc; "vm {vm}")?;
    push_registered(&mut title, stay.registered)?;
    push_measured(&mut title, stay.measured)?;
    push_cleared(&mut title, stay.cleared)?;
    Ok(title)
}

/// The title of a mark in a lane: "vm 0 registered at line 4".
pub(crate) fn tick_title(alloc: Global, vm: u32, what: &str, line: u32) -> Result<String, Memory>
    ensures { IfOk result (λ title. string_bytes title ≡ tick_title vm what.now line) }
{
    Ok(format!(in alloc; "vm {vm} {what} at line {line}")?)
}

/// Lives or marks that are drawn as one: how many, and the lines of the first and the last of them.
#[derive(Clone, Copy)]
pub struct Run {
    pub count: u64,
    pub first: u32,
    pub last: u32,
}

impl Run {
    /// One life or mark alone, from its first line to its last.
    pub fn new(first: u32, last: u32) -> Run {
        Run {
            count: 1,
            first,
            last,
        }
    }

    /// Adds a mark if its line lies within a width of the first, and returns whether it does.
    pub fn add(&mut self, scale: Scale, width: u64, line: u32) -> bool {
        let is_near = scale.width(self.first, line) < width;
        if is_near {
            self.count = self.count.saturating_add(1);
            self.last = line;
        }
        is_near
    }
}

/// The title of lives that are drawn as one: "vm 0: 12 lives, lines 4 to 90".
pub(crate) fn lives_title(alloc: Global, vm: u32, run: &Run) -> Result<String, Memory>
    ensures { IfOk result (λ title. string_bytes title ≡ lives_title vm run.now.count run.now.first run.now.last) }
{
    let (count, first, last) = (run.count, run.first, run.last);
    Ok(format!(in alloc; "vm {vm}: {count} lives, lines {first} to {last}")?)
}

/// The title of the mark of several dead VMs: "vm 0: 3 measured and dead, lines 17 to 40".
pub(crate) fn deaths_title(alloc: Global, vm: u32, run: &Run) -> Result<String, Memory>
    ensures { IfOk result (λ title. string_bytes title ≡ deaths_title vm run.now.count run.now.first run.now.last) }
{
    let (count, first, last) = (run.count, run.first, run.last);
    Ok(format!(in alloc; "vm {vm}: {count} measured and dead, lines {first} to {last}")?)
}
