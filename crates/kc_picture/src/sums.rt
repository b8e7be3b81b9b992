//! How much of each column of a row each owner had.
use crate::scale::PLOT;
use crate::vms::{ONE_FEWER, ONE_MORE};
use kc_types::{Bar, Memory, Owner};
use std::alloc::Global;

/// The least width of a cell.
const CELL_WIDTH: u64 = 400;

/// The most columns.
pub(crate) const MOST_COLUMNS: u64 = PLOT / CELL_WIDTH;

/// The number of the first VM among owners, after the core, the host and nobody.
pub(crate) const FIRST_VM: usize = 3;

/// The number of an owner.
fn number_of(owner: Owner) -> usize {
    match owner {
        Owner::Core => 0,
        Owner::Host => 1,
        Owner::Free => 2,
        Owner::Vm(vm) => FIRST_VM + vm.index(),
    }
}

/// How many owners there are, up to the last that some bar has.
pub(crate) fn owners_of(bars: &[Bar]) -> usize {
    let mut owners = FIRST_VM;
    for bar in bars {
        owners = owners.max(number_of(bar.custody.owner).saturating_add(1));
    }
    owners
}

/// Adds to a sum modulo 2^64, if it exists.
fn add(sums: &mut [u64], place: usize, by: u64) {
    if let Some(sum) = sums.get_mut(place) {
        *sum = sum.wrapping_add(by);
    }
}

/// The sum at a place, or 0.
pub(crate) fn at(sums: &[u64], place: usize) -> u64 {
    match sums.get(place) {
        Some(sum) => *sum,
        None => 0,
    }
}

/// What each owner had of one row, column by column, as differences: of each bar what it has of the column in which it
/// begins or ends, and what it has, or no longer has, of each column from the next on. The unit is a frame through a
/// line, cut into as many parts as there are columns: a column is as many of these wide as there are lines, so every
/// weight is whole. A sum is taken modulo 2^64, in which what is added and taken away again leaves nothing.
#[derive(Drop)]
pub(crate) struct Sums {
    pub owners: usize,
    pub columns: u64,
    last: u64,
    parts: Vec<u64>,
    wholes: Vec<u64>,
    pub shared: Vec<u64>,
}

impl Sums {
    /// None, for these numbers of owners, columns and lines.
    fn new(alloc: Global, owners: usize, columns: u64, last: u64) -> Result<Sums, Memory> {
        let places = (columns.min(MOST_COLUMNS) as usize + 2).saturating_mul(owners);
        Ok(Sums {
            owners,
            columns,
            last,
            parts: vec![in alloc; 0; places]?,
            wholes: vec![in alloc; 0; places]?,
            shared: vec![in alloc; 0; columns.min(MOST_COLUMNS) as usize + 2]?,
        })
    }

    /// Where a line begins, in parts of a line.
    fn at(&self, line: u32) -> u64 {
        let lines = u64::from(line).saturating_sub(1).min(self.last);
        lines.saturating_mul(self.columns)
    }

    /// The place of an owner's sum of a column.
    fn place(&self, column: u64, owner: usize) -> usize {
        (column as usize)
            .saturating_mul(self.owners)
            .saturating_add(owner)
    }

    /// The column of a part of a line.
    fn column(&self, at: u64) -> u64 {
        (at / self.last.max(1)).min(self.columns)
    }

    /// Counts one frame more of an owner, or one fewer, from a part of a line on.
    fn change(&mut self, owner: usize, at: u64, frames: u64) {
        let column = self.column(at);
        let place = self.place(column, owner);
        let end = column.saturating_add(1).saturating_mul(self.last);
        let rest = end.saturating_sub(at);
        add(&mut self.parts, place, rest.wrapping_mul(frames));
        let next = place.saturating_add(self.owners);
        add(&mut self.wholes, next, self.last.wrapping_mul(frames));
    }

    /// Counts a frame that is shared from one part of a line up to another.
    fn share(&mut self, from: u64, to: u64) {
        let first = self.column(from);
        let end = self.column(to.saturating_add(self.last.saturating_sub(1)));
        add(&mut self.shared, first as usize, ONE_MORE);
        add(&mut self.shared, end as usize, ONE_FEWER);
    }

    /// Adds a bar.
    fn add_bar(&mut self, bar: &Bar) {
        let owner = number_of(bar.custody.owner);
        let from = self.at(bar.from);
        let to = self.at(bar.to);
        self.change(owner, from, ONE_MORE);
        self.change(owner, to, ONE_FEWER);
        if bar.custody.share > 0 {
            self.share(from, to);
        }
    }
}

/// Adds up a row's bars, of this many owners. `Memory` if there was none for it.
pub(crate) fn sums_of(
    alloc: Global,
    owners: usize,
    columns: u64,
    last: u64,
    bars: &[Bar],
    row: &[usize],
) -> Result<Sums, Memory> {
    let mut sums = Sums::new(alloc, owners, columns, last)?;
    for i in row {
        if let Some(bar) = bars.get(*i) {
            sums.add_bar(bar);
        }
    }
    Ok(sums)
}

/// Brings up to a column what each owner has of it; `running` holds how many frames each has, in lines.
pub(crate) fn weigh(sums: &Sums, running: &mut [u64], weights: &mut [u64], column: u64) {
    for owner in 0..sums.owners {
        let place = sums.place(column, owner);
        add(running, owner, at(&sums.wholes, place));
        let weight = at(running, owner).wrapping_add(at(&sums.parts, place));
        if let Some(old) = weights.get_mut(owner) {
            *old = weight;
        }
    }
}
