//! The rows of the picture of one VM: a frame each, in the order in which they came, and the bars in them.
ghost use Rattle.std.specs.Prelude.{◌≡◌, IfOk};
ghost use Rattle.kc_picture.specs.VmRows.{is_held_by, bars_of_vm, rows};

use indexmap::IndexSet;
use kc_remarks::is_owned_by;
use kc_types::{Bar, Memory};
use std::alloc::Global;

/// Whether a bar is the VM's in a slot.
fn is_held_by(bar: &Bar, vm: u32) -> bool
    ensures { result ≡ is_held_by vm bar.now }
{
    is_owned_by(bar.custody.owner, vm)
}

/// Leaves the bars that are the VM's in a slot, in their order.
pub(crate) fn keep_bars_of(bars: &mut Vec<Bar>, vm: u32)
    ensures { bars.new.items ≡ bars_of_vm vm bars.old.items }
{
    bars.retain(|bar| is_held_by(bar, vm));
}

/// Finds the frame of each row: those of bars, in the order in which they came. `Memory` if a growth was refused.
pub(crate) fn rows_of(alloc: Global, bars: &[Bar]) -> Result<IndexSet<u32>, Memory>
    ensures { IfOk result (λ made. made.keys ≡ rows bars.now) }
{
    let mut rows = IndexSet::new(alloc);
    for bar in bars {
        rows.insert_full(bar.frame)?;
    }
    Ok(rows)
}

/// Lists the numbers of the bars of each row, in their order.
pub(crate) fn bars_in_rows(
    alloc: Global,
    rows: &IndexSet<u32>,
    bars: &[Bar],
) -> Result<Vec<Vec<usize>>, Memory> {
    let mut in_rows = Vec::new(alloc);
    for _ in 0..rows.len() {
        in_rows.push(Vec::new(alloc))?;
    }
    for (i, bar) in bars.iter().enumerate() {
        if let Some(row) = rows.get_index_of(&bar.frame) {
            if let Some(list) = in_rows.get_mut(row) {
                list.push(i)?;
            }
        }
    }
    Ok(in_rows)
}
