//! Dealing the tasks of a wave to workers, and taking back what they left.
ghost use Rattle.std.specs.Prelude.{◌≡◌, ◌<◌, ◌%◌, ◌++◌, ◌∷◌, [], length, get_or, map, replicate, set, IfOk, OnOk};
ghost use Rattle.kc_replay.specs.Dealing.{with_dealt};

use crate::task::{Finished, Task};
use kc_types::Memory;
use std::alloc::Global;

/// Makes a list for each worker, with no task yet.
pub(crate) fn no_tasks(alloc: Global, workers: usize) -> Result<Vec<Vec<Task>>, Memory>
    ensures { IfOk result (λ lists. map (λ list. list.items) lists.items ≡ replicate workers []) }
{
    let mut lists = Vec::with_capacity(alloc, workers)?;
    for _ in 0..workers {
        lists.push(Vec::new(alloc))?;
    }
    Ok(lists)
}

/// Deals the task of a wave's call to the worker whose number is the call's place in the wave modulo the number of
/// workers.
pub(crate) fn deal(lists: &mut Vec<Vec<Task>>, place: usize, task: Task) -> Result<(), Memory>
    requires { 0 < length lists.old.items }
    ensures { OnOk result (map (λ list. list.items) lists.new.items ≡ with_dealt (map (λ list. list.items) lists.old.items) place task) }
{
    let worker = place % lists.len();
    lists[worker].push(task)?;
    Ok(())
}

/// Takes back what is left of a wave's call, the last of its worker's.
pub(crate) fn take_back(lists: &mut Vec<Vec<Finished>>, place: usize) -> Finished
    requires some { 0 < length lists.old.items }
    requires last { 0 < length (get_or (map (λ list. list.items) lists.old.items) (place % length lists.old.items) []) }
    ensures taken { map (λ list. list.items) lists.old.items ≡ with_dealt (map (λ list. list.items) lists.new.items) place result }
    ensures len { length lists.new.items ≡ length lists.old.items }
{
    let worker = place % lists.len();
    let Some(finished) = lists[worker].pop() else {
        unreachable!()
    };
    finished
}
