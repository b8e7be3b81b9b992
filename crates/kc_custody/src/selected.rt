//! The changes of one VM.
ghost use Rattle.std.specs.Prelude.{◌≡◌, map};
ghost use Rattle.kc_types.specs.declared.custody.Event.TheVariants as event;
ghost use Rattle.kc_model.specs.Events.{changes_in};
ghost use Rattle.kc_custody.specs.Selected.{is_for, is_selected, selected};

use kc_remarks::is_owned_by;
use kc_types::{Change, Event};

/// Whether the change is of a slot, or of a frame that its VM owns before or after it.
fn is_for(change: &Change, vm: u32) -> bool
    ensures { result ≡ is_for vm change.now }
{
    match change {
        Change::Frame(change) => {
            is_owned_by(change.before.owner, vm) || is_owned_by(change.after.owner, vm)
        },
        Change::Phase(change) => change.vm == vm,
    }
}

/// Whether it is a change, of this slot if one is named.
pub(crate) fn is_selected(event: &Event, vm: Option<u32>) -> bool
    ensures { result ≡ is_selected vm event.now }
{
    match event {
        Event::Change(change) => match vm {
            Some(vm) => is_for(change, vm),
            None => true,
        },
        Event::Read { .. } | Event::Write { .. } => false,
    }
}

/// Keeps only the changes, of one slot if one is named, in their order.
pub fn select(events: &mut Vec<Event>, vm: Option<u32>)
    ensures { events.new.items ≡ map event.Change (selected vm (changes_in events.old.items)) }
{
    events.retain(|event| is_selected(event, vm));
}
