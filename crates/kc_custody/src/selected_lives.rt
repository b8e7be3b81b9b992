//! The lives of one slot.
ghost use Rattle.std.specs.Prelude.{◌≡◌};
ghost use Rattle.kc_model.specs.Lives.{selected_lives};

use kc_types::Life;

/// Keeps only the lives of one slot, if one is named, in their order.
pub fn select_lives(lives: &mut Vec<Life>, vm: Option<u32>)
    ensures { lives.new.items ≡ selected_lives vm lives.old.items }
{
    if let Some(vm) = vm {
        lives.retain(|life| life.vm == vm);
    }
}
