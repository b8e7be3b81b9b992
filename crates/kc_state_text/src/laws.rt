//! Laws of the definitions.
ghost use Rattle.std.specs.Prelude.{◌≡◌, ◌≤◌, ℕ, true, List, Option, length, All, IfSome};
ghost use Rattle.kc_types.specs.Configuration.{Configuration, IsConfiguration, has_dump};
ghost use Rattle.kc_types.specs.Limits.{byte_limit};
ghost use Rattle.kc_model.specs.Boot.{boot};
ghost use Rattle.kc_model.specs.State.{State};
ghost use Rattle.kc_state_text.specs.declared.fault.StateFault.{StateFault as Fault};
ghost use Rattle.kc_state_text.specs.declared.fault.StateFault.TheVariants.{Memory};
ghost use Rattle.kc_model.specs.Volumes.{IsDigest, IsCoreState, Volume, AreReplayedFrom};
ghost use Rattle.kc_trace.specs.declared.header.Position.{Position};
ghost use Rattle.kc_trace.specs.Header.{IsPosition};
ghost use Rattle.kc_state_text.specs.StateText.{state_text, placed_state_text};
ghost use Rattle.kc_state_text.specs.Refused.{IsRefusedPlaced};
ghost use Rattle.kc_state_text.specs.Runs.{IsOneRun};

use kc_snapshot::laws as states;

/// No text is that of two states, the one of version 1 or 2, nor of two positions, nor of a position and of none.
pub fn one_text()
    ensures { (p q : Option Position) (m n : State) → IfSome p IsPosition → IfSome q IsPosition
        → has_dump m.config.version ≡ true → IsCoreState m → IsCoreState n
        → length (placed_state_text p m) ≤ byte_limit → placed_state_text p m ≡ placed_state_text q n → (p ≡ q) × (m ≡ n) }
{
    states::one_state()
}

/// What is refused is not the text of a lawful state of version 1 or 2, with any position or without one.
pub fn refused()
    ensures { (text : List ℕ) (fault : Fault) → (fault ≡ Memory → ⊥) → IsRefusedPlaced text fault → (p : Option Position) (m : State) → IfSome p IsPosition
        → has_dump m.config.version ≡ true → IsCoreState m
        → length text ≤ byte_limit → text ≡ placed_state_text p m → ⊥ }
{
    states::unlawful()
}

/// Volumes that are each replayed alone, the first from the text of the boot state, are one run of one thread.
pub fn one_run()
    ensures { (config : Configuration) (volumes : List Volume) → has_dump config.version ≡ true → IsConfiguration config → All IsDigest config.approved → AreReplayedFrom state_text (state_text (boot config)) volumes → IsOneRun config volumes }
{
    one_text()
}
