//! What holds of segments and of parts, by the definitions.
ghost use Rattle.std.specs.Prelude.{◌≡◌, List};
ghost use Rattle.std.specs.List.{flat_map};
ghost use Rattle.kc_types.specs.declared.call.Call.{Call};
ghost use Rattle.kc_model.specs.State.{State};
ghost use Rattle.kc_model.specs.Next.{replies_from, state_after};
ghost use Rattle.kc_replay.specs.Moving.{IsMoving};
ghost use Rattle.kc_replay.specs.Replayer.{replies_to_each, state_after_each};

/// Answering the segments of a trace in turn is answering the trace, however it is cut.
pub fn cutting()
    ensures replies { (m : State) (segments : List (List Call)) → replies_to_each m segments ≡ replies_from m (flat_map (λ calls. calls) segments) }
    ensures state { (m : State) (segments : List (List Call)) → state_after_each m segments ≡ state_after m (flat_map (λ calls. calls) segments) }
{}

/// Parts that are a state's at some resources stay so if parts are taken out, calls are made on others, and parts are
/// put back. So whoever takes parts out of a core by `Parts::take_out`, makes calls on them by `apply` and puts them
/// back by `Parts::put_back` has again what `KCore::from_parts` needs, and its state is the one after those calls.
pub fn moving()
    ensures { IsMoving }
{}
