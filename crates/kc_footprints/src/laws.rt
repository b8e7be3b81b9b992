//! Laws over the definitions only.

ghost use Rattle.kc_footprints.specs.Commuting.{IsCommuting, IsCommutingLinked, HasNeeds};
ghost use Rattle.kc_footprints.specs.Stepping.{IsStepping};
ghost use Rattle.kc_footprints.specs.Reordering.{IsReadiness, IsOrderFree, IsWaveOrderFree};

/// What a call needs lies in its footprint.
pub fn needs()
    ensures { HasNeeds }
{}

/// A call does its step in a store that has the right parts in its footprint, whatever the store has elsewhere.
pub fn stepping()
    ensures { IsStepping }
{}

/// The order of the calls within a wave changes nothing.
pub fn commuting()
    ensures parts { IsCommuting }
    ensures linked { IsCommutingLinked }
{}

/// An order in which calls that share a resource keep their order gives the same replies and the same final state;
/// wave after wave is such an order.
pub fn reordering()
    ensures any { IsOrderFree }
    ensures by_waves { IsWaveOrderFree }
{}

/// In the store before a wave each of its calls needs no more than its footprint.
pub fn readiness()
    ensures { IsReadiness }
{}
