//! Laws of refutations: functions that do nothing, whose contracts are the laws.
ghost use Rattle.refutation.specs.Laws.{OneSweep, RefutedIsRedundant, ShutOffDetectsNothing};

/// A refutation that is accepted shows the fault redundant.
pub fn refuted_is_redundant()
    ensures { RefutedIsRedundant }
{}

/// Where a set shuts the fault off, no pattern whose bits the signals may have detects it.
pub fn shut_off_detects_nothing()
    ensures { ShutOffDetectsNothing }
{}

/// What gates allow of sets has one result, in whatever order it is found; or there is none.
pub fn one_sweep()
    ensures { OneSweep }
{}
