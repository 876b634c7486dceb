//! A law of refusals: a function that does nothing, whose contract is the law.
ghost use Rattle.refutation_check.specs.Refusals.{RefusedRefutesNothing};

/// What is refused for a cause other than memory doesn't refute the fault.
pub fn refused_refutes_nothing()
    ensures { RefusedRefutesNothing }
{}
