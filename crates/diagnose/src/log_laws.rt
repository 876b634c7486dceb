//! A law of logs: a function that does nothing, whose contract is the law.
ghost use Rattle.diagnose.specs.LogLaws.{OneLog};

/// A text is that of one log at most.
pub fn one_log()
    ensures { OneLog }
{}
