//! Laws of values that have settled but for some signals: functions that do nothing, whose contracts are the laws.
ghost use Rattle.events.specs.Laws.{StepSettles, SourceStepSettles, NoneWaits, RuleChanges, StuckChanges, ObservedOnly};

/// After a gate is evaluated the values have settled but for what then waits.
pub fn step_settles<V>()
    ensures { StepSettles V }
{}

/// The same of an input or a cell.
pub fn source_step_settles<V>()
    ensures { SourceStepSettles V }
{}

/// Where nothing waits, the values settle.
pub fn none_waits<V>()
    ensures { NoneWaits V }
{}

/// Values that settle under one rule settle under another but for the signals at which the two differ.
pub fn rule_changes<V>()
    ensures { RuleChanges V }
{}

/// A line stuck changes a rule at one signal at most.
pub fn stuck_changes<V>()
    ensures { StuckChanges V }
{}

/// A cell's pin stuck, or an output, changes a rule at no signal.
pub fn observed_only<V>()
    ensures { ObservedOnly V }
{}
