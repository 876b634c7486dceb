//! Laws of labels after a change: functions that do nothing, whose contracts are the laws.
ghost use Rattle.label_events.specs.Laws.{DecisionChanges, SourceIsDriven, FaultChanges, FaultChangesNothing};

/// Where two paths differ at one signal only, the labels of the one settle under the other but for that signal.
pub fn decision_changes()
    ensures { DecisionChanges }
{}

/// What is driven onto an input or a cell.
pub fn source_is_driven()
    ensures { SourceIsDriven }
{}

/// Where two faults, or one and none, do the same on all lines but those of one signal, the labels under the one settle under the other but for that signal.
pub fn fault_changes()
    ensures { FaultChanges }
{}

/// Where they do the same on all lines of signals, the labels are the same.
pub fn fault_changes_nothing()
    ensures { FaultChangesNothing }
{}
