//! Laws of how often faults are detected: functions that do nothing, whose contracts are the laws.
ghost use Rattle.detections.specs.Laws.{TimesAlike, TimesOnce};

/// There is one such number.
pub fn times_once()
    ensures { TimesOnce }
{}

/// Faults that the same patterns detect, as equivalent ones, have the same number.
pub fn times_alike()
    ensures { TimesAlike }
{}
