//! Laws of vectors and runs: functions that do nothing, whose contracts are the laws.
ghost use Rattle.scan_play.specs.Laws.{SomeRun, RunsOnce, ThreeValuesAboveRuns, PlayTellsTheTruth, VectorsFit, VectorsCounted, VectorsObey, GoodPasses, UndetectedPasses, DetectedFails, StrobesKnown, VectorsDecide, NoSequenceDetectsRedundant};

/// From each state there is a run.
pub fn some_run<V>()
    ensures { SomeRun V }
{}

/// From a state there is no more than one run.
pub fn runs_once<V>()
    ensures { RunsOnce V }
{}

/// A run in three values allows the run of each choice for the Xs at its start.
pub fn three_values_above_runs()
    ensures { ThreeValuesAboveRuns }
{}

/// What the player answers holds from every power-up state.
pub fn play_tells_the_truth()
    ensures { PlayTellsTheTruth }
{}

/// The vectors of patterns fit the scanned netlist.
pub fn vectors_fit()
    ensures { VectorsFit }
{}

/// How many cycles the vectors of patterns have.
pub fn vectors_counted()
    ensures { VectorsCounted }
{}

/// The vectors drive the held inputs with their bits.
pub fn vectors_obey()
    ensures { VectorsObey }
{}

/// The fault-free scanned netlist passes the vectors of any patterns.
pub fn good_passes()
    ensures { GoodPasses }
{}

/// Where no pattern detects a fault, the faulty scanned netlist passes.
pub fn undetected_passes()
    ensures { UndetectedPasses }
{}

/// Where a pattern detects a fault at a point, the faulty scanned netlist fails where that point is strobed.
pub fn detected_fails()
    ensures { DetectedFails }
{}

/// In three values what is shown is known wherever the vectors strobe, with each fault and with none.
pub fn strobes_known()
    ensures { StrobesKnown }
{}

/// The player never answers Unknown on the vectors of patterns, and Passes on the fault-free netlist.
pub fn vectors_decide()
    ensures { VectorsDecide }
{}

/// No sequence of drives and pulses that obeys the held inputs shows a redundant fault on the scanned netlist.
pub fn no_sequence_detects_redundant()
    ensures { NoSequenceDetectsRedundant }
{}
