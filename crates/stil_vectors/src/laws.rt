//! Laws of a file's vectors: functions that do nothing, whose contracts are the laws.
ghost use Rattle.stil_vectors.specs.Laws.{FittingCycles, TestVectors};

/// A file that fits a netlist has vectors of its widths.
pub fn fitting_cycles()
    ensures { FittingCycles }
{}

/// The file of a test has the vectors of the test.
pub fn test_vectors()
    ensures { TestVectors }
{}
