//! Laws of the list of faults: functions that do nothing, whose contracts are the laws.
ghost use Rattle.fault_universe.specs.Laws.{FaultsHaveLines, FaultsHaveSignals, FewFaults, TextsDiffer};

/// Each place of the list has a text of its own: no fault stands twice, and no two are written alike.
pub fn texts_differ()
    ensures { TextsDiffer }
{}

/// How many faults there can be: of a design, with up to 1,000,000 signals, no more than 2,052,000,000.
pub fn few_faults()
    ensures { FewFaults }
{}

/// Each fault of a netlist can be written.
pub fn faults_have_signals()
    ensures { FaultsHaveSignals }
{}

/// Each fault of the list stands on a line of the netlist.
pub fn faults_have_lines()
    ensures { FaultsHaveLines }
{}
