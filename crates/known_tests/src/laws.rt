//! Laws of tests that set the known inputs alone: functions that do nothing, whose contracts are the laws.
ghost use Rattle.known_tests.specs.Laws.{KnownCycles, SitesAreLines};

use stil_vectors::fitting_cycles;

/// A file that fits has vectors of the opened netlist's widths.
pub fn known_cycles()
    ensures { KnownCycles }
{
    fitting_cycles();
}

/// A line of a netlist stands, at its site, on a line of the scanned netlist.
pub fn sites_are_lines()
    ensures { SitesAreLines }
{}
