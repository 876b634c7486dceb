//! Which slow lines go together.
//!
//! A line of the second frame reads at most one late value, so two slow lines that would both make a line late can't stand in one batch. Three
//! comparisons tell it, without a look at who reads what: they are different lines, and neither is the stem that the other reads.
ghost use Rattle.std.specs.Prelude.{◌↔◌, IsTrue};
ghost use Rattle.netlist.specs.Lines.{IsLineOf};
ghost use Rattle.transition_batches.specs.Batches.{AreApart};

use netlist::{Fault, Line, Netlist};
use transition_frames::source_of;

/// Whether no line of the netlist reads what is late by both.
pub fn are_apart(netlist: &Netlist, one: &Fault, other: &Fault) -> bool
    requires one { IsLineOf netlist.now one.now.line }
    requires other { IsLineOf netlist.now other.now.line }
    ensures { IsTrue result ↔ AreApart netlist.now one.now other.now }
{
    !one.line.is(&other.line)
        && !one.line.is(&Line::Stem(source_of(netlist, &other.line)))
        && !other.line.is(&Line::Stem(source_of(netlist, &one.line)))
}
