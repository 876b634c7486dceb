//! Whether patterns are those of a netlist and obey its held inputs.
ghost use Rattle.std.specs.Prelude.{◌≡◌, ◌^◌, ◌<◌, MatchBool, length};
ghost use Rattle.std.specs.List.{All};
ghost use Rattle.netlist.specs.Holds.{AreHoldsOf};
ghost use Rattle.statement.specs.Patterns.{Obeys};
ghost use Rattle.cubes.specs.Cubes.{IsPatternOf};
ghost use Rattle.stil_patterns.specs.inner.Obeying.{IsMet};

use cubes::Pattern;
use netlist::{Holds, Netlist};

/// Whether an input that may be held has its bit.
fn is_met(held: Option<bool>, bit: bool) -> bool
    ensures { MatchBool result (IsMet held bit) (IsMet held bit → ⊥) }
{
    match held {
        Some(own) => own == bit,
        None => true,
    }
}

/// Whether each held input has its bit.
fn are_met(holds: &Holds, inputs: &[bool]) -> bool
    requires all { length inputs.now ≡ length holds.now }
    requires few { length inputs.now < 2 ^ 32 }
    ensures { MatchBool result (Obeys holds.now inputs.now) (Obeys holds.now inputs.now → ⊥) }
{
    for k in 0..inputs.len() {
        if !is_met(holds.held(k as u32), inputs[k]) {
            return false;
        }
    }
    true
}

/// Whether a pattern has a bit for each input and each cell, and obeys the held inputs.
pub(crate) fn is_pattern(netlist: &Netlist, holds: &Holds, pattern: &Pattern) -> bool
    requires { AreHoldsOf netlist.now holds.now }
    ensures { MatchBool result (IsPatternOf netlist.now holds.now pattern.now) (IsPatternOf netlist.now holds.now pattern.now → ⊥) }
{
    netlist.sound();
    if pattern.inputs().len() != netlist.inputs().len() {
        return false;
    }
    if pattern.cells().len() != netlist.cells().len() {
        return false;
    }
    are_met(holds, pattern.inputs())
}

/// Whether all of them are patterns of the netlist.
pub fn are_patterns(netlist: &Netlist, holds: &Holds, patterns: &[Pattern]) -> bool
    requires { AreHoldsOf netlist.now holds.now }
    ensures { MatchBool result (All (IsPatternOf netlist.now holds.now) patterns.now) (All (IsPatternOf netlist.now holds.now) patterns.now → ⊥) }
{
    for pattern in patterns {
        if !is_pattern(netlist, holds, pattern) {
            return false;
        }
    }
    true
}
