//! Which faults one gate makes equal.
ghost use Rattle.std.specs.Prelude.{◌≡◌, ◌≢◌, ◌<◌, ◌∷◌, [], ℕ, MatchOption, length};
ghost use Rattle.std.specs.List.{Contains};
ghost use Rattle.statement.specs.Netlists.{Definition as Equation, signals, readers_of};
ghost use Rattle.statement.specs.declared.lines.Line.TheVariants.{Pin};
ghost use Rattle.fault_universe.specs.Universe.{all_lines};
ghost use Rattle.fault_collapse.specs.Joined.{output_value};
ghost use Rattle.fault_collapse.specs.inner.Merging.{IsReadBy};

use netlist::{Kind, Line, Netlist, SignalId};

/// What the output of a gate is stuck at where one of its pins is stuck at a value, if the two faults can't be told apart.
pub(crate) fn output_value(kind: Kind, value: bool) -> Option<bool>
    ensures { result ≡ output_value kind value }
{
    match kind {
        Kind::And if !value => Some(false),
        Kind::Nand if !value => Some(true),
        Kind::Or if value => Some(true),
        Kind::Nor if value => Some(false),
        Kind::Not => Some(!value),
        Kind::Buff => Some(value),
        _ => None,
    }
}

/// The gate or cell that alone reads a signal.
fn sole_reader(netlist: &Netlist, x: SignalId) -> Option<SignalId>
    requires { x < length (signals netlist.now) }
    ensures { MatchOption result ((z k : ℕ) → readers_of netlist.now x ≢ Pin z k ∷ []) (λ z. (k : ℕ) × (readers_of netlist.now x ≡ Pin z k ∷ [])) }
{
    let readers = netlist.readers(x);
    if readers.len() != 1 {
        return None;
    }
    match readers[0] {
        Line::Pin(z, _) => Some(z),
        _ => None,
    }
}

/// The gate or cell of which a pin stands for the line.
pub(crate) fn reader_of(netlist: &Netlist, line: &Line) -> Option<SignalId>
    requires { Contains (all_lines netlist.now) line.now }
    ensures { MatchOption result ((d : Equation) → IsReadBy netlist.now line.now d → ⊥) (λ z. (d : Equation) × (d.id ≡ z) × IsReadBy netlist.now line.now d) }
{
    netlist.sound();
    match line {
        Line::Stem(x) => sole_reader(netlist, *x),
        Line::Pin(z, _) => Some(*z),
        Line::Out(_) => None,
    }
}
