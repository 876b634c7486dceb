//! Whether a gate is blocked, where the signals may have these pairs.
ghost use Rattle.std.specs.Prelude.{◌≡◌, ◌↔◌, length, IsTrue};
ghost use Rattle.netlist.specs.Conditions.{IsSound};
ghost use Rattle.statement.specs.Netlists.{signals};
ghost use Rattle.refutation.specs.Refutations.{IsBlocked};

use crate::images::{made, told_at};
use crate::pair_sets::is_apart;
use netlist::{Fault, Netlist, SignalId};
use refutation::Pairs;

/// Whether the gate makes of no pairs that its pins may have one that it may have; not so of another signal.
pub(crate) fn is_gate_blocked(
    netlist: &Netlist,
    fault: &Fault,
    told: &[Pairs],
    id: SignalId,
) -> bool
    requires sound { IsSound netlist.now }
    requires size { length told.now ≡ length (signals netlist.now) }
    ensures { IsTrue result ↔ IsBlocked netlist.now fault.now told.now id }
{
    let inputs = netlist.inputs().len();
    if id.index() < inputs || id.index() >= told.len() {
        return false;
    }
    let gate = netlist.definition(id);
    if gate.kind().is_flip_flop() {
        return false;
    }
    let own = told_at(told, id);
    is_apart(made(told, gate, fault), own)
}
