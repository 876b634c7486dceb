//! The values of all machines, settled gate by gate: each gate is evaluated in one pass over its pins.
ghost use Rattle.std.specs.Prelude.{◌≡◌, length};
ghost use Rattle.std.specs.List.{All};
ghost use Rattle.statement.specs.Netlists.{cells, signals};
ghost use Rattle.netlist.specs.Netlist.{IsGateAt};
ghost use Rattle.netlist.specs.Conditions.{IsSound};
ghost use Rattle.netlist.specs.Orders.{IsOrder};
ghost use Rattle.statement.specs.Values.{Settles};
ghost use Rattle.netlist.specs.Settled.{at};
ghost use Rattle.netlist.specs.Settling.{AreEvaluated, IsEvaluated};
ghost use Rattle.lane_play.specs.inner.Lanes.{lanes_rule};
ghost use Rattle.lane_play.specs.declared.packed.Lanes.{Lanes as Packed};

use crate::packed::Lanes;
use crate::stuck::Stuck;
use netlist::{Netlist, SignalId, drive_sources};

/// Gives a gate its value.
#[inline(always)]
fn evaluate(rule: &Stuck, netlist: &Netlist, id: SignalId, values: &mut Vec<Lanes>)
    requires sound { IsSound netlist.now }
    requires gate { IsGateAt netlist.now id }
    requires size { length values.old.items ≡ length (signals netlist.now) }
    ensures { IsEvaluated (lanes_rule rule.now.faults.now) netlist.now id values.old.items values.new.items }
{
    let definition = netlist.definition(id);
    let made = rule.made(id, definition.kind(), definition.pins(), values);
    values[id.index()] = made;
}

/// Evaluates these gates, one after the other.
pub(crate) fn evaluate_all(
    rule: &Stuck,
    netlist: &Netlist,
    steps: &[SignalId],
    values: &mut Vec<Lanes>,
)
    requires sound { IsSound netlist.now }
    requires gates { All (IsGateAt netlist.now) steps.now }
    requires size { length values.old.items ≡ length (signals netlist.now) }
    ensures made { AreEvaluated (lanes_rule rule.now.faults.now) netlist.now steps.now values.old.items values.new.items }
    ensures size { length values.new.items ≡ length values.old.items }
{
    for id in steps {
        evaluate(rule, netlist, *id, values);
    }
}

/// The values that settle, in a buffer that has a value for each signal already.
pub(crate) fn settle_into(
    rule: &Stuck,
    netlist: &Netlist,
    order: &[SignalId],
    inputs: &[Lanes],
    state: &[Lanes],
    values: &mut Vec<Lanes>,
)
    requires sound { IsSound netlist.now }
    requires ordered { IsOrder netlist.now order.now }
    requires inputs { length inputs.now ≡ length netlist.now.inputs }
    requires state { length state.now ≡ length (cells netlist.now) }
    requires size { length values.old.items ≡ length (signals netlist.now) }
    ensures settled { (d : Packed) → Settles (lanes_rule rule.now.faults.now) netlist.now inputs.now state.now (at values.new.items d) }
    ensures size { length values.new.items ≡ length (signals netlist.now) }
{
    drive_sources(rule, netlist, inputs, state, values);
    evaluate_all(rule, netlist, order, values);
}
