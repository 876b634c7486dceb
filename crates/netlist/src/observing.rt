//! The values at observed points, into buffers that are used again.
ghost use Rattle.std.specs.Prelude.{◌≡◌, length, OnOk};
ghost use Rattle.statement.specs.Netlists.{signals};
ghost use Rattle.netlist.specs.Conditions.{IsSound};
ghost use Rattle.netlist.specs.Settled.{at};
ghost use Rattle.statement.specs.Values.{outs, next};

use crate::netlists::Netlist;
use crate::rules::Logic;
use statement::Line;
use std::alloc::AllocError;

/// The values at the output pins.
pub(crate) fn outs_into<L: Logic>(
    logic: &L,
    netlist: &Netlist,
    values: &[L::Value],
    found: &mut Vec<L::Value>,
) -> Result<(), AllocError>
    requires sound { IsSound netlist.now }
    requires size { length values.now ≡ length (signals netlist.now) }
    ensures { OnOk result ((d : L.Value) → found.new.items ≡ outs (L.rule logic.now) netlist.now (at values.now d)) }
{
    found.clear();
    for x in netlist.outputs() {
        found.push(logic.line(&Line::Out(*x), values[x.index()]))?;
    }
    Ok(())
}

/// The values at the cells' pins.
pub(crate) fn next_into<L: Logic>(
    logic: &L,
    netlist: &Netlist,
    values: &[L::Value],
    found: &mut Vec<L::Value>,
) -> Result<(), AllocError>
    requires sound { IsSound netlist.now }
    requires size { length values.now ≡ length (signals netlist.now) }
    ensures { OnOk result ((d : L.Value) → found.new.items ≡ next (L.rule logic.now) netlist.now (at values.now d)) }
{
    found.clear();
    for cell in netlist.cells() {
        let pin = netlist.definition(*cell).pins()[0];
        found.push(logic.line(&Line::Pin(*cell, 0), values[pin.index()]))?;
    }
    Ok(())
}
