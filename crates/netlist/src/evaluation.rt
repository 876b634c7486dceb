//! Netlists with an order of evaluation, and the values that settle on them.
//!
//! The order costs a pass over all pins, and many evaluations use it: so it is found once and kept beside the netlist. No result depends on
//! which order it is, since exactly one assignment settles; so it is no part of the value.
ghost use Rattle.std.specs.Prelude.{◌≡◌, length, MatchResult, IfOk, OnOk};
ghost use Rattle.statement.specs.Netlists.{cells, signals};
ghost use Rattle.netlist.specs.Orders.{IsOrder, IsSchedule};
ghost use Rattle.statement.specs.Values.{Settles, outs, next};
ghost use Rattle.netlist.specs.Settled.{at};
ghost use Rattle.netlist.specs.Evaluated.{AreSettledBits};

use crate::bits::Bits;
use crate::netlists::Netlist;
use crate::no_memory::NoMemory;
use crate::observing::{next_into, outs_into};
use crate::rules::{Logic, settle, settle_into};
use crate::schedules::{Schedule, places_of};
use statement::{Fault, SignalId};
use std::alloc::{AllocError, Global};
use std::marker::Model;

/// A netlist with an order of its gates in which each comes after the gates that it reads.
#[derive(Drop)]
pub struct Core {
    netlist: Netlist,
    order: Vec<SignalId>,
    places: Vec<u32>,
}

impl Model for Core {
    ghost use Rattle.statement.specs.Netlists.{Netlist};
    ghost use Rattle.netlist.specs.Orders.{IsSchedule};

    ghost Value = { Netlist };

    ghost view = { λ c. c.netlist };

    ghost invariant = { λ c. IsSchedule c.netlist c.order.items c.places.items };
}

/// The settled bits of a netlist: of each signal, of each output pin and of each cell's pin, in their orders.
#[derive(Drop)]
pub struct Values {
    pub signals: Vec<bool>,
    pub outputs: Vec<bool>,
    pub cells: Vec<bool>,
}

impl Core {
    /// Where memory is refused the netlist comes back.
    pub fn of(alloc: Global, netlist: Netlist) -> Result<Core, (NoMemory, Netlist)>
        ensures { MatchResult result (λ c. c ≡ netlist) (λ e. e.1 ≡ netlist) }
    {
        let Ok(order) = Vec::from_slice(alloc, netlist.order()) else {
            return Err((NoMemory, netlist));
        };
        let Ok(places) = places_of(alloc, &netlist, &order) else {
            return Err((NoMemory, netlist));
        };
        Ok(Core {
            netlist,
            order,
            places,
        })
    }

    pub fn netlist(&self) -> &Netlist
        ensures { result.now ≡ self.now }
    {
        &self.netlist
    }

    /// The gates, each after the gates that it reads.
    pub fn order(&self) -> &[SignalId]
        ensures { IsOrder self.now result.now }
    {
        &self.order
    }

    /// The order and the place of each signal in it, for those who need both of one order.
    pub fn schedule(&self) -> Schedule<'_>
        ensures { IsSchedule self.now result.order.now result.places.now }
    {
        Schedule {
            order: &self.order,
            places: &self.places,
        }
    }

    /// The values that settle by any rule, for what is driven onto the inputs and the cells.
    pub fn settle<L: Logic>(
        &self,
        alloc: Global,
        logic: &L,
        inputs: &[L::Value],
        state: &[L::Value],
    ) -> Result<Vec<L::Value>, AllocError>
        requires inputs { length inputs.now ≡ length self.now.inputs }
        requires state { length state.now ≡ length (cells self.now) }
        ensures settled { IfOk result (λ v. (d : L.Value) → Settles (L.rule logic.now) self.now inputs.now state.now (at v.items d)) }
        ensures size { IfOk result (λ v. length v.items ≡ length (signals self.now)) }
    {
        self.netlist.sound();
        settle(alloc, logic, &self.netlist, &self.order, inputs, state)
    }

    /// The values that settle, in a buffer that has a value for each signal already; `pins` is room for a gate's pins.
    /// With room in `pins` for the most pins of any gate no memory is asked for.
    pub fn settle_into<L: Logic>(
        &self,
        logic: &L,
        inputs: &[L::Value],
        state: &[L::Value],
        values: &mut Vec<L::Value>,
        pins: &mut Vec<L::Value>,
    ) -> Result<(), AllocError>
        requires inputs { length inputs.now ≡ length self.now.inputs }
        requires state { length state.now ≡ length (cells self.now) }
        requires size { length values.old.items ≡ length (signals self.now) }
        ensures settled { OnOk result ((d : L.Value) → Settles (L.rule logic.now) self.now inputs.now state.now (at values.new.items d)) }
        ensures size { length values.new.items ≡ length (signals self.now) }
    {
        self.netlist.sound();
        settle_into(
            logic,
            &self.netlist,
            &self.order,
            inputs,
            state,
            values,
            pins,
        )
    }

    /// The values at the output pins, in a buffer that is used again.
    pub fn outs_into<L: Logic>(
        &self,
        logic: &L,
        values: &[L::Value],
        found: &mut Vec<L::Value>,
    ) -> Result<(), AllocError>
        requires { length values.now ≡ length (signals self.now) }
        ensures { OnOk result ((d : L.Value) → found.new.items ≡ outs (L.rule logic.now) self.now (at values.now d)) }
    {
        self.netlist.sound();
        outs_into(logic, &self.netlist, values, found)
    }

    /// The values at the cells' pins, in a buffer that is used again.
    pub fn next_into<L: Logic>(
        &self,
        logic: &L,
        values: &[L::Value],
        found: &mut Vec<L::Value>,
    ) -> Result<(), AllocError>
        requires { length values.now ≡ length (signals self.now) }
        ensures { OnOk result ((d : L.Value) → found.new.items ≡ next (L.rule logic.now) self.now (at values.now d)) }
    {
        self.netlist.sound();
        next_into(logic, &self.netlist, values, found)
    }

    /// The settled bits with a line stuck, or with none.
    pub fn eval(
        &self,
        alloc: Global,
        inputs: &[bool],
        state: &[bool],
        fault: Option<Fault>,
    ) -> Result<Values, NoMemory>
        requires inputs { length inputs.now ≡ length self.now.inputs }
        requires state { length state.now ≡ length (cells self.now) }
        ensures { IfOk result (λ v. AreSettledBits self.now fault inputs.now state.now v.signals.items v.outputs.items v.cells.items) }
    {
        settled_bits(alloc, self, &Bits { fault }, inputs, state)
    }
}

/// The settled bits by a rule of bits.
fn settled_bits(
    alloc: Global,
    core: &Core,
    rule: &Bits,
    inputs: &[bool],
    state: &[bool],
) -> Result<Values, NoMemory>
    requires inputs { length inputs.now ≡ length core.now.inputs }
    requires state { length state.now ≡ length (cells core.now) }
    ensures { IfOk result (λ v. AreSettledBits core.now rule.now.fault inputs.now state.now v.signals.items v.outputs.items v.cells.items) }
{
    let signals = core.settle(alloc, rule, inputs, state)?;
    let mut outputs = Vec::with_capacity(alloc, core.netlist().outputs().len())?;
    core.outs_into(rule, &signals, &mut outputs)?;
    let mut cells = Vec::with_capacity(alloc, core.netlist().cells().len())?;
    core.next_into(rule, &signals, &mut cells)?;
    Ok(Values {
        signals,
        outputs,
        cells,
    })
}
