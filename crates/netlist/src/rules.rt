//! The one evaluator, for any rule by which values settle.
//!
//! Inputs and cells take what is driven, and then each gate is evaluated once, in an order in which it comes after all that it reads (compiled,
//! or oblivious, simulation). Bits, three values, words and labels differ only in what a line and a gate make of values, so the loop is written
//! and proved once, over a trait.
//!
//! The alternative, to evaluate only what a change reaches, is `events`, where few values change from one call to the next. Here all are new.
ghost use Rattle.std.specs.Prelude.{◌≡◌, ◌≢◌, ◌<◌, ◌≤◌, length, IfOk, OnOk};
ghost use Rattle.std.specs.List.{All, AllPairs};
ghost use Rattle.netlist.specs.Gates.{most_pins};
ghost use Rattle.statement.specs.Netlists.{Definition as Equation, Netlist as Equations, cells, signals};
ghost use Rattle.netlist.specs.Netlist.{IsGateAt};
ghost use Rattle.netlist.specs.Conditions.{IsSound};
ghost use Rattle.netlist.specs.Orders.{IsOrder};
ghost use Rattle.statement.specs.Values.{Settles};
ghost use Rattle.netlist.specs.Settled.{at, AreRead};
ghost use Rattle.netlist.specs.Settling.{IsDriven, AreSourcesDriven, IsEvaluated, AreEvaluated};

use crate::equations::Definition;
use crate::netlists::Netlist;
use statement::{Line, SignalId};
use std::alloc::{AllocError, Global};

/// How values of a kind settle on a netlist: bits, three values, words, labels.
pub trait Logic {
    ghost use Rattle.statement.specs.Values.{Rule};

    type Value: Copy + Drop;

    ghost rule: { Self → Rule Self.Value };

    /// A value of no meaning, for signals that have none yet.
    fn blank(&self) -> Self::Value;

    /// What a line makes of the value that comes onto it.
    fn line(&self, line: &Line, value: Self::Value) -> Self::Value
        ensures { result ≡ (rule self.now).line line.now value };

    /// What a gate makes of the values on its pins.
    fn gate(&self, definition: &Definition, pins: &[Self::Value]) -> Self::Value
        requires { length pins.now ≤ most_pins }
        ensures { result ≡ (rule self.now).gate definition.now pins.now };
}

/// Puts values onto inputs or cells.
fn drive<L: Logic>(logic: &L, ids: &[SignalId], driven: &[L::Value], values: &mut Vec<L::Value>)
    requires enough { length driven.now ≡ length ids.now }
    requires below { All (λ x. x < length values.old.items) ids.now }
    requires distinct { AllPairs (λ x y. x ≢ y) ids.now }
    ensures { IsDriven (L.rule logic.now) ids.now driven.now values.old.items values.new.items (length ids.now) }
{
    for k in 0..ids.len() {
        values[ids[k].index()] = logic.line(&Line::Stem(ids[k]), driven[k]);
    }
}

/// The values on the pins of a definition.
fn read_pins<L: Logic>(
    logic: &L,
    id: SignalId,
    ids: &[SignalId],
    values: &[L::Value],
    pins: &mut Vec<L::Value>,
) -> Result<(), AllocError>
    requires below { All (λ x. x < length values.now) ids.now }
    requires few { length ids.now ≤ most_pins }
    ensures { OnOk result (AreRead (L.rule logic.now) id values.now ids.now pins.new.items) }
{
    pins.clear();
    for k in 0..ids.len() {
        let value = logic.line(&Line::Pin(id, k as u32), values[ids[k].index()]);
        pins.push(value)?;
    }
    Ok(())
}

/// A value of no meaning for each signal.
fn blanks<L: Logic>(alloc: Global, logic: &L, count: usize) -> Result<Vec<L::Value>, AllocError>
    ensures { IfOk result (λ v. length v.items ≡ count) }
{
    let mut values = Vec::with_capacity(alloc, count)?;
    for _done in 0..count {
        values.push(logic.blank())?;
    }
    Ok(values)
}

/// Gives a gate its value.
fn evaluate<L: Logic>(
    logic: &L,
    netlist: &Netlist,
    id: SignalId,
    values: &mut Vec<L::Value>,
    pins: &mut Vec<L::Value>,
) -> Result<(), AllocError>
    requires sound { IsSound netlist.now }
    requires gate { IsGateAt netlist.now id }
    requires size { length values.old.items ≡ length (signals netlist.now) }
    ensures made { OnOk result (IsEvaluated (L.rule logic.now) netlist.now id values.old.items values.new.items) }
    ensures size { length values.new.items ≡ length values.old.items }
{
    let definition = netlist.definition(id);
    read_pins(logic, id, definition.pins(), values, pins)?;
    let made = logic.gate(definition, pins);
    values[id.index()] = logic.line(&Line::Stem(id), made);
    Ok(())
}

/// Puts what is driven onto inputs and cells; each gate keeps its value.
pub fn drive_sources<L: Logic>(
    logic: &L,
    netlist: &Netlist,
    inputs: &[L::Value],
    state: &[L::Value],
    values: &mut Vec<L::Value>,
)
    requires sound { IsSound netlist.now }
    requires inputs { length inputs.now ≡ length netlist.now.inputs }
    requires state { length state.now ≡ length (cells netlist.now) }
    requires size { length values.old.items ≡ length (signals netlist.now) }
    ensures { AreSourcesDriven (L.rule logic.now) netlist.now inputs.now state.now values.old.items values.new.items }
{
    drive(logic, netlist.inputs(), inputs, values);
    drive(logic, netlist.cells(), state, values);
}

/// Evaluates these gates, one after the other; `pins` is room for a gate's pins.
/// With room in `pins` for the most pins of any of them no memory is asked for.
pub fn evaluate_all<L: Logic>(
    logic: &L,
    netlist: &Netlist,
    steps: &[SignalId],
    values: &mut Vec<L::Value>,
    pins: &mut Vec<L::Value>,
) -> Result<(), AllocError>
    requires sound { IsSound netlist.now }
    requires gates { All (IsGateAt netlist.now) steps.now }
    requires size { length values.old.items ≡ length (signals netlist.now) }
    ensures made { OnOk result (AreEvaluated (L.rule logic.now) netlist.now steps.now values.old.items values.new.items) }
    ensures size { length values.new.items ≡ length values.old.items }
{
    for id in steps {
        evaluate(logic, netlist, *id, values, pins)?;
    }
    Ok(())
}

/// The values that settle, in a buffer that has a value for each signal already; `pins` is room for a gate's pins.
pub(crate) fn settle_into<L: Logic>(
    logic: &L,
    netlist: &Netlist,
    order: &[SignalId],
    inputs: &[L::Value],
    state: &[L::Value],
    values: &mut Vec<L::Value>,
    pins: &mut Vec<L::Value>,
) -> Result<(), AllocError>
    requires sound { IsSound netlist.now }
    requires ordered { IsOrder netlist.now order.now }
    requires inputs { length inputs.now ≡ length netlist.now.inputs }
    requires state { length state.now ≡ length (cells netlist.now) }
    requires size { length values.old.items ≡ length (signals netlist.now) }
    ensures settled { OnOk result ((d : L.Value) → Settles (L.rule logic.now) netlist.now inputs.now state.now (at values.new.items d)) }
    ensures size { length values.new.items ≡ length (signals netlist.now) }
{
    drive_sources(logic, netlist, inputs, state, values);
    evaluate_all(logic, netlist, order, values, pins)?;
    Ok(())
}

/// The same into new buffers, for who evaluates once.
pub(crate) fn settle<L: Logic>(
    alloc: Global,
    logic: &L,
    netlist: &Netlist,
    order: &[SignalId],
    inputs: &[L::Value],
    state: &[L::Value],
) -> Result<Vec<L::Value>, AllocError>
    requires sound { IsSound netlist.now }
    requires ordered { IsOrder netlist.now order.now }
    requires inputs { length inputs.now ≡ length netlist.now.inputs }
    requires state { length state.now ≡ length (cells netlist.now) }
    ensures settled { IfOk result (λ v. (d : L.Value) → Settles (L.rule logic.now) netlist.now inputs.now state.now (at v.items d)) }
    ensures size { IfOk result (λ v. length v.items ≡ length (signals netlist.now)) }
{
    let count = netlist.inputs().len() + netlist.definitions().len();
    let mut values = blanks(alloc, logic, count)?;
    let mut pins = Vec::new(alloc);
    settle_into(logic, netlist, order, inputs, state, &mut values, &mut pins)?;
    Ok(values)
}
