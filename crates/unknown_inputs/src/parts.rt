//! The parts of which the opened netlist is made.
ghost use Rattle.std.specs.Prelude.{◌≡◌, ◌++◌, ◌∷◌, [], map, IfOk, OnOk};
ghost use Rattle.netlist.specs.Conditions.{IsSound, whole};
ghost use Rattle.unknown_inputs.specs.Unknowns.{known_part, unknown_part};
ghost use Rattle.unknown_inputs.specs.Opened.{number_by, reads_itself, definition_by, input_numbers, opened};

use crate::inputs::number;
use crate::names::opened_names;
use netlist::{Definition, Kind, Netlist, Parts, SignalId};
use smallvec::SmallVec;
use std::alloc::{AllocError, Global};

/// These signals by their new numbers.
fn moved(
    alloc: Global,
    signals: &[SignalId],
    numbers: &[SignalId],
) -> Result<Vec<SignalId>, AllocError>
    ensures { IfOk result (λ v. v.items ≡ map (number_by numbers.now) signals.now) }
{
    let mut moved = Vec::with_capacity(alloc, signals.len())?;
    for x in signals {
        moved.push(number(numbers, *x))?;
    }
    Ok(moved)
}

/// Pins by their new numbers.
fn moved_pins(
    alloc: Global,
    pins: &[SignalId],
    numbers: &[SignalId],
) -> Result<SmallVec<SignalId, 4>, AllocError>
    ensures { IfOk result (λ v. v.items ≡ map (number_by numbers.now) pins.now) }
{
    let mut moved = SmallVec::new(alloc);
    for x in pins {
        moved.push(number(numbers, *x))?;
    }
    Ok(moved)
}

/// A definition by the new numbers.
fn moved_definition(
    alloc: Global,
    definition: &Definition,
    numbers: &[SignalId],
) -> Result<Definition, AllocError>
    ensures { IfOk result (λ d. d ≡ definition_by (number_by numbers.now) definition.now) }
{
    let pins = moved_pins(alloc, definition.pins(), numbers)?;
    Ok(Definition::new(number(numbers, definition.id()), definition.kind(), pins))
}

/// A cell that reads itself.
fn cell(alloc: Global, signal: SignalId) -> Result<Definition, AllocError>
    ensures { IfOk result (λ d. d ≡ reads_itself signal) }
{
    Ok(Definition::new(signal, Kind::Dff, SmallVec::from_slice(alloc, &[signal])?))
}

/// Adds a cell that reads itself for each of these signals.
fn push_cells(
    alloc: Global,
    signals: &[SignalId],
    made: &mut Vec<Definition>,
) -> Result<(), AllocError>
    ensures { OnOk result (made.new.items ≡ made.old.items ++ map reads_itself signals.now) }
{
    for x in signals {
        made.push(cell(alloc, *x)?)?;
    }
    Ok(())
}

/// Adds the netlist's definitions by the new numbers.
fn push_definitions(
    alloc: Global,
    netlist: &Netlist,
    numbers: &[SignalId],
    made: &mut Vec<Definition>,
) -> Result<(), AllocError>
    ensures { OnOk result (made.new.items ≡ made.old.items ++ map (definition_by (number_by numbers.now)) netlist.now.definitions) }
{
    for definition in netlist.definitions() {
        made.push(moved_definition(alloc, definition, numbers)?)?;
    }
    Ok(())
}

/// A cell for each unknown input, and then the netlist's definitions.
fn opened_definitions(
    alloc: Global,
    netlist: &Netlist,
    others: &[SignalId],
    numbers: &[SignalId],
) -> Result<Vec<Definition>, AllocError>
    ensures { IfOk result (λ v. v.items
        ≡ map reads_itself (map (number_by numbers.now) others.now) ++ map (definition_by (number_by numbers.now)) netlist.now.definitions) }
{
    let cells = moved(alloc, others, numbers)?;
    let count = cells.len().saturating_add(netlist.definitions().len());
    let mut made = Vec::with_capacity(alloc, count)?;
    push_cells(alloc, &cells, &mut made)?;
    push_definitions(alloc, netlist, numbers, &mut made)?;
    Ok(made)
}

/// The parts of the opened netlist.
pub(crate) fn opened_parts(
    alloc: Global,
    netlist: &Netlist,
    unknown: &[bool],
    known: &[SignalId],
    others: &[SignalId],
    numbers: &[SignalId],
) -> Result<Parts, AllocError>
    requires sound { IsSound netlist.now }
    requires known { known.now ≡ known_part unknown.now netlist.now.inputs }
    requires others { others.now ≡ unknown_part unknown.now netlist.now.inputs }
    requires numbers { numbers.now ≡ input_numbers netlist.now unknown.now }
    ensures { IfOk result (λ parts. whole parts ≡ opened netlist.now unknown.now) }
{
    Ok(Parts {
        names: opened_names(alloc, netlist, known, others)?,
        inputs: moved(alloc, known, numbers)?,
        outputs: moved(alloc, netlist.outputs(), numbers)?,
        definitions: opened_definitions(alloc, netlist, others, numbers)?,
    })
}
