//! The parts of which the netlist of a batch is made.
//!
//! The two frames come first, with the numbers that they have where one line alone is slow, and three gates for each slow line behind them: so what is
//! decided below the gates means the same in a batch as in the two frames of one line.
ghost use Rattle.std.specs.Prelude.{◌≡◌, ◌++◌, ◌∷◌, [], ◌<◌, ◌≤◌, length, map, IfOk, OnOk};
ghost use Rattle.std.specs.List.{All, Contains};
ghost use Rattle.netlist.specs.Conditions.{IsSound, whole};
ghost use Rattle.netlist.specs.Lines.{IsLineOf};
ghost use Rattle.statement.specs.Netlists.{signals};
ghost use Rattle.netlist.specs.Netlist.{define as define_as};
ghost use Rattle.statement.specs.declared.lines.Fault.{Fault as FaultOf};
ghost use Rattle.statement.specs.declared.lines.Line.TheVariants.{Out};
ghost use Rattle.net_gen.specs.Samples.{lettered_names};
ghost use Rattle.transition_batches.specs.Batches.{in_first_of, in_second_of, gates_at, all_gates, read_late, batch_of};
ghost use Rattle.transition_batches.specs.inner.Marks.{IsBatch};

use crate::reading::{mark_sources, read, read_pins, second, tie_at};
use net_gen::add_names;
use netlist::{Definition, Fault, Kind, Line, NameTable, Netlist, Parts, SignalId};
use smallvec::SmallVec;
use std::alloc::{AllocError, Global};
use transition_frames::source_of;

/// A gate that reads these signals.
fn define(
    alloc: Global,
    id: SignalId,
    kind: Kind,
    pins: &[SignalId],
) -> Result<Definition, AllocError>
    ensures { IfOk result (λ d. d ≡ define_as id kind pins.now) }
{
    Ok(Definition::new(id, kind, SmallVec::from_slice(alloc, pins)?))
}

/// Adds a gate that reads these signals.
fn push_gate(
    alloc: Global,
    id: SignalId,
    kind: Kind,
    pins: &[SignalId],
    made: &mut Vec<Definition>,
) -> Result<(), AllocError>
    ensures { OnOk result (made.new.items ≡ made.old.items ++ define_as id kind pins.now ∷ []) }
{
    let gate = define(alloc, id, kind, pins)?;
    made.push(gate)?;
    Ok(())
}

/// A definition in the first frame.
fn first(
    alloc: Global,
    netlist: &Netlist,
    faults: &[Fault],
    marks: &[bool],
    definition: &Definition,
) -> Result<Definition, AllocError>
    requires batch { IsBatch netlist.now faults.now marks.now }
    requires own { Contains netlist.now.definitions definition.now }
    ensures { IfOk result (λ d. d ≡ in_first_of netlist.now faults.now definition.now) }
{
    if !definition.kind().is_flip_flop() {
        return definition.copy(alloc);
    }
    let pins = read_pins(alloc, netlist, faults, marks, definition)?;
    Ok(Definition::new(definition.id(), definition.kind(), pins))
}

/// A definition in the second frame.
fn next(
    alloc: Global,
    netlist: &Netlist,
    faults: &[Fault],
    marks: &[bool],
    definition: &Definition,
) -> Result<Definition, AllocError>
    requires batch { IsBatch netlist.now faults.now marks.now }
    requires own { Contains netlist.now.definitions definition.now }
    requires low { definition.now.id < length (signals netlist.now) }
    ensures { IfOk result (λ d. d ≡ in_second_of netlist.now faults.now definition.now) }
{
    let moved = SignalId(definition.id().0 + netlist.definitions().len() as u32);
    if definition.kind().is_flip_flop() {
        return define(alloc, moved, Kind::Buff, definition.pins());
    }
    let pins = read_pins(alloc, netlist, faults, marks, definition)?;
    Ok(Definition::new(moved, definition.kind(), pins))
}

/// Adds what a definition is in the first frame.
fn push_first(
    alloc: Global,
    netlist: &Netlist,
    faults: &[Fault],
    marks: &[bool],
    definition: &Definition,
    made: &mut Vec<Definition>,
) -> Result<(), AllocError>
    requires batch { IsBatch netlist.now faults.now marks.now }
    requires own { Contains netlist.now.definitions definition.now }
    ensures { OnOk result (made.new.items ≡ made.old.items ++ in_first_of netlist.now faults.now definition.now ∷ []) }
{
    let there = first(alloc, netlist, faults, marks, definition)?;
    made.push(there)?;
    Ok(())
}

/// Adds what it is in the second frame.
fn push_second(
    alloc: Global,
    netlist: &Netlist,
    faults: &[Fault],
    marks: &[bool],
    definition: &Definition,
    made: &mut Vec<Definition>,
) -> Result<(), AllocError>
    requires batch { IsBatch netlist.now faults.now marks.now }
    requires own { Contains netlist.now.definitions definition.now }
    requires low { definition.now.id < length (signals netlist.now) }
    ensures { OnOk result (made.new.items ≡ made.old.items ++ in_second_of netlist.now faults.now definition.now ∷ []) }
{
    let there = next(alloc, netlist, faults, marks, definition)?;
    made.push(there)?;
    Ok(())
}

/// Adds the definitions of the first frame.
fn push_firsts(
    alloc: Global,
    netlist: &Netlist,
    faults: &[Fault],
    marks: &[bool],
    made: &mut Vec<Definition>,
) -> Result<(), AllocError>
    requires batch { IsBatch netlist.now faults.now marks.now }
    ensures { OnOk result (made.new.items ≡ made.old.items ++ map (in_first_of netlist.now faults.now) netlist.now.definitions) }
{
    for definition in netlist.definitions() {
        push_first(alloc, netlist, faults, marks, definition, made)?;
    }
    Ok(())
}

/// Adds the definitions of the second frame.
fn push_seconds(
    alloc: Global,
    netlist: &Netlist,
    faults: &[Fault],
    marks: &[bool],
    made: &mut Vec<Definition>,
) -> Result<(), AllocError>
    requires batch { IsBatch netlist.now faults.now marks.now }
    ensures { OnOk result (made.new.items ≡ made.old.items ++ map (in_second_of netlist.now faults.now) netlist.now.definitions) }
{
    for definition in netlist.definitions() {
        push_second(alloc, netlist, faults, marks, definition, made)?;
    }
    Ok(())
}

/// Adds the gates of the slow line at a place: one that is slow to leave 0 can't rise, and one that is slow to leave 1 can't fall.
fn push_slow(
    alloc: Global,
    netlist: &Netlist,
    place: usize,
    fault: &Fault,
    made: &mut Vec<Definition>,
) -> Result<(), AllocError>
    requires sound { IsSound netlist.now }
    requires small { length (signals netlist.now) ≤ 1000000 }
    requires few { place ≤ 1024 }
    requires line { IsLineOf netlist.now fault.now.line }
    ensures { OnOk result (made.new.items ≡ made.old.items ++ gates_at netlist.now place fault.now) }
{
    let x = source_of(netlist, &fault.line);
    let tie = tie_at(netlist, place);
    let hold = SignalId(tie.0 + 1);
    let late = SignalId(tie.0 + 2);
    let (bit, keep, lag) = if fault.value {
        (Kind::Const0, Kind::And, Kind::Or)
    } else {
        (Kind::Const1, Kind::Or, Kind::And)
    };
    push_gate(alloc, tie, bit, &[], made)?;
    push_gate(alloc, hold, keep, &[x, tie], made)?;
    push_gate(alloc, late, lag, &[second(netlist, x), hold], made)
}

/// Adds the gates of all slow lines.
fn push_all_slow(
    alloc: Global,
    netlist: &Netlist,
    faults: &[Fault],
    made: &mut Vec<Definition>,
) -> Result<(), AllocError>
    requires sound { IsSound netlist.now }
    requires small { length (signals netlist.now) ≤ 1000000 }
    requires few { length faults.now ≤ 1024 }
    requires lines { All (λ (f : FaultOf). IsLineOf netlist.now f.line) faults.now }
    ensures { OnOk result (made.new.items ≡ made.old.items ++ all_gates netlist.now 0 faults.now) }
{
    for place in 0..faults.len() {
        push_slow(alloc, netlist, place, &faults[place], made)?;
    }
    Ok(())
}

/// Adds the outputs, which show the second frame.
fn push_outputs(
    netlist: &Netlist,
    faults: &[Fault],
    marks: &[bool],
    outputs: &mut Vec<SignalId>,
) -> Result<(), AllocError>
    requires batch { IsBatch netlist.now faults.now marks.now }
    ensures { OnOk result (outputs.new.items ≡ outputs.old.items ++ map (λ y. read_late netlist.now 0 faults.now (Out y) y) netlist.now.outputs) }
{
    for y in netlist.outputs() {
        outputs.push(read(netlist, faults, marks, &Line::Out(*y), *y))?;
    }
    Ok(())
}

/// The outputs.
fn outputs(
    alloc: Global,
    netlist: &Netlist,
    faults: &[Fault],
    marks: &[bool],
) -> Result<Vec<SignalId>, AllocError>
    requires batch { IsBatch netlist.now faults.now marks.now }
    ensures { IfOk result (λ v. v.items ≡ map (λ y. read_late netlist.now 0 faults.now (Out y) y) netlist.now.outputs) }
{
    let mut outputs = Vec::with_capacity(alloc, netlist.outputs().len())?;
    push_outputs(netlist, faults, marks, &mut outputs)?;
    Ok(outputs)
}

/// The names of so many signals.
fn names(alloc: Global, count: u32) -> Result<NameTable, AllocError>
    ensures { IfOk result (λ names. names ≡ lettered_names 110 count) }
{
    let mut names = NameTable::new(alloc);
    let mut text = Vec::new(alloc);
    add_names(&mut names, &mut text, b'n', count)?;
    Ok(names)
}

/// The definitions of both frames and of the slow lines.
fn definitions(
    alloc: Global,
    netlist: &Netlist,
    faults: &[Fault],
    marks: &[bool],
) -> Result<Vec<Definition>, AllocError>
    requires batch { IsBatch netlist.now faults.now marks.now }
    requires lines { All (λ (f : FaultOf). IsLineOf netlist.now f.line) faults.now }
    ensures { IfOk result (λ v. v.items ≡ (batch_of netlist.now faults.now).definitions) }
{
    let count = 2 * netlist.definitions().len() + 3 * faults.len();
    let mut definitions = Vec::with_capacity(alloc, count)?;
    push_firsts(alloc, netlist, faults, marks, &mut definitions)?;
    push_seconds(alloc, netlist, faults, marks, &mut definitions)?;
    push_all_slow(alloc, netlist, faults, &mut definitions)?;
    Ok(definitions)
}

/// The parts of the netlist of a batch.
pub(crate) fn batch_parts(
    alloc: Global,
    netlist: &Netlist,
    faults: &[Fault],
) -> Result<Parts, AllocError>
    requires sound { IsSound netlist.now }
    requires small { length (signals netlist.now) ≤ 1000000 }
    requires few { length faults.now ≤ 1024 }
    requires lines { All (λ (f : FaultOf). IsLineOf netlist.now f.line) faults.now }
    ensures { IfOk result (λ parts. whole parts ≡ batch_of netlist.now faults.now) }
{
    let marks = mark_sources(alloc, netlist, faults)?;
    let definitions = definitions(alloc, netlist, faults, &marks)?;
    let outputs = outputs(alloc, netlist, faults, &marks)?;
    let inputs = Vec::from_slice(alloc, netlist.inputs())?;
    Ok(Parts {
        names: names(alloc, tie_at(netlist, faults.len()).0)?,
        inputs,
        outputs,
        definitions,
    })
}
