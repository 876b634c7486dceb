//! The evaluator by events beside evaluation from scratch.
ghost use Rattle.std.specs.Prelude.{◌≡◌, ◌<◌, ◌≤◌, IfOk, length};
ghost use Rattle.std.specs.List.{All};
ghost use Rattle.netlist.specs.Designs.{IsDesign};
ghost use Rattle.netlist.specs.Lines.{IsLineOf};
ghost use Rattle.statement.specs.Netlists.{cells};
ghost use Rattle.statement.specs.declared.lines.Fault.{Fault as FaultOf};

use crate::faults::all_faults;
use case_text::{Pushed, Said};
use events::{Events, Words};
use netlist::{Core, Fault};
use rand_core::Rng;
use rand_pcg::Pcg32;
use std::alloc::{AllocError, Global};

/// Puts a random word at a random place, if there is one.
fn change_one(words: &mut Vec<u64>, random: &mut Pcg32)
    ensures { length words.new.items ≡ length words.old.items }
{
    let count = words.len();
    if count > 0 {
        let place = random.next_u32() as usize % count;
        words[place] = random.next_u64();
    }
}

/// A word on each input and in each cell.
#[derive(Drop)]
struct Driven {
    inputs: Vec<u64>,
    state: Vec<u64>,
}

fn nothing_driven(alloc: Global, core: &Core) -> Result<Driven, AllocError>
    ensures inputs { IfOk result (λ d. length d.inputs.items ≡ length core.now.inputs) }
    ensures state { IfOk result (λ d. length d.state.items ≡ length (cells core.now)) }
{
    let netlist = core.netlist();
    Ok(Driven {
        inputs: vec![in alloc; 0; netlist.inputs().len()]?,
        state: vec![in alloc; 0; netlist.cells().len()]?,
    })
}

/// Whether the values that stand are those that settle from scratch.
fn is_settled(
    alloc: Global,
    core: &Core,
    events: &Events<'_, u64>,
    fault: Option<Fault>,
    driven: &Driven,
) -> Result<bool, AllocError>
    requires inputs { length driven.now.inputs.items ≡ length core.now.inputs }
    requires state { length driven.now.state.items ≡ length (cells core.now) }
{
    let words = core.settle(alloc, &Words { fault }, &driven.inputs, &driven.state)?;
    Ok(words.as_slice() == events.values())
}

/// Whether the values with a line stuck are as from scratch, and those with it taken back as before.
fn is_taken_back(
    alloc: Global,
    core: &Core,
    events: &mut Events<'_, u64>,
    fault: Fault,
    driven: &Driven,
) -> Result<bool, AllocError>
    requires inputs { length driven.now.inputs.items ≡ length core.now.inputs }
    requires state { length driven.now.state.items ≡ length (cells core.now) }
    requires netlist { events.old.netlist ≡ core.now }
    requires room { length events.old.trail ≤ events.old.room }
    requires line { IsLineOf core.now fault.line }
    ensures netlist { events.new.netlist ≡ events.old.netlist }
{
    let before = Vec::from_slice(alloc, events.values())?;
    let stuck = Some(fault);
    events.stick(&Words { fault: stuck }, &fault);
    let is_stuck = is_settled(alloc, core, events, stuck, driven)?;
    events.undo(0);
    Ok(is_stuck && before.as_slice() == events.values())
}

/// Other words on inputs and cells, a line stuck, and that taken back: whether all is as from scratch each time, and then as before.
fn is_as_from_scratch(
    alloc: Global,
    core: &Core,
    events: &mut Events<'_, u64>,
    fault: Fault,
    driven: &Driven,
) -> Result<bool, AllocError>
    requires inputs { length driven.now.inputs.items ≡ length core.now.inputs }
    requires state { length driven.now.state.items ≡ length (cells core.now) }
    requires netlist { events.old.netlist ≡ core.now }
    requires line { IsLineOf core.now fault.line }
    ensures netlist { events.new.netlist ≡ events.old.netlist }
{
    events.drive(&Words { fault: None }, &driven.inputs, &driven.state);
    if !is_settled(alloc, core, events, None, driven)? {
        return Ok(false);
    }
    is_taken_back(alloc, core, events, fault, driven)
}

/// The values that settle.
fn settled_events<'a>(
    alloc: Global,
    core: &'a Core,
    driven: &Driven,
) -> Result<Events<'a, u64>, AllocError>
    requires inputs { length driven.now.inputs.items ≡ length core.now.inputs }
    requires state { length driven.now.state.items ≡ length (cells core.now) }
    ensures { IfOk result (λ e. e.netlist ≡ core.now) }
{
    let words = core.settle(alloc, &Words { fault: None }, &driven.inputs, &driven.state)?;
    Events::new(alloc, core, words, 0)
}

/// The first change of these after which something isn't as from scratch, each with the next line of the list stuck.
fn first_other(
    core: &Core,
    events: &mut Events<'_, u64>,
    driven: &mut Driven,
    faults: &[Fault],
    seed: u64,
    changes: u32,
    alloc: Global,
) -> Result<Option<u32>, AllocError>
    requires netlist { events.old.netlist ≡ core.now }
    requires inputs { length driven.old.inputs.items ≡ length core.now.inputs }
    requires state { length driven.old.state.items ≡ length (cells core.now) }
    requires some { 0 < length faults.now }
    requires lines { All (λ (f : FaultOf). IsLineOf core.now f.line) faults.now }
{
    let mut random = Pcg32::new(seed, 54);
    for change in 0..changes {
        change_one(&mut driven.inputs, &mut random);
        change_one(&mut driven.state, &mut random);
        let fault = faults[change as usize % faults.len()];
        if !is_as_from_scratch(alloc, core, events, fault, driven)? {
            return Ok(Some(change));
        }
    }
    Ok(None)
}

fn first_drawn(
    alloc: Global,
    core: &Core,
    faults: &[Fault],
    seed: u64,
    changes: u32,
) -> Result<Option<u32>, AllocError>
    requires some { 0 < length faults.now }
    requires lines { All (λ (f : FaultOf). IsLineOf core.now f.line) faults.now }
{
    let mut driven = nothing_driven(alloc, core)?;
    let mut events = settled_events(alloc, core, &driven)?;
    first_other(core, &mut events, &mut driven, faults, seed, changes, alloc)
}

/// `events SEED CHANGES`: so many random changes of what is driven, each with the next line of the list stuck and taken back.
pub fn push_changes(to: &mut Said, core: &Core, seed: u64, changes: u32) -> Pushed
    requires { IsDesign core.now }
{
    let faults = all_faults(to.alloc, core.netlist())?;
    if faults.is_empty() {
        to.push("no fault\n");
        return Ok(());
    }
    match first_drawn(to.alloc, core, &faults, seed, changes)? {
        Some(change) => to.push_count("not as from scratch: change ", u64::from(change)),
        None => {
            to.push_number(u64::from(changes));
            to.push(" changes, all as from scratch\n");
        }
    }
    Ok(())
}
