//! Inputs that are held, by their names.
ghost use Rattle.std.specs.Prelude.{◌≡◌, ◌≤◌, ◌<◌, ◌^◌, length, map};
ghost use Rattle.command_line.specs.CommandLine.{hold_of};
ghost use Rattle.command_steps.specs.Steps.{named_holds};
ghost use Rattle.command_steps.specs.Answers.{Answers};
ghost use Rattle.command_steps.specs.inner.Found.{IsFound};

use crate::refusal::Refusal;
use command_line::Held;
use commands::Stop;
use name_index::NameIndex;
use netlist::{Core, Holds};
use std::alloc::Global;

/// The number of the input of this name.
fn input_named(index: &NameIndex<'_>, name: &str) -> Option<u32>
    ensures { IsFound index.now name.now result }
{
    index.netlist().sound();
    let signal = index.get(name.as_bytes())?;
    if signal.index() < index.netlist().inputs().len() {
        Some(signal.index() as u32)
    } else {
        None
    }
}

/// Holds each input that is named at its bit.
pub fn holds_of(alloc: Global, core: &Core, named: &[Held<'_>]) -> Result<Holds, Stop<Refusal>>
    ensures { Answers (named_holds core.now (map hold_of named.now)) result }
{
    let Ok(mut holds) = Holds::none(alloc, core) else {
        return Err(Stop::NoMemory);
    };
    let Ok(index) = NameIndex::of(alloc, core.netlist()) else {
        return Err(Stop::NoMemory);
    };
    for (place, held) in named.iter().enumerate() {
        match input_named(&index, held.name) {
            Some(input) => holds.set(input, held.bit),
            None => return Err(Stop::Refused(Refusal::NoSuchInput(place))),
        }
    }
    Ok(holds)
}
