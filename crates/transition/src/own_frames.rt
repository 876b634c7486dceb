//! The search for a slow line on the two frames in which it alone is slow.
ghost use Rattle.std.specs.Prelude.{IfOk};
ghost use Rattle.netlist.specs.Holds.{AreHoldsOf};
ghost use Rattle.netlist.specs.Lines.{IsLineOf};
ghost use Rattle.transition.specs.inner.Asked.{IsAnswer};
ghost use Rattle.transition.specs.inner.Frames.{CarriesOver};

use crate::cores::frames_core;
use crate::tasks::Task;
use evidence::{Engine, Found};
use netlist::{Core, Fault, NoMemory};

/// The answer for a transition fault by the stuck-at fault that makes its line slow on these frames.
fn search_on<E: Engine>(
    task: &Task<'_, E>,
    core: &Core,
    slow: Fault,
    fault: &Fault,
) -> Result<Found, NoMemory>
    requires holds { AreHoldsOf core.now task.now.holds }
    requires slow { IsLineOf core.now slow.line }
    requires carries { CarriesOver task.now.netlist fault.now core.now slow }
    ensures { IfOk result (IsAnswer task.now fault.now) }
{
    let engine = task.engine;
    let found = engine.search(task.alloc, core, slow, task.limit, task.holds)?;
    Ok(found)
}

/// The answer for one transition fault: a search on its two frames, which have the same inputs, under the same held inputs.
pub(crate) fn search_one<E: Engine>(task: &Task<'_, E>, fault: Fault) -> Result<Found, NoMemory>
    requires { IsLineOf task.now.netlist fault.line }
    ensures { IfOk result (IsAnswer task.now fault) }
{
    let (core, slow) = frames_core(task.alloc, task.netlist, task.names, fault)?;
    search_on(task, &core, slow, &fault)
}
