//! Searches for a test of a fault.
ghost use Rattle.std.specs.Prelude.{◌≤◌};
ghost use Rattle.netlist.specs.Holds.{AreHoldsOf};
ghost use Rattle.netlist.specs.Lines.{IsLineOf};

use crate::faults::listed;
use case_nets::holds_of;
use case_text::{Args, Pushed, Said, small};
use evidence::{Engine, Found};
use fan::Fan;
use netlist::{Core, Fault, Holds, NoMemory};
use podem::Podem;
use std::alloc::{AllocError, Global};

#[derive(Clone, Copy)]
pub enum By {
    Podem,
    Fan,
}

fn found_by(
    by: By,
    alloc: Global,
    core: &Core,
    fault: Fault,
    limit: u32,
    holds: &Holds,
) -> Result<Found, NoMemory>
    requires limit { 1 ≤ limit }
    requires holds { AreHoldsOf core.now holds.now }
    requires line { IsLineOf core.now fault.line }
{
    match by {
        By::Podem => Podem::of(alloc, core)?.search(alloc, core, fault, limit, holds),
        By::Fan => Fan::of(alloc, core)?.search(alloc, core, fault, limit, holds),
    }
}

fn word_of(found: &Found) -> &'static str {
    match found {
        Found::Test(_, _) => "test\n",
        Found::Closed(_) => "closed\n",
        Found::Refuted(_) => "refuted\n",
        Found::Partial(_) => "partial\n",
    }
}

/// `search HELD LIMIT FAULT`, `search-fan ..`: whether the engine finds a test, shows that there is none, or gives up at the backtrack limit.
pub fn push_search(to: &mut Said, core: &Core, args: &Args<'_>, by: By) -> Pushed {
    let Some(fault) = listed(core.netlist(), args.last) else {
        to.push("no fault\n");
        return Ok(());
    };
    let holds = holds_of(to.alloc, core, args.first)?;
    let limit = small(args.second).max(1);
    match found_by(by, to.alloc, core, fault, limit, &holds) {
        Ok(found) => {
            to.push(word_of(&found));
            Ok(())
        }
        Err(_) => Err(AllocError),
    }
}
