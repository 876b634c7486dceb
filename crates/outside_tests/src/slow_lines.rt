//! Two searches for slow lines run beside each other.
ghost use Rattle.std.specs.Prelude.{IfOk};
ghost use Rattle.netlist.specs.Designs.{IsDesign};

use crate::meeting::MeetingEngine;
use crate::runs::{allocated, core_of};
use evidence::Found;
use netlist::{Core, Holds, NoMemory};
use outside::OpenGate;
use std::alloc::{AllocError, Global};
use std::test::Fail;
use std::thread::Threads;
use transition::{SearchPlan, Trees, search_all};
use worker::Errand;

/// A chain of so many inverters.
fn chain_of(alloc: Global, length: u32) -> Result<String, AllocError> {
    let mut text = format!(in alloc; "INPUT(n0)\nOUTPUT(n{length})\n")?;
    for k in 1..=length {
        text.push_str(format!(in alloc; "n{} = NOT(n{})\n", k, k - 1)?.as_str())?;
    }
    Ok(text)
}

/// The core of such a chain.
fn chain_core(alloc: Global, length: u32) -> Result<Core, AllocError>
    ensures { IfOk result IsDesign }
{
    let text = chain_of(alloc, length)?;
    match core_of(alloc, text.as_bytes()) {
        Ok(core) => Ok(core),
        Err(_) => Err(AllocError),
    }
}

/// What two workers find for the slow lines of a core, with no held input.
fn search<R: Threads + Sync>(
    rt: &R,
    alloc: Global,
    core: &Core,
    engine: &MeetingEngine,
) -> Result<Vec<Found>, NoMemory>
    requires { IsDesign core.now }
{
    let holds = Holds::none(alloc, core)?;
    let errand = Errand {
        rt,
        alloc,
        core,
        engine,
        stage: &OpenGate,
        holds: &holds,
    };
    let plan = SearchPlan {
        limit: 4,
        trees: Trees::OfFrames,
        workers: 2,
    };
    search_all(&errand, plan)
}

/// 142 faults are two shares. No line is seen to change, since the input is held between the two captures.
#[test]
fn two_searches_for_slow_lines_meet(rt: HostRuntime) -> Result<(), Fail> {
    let alloc = rt.alloc();
    let core = chain_core(alloc, 70)?;
    let engine = allocated(MeetingEngine::of(alloc, &core))?;
    let found = allocated(search(&rt, alloc, &core, &engine))?;
    assert!(rt; engine.went_well());
    assert_eq!(rt; found.len(), 142);
    assert!(rt; found.iter().all(|f| matches!(f, Found::Closed(_))));
    Ok(())
}
