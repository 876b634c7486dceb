//! What compaction keeps of a list after calls.
ghost use Rattle.std.specs.Prelude.{◌≡◌, ◌+◌, ◌≤◌, ◌^◌, length};
ghost use Rattle.list_core.specs.Subjects.{HaveLines};

use crate::list_text::{push_patterns, push_verdict};
use crate::lists::list_after;
use crate::topics::Topic;
use list_core::{About, FaultList, Finished, Verdict, compact};
use netlist::{Core, Fault, Netlist, NoMemory};
use std::alloc::{AllocError, Global};
use word_sim::last_tells;

fn compacted<J: About>(
    alloc: Global,
    core: &Core,
    faults: &[Fault],
    list: FaultList<J>,
) -> Result<Finished, NoMemory>
    requires core { core.now ≡ J.subject.netlist }
    requires faults { faults.now ≡ J.subject.faults }
    requires lines { HaveLines J.subject }
    requires few { length list.patterns + 64 ≤ 2 ^ 32 }
{
    list.true_list();
    let last = last_tells(alloc, core, faults, list.patterns())?;
    let (patterns, verdicts) = list.into_parts();
    compact(alloc, patterns, verdicts, &last)
}

/// Adds the verdict of each class.
fn push_verdicts(
    to: &mut Vec<u8>,
    netlist: &Netlist,
    verdicts: &[Verdict],
) -> Result<(), AllocError> {
    let mut class = 0u32;
    for verdict in verdicts {
        push_verdict(to, netlist, class, verdict)?;
        class = class.wrapping_add(1);
    }
    Ok(())
}

fn push_finished(
    to: &mut Vec<u8>,
    netlist: &Netlist,
    finished: &Finished,
) -> Result<(), AllocError> {
    push_patterns(to, &finished.patterns)?;
    push_verdicts(to, netlist, &finished.verdicts)
}

/// Adds what is kept once the list is compacted.
fn push_compacted<J: About>(
    to: &mut Vec<u8>,
    topic: &Topic<'_, J>,
    list: FaultList<J>,
) -> Result<(), AllocError> {
    if list.patterns().len() > 1_000_000 {
        return Err(AllocError);
    }
    match compacted(topic.alloc, topic.core, topic.faults, list) {
        Ok(finished) => push_finished(to, topic.core.netlist(), &finished),
        Err(_) => Err(AllocError),
    }
}

/// The calls of a text, one by one, and what is kept once the list is compacted.
pub fn play_compacted<J: About>(
    to: &mut Vec<u8>,
    topic: &Topic<'_, J>,
    calls: &[u8],
) -> Result<(), AllocError> {
    let list = list_after(to, topic, calls)?;
    push_compacted(to, topic, list)
}
