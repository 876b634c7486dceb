//! The failures of a log at strobes of a test, and the others.
ghost use Rattle.std.specs.Prelude.{◌≡◌, IfOk, Some};
ghost use Rattle.std.specs.Bool.{Decides};
ghost use Rattle.std.specs.List.{Contains};
ghost use Rattle.scan_insert.specs.Named.{HasTesterNames};
ghost use Rattle.diagnose.specs.inner.Ranks.{AreDivided, IsAddedOnce, failing};

use crate::failures::{Failure, FailureLines};
use crate::looking_up::pin_names;
use crate::marking::strobed_output;
use netlist::{NameTable, Netlist, NoMemory};
use scan_play::Vectors;
use std::alloc::{AllocError, Global};

/// Failures at strobes of a test, and failures that stand at none, each of these once.
#[derive(Drop)]
pub(crate) struct Divided {
    pub strobed: FailureLines,
    pub strangers: FailureLines,
}

/// Whether it is this failure.
fn is_same(failure: Failure<'_>, cycle: u64, signal: &[u8]) -> bool
    ensures { Decides result (failing failure.entry.cycle failure.entry.signal.now ≡ failing cycle signal.now) }
{
    failure.cycle == cycle && failure.signal == signal
}

/// Whether a failure is among these.
fn has(lines: &FailureLines, cycle: u64, signal: &[u8]) -> bool
    ensures { Decides result (Contains lines.now (failing cycle signal.now)) }
{
    for place in 0..lines.len() {
        if is_same(lines.get(place), cycle, signal) {
            return true;
        }
    }
    false
}

/// With one more, where it isn't among them.
fn with_once(lines: FailureLines, cycle: u64, signal: &[u8]) -> Result<FailureLines, AllocError>
    ensures { IfOk result (λ new. IsAddedOnce (failing cycle signal.now) lines new) }
{
    if has(&lines, cycle, signal) {
        return Ok(lines);
    }
    let more = lines.push(cycle, signal)?;
    Ok(more)
}

/// Divides the failures of a log.
pub(crate) fn divide(
    alloc: Global,
    netlist: &Netlist,
    vectors: &Vectors,
    failures: &FailureLines,
) -> Result<Divided, NoMemory>
    requires { HasTesterNames netlist.now }
    ensures { IfOk result (λ d. AreDivided netlist.now vectors.now failures.now d.strobed d.strangers) }
{
    let names = pin_names(alloc, netlist)?;
    let mut strobed = FailureLines::new(alloc);
    let mut strangers = FailureLines::new(alloc);
    for place in 0..failures.len() {
        let failure = failures.get(place);
        match strobed_output(&names, vectors, failure.cycle, failure.signal) {
            Some(_) => strobed = strobed.push(failure.cycle, failure.signal)?,
            None => strangers = with_once(strangers, failure.cycle, failure.signal)?,
        }
    }
    Ok(Divided { strobed, strangers })
}
