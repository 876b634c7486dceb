//! The walk through the universe: the first slow line of which the report doesn't say what is true.
ghost use Rattle.std.specs.Prelude.{◌≡◌, ◌<◌, length, IfOk, MatchBool, MatchOption};
ghost use Rattle.netlist.specs.Lines.{signal_of};
ghost use Rattle.statement.specs.Netlists.{signals};
ghost use Rattle.transition_report.specs.Texts.{transition_text};
ghost use Rattle.slow_check.specs.inner.Walking.{AreTrueBelow, IsFirstUntrueAt, IsReady, IsTrueLine, count_of};

use crate::trials::SlowTrial;
use crate::truth::is_true_of;
use check_parts::Firsts;
use fault_universe::{FaultSet, faults_have_signals};
use netlist::{Fault, NameTable, Netlist, NoMemory, Point};
use report::{FaultLine, FaultLines};
use std::alloc::{AllocError, Global};
use transition_report::push_fault;

/// What the walk goes by: the test, its slow lines, the pins at the scanned netlist's outputs, the names of the two frames' signals, where each slow
/// line is last detected, where its first evidence stands, and the report's lines.
#[derive(Clone, Copy)]
pub(crate) struct Walk<'a> {
    pub trial: &'a SlowTrial<'a>,
    pub faults: &'a FaultSet,
    pub pins: &'a NameTable,
    pub names: &'a NameTable,
    pub lasts: &'a [Option<(u32, Point)>],
    pub firsts: &'a Firsts,
    pub lines: &'a FaultLines,
}

/// Whether a line of the report names a slow line.
fn names(
    text: &mut Vec<u8>,
    netlist: &Netlist,
    fault: &Fault,
    line: FaultLine<'_>,
) -> Result<bool, AllocError>
    requires { signal_of fault.now.line < length (signals netlist.now) }
    ensures { IfOk result (λ yes. MatchBool yes
        (line.entry.fault.now ≡ transition_text netlist.now fault.now)
        (¬ (line.entry.fault.now ≡ transition_text netlist.now fault.now))) }
{
    text.clear();
    push_fault(text, netlist, *fault)?;
    Ok(text.as_slice() == line.fault)
}

/// Whether the report's line at a place names the slow line there, and says of it what is true.
fn is_true_at(
    alloc: Global,
    walk: &Walk<'_>,
    text: &mut Vec<u8>,
    place: u32,
) -> Result<bool, NoMemory>
    requires ready { IsReady walk.now }
    requires within { place < count_of walk.now }
    ensures { IfOk result (λ yes. MatchBool yes (IsTrueLine walk.now place) (¬ IsTrueLine walk.now place)) }
{
    faults_have_signals();
    let lines = walk.lines;
    if place as usize >= lines.len() {
        return Ok(false);
    }
    let line = lines.get(place as usize);
    let fault = walk.faults.fault(place);
    if !names(text, walk.trial.netlist, &fault, line)? {
        return Ok(false);
    }
    is_true_of(alloc, walk, &fault, &walk.lasts[place as usize], line)
}

/// The first place of the universe at which the report doesn't say what is true.
pub(crate) fn first_untrue(alloc: Global, walk: &Walk<'_>) -> Result<Option<u32>, NoMemory>
    requires { IsReady walk.now }
    ensures { IfOk result (λ o. MatchOption o (AreTrueBelow walk.now (count_of walk.now)) (IsFirstUntrueAt walk.now)) }
{
    let mut text = Vec::new(alloc);
    for place in 0..walk.faults.len() {
        if !is_true_at(alloc, walk, &mut text, place)? {
            return Ok(Some(place));
        }
    }
    Ok(None)
}
