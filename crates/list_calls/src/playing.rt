//! Calls of a new list, alone or behind its lock.
ghost use Rattle.std.specs.Prelude.{false, ◌≡◌, ◌<◌, ◌≤◌, true, IfOk};
ghost use Rattle.std.specs.List.{All};
ghost use Rattle.statement.specs.declared.lines.Fault.{Fault as FaultOf};
ghost use Rattle.netlist.specs.Designs.{IsDesign};
ghost use Rattle.netlist.specs.Lines.{IsLineOf};
ghost use Rattle.plain_text.specs.Limits.{most_workers};

use crate::compaction::play_compacted;
use crate::lists::play_list;
use crate::sharing::play_shares;
use crate::topics::{Plan, topic_of};
use case_nets::{classes_of, have_lines};
use case_text::{cut, cut_at, small};
use fault_collapse::Classes;
use list_core::About;
use netlist::{Core, Fault, Holds, Netlist};
use std::alloc::{AllocError, Global};
use std::marker::Brand;
use std::sync::Wait;

/// What the calls are made on.
#[derive(Clone, Copy)]
pub enum On {
    /// A list.
    List,
    /// A list that is compacted in the end.
    Compacted,
    /// A list behind its lock, and shares.
    Shares,
}

/// The word for the workers, and what stands behind it; no word for the workers where there are none.
fn numbers_of(text: &str, on: On) -> (&str, &str) {
    match on {
        On::Shares => cut(text),
        On::List | On::Compacted => ("", text),
    }
}

/// The first members of the classes of these numbers; of all classes where there are no numbers.
fn chosen(
    alloc: Global,
    netlist: &Netlist,
    classes: &Classes,
    numbers: &str,
) -> Result<Vec<Fault>, AllocError>
    requires { All (λ (f : FaultOf). IsLineOf netlist.now f.line) classes.now.representatives }
    ensures { IfOk result (λ v. All (λ (f : FaultOf). IsLineOf netlist.now f.line) v.items) }
{
    if numbers.is_empty() {
        return Vec::from_slice(alloc, classes.representatives());
    }
    let mut faults = Vec::new(alloc);
    for number in numbers.split(' ') {
        let class = small(number);
        if class >= classes.count() {
            return Ok(faults);
        }
        faults.push(classes.representative(class))?;
    }
    Ok(faults)
}

/// The first members of the classes of these numbers among a design's.
fn faults_of(alloc: Global, netlist: &Netlist, numbers: &str) -> Result<Vec<Fault>, AllocError>
    requires { IsDesign netlist.now }
    ensures { IfOk result (λ v. All (λ (f : FaultOf). IsLineOf netlist.now f.line) v.items) }
{
    let Ok(classes) = classes_of(alloc, netlist) else {
        return Err(AllocError);
    };
    have_lines(netlist, &classes);
    chosen(alloc, netlist, &classes, numbers)
}

/// The plan's calls on a new list, which may be compacted in the end, under a name for what it is about.
fn play_alone<J: About>(to: &mut Vec<u8>, plan: &Plan<'_>, compacts: bool) -> Result<(), AllocError>
    requires { J.subject ≡ record plan.now { refutes = true } }
{
    let topic = topic_of::<J>(plan, true);
    if compacts {
        play_compacted(to, &topic, plan.calls)
    } else {
        play_list(to, &topic, plan.calls)
    }
}

/// The plan's calls on a new list behind its lock, under a name for what it is about.
fn play_locked<J: About, R: Wait>(
    to: &mut Vec<u8>,
    rt: &R,
    plan: &Plan<'_>,
    workers: u32,
) -> Result<(), AllocError>
    requires subject { J.subject ≡ record plan.now { refutes = false } }
    requires workers { (0 < workers) × (workers ≤ most_workers) }
{
    let topic = topic_of::<J>(plan, false);
    play_shares(to, rt, &topic, workers, plan.calls)
}

/// Adds what the plan's calls answer.
fn play<R: Wait>(
    to: &mut Vec<u8>,
    rt: &R,
    plan: &Plan<'_>,
    workers: u32,
    on: On,
) -> Result<(), AllocError>
    requires { (0 < workers) × (workers ≤ most_workers) }
{
    match on {
        On::List => play_alone::<Brand>(to, plan, false),
        On::Compacted => play_alone::<Brand>(to, plan, true),
        On::Shares => play_locked::<Brand, R>(to, rt, plan, workers),
    }
}

/// `list LIMIT CLASSES: CALLS`, `compacted LIMIT CLASSES: CALLS`, `shares WORKERS LIMIT CLASSES: CALLS`: what the calls answer, each on a new list's
/// next state, and what the list keeps in the end.
pub fn push_played<R: Wait>(
    to: &mut Vec<u8>,
    rt: &R,
    alloc: Global,
    core: &Core,
    rest: &str,
    on: On,
) -> Result<(), AllocError>
    requires { IsDesign core.now }
{
    let (numbers, calls) = cut_at(rest, ": ");
    let (workers, numbers) = numbers_of(numbers, on);
    let (limit, numbers) = cut(numbers);
    let workers = small(workers).clamp(1, 64);
    let limit = small(limit).max(1);
    let faults = faults_of(alloc, core.netlist(), numbers)?;
    if faults.len() > 1_000_000 {
        return to.extend_from_slice(b"more than 1000000 classes\n");
    }
    let Ok(holds) = Holds::none(alloc, core) else {
        return Err(AllocError);
    };
    let plan = Plan {
        alloc,
        core,
        faults: &faults,
        limit,
        holds: &holds,
        calls: calls.as_bytes(),
    };
    play(to, rt, &plan, workers, on)
}
