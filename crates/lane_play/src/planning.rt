//! Which gates the cycles of a burst have to evaluate, where each machine has another line stuck.
//!
//! What settles where all that changes is X stays in a machine wherever it is known there. A gate is left out where that is so in every machine:
//! while the chains shift, the shift path is evaluated, and of the other gates those that a machine's stuck line lets through to a cell.
ghost use Rattle.std.specs.Prelude.{◌≡◌, ◌<◌, ◌≤◌, ◌++◌, ℕ, true, false, length, replicate, IfOk, OnOk};
ghost use Rattle.std.specs.List.{All};
ghost use Rattle.statement.specs.Netlists.{signals};
ghost use Rattle.netlist.specs.ThreeValues.{is_x};
ghost use Rattle.scan_play.specs.Bursts.{cycles_of};
ghost use Rattle.scan_play.specs.Cycles.{IsCycleOf};
ghost use Rattle.lane_play.specs.inner.Lanes.{lane, unknown};
ghost use Rattle.lane_play.specs.inner.Shifts.{AreCommon, ArePlanned, AreStill};

use crate::cycles::{Bench, push_always};
use crate::evaluating::settle_into;
use crate::packed::Lanes;
use crate::stuck::Stuck;
use netlist::{Core, Tri};
use scan_play::{Burst, Plan};
use std::alloc::{AllocError, Global};

/// Room to plan a burst in: for cells of which nothing is known, and for what is known in every machine.
#[derive(Drop)]
pub(crate) struct Planner {
    pub plan: Plan,
    idle: Vec<Lanes>,
    common: Vec<Tri>,
}

impl Planner {
    pub(crate) fn new(alloc: Global) -> Planner {
        Planner {
            plan: Plan::new(alloc),
            idle: Vec::new(alloc),
            common: Vec::new(alloc),
        }
    }
}

/// Whether every machine knows its value.
fn is_known(value: Lanes) -> bool
    ensures { (k : ℕ) → k < 128 → result ≡ true → is_x (lane k value) ≡ false }
{
    value.known.is_all()
}

/// Something that is known, where every machine knows its value.
fn common(value: Lanes) -> Tri
    ensures { (k : ℕ) → k < 128 → is_x result ≡ false → is_x (lane k value) ≡ false }
{
    if is_known(value) {
        value.lane(0)
    } else {
        Tri::X
    }
}

/// What is known in every machine.
fn read_common(values: &[Lanes], table: &mut Vec<Tri>) -> Result<(), AllocError>
    ensures { OnOk result (AreCommon values.now table.new.items) }
{
    table.clear();
    for value in values {
        table.push(common(*value))?;
    }
    Ok(())
}

/// Adds so many values of which nothing is known.
pub(crate) fn push_unknowns(count: usize, values: &mut Vec<Lanes>) -> Result<(), AllocError>
    ensures { OnOk result (values.new.items ≡ values.old.items ++ replicate count unknown) }
{
    for _done in 0..count {
        values.push(Lanes::unknown())?;
    }
    Ok(())
}

/// What settles where nothing is known of the cells, nor of the inputs that change in a burst. `drive` and `idle` are room for what is driven.
fn settle_still(
    core: &Core,
    rule: &Stuck,
    burst: &Burst,
    drive: &mut Vec<Lanes>,
    idle: &mut Vec<Lanes>,
    values: &mut Vec<Lanes>,
) -> Result<(), AllocError>
    requires narrow { length burst.now.drive.items ≤ length core.now.inputs }
    requires size { length values.old.items ≡ length (signals core.now) }
    ensures still { OnOk result (AreStill rule.now.faults.now core.now burst.now.drive.items values.new.items) }
    ensures size { OnOk result (length values.new.items ≡ length (signals core.now)) }
{
    let netlist = core.netlist();
    netlist.sound();
    drive.clear();
    push_always(&burst.drive, drive)?;
    push_unknowns(netlist.inputs().len() - burst.drive.len(), drive)?;
    idle.clear();
    push_unknowns(netlist.cells().len(), idle)?;
    settle_into(rule, netlist, core.order(), drive, idle, values);
    Ok(())
}

/// Puts what stays through a burst into the values, and chooses the gates that its cycles have to evaluate. Answers whether these will do.
fn plan_burst(
    core: &Core,
    rule: &Stuck,
    burst: &Burst,
    planner: &mut Planner,
    bench: &mut Bench,
) -> Result<bool, AllocError>
    requires narrow { length burst.now.drive.items ≤ length core.now.inputs }
    requires size { length bench.old.values.items ≡ length (signals core.now) }
    ensures state { IfOk result (λ _. bench.new.state.items ≡ bench.old.state.items) }
    ensures size { IfOk result (λ _. length bench.new.values.items ≡ length (signals core.now)) }
    ensures planned { IfOk result (λ yes. yes ≡ true → ArePlanned rule.now.faults.now core.now burst.now.drive.items burst.now.strobe.items planner.new.plan.steps.items bench.new.values.items) }
{
    settle_still(
        core,
        rule,
        burst,
        &mut bench.drive,
        &mut planner.idle,
        &mut bench.values,
    )?;
    read_common(&bench.values, &mut planner.common)?;
    let chosen = planner
        .plan
        .choose_steps(core, &burst.strobe, &planner.common)?;
    Ok(chosen)
}

/// From so many cycles on it pays to plan a burst.
const LONG: usize = 4;

/// Plans a burst, where that pays. Answers whether the gates that were chosen will do.
pub(crate) fn is_planned(
    core: &Core,
    rule: &Stuck,
    burst: &Burst,
    planner: &mut Planner,
    bench: &mut Bench,
) -> Result<bool, AllocError>
    requires fits { All (IsCycleOf core.now) (cycles_of burst.now) }
    requires size { length bench.old.values.items ≡ length (signals core.now) }
    ensures state { IfOk result (λ _. bench.new.state.items ≡ bench.old.state.items) }
    ensures size { IfOk result (λ _. length bench.new.values.items ≡ length (signals core.now)) }
    ensures planned { IfOk result (λ yes. yes ≡ true → ArePlanned rule.now.faults.now core.now burst.now.drive.items burst.now.strobe.items planner.new.plan.steps.items bench.new.values.items) }
{
    if burst.count < LONG {
        return Ok(false);
    }
    plan_burst(core, rule, burst, planner, bench)
}
