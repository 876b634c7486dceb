//! The player: vectors on a netlist in three values, from all cells X.
ghost use Rattle.std.specs.Prelude.{◌≡◌, ◌+◌, ◌^◌, ◌<◌, ◌≤◌, ◌++◌, true, cond, length, replicate, IfOk, OnOk};
ghost use Rattle.std.specs.List.{All};
ghost use Rattle.statement.specs.Netlists.{cells, signals};
ghost use Rattle.netlist.specs.Settled.{at};
ghost use Rattle.statement.specs.Values.{next};
ghost use Rattle.statement.specs.declared.kinds.Tri.TheVariants.{X};
ghost use Rattle.scan_play.specs.Cycles.{IsCycleOf};
ghost use Rattle.scan_play.specs.Bursts.{cycle_of, cycles_of, all_cycles};
ghost use Rattle.scan_play.specs.inner.Plans.{IsPlanned};
ghost use Rattle.scan_play.specs.inner.Steps.{IsEnded, IsStep, PlaysOn};
ghost use Rattle.scan_play.specs.Playing.{PlaysAs};
ghost use Rattle.scan_play.specs.Judging.{IsJudged};

use crate::cycles::{Burst, Vectors, push_known};
use crate::judging::{Judge, Strict, judged_in};
use crate::planning::Plan;
use crate::played::Played;
use netlist::{Core, Fault, Logic, NoMemory, SignalId, Tri, drive_sources, evaluate_all};
use std::alloc::{AllocError, Global};
use tri::Tris;

/// What the cells hold, and room for what a cycle drives, strobes and shows, and for the values of all signals and of a gate's pins.
#[derive(Drop)]
struct Bench {
    state: Vec<Tri>,
    drive: Vec<Tri>,
    strobe: Vec<Tri>,
    shown: Vec<Tri>,
    values: Vec<Tri>,
    pins: Vec<Tri>,
}

/// The cells take their next values, where the clock has a pulse.
pub fn tick<L: Logic>(
    core: &Core,
    logic: &L,
    pulse: bool,
    values: &[L::Value],
    state: &mut Vec<L::Value>,
) -> Result<(), AllocError>
    requires { length values.now ≡ length (signals core.now) }
    ensures { OnOk result ((d : L.Value) → state.new.items ≡ cond pulse (next (L.rule logic.now) core.now (at values.now d)) state.old.items) }
{
    if !pulse {
        return Ok(());
    }
    core.next_into(logic, values, state)
}

/// Judges what a cycle shows, and has the cells take their next values.
fn end_cycle<J: Judge>(
    core: &Core,
    rule: &Tris,
    judge: &J,
    pulse: bool,
    number: u64,
    bench: &mut Bench,
) -> Result<Option<Played>, AllocError>
    requires room { length bench.old.values.items ≡ length (signals core.now) }
    requires strobes { length bench.old.strobe.items ≡ length core.now.outputs }
    ensures values { IfOk result (λ _. bench.new.values.items ≡ bench.old.values.items) }
    ensures ended { IfOk result (λ found. IsEnded (J.says judge.now) rule.now.fault core.now pulse number bench.old.strobe.items bench.old.values.items bench.old.state.items bench.new.state.items found) }
{
    core.netlist().sound();
    core.outs_into(rule, &bench.values, &mut bench.shown)?;
    let found = judged_in(judge, number, &bench.strobe, &bench.shown);
    tick(core, rule, pulse, &bench.values, &mut bench.state)?;
    Ok(found)
}

/// Plays one cycle: each gate is evaluated.
fn play_cycle<J: Judge>(
    core: &Core,
    rule: &Tris,
    judge: &J,
    burst: &Burst,
    t: usize,
    number: u64,
    bench: &mut Bench,
) -> Result<Option<Played>, AllocError>
    requires within { t < burst.now.count }
    requires fits { IsCycleOf core.now (cycle_of burst.now t) }
    requires size { length bench.old.state.items ≡ length (cells core.now) }
    requires room { length bench.old.values.items ≡ length (signals core.now) }
    ensures room { IfOk result (λ _. length bench.new.values.items ≡ length (signals core.now)) }
    ensures played { IfOk result (λ found. IsStep (J.says judge.now) rule.now.fault core.now bench.old.state.items bench.new.state.items (cycle_of burst.now t) number found) }
{
    core.netlist().sound();
    burst.read_drive(t, &mut bench.drive)?;
    burst.read_strobe(t, &mut bench.strobe)?;
    core.settle_into(
        rule,
        &bench.drive,
        &bench.state,
        &mut bench.values,
        &mut bench.pins,
    )?;
    let found = end_cycle(core, rule, judge, burst.pulse, number, bench)?;
    Ok(found)
}

/// Plays the cycles of a burst, up to the first with an unmet strobe: each gate is evaluated in each cycle.
fn play_cycles<J: Judge>(
    core: &Core,
    rule: &Tris,
    judge: &J,
    burst: &Burst,
    first: u64,
    bench: &mut Bench,
) -> Result<Option<Played>, AllocError>
    requires fits { All (IsCycleOf core.now) (cycles_of burst.now) }
    requires size { length bench.old.state.items ≡ length (cells core.now) }
    requires room { length bench.old.values.items ≡ length (signals core.now) }
    requires few { first + burst.now.count < 2 ^ 64 }
    ensures room { IfOk result (λ _. length bench.new.values.items ≡ length (signals core.now)) }
    ensures played { IfOk result (λ found. PlaysOn (J.says judge.now) rule.now.fault core.now (cycles_of burst.now) first bench.old.state.items bench.new.state.items found) }
{
    for t in 0..burst.count {
        match play_cycle(core, rule, judge, burst, t, first + t as u64, bench)? {
            Some(played) => return Ok(Some(played)),
            None => {}
        }
    }
    Ok(None)
}

/// Plays one cycle by the steps of a plan.
fn play_shift<J: Judge>(
    core: &Core,
    rule: &Tris,
    judge: &J,
    burst: &Burst,
    t: usize,
    number: u64,
    steps: &[SignalId],
    bench: &mut Bench,
) -> Result<Option<Played>, AllocError>
    requires within { t < burst.now.count }
    requires fits { IsCycleOf core.now (cycle_of burst.now t) }
    requires size { length bench.old.state.items ≡ length (cells core.now) }
    requires planned { IsPlanned rule.now.fault core.now burst.now.drive.items burst.now.strobe.items steps.now bench.old.values.items }
    ensures planned { IfOk result (λ _. IsPlanned rule.now.fault core.now burst.now.drive.items burst.now.strobe.items steps.now bench.new.values.items) }
    ensures played { IfOk result (λ found. IsStep (J.says judge.now) rule.now.fault core.now bench.old.state.items bench.new.state.items (cycle_of burst.now t) number found) }
{
    let netlist = core.netlist();
    netlist.sound();
    burst.read_drive(t, &mut bench.drive)?;
    burst.read_strobe(t, &mut bench.strobe)?;
    drive_sources(rule, netlist, &bench.drive, &bench.state, &mut bench.values);
    evaluate_all(rule, netlist, steps, &mut bench.values, &mut bench.pins)?;
    let found = end_cycle(core, rule, judge, burst.pulse, number, bench)?;
    Ok(found)
}

/// Plays the cycles of a burst by the steps of a plan, up to the first with an unmet strobe.
fn play_shifts<J: Judge>(
    core: &Core,
    rule: &Tris,
    judge: &J,
    burst: &Burst,
    first: u64,
    steps: &[SignalId],
    bench: &mut Bench,
) -> Result<Option<Played>, AllocError>
    requires fits { All (IsCycleOf core.now) (cycles_of burst.now) }
    requires size { length bench.old.state.items ≡ length (cells core.now) }
    requires planned { IsPlanned rule.now.fault core.now burst.now.drive.items burst.now.strobe.items steps.now bench.old.values.items }
    requires few { first + burst.now.count < 2 ^ 64 }
    ensures room { IfOk result (λ _. length bench.new.values.items ≡ length (signals core.now)) }
    ensures played { IfOk result (λ found. PlaysOn (J.says judge.now) rule.now.fault core.now (cycles_of burst.now) first bench.old.state.items bench.new.state.items found) }
{
    for t in 0..burst.count {
        match play_shift(core, rule, judge, burst, t, first + t as u64, steps, bench)? {
            Some(played) => return Ok(Some(played)),
            None => {}
        }
    }
    Ok(None)
}

/// Adds so many values of which nothing is known.
fn push_unknowns(count: usize, values: &mut Vec<Tri>) -> Result<(), AllocError>
    ensures { OnOk result (values.new.items ≡ values.old.items ++ replicate count X) }
{
    for _done in 0..count {
        values.push(Tri::X)?;
    }
    Ok(())
}

/// Puts what stays through a burst into the values, and chooses the gates that its cycles have to evaluate. Answers whether these will do.
fn plan_burst(
    core: &Core,
    rule: &Tris,
    burst: &Burst,
    idle: &[Tri],
    plan: &mut Plan,
    bench: &mut Bench,
) -> Result<bool, AllocError>
    requires narrow { length burst.now.drive.items ≤ length core.now.inputs }
    requires idle { idle.now ≡ replicate (length (cells core.now)) X }
    requires room { length bench.old.values.items ≡ length (signals core.now) }
    ensures state { IfOk result (λ _. bench.new.state.items ≡ bench.old.state.items) }
    ensures room { IfOk result (λ _. length bench.new.values.items ≡ length (signals core.now)) }
    ensures planned { IfOk result (λ yes. yes ≡ true → IsPlanned rule.now.fault core.now burst.now.drive.items burst.now.strobe.items plan.new.steps.items bench.new.values.items) }
{
    bench.drive.clear();
    push_known(&burst.drive, &mut bench.drive)?;
    push_unknowns(
        core.netlist().inputs().len() - burst.drive.len(),
        &mut bench.drive,
    )?;
    core.settle_into(rule, &bench.drive, idle, &mut bench.values, &mut bench.pins)?;
    let chosen = plan.choose_steps(core, &burst.strobe, &bench.values)?;
    Ok(chosen)
}

/// From so many cycles on it pays to plan a burst.
const LONG: usize = 4;

/// Plays the cycles of a burst, up to the first with an unmet strobe.
fn play_burst<J: Judge>(
    core: &Core,
    rule: &Tris,
    judge: &J,
    burst: &Burst,
    first: u64,
    idle: &[Tri],
    plan: &mut Plan,
    bench: &mut Bench,
) -> Result<Option<Played>, AllocError>
    requires fits { All (IsCycleOf core.now) (cycles_of burst.now) }
    requires size { length bench.old.state.items ≡ length (cells core.now) }
    requires room { length bench.old.values.items ≡ length (signals core.now) }
    requires idle { idle.now ≡ replicate (length (cells core.now)) X }
    requires few { first + burst.now.count < 2 ^ 64 }
    ensures room { IfOk result (λ _. length bench.new.values.items ≡ length (signals core.now)) }
    ensures played { IfOk result (λ found. PlaysOn (J.says judge.now) rule.now.fault core.now (cycles_of burst.now) first bench.old.state.items bench.new.state.items found) }
{
    if burst.count < LONG {
        return play_cycles(core, rule, judge, burst, first, bench);
    }
    let planned = plan_burst(core, rule, burst, idle, plan, bench)?;
    if planned {
        return play_shifts(core, rule, judge, burst, first, &plan.steps, bench);
    }
    play_cycles(core, rule, judge, burst, first, bench)
}

/// Plays bursts, up to the first cycle with an unmet strobe.
fn play_bursts<J: Judge>(
    core: &Core,
    rule: &Tris,
    judge: &J,
    bursts: &[Burst],
    idle: &[Tri],
    plan: &mut Plan,
    bench: &mut Bench,
) -> Result<Option<Played>, AllocError>
    requires fits { All (IsCycleOf core.now) (all_cycles bursts.now) }
    requires size { length bench.old.state.items ≡ length (cells core.now) }
    requires room { length bench.old.values.items ≡ length (signals core.now) }
    requires idle { idle.now ≡ replicate (length (cells core.now)) X }
    requires few { length (all_cycles bursts.now) < 2 ^ 64 }
    ensures { IfOk result (λ found. PlaysOn (J.says judge.now) rule.now.fault core.now (all_cycles bursts.now) 0 bench.old.state.items bench.new.state.items found) }
{
    let mut first: u64 = 0;
    for burst in bursts {
        match play_burst(core, rule, judge, burst, first, idle, plan, bench)? {
            Some(played) => return Ok(Some(played)),
            None => {}
        }
        first += burst.count as u64;
    }
    Ok(None)
}

/// So many values of which nothing is known.
fn unknowns(alloc: Global, count: usize) -> Result<Vec<Tri>, AllocError>
    ensures { IfOk result (λ v. v.items ≡ replicate count X) }
{
    let mut values = Vec::with_capacity(alloc, count)?;
    push_unknowns(count, &mut values)?;
    Ok(values)
}

/// Plays vectors on a netlist, with a line stuck or with none, up to the first strobe of which the judge says something.
fn play_from_unknown<J: Judge>(
    alloc: Global,
    core: &Core,
    rule: &Tris,
    judge: &J,
    vectors: &Vectors,
) -> Result<Option<Played>, AllocError>
    requires fits { All (IsCycleOf core.now) vectors.now }
    requires few { length vectors.now < 2 ^ 64 }
    ensures { IfOk result (λ found. IsJudged (J.says judge.now) core.now rule.now.fault vectors.now found) }
{
    core.netlist().sound();
    let netlist = core.netlist();
    let state = unknowns(alloc, netlist.cells().len())?;
    let idle = unknowns(alloc, netlist.cells().len())?;
    let signals = netlist.inputs().len() + netlist.definitions().len();
    let values = unknowns(alloc, signals)?;
    let mut plan = Plan::new(alloc);
    let mut bench = Bench {
        state,
        drive: Vec::new(alloc),
        strobe: Vec::new(alloc),
        shown: Vec::new(alloc),
        values,
        pins: Vec::new(alloc),
    };
    let found = play_bursts(
        core,
        rule,
        judge,
        vectors.bursts(),
        &idle,
        &mut plan,
        &mut bench,
    )?;
    Ok(found)
}

/// Plays vectors on a netlist, with a line stuck or with none: what the judge first says, if anything.
pub fn play_before<J: Judge>(
    alloc: Global,
    core: &Core,
    fault: Option<Fault>,
    vectors: &Vectors,
    judge: &J,
) -> Result<Option<Played>, NoMemory>
    requires fits { All (IsCycleOf core.now) vectors.now }
    requires few { length vectors.now < 2 ^ 64 }
    ensures { IfOk result (λ found. IsJudged (J.says judge.now) core.now fault vectors.now found) }
{
    play_from_unknown(alloc, core, &Tris { fault }, judge, vectors).map_err(|_| NoMemory)
}

/// Plays vectors on a netlist, with a line stuck or with none: the first strobe that isn't known and equal decides.
pub fn play(
    alloc: Global,
    core: &Core,
    fault: Option<Fault>,
    vectors: &Vectors,
) -> Result<Played, NoMemory>
    requires fits { All (IsCycleOf core.now) vectors.now }
    requires few { length vectors.now < 2 ^ 64 }
    ensures { IfOk result (λ played. PlaysAs core.now fault vectors.now played) }
{
    match play_before(alloc, core, fault, vectors, &Strict)? {
        None => Ok(Played::Passes),
        Some(played) => Ok(played),
    }
}
