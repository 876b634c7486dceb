//! The cycles of a burst, of which each drives, evaluates some gates, is heard, and ticks.
ghost use Rattle.std.specs.Prelude.{◌≡◌, ◌+◌, ◌<◌, ◌++◌, List, length, map, IfOk, OnOk};
ghost use Rattle.std.specs.List.{All};
ghost use Rattle.statement.specs.Netlists.{cells};
ghost use Rattle.scan_play.specs.Bursts.{cycle_of, cycles_of};
ghost use Rattle.scan_play.specs.Cycles.{IsCycleOf};
ghost use Rattle.lane_play.specs.inner.Lanes.{always};
ghost use Rattle.lane_play.specs.inner.Shifts.{AreEnough};
ghost use Rattle.lane_play.specs.declared.packed.Lanes.{Lanes as Shown};
ghost use Rattle.lane_play.specs.inner.Steps.{AreEnded, AreSized, IsCyclePlayed, KeepsBehind, KeepsOn};

use crate::evaluating::evaluate_all;
use crate::packed::Lanes;
use crate::plays::{Passage, Play};
use crate::watching::Watch;
use netlist::{Tri, drive_sources};
use scan_play::{Burst, tick};
use std::alloc::AllocError;

/// What the machines' cells hold, and room for what a cycle drives, strobes and shows, and for the values of all signals.
#[derive(Drop)]
pub(crate) struct Bench {
    pub state: Vec<Lanes>,
    pub drive: Vec<Lanes>,
    pub strobe: Vec<Tri>,
    pub shown: Vec<Lanes>,
    pub values: Vec<Lanes>,
}

/// Adds these bits, for all machines.
pub(crate) fn push_always(bits: &[bool], values: &mut Vec<Lanes>) -> Result<(), AllocError>
    ensures { OnOk result (values.new.items ≡ values.old.items ++ map always bits.now) }
{
    for bit in bits {
        values.push(Lanes::always(*bit))?;
    }
    Ok(())
}

/// What the inputs are driven with in a cycle.
fn read_drive(burst: &Burst, t: usize, drive: &mut Vec<Lanes>) -> Result<(), AllocError>
    requires { t < burst.now.count }
    ensures { OnOk result (drive.new.items ≡ map always (cycle_of burst.now t).drive) }
{
    drive.clear();
    push_always(&burst.drive, drive)?;
    let start = t * burst.width;
    push_always(&burst.ins[start..start + burst.width], drive)?;
    Ok(())
}

/// Hears what a cycle shows, and has the cells take their next values.
fn end_cycle<J, W: Watch<J>>(
    play: &Play<'_, J>,
    pulse: bool,
    number: u64,
    bench: &mut Bench,
    watch: W,
) -> Result<W, AllocError>
    requires bench { AreSized play.now.core.now bench.old.state.items bench.old.values.items }
    requires strobes { length bench.old.strobe.items ≡ length play.now.core.now.outputs }
    ensures size { IfOk result (λ _. length bench.new.state.items ≡ length (cells play.now.core.now)) }
    ensures values { IfOk result (λ _. bench.new.values.items ≡ bench.old.values.items) }
    ensures ended { IfOk result (λ w. (row : List Shown) × KeepsOn (W.kept play.now.judge.now watch) (W.kept play.now.judge.now w) number bench.old.strobe.items row
        × AreEnded play.now.rule.faults.now play.now.core.now pulse bench.old.values.items bench.old.state.items bench.new.state.items row) }
{
    let core = play.core;
    core.netlist().sound();
    core.outs_into(&play.rule, &bench.values, &mut bench.shown)?;
    let heard = watch.hear(play.judge, number, &bench.strobe, &bench.shown)?;
    tick(core, &play.rule, pulse, &bench.values, &mut bench.state)?;
    Ok(heard)
}

/// Plays one cycle of a burst.
fn play_cycle<J, W: Watch<J>>(
    play: &Play<'_, J>,
    passage: &Passage<'_>,
    t: usize,
    bench: &mut Bench,
    watch: W,
) -> Result<W, AllocError>
    requires within { t < passage.now.burst.now.count }
    requires fits { IsCycleOf play.now.core.now (cycle_of passage.now.burst.now t) }
    requires size { length bench.old.state.items ≡ length (cells play.now.core.now) }
    requires enough { AreEnough play.now.rule.faults.now play.now.core.now passage.now.burst.now passage.now.steps.now bench.old.values.items }
    ensures size { IfOk result (λ _. length bench.new.state.items ≡ length (cells play.now.core.now)) }
    ensures enough { IfOk result (λ _. AreEnough play.now.rule.faults.now play.now.core.now passage.now.burst.now passage.now.steps.now bench.new.values.items) }
    ensures played { IfOk result (λ w. IsCyclePlayed (W.kept play.now.judge.now watch) (W.kept play.now.judge.now w) play.now.rule.faults.now play.now.core.now (passage.now.first + t)
        (cycle_of passage.now.burst.now t) bench.old.state.items bench.new.state.items) }
{
    let burst = passage.burst;
    let netlist = play.core.netlist();
    netlist.sound();
    read_drive(burst, t, &mut bench.drive)?;
    burst.read_strobe(t, &mut bench.strobe)?;
    drive_sources(
        &play.rule,
        netlist,
        &bench.drive,
        &bench.state,
        &mut bench.values,
    );
    evaluate_all(&play.rule, netlist, passage.steps, &mut bench.values);
    let number = passage.first + t as u64;
    let heard = end_cycle(play, burst.pulse, number, bench, watch)?;
    Ok(heard)
}

/// Plays the cycles of a burst, until the watch is done.
pub(crate) fn play_cycles<J, W: Watch<J>>(
    play: &Play<'_, J>,
    passage: &Passage<'_>,
    bench: &mut Bench,
    watch: W,
) -> Result<W, AllocError>
    requires fits { All (IsCycleOf play.now.core.now) (cycles_of passage.now.burst.now) }
    requires size { length bench.old.state.items ≡ length (cells play.now.core.now) }
    requires enough { AreEnough play.now.rule.faults.now play.now.core.now passage.now.burst.now passage.now.steps.now bench.old.values.items }
    ensures bench { IfOk result (λ _. AreSized play.now.core.now bench.new.state.items bench.new.values.items) }
    ensures played { IfOk result (λ w. KeepsBehind (W.kept play.now.judge.now watch) (W.kept play.now.judge.now w) play.now.rule.faults.now play.now.core.now passage.now.first
        (cycles_of passage.now.burst.now) bench.old.state.items bench.new.state.items) }
{
    let mut so_far = watch;
    for t in 0..passage.burst.count {
        so_far = play_cycle(play, passage, t, bench, so_far)?;
        if so_far.is_done() {
            return Ok(so_far);
        }
    }
    Ok(so_far)
}
