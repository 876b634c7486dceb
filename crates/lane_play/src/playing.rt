//! The player of up to 128 faulty machines: the cycles of vectors, from all cells X, until the watch is done.
ghost use Rattle.std.specs.Prelude.{◌≡◌, ◌+◌, ◌^◌, ◌<◌, ◌≤◌, [], List, length, replicate, IfOk};
ghost use Rattle.std.specs.List.{All};
ghost use Rattle.statement.specs.Netlists.{cells, signals};
ghost use Rattle.scan_play.specs.Bursts.{all_cycles, cycles_of};
ghost use Rattle.scan_play.specs.Cycles.{IsCycleOf};
ghost use Rattle.lane_play.specs.declared.packed.Lanes.{Lanes as Shown};
ghost use Rattle.lane_play.specs.inner.Lanes.{unknown};
ghost use Rattle.lane_play.specs.inner.Steps.{AreSized, KeepsBehind};

use crate::cycles::{Bench, play_cycles};
use crate::packed::Lanes;
use crate::planning::{Planner, is_planned, push_unknowns};
use crate::plays::{Passage, Play};
use crate::stuck::Stuck;
use crate::watching::Watch;
use netlist::{Core, Fault, Netlist, NoMemory};
use scan_play::{Burst, Vectors};
use std::alloc::{AllocError, Global};

/// Plays the cycles of a burst, until the watch is done: by the gates of a plan where these will do, or else by all.
fn play_burst<J, W: Watch<J>>(
    play: &Play<'_, J>,
    burst: &Burst,
    first: u64,
    planner: &mut Planner,
    bench: &mut Bench,
    watch: W,
) -> Result<W, AllocError>
    requires fits { All (IsCycleOf play.now.core.now) (cycles_of burst.now) }
    requires bench { AreSized play.now.core.now bench.old.state.items bench.old.values.items }
    requires few { first + burst.now.count < 2 ^ 64 }
    ensures bench { IfOk result (λ _. AreSized play.now.core.now bench.new.state.items bench.new.values.items) }
    ensures played { IfOk result (λ w. KeepsBehind (W.kept play.now.judge.now watch) (W.kept play.now.judge.now w) play.now.rule.faults.now play.now.core.now first (cycles_of burst.now)
        bench.old.state.items bench.new.state.items) }
{
    let planned = is_planned(play.core, &play.rule, burst, planner, bench)?;
    if planned {
        let steps = planner.plan.steps.as_slice();
        play_cycles(
            play,
            &Passage {
                burst,
                first,
                steps,
            },
            bench,
            watch,
        )
    } else {
        let steps = play.core.order();
        play_cycles(
            play,
            &Passage {
                burst,
                first,
                steps,
            },
            bench,
            watch,
        )
    }
}

/// Plays bursts, until the watch is done.
fn play_bursts<J, W: Watch<J>>(
    play: &Play<'_, J>,
    bursts: &[Burst],
    first: u64,
    planner: &mut Planner,
    bench: &mut Bench,
    watch: W,
) -> Result<W, AllocError>
    requires fits { All (IsCycleOf play.now.core.now) (all_cycles bursts.now) }
    requires bench { AreSized play.now.core.now bench.old.state.items bench.old.values.items }
    requires few { first + length (all_cycles bursts.now) < 2 ^ 64 }
    ensures { IfOk result (λ w. KeepsBehind (W.kept play.now.judge.now watch) (W.kept play.now.judge.now w) play.now.rule.faults.now play.now.core.now first (all_cycles bursts.now)
        bench.old.state.items bench.new.state.items) }
{
    let mut number = first;
    let mut so_far = watch;
    for burst in bursts {
        so_far = play_burst(play, burst, number, planner, bench, so_far)?;
        if so_far.is_done() {
            return Ok(so_far);
        }
        number += burst.count as u64;
    }
    Ok(so_far)
}

/// How many signals a netlist has.
pub(crate) fn signal_count(netlist: &Netlist) -> usize
    ensures { result ≡ length (signals netlist.now) }
{
    netlist.sound();
    netlist.inputs().len() + netlist.definitions().len()
}

/// So many values of which nothing is known.
fn unknowns(alloc: Global, count: usize) -> Result<Vec<Lanes>, AllocError>
    ensures { IfOk result (λ v. v.items ≡ replicate count unknown) }
{
    let mut values = Vec::with_capacity(alloc, count)?;
    push_unknowns(count, &mut values)?;
    Ok(values)
}

/// A bench on which the cells hold this.
fn bench_of(alloc: Global, state: Vec<Lanes>, signals: usize) -> Result<Bench, AllocError>
    ensures state { IfOk result (λ b. b.state.items ≡ state.items) }
    ensures values { IfOk result (λ b. b.values.items ≡ replicate signals unknown) }
{
    Ok(Bench {
        state,
        drive: Vec::new(alloc),
        strobe: Vec::new(alloc),
        shown: Vec::new(alloc),
        values: unknowns(alloc, signals)?,
    })
}

/// Plays bursts behind `first` cycles after which the cells hold this, and has a watch hear it, which has heard those. Answers what the cells then hold,
/// too.
pub(crate) fn play_from<J, W: Watch<J>>(
    alloc: Global,
    play: &Play<'_, J>,
    bursts: &[Burst],
    first: u64,
    state: Vec<Lanes>,
    watch: W,
) -> Result<(W, Vec<Lanes>), AllocError>
    requires fits { All (IsCycleOf play.now.core.now) (all_cycles bursts.now) }
    requires few { first + length (all_cycles bursts.now) < 2 ^ 64 }
    requires size { length state.items ≡ length (cells play.now.core.now) }
    ensures { IfOk result (λ r. KeepsBehind (W.kept play.now.judge.now watch) (W.kept play.now.judge.now r.0) play.now.rule.faults.now play.now.core.now first (all_cycles bursts.now)
        state.items r.1.items) }
{
    let mut bench = bench_of(alloc, state, signal_count(play.core.netlist()))?;
    let mut planner = Planner::new(alloc);
    let heard = play_bursts(play, bursts, first, &mut planner, &mut bench, watch)?;
    Ok((heard, bench.state))
}

/// Plays vectors on a netlist for up to 128 stuck lines side by side, and has a watch hear it, which has heard nothing before.
pub(crate) fn play<J, W: Watch<J>>(
    alloc: Global,
    core: &Core,
    faults: &[Fault],
    vectors: &Vectors,
    judge: &J,
    watch: W,
) -> Result<W, NoMemory>
    requires machines { length faults.now ≤ 128 }
    requires fits { All (IsCycleOf core.now) vectors.now }
    requires few { length vectors.now < 2 ^ 64 }
    requires begun { W.kept judge.now watch faults.now core.now [] (replicate (length (cells core.now)) unknown) }
    ensures { IfOk result (λ w. (state : List Shown) × W.kept judge.now w faults.now core.now vectors.now state) }
{
    let rule = Stuck::new(alloc, faults, signal_count(core.netlist()))?;
    let state = unknowns(alloc, core.netlist().cells().len())?;
    let play = Play { core, rule, judge };
    let (heard, _state) = play_from(alloc, &play, vectors.bursts(), 0, state, watch)?;
    Ok(heard)
}
