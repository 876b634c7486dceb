//! Cubes to a batch, and the batch to the list.
ghost use Rattle.std.specs.Prelude.{◌≡◌, ◌+◌, ◌<◌, ◌≤◌, length, IfOk, vec_len};
ghost use Rattle.std.specs.List.{All, AllPairs};
ghost use Rattle.cubes.specs.Cubes.{IsCubeOf, IsPatternOf};
ghost use Rattle.list_core.specs.Batches.{IsTrueBatch};
ghost use Rattle.list_core.specs.Subjects.{HaveLines, RepresentsIn};
ghost use Rattle.word_sim.specs.Hits.{AreHits};

use crate::errands::Brief;
use crate::simulators::Simulators;
use cubes::{Cube, Pattern, fill_all, merge};
use evidence::Engine;
use list_core::{About, Left};
use netlist::{Core, Fault, NoMemory};
use outside::{Gate, Stage};
use rand_pcg::Lcg64Xsh32;
use shared_list::{Share, Shared};
use std::alloc::Global;
use std::marker::{Model, PhantomData};
use std::sync::Wait;
use std::sync::ledger::Ledger;
use std::thread::Threads;
use word_sim::{Batch, Hit, Simulator};

/// What one worker makes batches with: the stream that fills cubes, and a simulator of the list's netlist. Contracts see the netlist.
#[derive(Drop)]
pub(crate) struct Batcher<'a, J: About> {
    rng: Lcg64Xsh32,
    simulator: Simulator<'a>,
    about: PhantomData<J>,
}

impl<'a, J: About> Model for Batcher<'a, J> {
    ghost use Rattle.std.specs.Prelude.{◌≡◌};
    ghost use Rattle.statement.specs.Netlists.{Netlist};

    ghost Value = { Netlist };

    ghost view = { λ b. b.simulator };

    ghost invariant = { λ b. b.simulator ≡ J.subject.netlist };
}

impl<'a, J: About> Batcher<'a, J> {
    /// For the worker of this number.
    pub(crate) fn new(
        alloc: Global,
        core: &'a Core,
        seed: u64,
        worker: u32,
    ) -> Result<Batcher<'a, J>, NoMemory>
        requires { core.now ≡ J.subject.netlist }
    {
        let simulator = Simulator::new(alloc, core)?;
        Ok(Batcher {
            rng: Lcg64Xsh32::new(seed, worker as u64),
            simulator,
            about: PhantomData,
        })
    }
}

/// What several workers make batches with: the stream that fills cubes, and their simulators of the list's netlist. Contracts see the netlist.
#[derive(Drop)]
pub(crate) struct Bench<'a, J: About> {
    pub rng: Lcg64Xsh32,
    simulators: Simulators<'a>,
    about: PhantomData<J>,
}

impl<'a, J: About> Model for Bench<'a, J> {
    ghost use Rattle.std.specs.Prelude.{◌≡◌};
    ghost use Rattle.statement.specs.Netlists.{Netlist};

    ghost Value = { Netlist };

    ghost view = { λ b. b.simulators };

    ghost invariant = { λ b. b.simulators ≡ J.subject.netlist };
}

impl<'a, J: About> Bench<'a, J> {
    /// For so many workers.
    pub(crate) fn new(
        alloc: Global,
        core: &'a Core,
        workers: u32,
        seed: u64,
    ) -> Result<Bench<'a, J>, NoMemory>
        requires core { core.now ≡ J.subject.netlist }
        requires workers { 0 < workers }
    {
        let simulators = Simulators::new(alloc, core, workers)?;
        Ok(Bench {
            rng: Lcg64Xsh32::new(seed, 0),
            simulators,
            about: PhantomData,
        })
    }
}

/// Fewer cubes, filled.
pub(crate) fn patterns_of<J: About>(
    alloc: Global,
    cubes: &[Cube],
    rng: &mut Lcg64Xsh32,
) -> Result<Vec<Pattern>, NoMemory>
    requires { All (IsCubeOf J.subject.netlist J.subject.holds) cubes.now }
    ensures few { IfOk result (λ v. vec_len v ≤ length cubes.now) }
    ensures wide { IfOk result (λ v. All (IsPatternOf J.subject.netlist J.subject.holds) v.items) }
{
    let merged = merge(alloc, cubes)?;
    fill_all(alloc, &merged, rng)
}

/// The patterns with their hits of classes that were left.
fn batch_with<J: About>(patterns: Vec<Pattern>, hits: Vec<Hit>, left: &[(u32, Fault)]) -> Batch
    requires wide { All (IsPatternOf J.subject.netlist J.subject.holds) patterns.items }
    requires represent { All (λ p. RepresentsIn J.subject p.0 p.1) left.now }
    requires ascend { AllPairs (λ p q. p.0 < q.0) left.now }
    requires hits { AreHits J.subject.netlist patterns.items left.now hits.items }
    ensures len { length result.patterns ≡ vec_len patterns }
    ensures true_batch { IsTrueBatch J.subject result }
{
    Batch::new(patterns, hits)
}

/// The patterns with what they hit of the classes that were left.
#[tactic(auto, using(crate::proofs::WorkLemmas::lines_of_left, word_sim::proofs::WidthLemmas::widths))]
fn batch_of<J: About>(
    alloc: Global,
    simulator: &mut Simulator<'_>,
    patterns: Vec<Pattern>,
    left: &Left<J>,
) -> Result<Batch, NoMemory>
    requires simulator { simulator.old ≡ J.subject.netlist }
    requires lines { HaveLines J.subject }
    requires few { vec_len patterns ≤ 64 }
    requires wide { All (IsPatternOf J.subject.netlist J.subject.holds) patterns.items }
    ensures len { IfOk result (λ b. length b.patterns ≡ vec_len patterns) }
    ensures true_batch { IfOk result (IsTrueBatch J.subject) }
    ensures simulator { simulator.new ≡ simulator.old }
{
    let classes = left.classes();
    let hits = simulator.hits(alloc, &patterns, classes)?;
    Ok(batch_with::<J>(patterns, hits, classes))
}

/// The same by all workers.
fn batch_by_all<J: About, R: Threads + Sync>(
    rt: &R,
    alloc: Global,
    simulators: &mut Simulators<'_>,
    patterns: Vec<Pattern>,
    left: &Left<J>,
) -> Result<Batch, NoMemory>
    requires simulators { simulators.old ≡ J.subject.netlist }
    requires lines { HaveLines J.subject }
    requires few { vec_len patterns ≤ 64 }
    requires wide { All (IsPatternOf J.subject.netlist J.subject.holds) patterns.items }
    ensures len { IfOk result (λ b. length b.patterns ≡ vec_len patterns) }
    ensures true_batch { IfOk result (IsTrueBatch J.subject) }
    ensures simulators { simulators.new ≡ simulators.old }
{
    let classes = left.classes();
    let hits = simulators.hits(rt, alloc, &patterns, classes)?;
    Ok(batch_with::<J>(patterns, hits, classes))
}

/// The cubes as a batch, merged and filled, with what it hits of the classes that are left; and how many of these it leaves.
fn batch_for<J: About, T: Ledger, S: Ledger, P: Ledger, U: Ledger, E: Engine, G: Gate, R: Wait>(
    brief: &Brief<'_, J, E, G, R>,
    shared: &Shared<J, T, S, P, U>,
    batcher: &mut Batcher<'_, J>,
    cubes: &[Cube],
) -> Result<(Batch, u64), NoMemory>
    requires wide { All (IsCubeOf J.subject.netlist J.subject.holds) cubes.now }
    requires few { length cubes.now ≤ 64 }
    ensures few { IfOk result (λ r. length r.0.patterns ≤ length cubes.now) }
    ensures true_batch { IfOk result (λ r. IsTrueBatch J.subject r.0) }
{
    let patterns = patterns_of::<J>(brief.alloc, cubes, &mut batcher.rng)?;
    let left = shared.undetected(brief.rt, brief.alloc)?;
    let batch = batch_of(brief.alloc, &mut batcher.simulator, patterns, &left)?;
    let undetected = left.classes().len().saturating_sub(batch.hits().len()) as u64;
    Ok((batch, undetected))
}

/// The patterns with what they hit of the classes that are left, by all workers; and how many of these they leave.
pub(crate) fn batch_beside<
    J: About,
    T: Ledger,
    S: Ledger,
    P: Ledger,
    U: Ledger,
    E: Engine,
    G: Gate,
    R: Threads + Wait + Sync,
>(
    brief: &Brief<'_, J, E, G, R>,
    shared: &Shared<J, T, S, P, U>,
    bench: &mut Bench<'_, J>,
    patterns: Vec<Pattern>,
) -> Result<(Batch, u64), NoMemory>
    requires few { vec_len patterns ≤ 64 }
    requires wide { All (IsPatternOf J.subject.netlist J.subject.holds) patterns.items }
    ensures len { IfOk result (λ r. length r.0.patterns ≡ vec_len patterns) }
    ensures true_batch { IfOk result (λ r. IsTrueBatch J.subject r.0) }
{
    let left = shared.undetected(brief.rt, brief.alloc)?;
    let batch = batch_by_all(
        brief.rt,
        brief.alloc,
        &mut bench.simulators,
        patterns,
        &left,
    )?;
    let undetected = left.classes().len().saturating_sub(batch.hits().len()) as u64;
    Ok((batch, undetected))
}

/// Publishes a batch, and passes the stage.
pub(crate) fn publish_batch<
    J: About,
    T: Ledger,
    S: Ledger,
    P: Ledger,
    U: Ledger,
    E: Engine,
    G: Gate,
    R: Wait,
>(
    brief: &Brief<'_, J, E, G, R>,
    shared: &Shared<J, T, S, P, U>,
    share: &mut Share<T, S, P, U>,
    batch: Batch,
    undetected: u64,
) -> Result<(), NoMemory>
    requires table { share.old.table ≡ shared.now.word.shared.table_id }
    requires true_batch { IsTrueBatch J.subject batch }
    requires unspent { length batch.patterns ≤ share.old.unspent }
    ensures table { share.new.table ≡ share.old.table }
    ensures ended { share.new.ended ≡ share.old.ended }
    ensures unspent { share.old.unspent ≤ share.new.unspent + length batch.patterns }
{
    if let Err((NoMemory, _)) = shared.publish(brief.rt, share, batch) {
        return Err(NoMemory);
    }
    brief
        .stage
        .at(share.worker(), Stage::Published { undetected });
    Ok(())
}

/// Publishes the cubes, merged and filled, with what they hit of the classes that are left.
pub(crate) fn publish_cubes<
    J: About,
    T: Ledger,
    S: Ledger,
    P: Ledger,
    U: Ledger,
    E: Engine,
    G: Gate,
    R: Wait,
>(
    brief: &Brief<'_, J, E, G, R>,
    shared: &Shared<J, T, S, P, U>,
    share: &mut Share<T, S, P, U>,
    batcher: &mut Batcher<'_, J>,
    cubes: &[Cube],
) -> Result<(), NoMemory>
    requires table { share.old.table ≡ shared.now.word.shared.table_id }
    requires wide { All (IsCubeOf J.subject.netlist J.subject.holds) cubes.now }
    requires few { length cubes.now ≤ 64 }
    requires unspent { length cubes.now ≤ share.old.unspent }
    ensures table { share.new.table ≡ share.old.table }
    ensures ended { share.new.ended ≡ share.old.ended }
{
    let (batch, undetected) = batch_for(brief, shared, batcher, cubes)?;
    publish_batch(brief, shared, share, batch, undetected)
}
