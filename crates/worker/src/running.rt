//! Workers in rounds, and the caller's rest.
ghost use Rattle.std.specs.Prelude.{◌≡◌, ◌+◌, ◌<◌, ◌≤◌, [], length, IfOk, vec_len};
ghost use Rattle.std.specs.Option.{option_copied};
ghost use Rattle.plain_text.specs.Limits.{most_workers};
ghost use Rattle.list_core.specs.Subjects.{class_count};
ghost use Rattle.list_core.specs.States.{IsTrueList};
ghost use Rattle.shared_list.specs.Tally.{idle_from};
ghost use Rattle.worker.specs.Working.{IsDone, MaySearch};

use crate::errands::{Brief, Errand, brief_of};
use crate::rest::work_rest;
use crate::rounds::work_rounds;
use evidence::Engine;
use list_core::{About, FaultList, Goal};
use netlist::NoMemory;
use outside::Gate;
use shared_list::{Share, Shared};
use std::marker::Brand;
use std::sync::Wait;
use std::sync::ledger::{Blank, Ledger};
use std::thread::Threads;

/// A ledger for each kind of event, before a type stands for it.
struct Blanks {
    takes: Blank,
    settles: Blank,
    publishes: Blank,
    unspent: Blank,
}

/// New ledgers, each with a part for each worker.
fn blanks_of(workers: u32) -> Blanks
    ensures takes { result.takes.parts ≡ workers }
    ensures settles { result.settles.parts ≡ workers }
    ensures publishes { result.publishes.parts ≡ workers }
    ensures unspent { result.unspent.parts ≡ workers }
{
    let parts = workers as u64;
    Blanks {
        takes: Blank::new(parts),
        settles: Blank::new(parts),
        publishes: Blank::new(parts),
        unspent: Blank::new(parts),
    }
}

/// Workers over their shares of the list, and the list back.
fn run_shared<
    J: About + Send + Sync,
    T: Ledger + Send + Sync,
    S: Ledger + Send + Sync,
    P: Ledger + Send + Sync,
    U: Ledger + Send + Sync,
    E: Engine + Sync,
    G: Gate + Sync,
    R: Threads + Wait + Sync,
>(
    brief: &Brief<'_, J, E, G, R>,
    shared: Shared<J, T, S, P, U>,
    shares: Vec<Share<T, S, P, U>>,
    workers: u32,
    seed: u64,
) -> Result<FaultList<J>, NoMemory>
    requires workers { 0 < workers }
    requires shares { shares.items ≡ idle_from shared.word.shared.table_id 0 workers }
    requires len { vec_len shares ≡ workers }
    requires parts { (T.parts ≡ workers) × (S.parts ≡ workers) × (P.parts ≡ workers) × (U.parts ≡ workers) }
    ensures claims { IfOk result (λ l. l.claims ≡ 0) }
    ensures few { IfOk result (λ l. length l.patterns ≤ class_count J.subject) }
{
    let back = work_rounds(brief, &shared, shares, workers, seed)?;
    let (list, _) = shared.into_list(back);
    Ok(list)
}

/// Runs the workers over ledgers of these blanks, and works the rest.
fn run_named<
    J: About + Send + Sync,
    T: Ledger + Send + Sync,
    S: Ledger + Send + Sync,
    P: Ledger + Send + Sync,
    U: Ledger + Send + Sync,
    E: Engine + Sync,
    G: Gate + Sync,
    R: Threads + Wait + Sync,
>(
    brief: &Brief<'_, J, E, G, R>,
    list: FaultList<J>,
    workers: u32,
    seed: u64,
    blanks: Blanks,
) -> Result<FaultList<J>, NoMemory>
    requires empty { list.journal ≡ [] }
    requires workers { (0 < workers) × (workers ≤ most_workers) }
    requires takes { (blanks.takes.name ≡ T.name) × (blanks.takes.parts ≡ T.parts) × (T.parts ≡ workers) }
    requires settles { (blanks.settles.name ≡ S.name) × (blanks.settles.parts ≡ S.parts) × (S.parts ≡ workers) }
    requires publishes { (blanks.publishes.name ≡ P.name) × (blanks.publishes.parts ≡ P.parts) × (P.parts ≡ workers) }
    requires unspent { (blanks.unspent.name ≡ U.name) × (blanks.unspent.parts ≡ U.parts) × (U.parts ≡ workers) }
    ensures closed { IfOk result (λ l. IsDone brief.now l.verdicts) }
    ensures true_list { IfOk result (λ l. IsTrueList J.subject l) }
    ensures few { IfOk result (λ l. length l.patterns ≤ class_count J.subject + class_count J.subject) }
{
    let Blanks {
        takes,
        settles,
        publishes,
        unspent,
    } = blanks;
    let (shared, shares) = Shared::<J, T, S, P, U>::new(
        brief.alloc,
        list,
        workers,
        takes,
        settles,
        publishes,
        unspent,
    )?;
    let list = run_shared(brief, shared, shares, workers, seed)?;
    work_rest(brief, list, workers, seed)
}

/// Runs the workers beside each other, and works the rest. No class is Open in the answer, unless enough is detected.
pub fn run_all<J: About + Send + Sync, E: Engine + Sync, G: Gate + Sync, R: Threads + Wait + Sync>(
    errand: &Errand<'_, E, G, R>,
    list: FaultList<J>,
    workers: u32,
    seed: u64,
    goal: Option<&Goal>,
) -> Result<FaultList<J>, NoMemory>
    requires subject { MaySearch J.subject errand.now.core.now errand.now.holds.now E.refutes }
    requires empty { list.journal ≡ [] }
    requires workers { (0 < workers) × (workers ≤ most_workers) }
    ensures closed { IfOk result (λ l. IsDone (option_copied goal.entry) l.verdicts) }
    ensures true_list { IfOk result (λ l. IsTrueList J.subject l) }
    ensures few { IfOk result (λ l. length l.patterns ≤ class_count J.subject + class_count J.subject) }
{
    let brief = brief_of::<J, E, G, R>(errand, goal);
    let blanks = blanks_of(workers);
    run_named::<J, Brand, Brand, Brand, Brand, E, G, R>(&brief, list, workers, seed, blanks)
}
