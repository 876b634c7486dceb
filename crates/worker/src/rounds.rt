//! Several workers in rounds.
//!
//! In a round the next classes that are open are searched beside each other, until there are tests for a batch. These are merged, filled and simulated
//! once, by all workers, before any other class is searched. So no worker searches what another's patterns detect, and what comes out is what one worker
//! would have made: tests are put in the order of their classes, and one that a batch before it detects is let go. Workers that each gather and publish
//! batches of their own, as they did once, search and simulate up to twice as much, and make other patterns each time.
//!
//! Where few of the classes that are searched have tests, a round takes more of them, so that threads aren't begun for a few searches each. What is
//! searched too early so changes nothing: a class that has no test has none, and one that was given up is detected by a later batch all the same. With a
//! goal no class is searched early, since it would have a verdict that one worker would not have come to.
ghost use Rattle.std.specs.Prelude.{◌≡◌, ◌+◌, ◌<◌, ◌≤◌, IfOk, length, vec_len};
ghost use Rattle.std.specs.List.{All};
ghost use Rattle.cubes.specs.Cubes.{IsPatternOf};
ghost use Rattle.shared_list.specs.Tally.{idle_from};
ghost use Rattle.worker.specs.inner.Tests.{AreTestsOf};

use crate::errands::Brief;
use crate::gathering::{cubes_of, gather, keep_unhit, take_first};
use crate::hands::{Hand, Test};
use crate::hunting::hunt;
use crate::publishing::{Bench, batch_beside, patterns_of, publish_batch};
use crate::working::{FULL, is_enough};
use cubes::Pattern;
use evidence::Engine;
use list_core::About;
use netlist::{Core, NoMemory};
use outside::Gate;
use shared_list::{Share, Shared};
use std::alloc::Global;
use std::sync::Wait;
use std::sync::ledger::Ledger;
use std::thread;
use std::thread::Threads;

/// For fewer classes no thread is begun.
const FEW: u32 = 4;

/// A round has so many classes at most.
const MOST: u32 = 4096;

/// A batch looks at each class that is left, whatever it detects: it has a test for so many of them.
const SHARE: u64 = 256;

/// So many bytes the cubes of a batch take at most, if there are more than fill a word.
const MOST_BYTES: usize = 1 << 26;

/// How far the workers are: where the last round ended, how many of its classes had no test, how many tests make the next batch, and whether no class
/// is left, or enough is detected.
#[derive(Clone, Copy)]
struct Pace {
    end: u32,
    closed: u32,
    size: usize,
    has_ended: bool,
}

/// How many bits a pattern has.
fn width_of(core: &Core) -> usize {
    let netlist = core.netlist();
    netlist.inputs().len().saturating_add(netlist.cells().len())
}

/// How many tests make a batch where so many classes are left, and a cube takes so many bytes.
fn batch_size(left: u64, width: usize) -> usize {
    let most = MOST_BYTES / width.max(1);
    ((left / SHARE) as usize).min(most).max(FULL)
}

/// How many classes the next round has: as many as tests are missing, and as many more as had none in the last one, if they may be searched early.
fn wanted(missing: usize, closed: u32, has_goal: bool) -> u32 {
    let missing = missing.min(MOST as usize) as u32;
    if has_goal {
        return missing;
    }
    missing.saturating_add(closed).min(MOST)
}

/// The workers' parts of a round, in so many threads.
fn hunt_beside<
    J: About + Send + Sync,
    T: Ledger + Send + Sync,
    S: Ledger + Send + Sync,
    P: Ledger + Send + Sync,
    U: Ledger + Send + Sync,
    E: Engine + Sync,
    G: Gate + Sync,
    R: Threads + Wait + Sync,
>(brief: &Brief<'_, J, E, G, R>, end: u32, threads: usize, crew: &mut [Hand<'_, J, T, S, P, U, E>])
    requires { 0 < threads }
    ensures { length crew.new ≡ length crew.old }
{
    let part = move |_i: usize, hand: &mut Hand<J, T, S, P, U, E>| hunt(brief, end, hand);
    thread::for_each_mut(brief.rt, crew, threads, &part);
}

/// Refuses to go on where memory was refused to some worker.
fn check_rooms<J: About, T: Ledger, S: Ledger, P: Ledger, U: Ledger, E: Engine>(
    crew: &[Hand<'_, J, T, S, P, U, E>],
) -> Result<(), NoMemory> {
    for hand in crew {
        if hand.room.is_none() {
            return Err(NoMemory);
        }
    }
    Ok(())
}

/// One round more, of the classes behind the last one. Behind it the first worker has the tests of all.
fn hunt_more<
    J: About + Send + Sync,
    T: Ledger + Send + Sync,
    S: Ledger + Send + Sync,
    P: Ledger + Send + Sync,
    U: Ledger + Send + Sync,
    E: Engine + Sync,
    G: Gate + Sync,
    R: Threads + Wait + Sync,
>(
    brief: &Brief<'_, J, E, G, R>,
    crew: &mut [Hand<'_, J, T, S, P, U, E>],
    pace: Pace,
) -> Result<Pace, NoMemory>
    requires { 0 < length crew.old }
    ensures { length crew.new ≡ length crew.old }
{
    let lead = &crew[0];
    let waiting = lead.tests.len();
    let missing = pace.size.saturating_sub(waiting);
    let more = wanted(missing, pace.closed, brief.goal.is_some());
    let end = lead.shared.behind(brief.rt, pace.end, more);
    let threads = if more < FEW { 1 } else { crew.len() };
    hunt_beside(brief, end, threads, crew);
    check_rooms(crew)?;
    gather(crew)?;
    let lead = &crew[0];
    let found = lead.tests.len().saturating_sub(waiting);
    let closed = (more as usize).saturating_sub(found) as u32;
    Ok(Pace {
        end,
        closed,
        ..pace
    })
}

/// Publishes a word of patterns with what they hit of the classes that are left: how many they leave. The tests of classes that they hit are let go.
fn publish_word<
    J: About,
    T: Ledger,
    S: Ledger,
    P: Ledger,
    U: Ledger,
    E: Engine,
    G: Gate,
    R: Threads + Wait + Sync,
>(
    brief: &Brief<'_, J, E, G, R>,
    bench: &mut Bench<'_, J>,
    shared: &Shared<J, T, S, P, U>,
    share: &mut Share<T, S, P, U>,
    word: Vec<Pattern>,
    tests: &mut Vec<Test>,
) -> Result<u64, NoMemory>
    requires table { share.old.table ≡ shared.now.word.shared.table_id }
    requires few { vec_len word ≤ 64 }
    requires unspent { vec_len word ≤ share.old.unspent }
    requires wide { All (IsPatternOf J.subject.netlist J.subject.holds) word.items }
    requires cubes { AreTestsOf J.subject tests.old.items }
    ensures table { share.new.table ≡ share.old.table }
    ensures unspent { share.old.unspent ≤ share.new.unspent + vec_len word }
    ensures fewer { vec_len tests.new ≤ vec_len tests.old }
    ensures cubes { AreTestsOf J.subject tests.new.items }
{
    let (batch, undetected) = batch_beside(brief, shared, bench, word)?;
    keep_unhit::<J>(tests, batch.hits());
    publish_batch(brief, shared, share, batch, undetected)?;
    Ok(undetected)
}

/// Publishes patterns word by word.
fn publish_words<
    J: About,
    T: Ledger,
    S: Ledger,
    P: Ledger,
    U: Ledger,
    E: Engine,
    G: Gate,
    R: Threads + Wait + Sync,
>(
    brief: &Brief<'_, J, E, G, R>,
    bench: &mut Bench<'_, J>,
    shared: &Shared<J, T, S, P, U>,
    share: &mut Share<T, S, P, U>,
    patterns: Vec<Pattern>,
    tests: &mut Vec<Test>,
) -> Result<u64, NoMemory>
    requires table { share.old.table ≡ shared.now.word.shared.table_id }
    requires unspent { vec_len patterns ≤ share.old.unspent }
    requires wide { All (IsPatternOf J.subject.netlist J.subject.holds) patterns.items }
    requires cubes { AreTestsOf J.subject tests.old.items }
    ensures table { share.new.table ≡ share.old.table }
    ensures unspent { share.old.unspent ≤ share.new.unspent + vec_len patterns }
    ensures fewer { vec_len tests.new ≤ vec_len tests.old }
    ensures cubes { AreTestsOf J.subject tests.new.items }
{
    let mut left = patterns;
    let mut undetected = 0;
    while !left.is_empty() {
        let later = left.split_off(FULL.min(left.len()))?;
        undetected = publish_word(brief, bench, shared, share, left, tests)?;
        left = later;
    }
    Ok(undetected)
}

/// The first tests, merged and filled. They are taken out.
fn first_patterns<J: About>(
    alloc: Global,
    bench: &mut Bench<'_, J>,
    tests: &mut Vec<Test>,
    most: usize,
) -> Result<Vec<Pattern>, NoMemory>
    requires { AreTestsOf J.subject tests.old.items }
    ensures fewer { vec_len tests.new ≤ vec_len tests.old }
    ensures few { IfOk result (λ v. vec_len v + vec_len tests.new ≤ vec_len tests.old) }
    ensures wide { IfOk result (λ v. All (IsPatternOf J.subject.netlist J.subject.holds) v.items) }
    ensures cubes { AreTestsOf J.subject tests.new.items }
{
    let first = take_first::<J>(tests, most)?;
    let cubes = cubes_of::<J>(alloc, first)?;
    patterns_of::<J>(alloc, &cubes, &mut bench.rng)
}

/// Publishes the first tests, merged and filled. The tests of classes that they hit are let go.
fn publish_first<
    J: About,
    T: Ledger,
    S: Ledger,
    P: Ledger,
    U: Ledger,
    E: Engine,
    G: Gate,
    R: Threads + Wait + Sync,
>(
    brief: &Brief<'_, J, E, G, R>,
    bench: &mut Bench<'_, J>,
    lead: &mut Hand<'_, J, T, S, P, U, E>,
    pace: Pace,
) -> Result<Pace, NoMemory> {
    let patterns = first_patterns(brief.alloc, bench, &mut lead.tests, pace.size)?;
    let shared = lead.shared;
    let left = publish_words(
        brief,
        bench,
        shared,
        &mut lead.share,
        patterns,
        &mut lead.tests,
    )?;
    Ok(Pace {
        size: batch_size(left, width_of(brief.core)),
        has_ended: is_enough(brief, shared),
        ..pace
    })
}

/// Publishes once there are as many tests as a batch has, or no class is left to search; else there is one round more.
fn take_step<
    J: About + Send + Sync,
    T: Ledger + Send + Sync,
    S: Ledger + Send + Sync,
    P: Ledger + Send + Sync,
    U: Ledger + Send + Sync,
    E: Engine + Sync,
    G: Gate + Sync,
    R: Threads + Wait + Sync,
>(
    brief: &Brief<'_, J, E, G, R>,
    bench: &mut Bench<'_, J>,
    crew: &mut [Hand<'_, J, T, S, P, U, E>],
    pace: Pace,
) -> Result<Pace, NoMemory>
    requires { 0 < length crew.old }
    ensures { length crew.new ≡ length crew.old }
{
    let lead = &crew[0];
    let waiting = lead.tests.len();
    let is_last = pace.end >= lead.shared.count();
    if waiting < pace.size && !is_last {
        hunt_more(brief, crew, pace)
    } else if waiting == 0 {
        Ok(Pace {
            has_ended: true,
            ..pace
        })
    } else {
        publish_first(brief, bench, &mut crew[0], pace)
    }
}

/// Step after step, until no class is left, or enough is detected.
fn take_steps<
    J: About + Send + Sync,
    T: Ledger + Send + Sync,
    S: Ledger + Send + Sync,
    P: Ledger + Send + Sync,
    U: Ledger + Send + Sync,
    E: Engine + Sync,
    G: Gate + Sync,
    R: Threads + Wait + Sync,
>(
    brief: &Brief<'_, J, E, G, R>,
    bench: &mut Bench<'_, J>,
    crew: &mut [Hand<'_, J, T, S, P, U, E>],
) -> Result<(), NoMemory>
    requires { 0 < length crew.old }
    ensures { length crew.new ≡ length crew.old }
{
    let lead = &crew[0];
    let classes = lead.shared.count() as u64;
    let mut pace = Pace {
        end: 0,
        closed: 0,
        size: batch_size(classes, width_of(brief.core)),
        has_ended: is_enough(brief, lead.shared),
    };
    for _ in brief.rt.forever() {
        if pace.has_ended {
            break;
        }
        pace = take_step(brief, bench, crew, pace)?;
    }
    Ok(())
}

/// A worker at the start, with its share of the list.
fn hand_of<'a, J: About, T: Ledger, S: Ledger, P: Ledger, U: Ledger, E: Engine>(
    alloc: Global,
    shared: &'a Shared<J, T, S, P, U>,
    share: Share<T, S, P, U>,
) -> Hand<'a, J, T, S, P, U, E>
    requires table { share.table ≡ shared.now.word.shared.table_id }
{
    Hand {
        shared,
        share,
        room: None,
        claims: Vec::new(alloc),
        tests: Vec::new(alloc),
    }
}

/// The workers at the start, each with a share of the list. The shares are taken out from the last one on.
fn crew_of<'a, J: About, T: Ledger, S: Ledger, P: Ledger, U: Ledger, E: Engine>(
    alloc: Global,
    shared: &'a Shared<J, T, S, P, U>,
    shares: &mut Vec<Share<T, S, P, U>>,
    workers: u32,
) -> Result<Vec<Hand<'a, J, T, S, P, U, E>>, NoMemory>
    requires idle { shares.old.items ≡ idle_from shared.now.word.shared.table_id 0 workers }
    requires len { vec_len shares.old ≡ workers }
    ensures { IfOk result (λ v. vec_len v ≡ workers) }
{
    let mut crew = Vec::with_capacity(alloc, workers as usize)?;
    while let Some(share) = shares.pop() {
        crew.push_reserved(hand_of(alloc, shared, share));
    }
    crew.reverse();
    Ok(crew)
}

/// A worker's share.
fn share_of<J: About, T: Ledger, S: Ledger, P: Ledger, U: Ledger, E: Engine>(
    hand: Hand<'_, J, T, S, P, U, E>,
) -> Share<T, S, P, U> {
    hand.share
}

/// The shares back, in whatever order.
fn shares_of<J: About, T: Ledger, S: Ledger, P: Ledger, U: Ledger, E: Engine>(
    alloc: Global,
    crew: &mut Vec<Hand<'_, J, T, S, P, U, E>>,
) -> Result<Vec<Share<T, S, P, U>>, NoMemory>
    ensures { IfOk result (λ v. vec_len v ≡ vec_len crew.old) }
{
    let mut shares = Vec::with_capacity(alloc, crew.len())?;
    while let Some(hand) = crew.pop() {
        shares.push_reserved(share_of(hand));
    }
    Ok(shares)
}

/// The work of these workers, and their shares back.
fn work_crew<
    J: About + Send + Sync,
    T: Ledger + Send + Sync,
    S: Ledger + Send + Sync,
    P: Ledger + Send + Sync,
    U: Ledger + Send + Sync,
    E: Engine + Sync,
    G: Gate + Sync,
    R: Threads + Wait + Sync,
>(
    brief: &Brief<'_, J, E, G, R>,
    crew: &mut Vec<Hand<'_, J, T, S, P, U, E>>,
    workers: u32,
    seed: u64,
) -> Result<Vec<Share<T, S, P, U>>, NoMemory>
    requires workers { 0 < workers }
    requires crew { vec_len crew.old ≡ workers }
    ensures { IfOk result (λ v. vec_len v ≡ workers) }
{
    let mut bench = Bench::new(brief.alloc, brief.core, workers, seed)?;
    take_steps(brief, &mut bench, crew)?;
    shares_of(brief.alloc, crew)
}

/// The work of several workers, and their shares back.
pub(crate) fn work_rounds<
    J: About + Send + Sync,
    T: Ledger + Send + Sync,
    S: Ledger + Send + Sync,
    P: Ledger + Send + Sync,
    U: Ledger + Send + Sync,
    E: Engine + Sync,
    G: Gate + Sync,
    R: Threads + Wait + Sync,
>(
    brief: &Brief<'_, J, E, G, R>,
    shared: &Shared<J, T, S, P, U>,
    shares: Vec<Share<T, S, P, U>>,
    workers: u32,
    seed: u64,
) -> Result<Vec<Share<T, S, P, U>>, NoMemory>
    requires workers { (0 < workers) × (vec_len shares ≡ workers) }
    requires idle { shares.items ≡ idle_from shared.now.word.shared.table_id 0 workers }
    ensures { IfOk result (λ v. vec_len v ≡ workers) }
{
    let mut shares = shares;
    let mut crew = crew_of(brief.alloc, shared, &mut shares, workers)?;
    work_crew(brief, &mut crew, workers, seed)
}
