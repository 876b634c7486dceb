//! What one worker does.
//!
//! It claims a class, searches with no lock held, and keeps the cubes of its tests. With 64 of them it merges and fills them, simulates the
//! patterns over all classes that are left, and publishes patterns and hits in one hold: what a pattern detects beside its own class is never
//! searched (fault dropping). To publish each test at once would drop classes sooner, but simulate one pattern where a word has room for 64.
//!
//! Where there is a goal it looks whether enough is detected: before its first claim, and behind each batch, which alone brings detections. To look
//! before each claim would hold the lock for a pass over all classes as often.
ghost use Rattle.std.specs.Prelude.{◌≡◌, ◌+◌, ◌≤◌, ◌<◌, true, false, IfOk, IfNone, IfSome, OnOk, vec_len};
ghost use Rattle.std.specs.List.{All};
ghost use Rattle.cubes.specs.Cubes.{IsCubeOf};
ghost use Rattle.evidence.specs.Answers.{HasEvidence, MayAnswer};
ghost use Rattle.list_core.specs.States.{MaySettle};
ghost use Rattle.worker.specs.Working.{MaySearch};
ghost use Rattle.worker.specs.inner.Stock.{IsStock};

use crate::adding::add;
use crate::errands::{Brief, Errand, brief_of};
use crate::outcomes::{Outcome, outcome_of};
use crate::publishing::{Batcher, publish_cubes};
use cubes::Cube;
use evidence::{Engine, Evidence, Found};
use list_core::{About, Claim, Goal, Settling};
use netlist::NoMemory;
use outside::{Gate, Stage};
use shared_list::{Drawn, Share, Shared};
use std::sync::Wait;
use std::sync::ledger::Ledger;

/// How many cubes make a batch.
pub(crate) const FULL: usize = 64;

/// Whether there is a goal, and enough is detected. The list is asked under its lock, and only where there is a goal.
pub(crate) fn is_enough<
    J: About,
    T: Ledger,
    S: Ledger,
    P: Ledger,
    U: Ledger,
    E: Engine,
    G: Gate,
    R: Wait,
>(brief: &Brief<'_, J, E, G, R>, shared: &Shared<J, T, S, P, U>) -> bool
    ensures { IfNone brief.now (result ≡ false) }
{
    match brief.goal {
        Some(goal) => shared.is_enough(brief.rt, goal),
        None => false,
    }
}

/// Searches claim after claim, until there is none, or enough is detected. Room for searches and for simulation is made once.
#[tactic(auto, using(crate::proofs::WorkLemmas::if_none_given))]
pub fn work<J: About, T: Ledger, S: Ledger, P: Ledger, U: Ledger, E: Engine, G: Gate, R: Wait>(
    errand: &Errand<'_, E, G, R>,
    shared: &Shared<J, T, S, P, U>,
    share: &mut Share<T, S, P, U>,
    seed: u64,
    goal: Option<&Goal>,
) -> Result<(), NoMemory>
    requires table { share.old.table ≡ shared.now.word.shared.table_id }
    requires subject { MaySearch J.subject errand.now.core.now errand.now.holds.now E.refutes }
    ensures table { share.new.table ≡ share.old.table }
    ensures ended { OnOk result (IfNone goal.entry (share.new.ended ≡ true)) }
{
    let brief = brief_of::<J, E, G, R>(errand, goal);
    let mut batcher = Batcher::<J>::new(errand.alloc, errand.core, seed, share.worker())?;
    let worked = work_by(&brief, shared, share, &mut batcher);
    drop(batcher);
    worked
}

/// The same with a batcher at hand.
#[tactic(auto, using(crate::proofs::StockLemmas::lent_below, crate::proofs::WorkLemmas::if_none_still, crate::proofs::WorkLemmas::whatever_comes))]
fn work_by<J: About, T: Ledger, S: Ledger, P: Ledger, U: Ledger, E: Engine, G: Gate, R: Wait>(
    brief: &Brief<'_, J, E, G, R>,
    shared: &Shared<J, T, S, P, U>,
    share: &mut Share<T, S, P, U>,
    batcher: &mut Batcher<'_, J>,
) -> Result<(), NoMemory>
    requires table { share.old.table ≡ shared.now.word.shared.table_id }
    ensures table { share.new.table ≡ share.old.table }
    ensures ended { OnOk result (IfNone brief.now (share.new.ended ≡ true)) }
{
    let room = room_of(brief, None)?;
    let cubes = work_turns(brief, shared, share, room, batcher)?;
    publish_cubes(brief, shared, share, batcher, &cubes)
}

/// The room that was kept, or a new one.
pub(crate) fn room_of<J: About, E: Engine, G: Gate, R>(
    brief: &Brief<'_, J, E, G, R>,
    kept: Option<E::Room>,
) -> Result<E::Room, NoMemory>
    requires { IfSome kept (E.serves J.subject.netlist J.subject.holds) }
    ensures { IfOk result (E.serves J.subject.netlist J.subject.holds) }
{
    match kept {
        Some(room) => Ok(room),
        None => brief.engine.room(brief.alloc, brief.core, brief.holds),
    }
}

/// Hands a claim back with its evidence, and passes the stage if the class took it.
fn settle<J: About, T: Ledger, S: Ledger, P: Ledger, U: Ledger, E: Engine, G: Gate, R: Wait>(
    brief: &Brief<'_, J, E, G, R>,
    shared: &Shared<J, T, S, P, U>,
    share: &mut Share<T, S, P, U>,
    claim: Claim<J>,
    evidence: Evidence,
    settled: Stage,
)
    requires table { share.old.table ≡ shared.now.word.shared.table_id }
    requires shows { MaySettle J.subject claim.fault evidence }
    ensures table { share.new.table ≡ share.old.table }
    ensures unspent { share.new.unspent ≡ share.old.unspent }
{
    if let Settling::Settled = shared.settle(brief.rt, share, claim, evidence) {
        brief.stage.at(share.worker(), settled);
    }
}

/// The cube of a test; evidence settles the claim.
fn answer<J: About, T: Ledger, S: Ledger, P: Ledger, U: Ledger, E: Engine, G: Gate, R: Wait>(
    brief: &Brief<'_, J, E, G, R>,
    shared: &Shared<J, T, S, P, U>,
    share: &mut Share<T, S, P, U>,
    claim: Claim<J>,
    found: Found,
) -> Option<Cube>
    requires table { share.old.table ≡ shared.now.word.shared.table_id }
    requires evidence { HasEvidence claim.fault J.subject.netlist J.subject.holds J.subject.limit found }
    requires kind { MayAnswer J.subject.refutes found }
    ensures table { share.new.table ≡ share.old.table }
    ensures unspent { share.new.unspent ≡ share.old.unspent }
    ensures cube { IfSome result (IsCubeOf J.subject.netlist J.subject.holds) }
{
    match outcome_of(&claim, found) {
        Outcome::Test(cube, _) => Some(cube),
        Outcome::Settles(evidence, settled) => {
            settle(brief, shared, share, claim, evidence, settled);
            None
        }
    }
}

/// Searches a claim that was drawn, with no lock held: the cube of a test, and the room back. Evidence settles the claim.
pub(crate) fn searched<
    J: About,
    T: Ledger,
    S: Ledger,
    P: Ledger,
    U: Ledger,
    E: Engine,
    G: Gate,
    R: Wait,
>(
    brief: &Brief<'_, J, E, G, R>,
    shared: &Shared<J, T, S, P, U>,
    share: &mut Share<T, S, P, U>,
    claim: Claim<J>,
    room: E::Room,
) -> Result<(Option<Cube>, E::Room), NoMemory>
    requires table { share.old.table ≡ shared.now.word.shared.table_id }
    requires room { E.serves J.subject.netlist J.subject.holds room }
    ensures table { share.new.table ≡ share.old.table }
    ensures unspent { share.new.unspent ≡ share.old.unspent }
    ensures cube { IfOk result (λ r. IfSome r.0 (IsCubeOf J.subject.netlist J.subject.holds)) }
    ensures room { IfOk result (λ r. E.serves J.subject.netlist J.subject.holds r.1) }
{
    brief.stage.at(share.worker(), Stage::Claimed);
    let (found, kept) = found_in(brief, &claim, room)?;
    Ok((answer(brief, shared, share, claim, found), kept))
}

/// What a search for a claim answers. The room comes back.
#[tactic(auto, using(crate::proofs::WorkLemmas::line_there, crate::proofs::WorkLemmas::evidence_there, crate::proofs::WorkLemmas::kind_there))]
fn found_in<J: About, E: Engine, G: Gate, R>(
    brief: &Brief<'_, J, E, G, R>,
    claim: &Claim<J>,
    room: E::Room,
) -> Result<(Found, E::Room), NoMemory>
    requires { E.serves J.subject.netlist J.subject.holds room }
    ensures evidence { IfOk result (λ r. HasEvidence claim.now.fault J.subject.netlist J.subject.holds J.subject.limit r.0) }
    ensures kind { IfOk result (λ r. MayAnswer J.subject.refutes r.0) }
    ensures room { IfOk result (λ r. E.serves J.subject.netlist J.subject.holds r.1) }
{
    brief.engine.search_in(
        brief.alloc,
        room,
        brief.core,
        claim.fault(),
        claim.limit(),
        brief.holds,
    )
}

/// Keeps the cube of a test.
fn keep_cube<J: About>(cubes: &mut Vec<Cube>, found: Option<Cube>) -> Result<(), NoMemory>
    requires cube { IfSome found (IsCubeOf J.subject.netlist J.subject.holds) }
    requires wide { All (IsCubeOf J.subject.netlist J.subject.holds) cubes.old.items }
    ensures few { OnOk result (vec_len cubes.new ≤ vec_len cubes.old + 1) }
    ensures wide { OnOk result (All (IsCubeOf J.subject.netlist J.subject.holds) cubes.new.items) }
{
    match found {
        Some(cube) => add(cubes, cube),
        None => Ok(()),
    }
}

/// Publishes the cubes once there are as many as a batch has, and then looks whether enough is detected; whether it is.
fn publish_full<J: About, T: Ledger, S: Ledger, P: Ledger, U: Ledger, E: Engine, G: Gate, R: Wait>(
    brief: &Brief<'_, J, E, G, R>,
    shared: &Shared<J, T, S, P, U>,
    share: &mut Share<T, S, P, U>,
    batcher: &mut Batcher<'_, J>,
    cubes: &mut Vec<Cube>,
) -> Result<bool, NoMemory>
    requires table { share.old.table ≡ shared.now.word.shared.table_id }
    requires wide { All (IsCubeOf J.subject.netlist J.subject.holds) cubes.old.items }
    requires few { vec_len cubes.old ≤ 64 }
    requires unspent { vec_len cubes.old ≤ share.old.unspent }
    ensures table { share.new.table ≡ share.old.table }
    ensures stock { OnOk result (IsStock J.subject share.new cubes.new) }
    ensures goal { IfOk result (λ b. IfNone brief.now (b ≡ false)) }
{
    if cubes.len() < FULL {
        return Ok(false);
    }
    publish_cubes(brief, shared, share, batcher, cubes)?;
    cubes.clear();
    Ok(is_enough(brief, shared))
}

/// Searches a claim that was drawn, and publishes once there are as many cubes as a batch has: the room back, and whether to end.
fn work_claim<J: About, T: Ledger, S: Ledger, P: Ledger, U: Ledger, E: Engine, G: Gate, R: Wait>(
    brief: &Brief<'_, J, E, G, R>,
    shared: &Shared<J, T, S, P, U>,
    share: &mut Share<T, S, P, U>,
    claim: Claim<J>,
    room: E::Room,
    batcher: &mut Batcher<'_, J>,
    cubes: &mut Vec<Cube>,
) -> Result<(E::Room, bool), NoMemory>
    requires table { share.old.table ≡ shared.now.word.shared.table_id }
    requires room { E.serves J.subject.netlist J.subject.holds room }
    requires stock { IsStock J.subject share.old cubes.old }
    requires unspent { vec_len cubes.old < share.old.unspent }
    ensures table { share.new.table ≡ share.old.table }
    ensures room { IfOk result (λ r. E.serves J.subject.netlist J.subject.holds r.0) }
    ensures stock { OnOk result (IsStock J.subject share.new cubes.new) }
    ensures goal { IfOk result (λ r. IfNone brief.now (r.1 ≡ false)) }
{
    let (found, kept) = searched(brief, shared, share, claim, room)?;
    keep_cube::<J>(cubes, found)?;
    let has_ended = publish_full(brief, shared, share, batcher, cubes)?;
    Ok((kept, has_ended))
}

/// Draws a class, and works it, if one is left and still open: the room back, and whether enough is detected. Where none is left the share has ended.
fn take_turn<J: About, T: Ledger, S: Ledger, P: Ledger, U: Ledger, E: Engine, G: Gate, R: Wait>(
    brief: &Brief<'_, J, E, G, R>,
    shared: &Shared<J, T, S, P, U>,
    share: &mut Share<T, S, P, U>,
    room: E::Room,
    batcher: &mut Batcher<'_, J>,
    cubes: &mut Vec<Cube>,
) -> Result<(E::Room, bool), NoMemory>
    requires table { share.old.table ≡ shared.now.word.shared.table_id }
    requires room { E.serves J.subject.netlist J.subject.holds room }
    requires stock { IsStock J.subject share.old cubes.old }
    ensures table { share.new.table ≡ share.old.table }
    ensures room { IfOk result (λ r. E.serves J.subject.netlist J.subject.holds r.0) }
    ensures stock { OnOk result (IsStock J.subject share.new cubes.new) }
    ensures goal { IfOk result (λ r. IfNone brief.now (r.1 ≡ false)) }
{
    match shared.take(brief.rt, share) {
        Drawn::Claim(claim) => { work_claim(brief, shared, share, claim, room, batcher, cubes) }
        Drawn::Gone(_) => Ok((room, false)),
        Drawn::None => Ok((room, false)),
    }
}

/// Turn after turn, until no class is left, or enough is detected: the cubes that aren't published yet.
#[tactic(auto, using(crate::proofs::StockLemmas::none_at_hand, crate::proofs::WorkLemmas::not_enough, crate::proofs::WorkLemmas::whether_none))]
fn work_turns<J: About, T: Ledger, S: Ledger, P: Ledger, U: Ledger, E: Engine, G: Gate, R: Wait>(
    brief: &Brief<'_, J, E, G, R>,
    shared: &Shared<J, T, S, P, U>,
    share: &mut Share<T, S, P, U>,
    room: E::Room,
    batcher: &mut Batcher<'_, J>,
) -> Result<Vec<Cube>, NoMemory>
    requires table { share.old.table ≡ shared.now.word.shared.table_id }
    requires room { E.serves J.subject.netlist J.subject.holds room }
    ensures table { share.new.table ≡ share.old.table }
    ensures stock { IfOk result (λ cubes. IsStock J.subject share.new cubes) }
    ensures ended { OnOk result (IfNone brief.now (share.new.ended ≡ true)) }
{
    let mut room = room;
    let mut cubes = Vec::new(brief.alloc);
    let mut enough = is_enough(brief, shared);
    for _ in brief.rt.forever() {
        if enough {
            break;
        }
        if share.ended() {
            break;
        }
        let (kept, detected) = take_turn(brief, shared, share, room, batcher, &mut cubes)?;
        room = kept;
        enough = detected;
    }
    Ok(cubes)
}
