//! A worker's part of a round: it searches the classes below the round's end that it draws.
//!
//! Classes are drawn one by one, so that a worker whose searches end soon takes more. A class at the end or behind it is kept for a later round,
//! since only a draw tells that none is left below: whether it is still open then is looked at there.
ghost use Rattle.std.specs.Prelude.{◌≡◌, ◌+◌, ◌≤◌, IfOk, IfSome, vec_len};
ghost use Rattle.cubes.specs.Cubes.{IsCubeOf};
ghost use Rattle.shared_list.specs.Outcomes.{MatchDrawn};
ghost use Rattle.worker.specs.inner.Tests.{AreTestsOf};

use crate::adding::add;
use crate::errands::Brief;
use crate::hands::{Hand, Test};
use crate::working::{room_of, searched};
use cubes::Cube;
use evidence::Engine;
use list_core::{About, Claim};
use netlist::NoMemory;
use outside::Gate;
use shared_list::{Drawn, Share, Shared};
use std::sync::Wait;
use std::sync::ledger::Ledger;

/// A claim that was kept, or one draw. It leaves one claim more to publish a pattern for.
fn drawn<J: About, T: Ledger, S: Ledger, P: Ledger, U: Ledger, R: Wait>(
    rt: &R,
    shared: &Shared<J, T, S, P, U>,
    share: &mut Share<T, S, P, U>,
    claims: &mut Vec<Claim<J>>,
) -> Drawn<J>
    requires table { share.old.table ≡ shared.now.word.shared.table_id }
    ensures table { share.new.table ≡ share.old.table }
    ensures unspent { MatchDrawn result
        (λ worker class. share.new.unspent + vec_len claims.old ≡ share.old.unspent + vec_len claims.new + 1)
        (λ class is_entered. share.new.unspent + vec_len claims.old ≡ share.old.unspent + vec_len claims.new)
        (share.new.unspent + vec_len claims.old ≡ share.old.unspent + vec_len claims.new) }
{
    match claims.pop() {
        Some(claim) => Drawn::Claim(claim),
        None => shared.take(rt, share),
    }
}

/// Keeps the cube of a test.
fn keep_test<J: About>(
    tests: &mut Vec<Test>,
    class: u32,
    found: Option<Cube>,
) -> Result<(), NoMemory>
    requires cube { IfSome found (IsCubeOf J.subject.netlist J.subject.holds) }
    requires cubes { AreTestsOf J.subject tests.old.items }
    ensures few { vec_len tests.new ≤ vec_len tests.old + 1 }
    ensures cubes { AreTestsOf J.subject tests.new.items }
{
    match found {
        Some(cube) => add(tests, Test { class, cube }),
        None => Ok(()),
    }
}

/// Searches a claim, unless its class has a verdict by now. The room comes back.
fn hunt_claim<J: About, T: Ledger, S: Ledger, P: Ledger, U: Ledger, E: Engine, G: Gate, R: Wait>(
    brief: &Brief<'_, J, E, G, R>,
    shared: &Shared<J, T, S, P, U>,
    share: &mut Share<T, S, P, U>,
    claim: Claim<J>,
    room: E::Room,
    tests: &mut Vec<Test>,
) -> Result<E::Room, NoMemory>
    requires table { share.old.table ≡ shared.now.word.shared.table_id }
    requires room { E.serves J.subject.netlist J.subject.holds room }
    requires cubes { AreTestsOf J.subject tests.old.items }
    ensures table { share.new.table ≡ share.old.table }
    ensures unspent { share.new.unspent ≡ share.old.unspent }
    ensures few { vec_len tests.new ≤ vec_len tests.old + 1 }
    ensures room { IfOk result (E.serves J.subject.netlist J.subject.holds) }
    ensures cubes { AreTestsOf J.subject tests.new.items }
{
    let class = claim.class();
    if !shared.is_open(brief.rt, class) {
        return Ok(room);
    }
    let (found, kept) = searched(brief, shared, share, claim, room)?;
    keep_test::<J>(tests, class, found)?;
    Ok(kept)
}

/// Draws a class, and searches it, if there is one below the end: the room back, and whether there was one to draw.
fn take_turn<J: About, T: Ledger, S: Ledger, P: Ledger, U: Ledger, E: Engine, G: Gate, R: Wait>(
    brief: &Brief<'_, J, E, G, R>,
    end: u32,
    shared: &Shared<J, T, S, P, U>,
    share: &mut Share<T, S, P, U>,
    claims: &mut Vec<Claim<J>>,
    room: E::Room,
    tests: &mut Vec<Test>,
) -> Result<(E::Room, bool), NoMemory>
    requires table { share.old.table ≡ shared.now.word.shared.table_id }
    requires room { E.serves J.subject.netlist J.subject.holds room }
    requires cubes { AreTestsOf J.subject tests.old.items }
    requires unspent { vec_len claims.old + vec_len tests.old ≤ share.old.unspent }
    ensures table { share.new.table ≡ share.old.table }
    ensures room { IfOk result (λ r. E.serves J.subject.netlist J.subject.holds r.0) }
    ensures cubes { AreTestsOf J.subject tests.new.items }
    ensures unspent { vec_len claims.new + vec_len tests.new ≤ share.new.unspent }
{
    match drawn(brief.rt, shared, share, claims) {
        Drawn::Claim(claim) => {
            if claim.class() < end {
                let kept = hunt_claim(brief, shared, share, claim, room, tests)?;
                Ok((kept, true))
            } else {
                add(claims, claim)?;
                Ok((room, false))
            }
        }
        Drawn::Gone(_) => Ok((room, true)),
        Drawn::None => Ok((room, false)),
    }
}

/// Turn after turn, until no class is left below the end. The room comes back.
fn take_turns<J: About, T: Ledger, S: Ledger, P: Ledger, U: Ledger, E: Engine, G: Gate, R: Wait>(
    brief: &Brief<'_, J, E, G, R>,
    end: u32,
    shared: &Shared<J, T, S, P, U>,
    share: &mut Share<T, S, P, U>,
    claims: &mut Vec<Claim<J>>,
    room: E::Room,
    tests: &mut Vec<Test>,
) -> Result<E::Room, NoMemory>
    requires table { share.old.table ≡ shared.now.word.shared.table_id }
    requires room { E.serves J.subject.netlist J.subject.holds room }
    requires cubes { AreTestsOf J.subject tests.old.items }
    requires unspent { vec_len claims.old + vec_len tests.old ≤ share.old.unspent }
    ensures table { share.new.table ≡ share.old.table }
    ensures room { IfOk result (E.serves J.subject.netlist J.subject.holds) }
    ensures cubes { AreTestsOf J.subject tests.new.items }
    ensures unspent { vec_len claims.new + vec_len tests.new ≤ share.new.unspent }
{
    let mut room = room;
    let mut goes_on = true;
    for _ in brief.rt.forever() {
        if !goes_on {
            break;
        }
        let (kept, was_drawn) = take_turn(brief, end, shared, share, claims, room, tests)?;
        room = kept;
        goes_on = was_drawn;
    }
    Ok(room)
}

/// A worker's part of a round. Where memory is refused to it, it has no room behind it.
pub(crate) fn hunt<
    J: About,
    T: Ledger,
    S: Ledger,
    P: Ledger,
    U: Ledger,
    E: Engine,
    G: Gate,
    R: Wait,
>(brief: &Brief<'_, J, E, G, R>, end: u32, hand: &mut Hand<'_, J, T, S, P, U, E>) {
    let Ok(room) = room_of(brief, hand.room.take()) else {
        return;
    };
    let kept = take_turns(
        brief,
        end,
        hand.shared,
        &mut hand.share,
        &mut hand.claims,
        room,
        &mut hand.tests,
    );
    hand.room = kept.ok();
}
