//! The engine.
ghost use Rattle.std.specs.Prelude.{◌≤◌, true, IfOk, IfSome};
ghost use Rattle.netlist.specs.Holds.{AreHoldsOf};
ghost use Rattle.netlist.specs.Lines.{IsLineOf};
ghost use Rattle.evidence.specs.Answers.{HasEvidence, MayAnswer};
ghost use Rattle.clauses.specs.Rooms.{AreReusable};
ghost use Rattle.clauses.specs.Rules.{HasClauseEvidence};
ghost use Rattle.clauses.specs.inner.Answered.{IsByTree, IsVerified};

use crate::first_tries::FirstTries;
use crate::sequence::settled;
use clause_search::{Room, Settled};
use evidence::{Engine, Found, Refutation};
use netlist::{Core, Fault, Holds, NoMemory, SignalId};
use podem::{Podem, PodemRoom, tried_in};
use refutation::Step;
use refutation_check::{CheckRoom, Checker, RefutationFault};
use std::alloc::Global;

/// So many contradictions the search may come to.
const CONTRADICTIONS: u32 = 10_000;

/// A search that learns clauses, with PODEM before it where faults are easy, and behind it where it gives up.
#[derive(Drop)]
pub struct Clauses {
    podem: Podem,
}

/// The rooms of those that judge what the search says: of a test PODEM's labels, of steps the check.
#[derive(Drop)]
struct Judges {
    podem: PodemRoom,
    checks: CheckRoom,
}

/// What no answer rests on: the search that learns clauses, and whether PODEM goes before it for a moment.
#[derive(Drop)]
struct Guide {
    search: Room,
    tries: FirstTries,
}

/// What a search leaves to the next one.
#[derive(Drop)]
pub struct ClauseRoom {
    judges: Judges,
    guide: Guide,
}

/// Steps of the search, as an answer: if the check accepts them they are a refutation.
fn by_steps(
    judges: Judges,
    core: &Core,
    fault: &Fault,
    holds: &Holds,
    steps: Vec<Step>,
) -> Result<(Option<Found>, Judges), NoMemory>
    requires line { IsLineOf core.now fault.now.line }
    requires rooms { AreReusable core.now holds.now judges }
    ensures answer { IfOk result (λ r. IfSome r.0 (IsVerified fault.now core.now holds.now)) }
    ensures rooms { IfOk result (λ r. AreReusable core.now holds.now r.1) }
{
    let Judges { podem, checks } = judges;
    let mut checker = Checker::in_room(checks, core, holds);
    let answer = checker.check(fault, &steps);
    let checks = checker.into_room();
    let judges = Judges { podem, checks };
    match answer {
        Ok(()) => Ok((Some(Found::Refuted(Refutation::new(steps))), judges)),
        Err(RefutationFault::NoMemory) => Err(NoMemory),
        Err(_) => Ok((None, judges)),
    }
}

/// Bits of the search, as an answer: if the labels come to show a test they are one.
fn by_bits(
    alloc: Global,
    judges: Judges,
    core: &Core,
    fault: &Fault,
    holds: &Holds,
    bits: &[(SignalId, bool)],
) -> Result<(Option<Found>, Judges), NoMemory>
    requires holds { AreHoldsOf core.now holds.now }
    requires line { IsLineOf core.now fault.now.line }
    requires rooms { AreReusable core.now holds.now judges }
    ensures answer { IfOk result (λ r. IfSome r.0 (IsVerified fault.now core.now holds.now)) }
    ensures rooms { IfOk result (λ r. AreReusable core.now holds.now r.1) }
{
    let Judges { podem, checks } = judges;
    let (test, podem) = tried_in(alloc, podem, core, *fault, holds, bits)?;
    let judges = Judges { podem, checks };
    match test {
        Some((cube, point)) => Ok((Some(Found::Test(cube, point)), judges)),
        None => Ok((None, judges)),
    }
}

/// What the search that learns clauses answers, as far as it is verified.
fn by_clauses(
    alloc: Global,
    guide: &mut Guide,
    judges: Judges,
    core: &Core,
    fault: &Fault,
    holds: &Holds,
) -> Result<(Option<Found>, Judges), NoMemory>
    requires holds { AreHoldsOf core.now holds.now }
    requires line { IsLineOf core.now fault.now.line }
    requires rooms { AreReusable core.now holds.now judges }
    ensures answer { IfOk result (λ r. IfSome r.0 (IsVerified fault.now core.now holds.now)) }
    ensures rooms { IfOk result (λ r. AreReusable core.now holds.now r.1) }
{
    match guide
        .search
        .search(alloc, core, fault, CONTRADICTIONS, holds)?
    {
        Settled::Refuted(steps) => by_steps(judges, core, fault, holds, steps),
        Settled::Found(bits) => by_bits(alloc, judges, core, fault, holds, &bits),
        Settled::GaveUp => Ok((None, judges)),
    }
}

impl Clauses {
    /// The search for a netlist. For another one its answers are right too, but it may be slow.
    pub fn of(alloc: Global, core: &Core) -> Result<Clauses, NoMemory> {
        let podem = Podem::of(alloc, core)?;
        Ok(Clauses { podem })
    }

    /// What PODEM answers.
    fn by_tree(
        &self,
        alloc: Global,
        judges: Judges,
        core: &Core,
        fault: Fault,
        limit: u32,
        holds: &Holds,
    ) -> Result<(Found, Judges), NoMemory>
        requires limit { 1 ≤ limit }
        requires holds { AreHoldsOf core.now holds.now }
        requires line { IsLineOf core.now fault.line }
        requires rooms { AreReusable core.now holds.now judges }
        ensures evidence { IfOk result (λ r. IsByTree fault core.now holds.now limit r.0) }
        ensures rooms { IfOk result (λ r. AreReusable core.now holds.now r.1) }
    {
        let Judges { podem, checks } = judges;
        let (found, podem) = self
            .podem
            .search_in(alloc, podem, core, fault, limit, holds)?;
        Ok((found, Judges { podem, checks }))
    }

    /// What PODEM answers with one closed end, if that is worth a try, and unless it gives up.
    fn short(
        &self,
        alloc: Global,
        guide: &mut Guide,
        judges: Judges,
        core: &Core,
        fault: Fault,
        limit: u32,
        holds: &Holds,
    ) -> Result<(Option<Found>, Judges), NoMemory>
        requires limit { 1 ≤ limit }
        requires holds { AreHoldsOf core.now holds.now }
        requires line { IsLineOf core.now fault.line }
        requires rooms { AreReusable core.now holds.now judges }
        ensures evidence { IfOk result (λ r. IfSome r.0 (IsByTree fault core.now holds.now limit)) }
        ensures rooms { IfOk result (λ r. AreReusable core.now holds.now r.1) }
    {
        if !guide.tries.are_worth() {
            guide.tries = guide.tries.passed();
            return Ok((None, judges));
        }
        let (found, judges) = self.by_tree(alloc, judges, core, fault, 1, holds)?;
        let found = settled(found);
        guide.tries = guide.tries.after(found.is_some());
        Ok((found, judges))
    }

    /// PODEM for a moment, then clauses, and where nothing came of them PODEM at the whole limit.
    fn in_turn(
        &self,
        alloc: Global,
        guide: &mut Guide,
        judges: Judges,
        core: &Core,
        fault: Fault,
        limit: u32,
        holds: &Holds,
    ) -> Result<(Found, Judges), NoMemory>
        requires limit { 1 ≤ limit }
        requires holds { AreHoldsOf core.now holds.now }
        requires line { IsLineOf core.now fault.line }
        requires rooms { AreReusable core.now holds.now judges }
        ensures evidence { IfOk result (λ r. HasEvidence fault core.now holds.now limit r.0) }
        ensures rule { IfOk result (λ r. HasClauseEvidence fault core.now holds.now limit r.0) }
        ensures kind { IfOk result (λ r. MayAnswer true r.0) }
        ensures rooms { IfOk result (λ r. AreReusable core.now holds.now r.1) }
    {
        let (found, judges) = self.short(alloc, guide, judges, core, fault, limit, holds)?;
        if let Some(found) = found {
            return Ok((found, judges));
        }
        let (found, judges) = by_clauses(alloc, guide, judges, core, &fault, holds)?;
        if let Some(found) = found {
            return Ok((found, judges));
        }
        self.by_tree(alloc, judges, core, fault, limit, holds)
    }
}

impl Engine for Clauses {
    ghost use Rattle.std.specs.Prelude.{true};
    ghost use Rattle.clauses.specs.Rooms.{IsReusableClauseRoom};
    ghost use Rattle.clauses.specs.Rules.{HasClauseEvidence};

    type Room = ClauseRoom;

    ghost serves = { IsReusableClauseRoom };

    // Its trees are PODEM's.
    ghost keeps_rule = { HasClauseEvidence };

    ghost refutes = { true };

    fn search(
        &self,
        alloc: Global,
        core: &Core,
        fault: Fault,
        limit: u32,
        holds: &Holds,
    ) -> Result<Found, NoMemory> {
        let room = self.room(alloc, core, holds)?;
        let (found, _) = self.search_in(alloc, room, core, fault, limit, holds)?;
        Ok(found)
    }

    fn room(&self, alloc: Global, core: &Core, holds: &Holds) -> Result<ClauseRoom, NoMemory> {
        let judges = Judges {
            podem: self.podem.room(alloc, core, holds)?,
            checks: CheckRoom::new(alloc, core, holds)?,
        };
        let guide = Guide {
            search: Room::new(alloc),
            tries: FirstTries::none(),
        };
        Ok(ClauseRoom { judges, guide })
    }

    fn search_in(
        &self,
        alloc: Global,
        room: ClauseRoom,
        core: &Core,
        fault: Fault,
        limit: u32,
        holds: &Holds,
    ) -> Result<(Found, ClauseRoom), NoMemory> {
        let ClauseRoom { judges, guide } = room;
        let mut guide = guide;
        let (found, judges) = self.in_turn(alloc, &mut guide, judges, core, fault, limit, holds)?;
        Ok((found, ClauseRoom { judges, guide }))
    }
}
