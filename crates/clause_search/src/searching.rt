//! The search: consequences, decisions, and what contradictions teach, until all variables have a bit, a contradiction needs no decision, or the
//! limit is reached.
ghost use Rattle.netlist.specs.Holds.{AreHoldsOf};

use crate::analysing::Analysis;
use crate::frontiers::{Walk, Wish};
use crate::habits::Habits;
use crate::lemmas::Lemmas;
use crate::queues::Queue;
use flat_netlist::{NONE, Whole, at, number_of};
use implications::{
    Clauses, Cone, FirstLook, Seen, Trail, UNSET, bit_of, clause_reason, literal, spread,
    variable_of, visit_gate,
};
use netlist::{Core, Fault, Holds, SignalId};
use std::alloc::{AllocError, Global};

/// The labels of the clauses of what detection takes: some observed point differs, and the fault is excited.
pub(crate) const POINTS: u32 = u32::MAX;

pub(crate) const EXCITED: u32 = u32::MAX - 1;

/// The labels of facts, from this one on.
pub(crate) const FACT: u32 = 1 << 30;

/// What is kept from one search to the next. No answer rests on it.
#[derive(Drop)]
pub(crate) struct Search {
    pub cone: Cone,
    pub trail: Trail,
    pub clauses: Clauses,
    pub lemmas: Lemmas,
    queue: Queue,
    analysis: Analysis,
    clause: Vec<u32>,
    /// Literals of signals of the netlist that may be facts.
    hints: Vec<u32>,
    pub conflicts: u64,
    habits: Habits,
    walk: Walk,
    pub whole: Whole,
    pub first: FirstLook,
    /// Why some observed point differs.
    points: u32,
    /// How many contradictions this search has met, and how many decisions it has made since.
    met: u32,
    since: u32,
}

/// How a search ended.
#[derive(Clone, Copy)]
pub(crate) enum End {
    /// There is a test.
    Full,
    /// The first look leaves no way, or nothing.
    NoWay,
    Nothing,
    /// This reason is contradicted without a decision.
    Contradiction(u32),
    GaveUp,
}

/// When the search begins anew: after numbers of contradictions in Luby's sequence. (Luby, Sinclair and Zuckerman, Optimal speedup of Las Vegas
/// algorithms, 1993, by Knuth's pair of numbers.)
#[derive(Clone, Copy)]
struct Restarts {
    number: u32,
    length: u32,
    left: u32,
}

/// After so many contradictions decisions go by weight, and after so many decisions without one it is looked whether there is a test already.
const FEW: u32 = 4;

const PATIENCE: u32 = 16;

/// So many contradictions to the first restart.
const UNIT: u32 = 50;

impl Restarts {
    fn new() -> Restarts {
        Restarts {
            number: 1,
            length: 1,
            left: UNIT,
        }
    }

    /// Whether it is time, after another contradiction.
    fn is_due(&mut self) -> bool {
        if self.left > 1 {
            self.left -= 1;
            return false;
        }
        if self.number & 0u32.wrapping_sub(self.number) == self.length {
            self.number = self.number.wrapping_add(1);
            self.length = 1;
        } else {
            self.length = self.length.wrapping_mul(2);
        }
        self.left = self.length.wrapping_mul(UNIT);
        true
    }
}

impl Search {
    pub(crate) fn new(alloc: Global) -> Search {
        Search {
            cone: Cone::new(alloc),
            trail: Trail::new(alloc),
            clauses: Clauses::new(alloc),
            lemmas: Lemmas::new(alloc),
            queue: Queue::new(alloc),
            analysis: Analysis::new(alloc),
            clause: Vec::new(alloc),
            hints: Vec::new(alloc),
            conflicts: 0,
            habits: Habits::new(alloc),
            walk: Walk::new(alloc),
            whole: Whole::new(alloc),
            first: FirstLook::new(alloc),
            points: NONE,
            met: 0,
            since: 0,
        }
    }

    /// Nothing is carried on from the searches so far.
    pub(crate) fn forget(&mut self) {
        self.habits.forget();
        self.hints.clear();
        self.first.forget();
    }

    /// The part of the netlist for a fault, with nothing assigned.
    fn begin(&mut self, core: &Core, fault: &Fault) -> Result<(), AllocError> {
        self.habits.keep(&self.cone, &self.trail, &self.queue);
        self.habits.begin(core)?;
        self.cone
            .begin(core, &self.whole, fault, &self.first.reach.reached)?;
        let count = self.cone.variable_count();
        self.trail
            .begin(count, self.cone.inner(), self.cone.count())?;
        self.clauses.begin(count)?;
        self.queue.begin(count, self.cone.count())?;
        self.analysis.begin(count)?;
        self.walk.begin(count)?;
        self.lemmas.begin();
        self.points = NONE;
        self.met = 0;
        self.since = 0;
        self.habits
            .lend(&self.whole, &self.cone, &mut self.trail, &mut self.queue);
        self.queue.sort();
        Ok(())
    }

    /// A source that is held has its bit, and so has a gate without pins. An error is a reason that is contradicted.
    fn prime(&mut self, core: &Core, holds: &Holds, number: u32) -> Result<(), u32>
        requires { AreHoldsOf core.now holds.now }
    {
        let signal = self.cone.signal(number);
        if signal.index() < core.netlist().inputs().len() {
            return match holds.held(signal.0) {
                None => Ok(()),
                Some(bit) => {
                    let reason = self.cone.gate_reason(false, number);
                    self.trail.imply(number, u8::from(bit), reason)
                }
            };
        }
        let (start, end) = self.cone.pins_of(number);
        if start == end {
            visit_gate(&self.cone, &mut self.trail, false, number)?;
            if number < self.cone.reached() {
                visit_gate(&self.cone, &mut self.trail, true, number)?;
            }
        }
        Ok(())
    }

    fn prime_all(&mut self, core: &Core, holds: &Holds) -> Result<(), u32>
        requires { AreHoldsOf core.now holds.now }
    {
        for number in 0..self.cone.count() {
            self.prime(core, holds, number)?;
        }
        Ok(())
    }

    /// What is known of a signal whatever the fault.
    fn take_fact(&mut self, number: u32) -> Result<Result<(), u32>, AllocError> {
        match self.first.facts.of(self.cone.signal(number).0) {
            None => Ok(Ok(())),
            Some(fact) => {
                let bit = bit_of(self.first.facts.literal(fact));
                self.clause.clear();
                self.clause.push(literal(number, bit))?;
                self.demand(FACT.wrapping_add(fact))
            }
        }
    }

    fn take_facts(&mut self) -> Result<Result<(), u32>, AllocError> {
        for number in 0..self.cone.count() {
            if let Err(reason) = self.take_fact(number)? {
                return Ok(Err(reason));
            }
        }
        Ok(Ok(()))
    }

    /// The stuck line has its bit.
    fn stick(&mut self) -> Result<(), u32> {
        let site = self.cone.site;
        if site == NONE {
            return Ok(());
        }
        if self.cone.stuck_stem != NONE {
            let variable = self.cone.variable(true, site);
            let reason = self.cone.gate_reason(true, site);
            return self.trail.imply(variable, self.cone.stuck_bit, reason);
        }
        visit_gate(&self.cone, &mut self.trail, true, site)
    }

    /// A clause of what detection takes, and what it implies.
    fn demand(&mut self, label: u32) -> Result<Result<(), u32>, AllocError> {
        let place = self.clauses.add(&self.clause, label)?;
        let reason = clause_reason(place);
        if label == POINTS {
            self.points = reason;
        }
        if self.clause.len() == 1 {
            let literal = self.clause[0];
            return Ok(
                self.trail
                    .imply(variable_of(literal), bit_of(literal), reason),
            );
        }
        if self.clause.len() == 0 {
            return Ok(Err(reason));
        }
        Ok(Ok(()))
    }

    /// What comes onto the line differs from what it is stuck at.
    fn excite(&mut self) -> Result<Result<(), u32>, AllocError> {
        if self.cone.driver == NONE {
            return Ok(Ok(()));
        }
        self.clause.clear();
        self.clause
            .push(literal(self.cone.driver, 1 ^ self.cone.stuck_bit))?;
        self.demand(EXCITED)
    }

    /// Some observed point differs.
    fn observe(&mut self) -> Result<Result<(), u32>, AllocError> {
        if self.cone.is_point {
            return Ok(Ok(()));
        }
        self.clause.clear();
        for k in 0..self.cone.point_count() {
            let point = self.cone.point(k);
            self.clause.push(literal(self.cone.difference(point), 1))?;
        }
        self.demand(POINTS)
    }

    /// All that holds at first.
    fn start(&mut self, core: &Core, holds: &Holds) -> Result<Result<(), u32>, AllocError>
        requires { AreHoldsOf core.now holds.now }
    {
        if let Err(reason) = self.prime_all(core, holds) {
            return Ok(Err(reason));
        }
        if let Err(reason) = self.take_facts()? {
            return Ok(Err(reason));
        }
        if let Err(reason) = self.stick() {
            return Ok(Err(reason));
        }
        if let Err(reason) = self.excite()? {
            return Ok(Err(reason));
        }
        if let Err(reason) = self.observe()? {
            return Ok(Err(reason));
        }
        Ok(self.pass())
    }

    /// What each way to the points goes through differs.
    fn pass(&mut self) -> Result<(), u32> {
        for k in (0..number_of(self.first.reach.dominators.len())).rev() {
            let signal = at(&self.first.reach.dominators, k);
            if let Some(number) = self.cone.number(SignalId(signal)) {
                let variable = self.cone.difference(number);
                self.trail.imply(variable, 1, self.points)?;
            }
        }
        Ok(())
    }

    /// The variable that took part in the last contradictions most, with the bit that it had last.
    fn choose_by_weight(&mut self) -> Option<u32> {
        for _count in 0..self.cone.variable_count() {
            let variable = self.queue.take()?;
            if self.trail.value(variable) == UNSET {
                return Some(literal(variable, self.trail.saved_bit(variable) & 1));
            }
        }
        None
    }

    /// Whether to look at the netlist before the next decision.
    fn looks(&mut self) -> bool {
        let looks = self.met < FEW || self.since.is_multiple_of(PATIENCE);
        self.since = self.since.wrapping_add(1);
        looks
    }

    /// What to decide next; None if there is a test.
    fn choose(&mut self) -> Result<Option<u32>, AllocError> {
        if self.trail.is_driven() {
            return Ok(None);
        }
        if self.looks() {
            match self
                .walk
                .wish(&self.whole, &self.cone, &self.trail, self.met < FEW)?
            {
                Wish::Decide(literal) => return Ok(Some(literal)),
                Wish::Done => return Ok(None),
                Wish::Nothing => {}
            }
        }
        Ok(self.choose_by_weight())
    }

    /// Marks the bits on which a test rests, as far as they are known.
    pub(crate) fn justify(&mut self) -> Result<(), AllocError> {
        self.walk.wish(&self.whole, &self.cone, &self.trail, false)?;
        Ok(())
    }

    /// Whether the test rests on the bit of a signal.
    pub(crate) fn rests_on(&self, number: u32) -> bool {
        self.walk.has_met(number)
    }

    /// Goes on until all variables have a bit or a reason is contradicted.
    fn go_on(&mut self) -> Result<Option<u32>, AllocError> {
        for _count in 0..self.cone.variable_count() {
            if let Err(reason) = spread(&self.cone, &mut self.trail, &mut self.clauses) {
                return Ok(Some(reason));
            }
            let Some(literal) = self.choose()? else {
                return Ok(None);
            };
            self.trail.decide(variable_of(literal), bit_of(literal))?;
        }
        match spread(&self.cone, &mut self.trail, &mut self.clauses) {
            Ok(()) => Ok(None),
            Err(reason) => Ok(Some(reason)),
        }
    }

    /// Takes back what was assigned above a level.
    fn go_back(&mut self, level: u32) {
        for _place in self.trail.start_after(level)..self.trail.length() {
            let variable = self.trail.take_back();
            self.queue.wait(variable);
        }
        self.trail.cut_levels(level);
    }

    /// Learns of a contradiction, and goes back to where that implies something.
    fn learn(&mut self, reason: u32) -> Result<(), AllocError> {
        let learned = self.analysis.learn(
            &self.cone,
            &self.trail,
            &mut self.clauses,
            &mut self.queue,
            &mut self.lemmas,
            reason,
        )?;
        self.queue.age();
        self.conflicts = self.conflicts.wrapping_add(1);
        self.met = self.met.wrapping_add(1);
        self.since = 1;
        self.go_back(learned.level);
        let variable = variable_of(learned.literal);
        let _ = self
            .trail
            .imply(variable, bit_of(learned.literal), learned.reason);
        if learned.level == 0 && variable < self.cone.count() {
            self.hints.push(learned.literal)?;
        }
        Ok(())
    }

    /// Goes on from contradiction to contradiction.
    fn go_through(&mut self, limit: u32) -> Result<End, AllocError> {
        let mut restarts = Restarts::new();
        for _count in 0..limit {
            let Some(reason) = self.go_on()? else {
                return Ok(End::Full);
            };
            if self.trail.level() == 0 {
                return Ok(End::Contradiction(reason));
            }
            if !self.clauses.has_room() {
                return Ok(End::GaveUp);
            }
            self.learn(reason)?;
            if restarts.is_due() {
                self.go_back(0);
            }
        }
        Ok(End::GaveUp)
    }

    /// What the last search learned of single bits is tried as facts.
    fn learn_facts(&mut self) -> Result<(), AllocError> {
        for k in 0..number_of(self.hints.len()) {
            let hint = at(&self.hints, k);
            let signal = self.cone.signal(variable_of(hint)).0;
            self.first.learn(&self.whole, signal, bit_of(hint))?;
        }
        self.hints.clear();
        Ok(())
    }

    /// The whole search.
    pub(crate) fn run(
        &mut self,
        alloc: Global,
        core: &Core,
        fault: &Fault,
        limit: u32,
        holds: &Holds,
    ) -> Result<End, AllocError>
        requires { AreHoldsOf core.now holds.now }
    {
        self.whole.begin(alloc, core)?;
        self.learn_facts()?;
        match self.first.look(core, &self.whole, fault, holds)? {
            Seen::NoWay => return Ok(End::NoWay),
            Seen::Nothing => return Ok(End::Nothing),
            Seen::Open => {}
        }
        self.begin(core, fault)?;
        match self.start(core, holds)? {
            Ok(()) => self.go_through(limit),
            Err(reason) => Ok(End::Contradiction(reason)),
        }
    }
}
