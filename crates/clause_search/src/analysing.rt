//! What is learned of a contradiction: the first unique implication point. (Marques-Silva and Sakallah, GRASP, 1999; Zhang and others, Efficient
//! conflict driven learning in a Boolean satisfiability solver, 2001.) A literal that the others of the clause imply by its reason is left out.
use crate::causes::{Asked, causes};
use crate::lemmas::{Lemmas, ROOT};
use crate::meetings::Met;
use crate::queues::Queue;
use crate::ways::Ways;
use flat_netlist::{NONE, at, number_of, put};
use implications::{Clauses, Cone, Trail, clause_reason, opposite, variable_of};
use std::alloc::{AllocError, Global};

/// What a literal was implied by, and where it stands among the assigned.
#[derive(Clone, Copy)]
struct Taken {
    place: u32,
    literal: u32,
    reason: u32,
}

/// Room for the analysis of a contradiction.
#[derive(Drop)]
pub(crate) struct Analysis {
    /// The variables that were met.
    met: Met,
    found: Vec<u32>,
    /// The clause: first what the last decision made, then the others.
    clause: Vec<u32>,
    taken: Vec<Taken>,
    ways: Ways,
    /// How many that were met belong to the last decision and haven't been resolved.
    open: u32,
}

impl Analysis {
    pub(crate) fn new(alloc: Global) -> Analysis {
        Analysis {
            met: Met::new(alloc),
            found: Vec::new(alloc),
            clause: Vec::new(alloc),
            taken: Vec::new(alloc),
            ways: Ways::new(alloc),
            open: 0,
        }
    }

    pub(crate) fn begin(&mut self, count: u32) -> Result<(), AllocError> {
        self.ways.begin(count)?;
        self.met.begin(count)
    }

    /// A literal is met: it was known without a decision, or comes from the last decision, or goes into the clause.
    fn meet(&mut self, trail: &Trail, queue: &mut Queue, literal: u32) -> Result<(), AllocError> {
        let variable = variable_of(literal);
        if self.met.has(variable) {
            return Ok(());
        }
        self.met.meet(variable)?;
        let level = trail.level_of(variable);
        if level == 0 {
            let place = trail.place_of(variable);
            let reason = ROOT;
            self.taken.push(Taken {
                place,
                literal,
                reason,
            })?;
            return Ok(());
        }
        queue.bump(variable);
        if level == trail.level() {
            self.open = self.open.wrapping_add(1);
        } else {
            self.clause.push(opposite(literal))?;
        }
        Ok(())
    }

    /// Finds the literals from which a reason implied what is asked of.
    fn find(
        &mut self,
        cone: &Cone,
        trail: &Trail,
        clauses: &Clauses,
        asked: &Asked,
        reason: u32,
    ) -> Result<(), AllocError> {
        causes(
            cone,
            trail,
            clauses,
            asked,
            &mut self.ways,
            reason,
            &mut self.found,
        )
    }

    fn meet_found(&mut self, trail: &Trail, queue: &mut Queue) -> Result<(), AllocError> {
        for k in 0..number_of(self.found.len()) {
            let literal = at(&self.found, k);
            self.meet(trail, queue, literal)?;
        }
        Ok(())
    }

    /// Notes an assigned literal, which is resolved.
    fn take(&mut self, trail: &Trail, literal: u32) -> Result<(), AllocError> {
        let variable = variable_of(literal);
        let place = trail.place_of(variable);
        let reason = trail.reason_of(variable);
        self.taken.push(Taken {
            place,
            literal,
            reason,
        })?;
        Ok(())
    }

    /// Finds the literals from which a variable's was implied.
    fn find_causes(
        &mut self,
        cone: &Cone,
        trail: &Trail,
        clauses: &Clauses,
        variable: u32,
    ) -> Result<(), AllocError> {
        let place = trail.place_of(variable);
        let asked = Asked { variable, place };
        self.find(cone, trail, clauses, &asked, trail.reason_of(variable))
    }

    /// Puts what a literal was implied by in its place.
    fn replace(
        &mut self,
        cone: &Cone,
        trail: &Trail,
        clauses: &Clauses,
        queue: &mut Queue,
        literal: u32,
    ) -> Result<(), AllocError> {
        self.take(trail, literal)?;
        self.find_causes(cone, trail, clauses, variable_of(literal))?;
        self.meet_found(trail, queue)
    }

    /// Goes back to the literal through which the last decision led to the contradiction.
    fn resolve(
        &mut self,
        cone: &Cone,
        trail: &Trail,
        clauses: &Clauses,
        queue: &mut Queue,
    ) -> Result<u32, AllocError> {
        for place in (0..trail.length()).rev() {
            let literal = trail.literal_at(place);
            if self.met.has(variable_of(literal)) {
                if self.open <= 1 {
                    return Ok(literal);
                }
                self.open = self.open.wrapping_sub(1);
                self.replace(cone, trail, clauses, queue, literal)?;
            }
        }
        Ok(NONE)
    }

    /// Whether all that was found has been met or was known without a decision.
    fn are_met(&self, trail: &Trail) -> bool {
        for literal in &self.found {
            let variable = variable_of(*literal);
            if !self.met.has(variable) && trail.level_of(variable) != 0 {
                return false;
            }
        }
        true
    }

    /// Whether the others of the clause imply a literal.
    fn is_implied(
        &mut self,
        cone: &Cone,
        trail: &Trail,
        clauses: &Clauses,
        variable: u32,
    ) -> Result<bool, AllocError> {
        if trail.reason_of(variable) == NONE {
            return Ok(false);
        }
        self.find_causes(cone, trail, clauses, variable)?;
        Ok(self.are_met(trail))
    }

    /// Leaves a literal of the clause out, if the others imply it.
    fn shorten(
        &mut self,
        cone: &Cone,
        trail: &Trail,
        clauses: &Clauses,
        queue: &mut Queue,
        k: u32,
    ) -> Result<(), AllocError> {
        let literal = at(&self.clause, k);
        if !self.is_implied(cone, trail, clauses, variable_of(literal))? {
            return Ok(());
        }
        self.meet_found(trail, queue)?;
        self.take(trail, opposite(literal))?;
        put(&mut self.clause, k, NONE);
        Ok(())
    }

    fn shorten_all(
        &mut self,
        cone: &Cone,
        trail: &Trail,
        clauses: &Clauses,
        queue: &mut Queue,
    ) -> Result<(), AllocError> {
        for k in 1..number_of(self.clause.len()) {
            self.shorten(cone, trail, clauses, queue, k)?;
        }
        self.clause.retain(|literal| *literal != NONE);
        Ok(())
    }

    /// The place of the clause, behind the first one, whose literal has the highest level.
    fn highest(&self, trail: &Trail) -> u32 {
        let mut best: u32 = 1;
        let mut level = 0;
        for k in 1..number_of(self.clause.len()) {
            let here = trail.level_of(variable_of(at(&self.clause, k)));
            if here > level {
                level = here;
                best = k;
            }
        }
        best
    }

    /// The level to go back to, whose literal comes second in the clause.
    fn level_back(&mut self, trail: &Trail) -> u32 {
        if self.clause.len() < 2 {
            return 0;
        }
        let best = self.highest(trail);
        let first = at(&self.clause, best);
        let second = at(&self.clause, 1);
        put(&mut self.clause, best, second);
        put(&mut self.clause, 1, first);
        trail.level_of(variable_of(first))
    }

    /// Writes down what the clause took, in order.
    fn note(&mut self, lemmas: &mut Lemmas) -> Result<(), AllocError> {
        self.taken.sort_unstable_by_key(|taken| taken.place);
        for taken in &self.taken {
            lemmas.note(taken.literal, taken.reason)?;
        }
        Ok(())
    }

    /// The clause that a contradiction teaches, and the level to go back to.
    pub(crate) fn learn(
        &mut self,
        cone: &Cone,
        trail: &Trail,
        clauses: &mut Clauses,
        queue: &mut Queue,
        lemmas: &mut Lemmas,
        reason: u32,
    ) -> Result<Learned, AllocError> {
        self.clause.clear();
        self.taken.clear();
        self.open = 0;
        self.clause.push(NONE)?;
        let asked = Asked {
            variable: NONE,
            place: NONE,
        };
        self.find(cone, trail, clauses, &asked, reason)?;
        self.meet_found(trail, queue)?;
        let point = self.resolve(cone, trail, clauses, queue)?;
        put(&mut self.clause, 0, opposite(point));
        self.shorten_all(cone, trail, clauses, queue)?;
        let level = self.level_back(trail);
        self.note(lemmas)?;
        self.met.forget();
        let place = clauses.add(&self.clause, lemmas.count())?;
        lemmas.close(place, reason, trail.root_length())?;
        Ok(Learned {
            literal: opposite(point),
            reason: clause_reason(place),
            level,
        })
    }
}

/// What was learned: a literal that its clause implies once the search is back on the level.
#[derive(Clone, Copy)]
pub(crate) struct Learned {
    pub literal: u32,
    pub reason: u32,
    pub level: u32,
}
