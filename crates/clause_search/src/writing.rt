//! A refutation from what a search has learned: only what its last contradiction rests on, first marked from the last lemma back, then written from
//! the first one on.
//!
//! What gates imply is not written: a sweep of the step puts it in. What was known without a decision is a step of its own where a way or a lemma says it.
//! Held inputs, the stuck stem, excitation and the third of the three variables of a signal need nothing: a checker that keeps pairs of bits knows these.
use crate::causes::{Asked, causes};
use crate::lemmas::ROOT;
use crate::searching::{EXCITED, FACT, POINTS, Search};
use crate::ways::Ways;
use flat_netlist::{NONE, Shape, at, byte_at, fill, fill_bytes, number_of, put, put_byte};
use implications::{Cause, Cone, bit_of, clause_of, opposite, variable_of};
use netlist::SignalId;
use refutation::{Implied, Literal, Move, Pairs, Reason, Step};
use std::alloc::{AllocError, Global};

/// The pairs that differ, or those that don't.
fn apart_is(apart: bool) -> Pairs {
    if apart {
        Pairs::same().others()
    } else {
        Pairs::same()
    }
}

/// A literal as a checker knows it.
fn written(cone: &Cone, literal: u32) -> Literal {
    let variable = variable_of(literal);
    let bit = bit_of(literal) == 1;
    let count = cone.count();
    let reached = cone.reached();
    let (number, pairs) = if variable < count {
        (variable, Pairs::good_is(bit))
    } else if variable - count < reached {
        (variable - count, Pairs::faulty_is(bit))
    } else {
        (variable - count - reached, apart_is(bit))
    };
    Literal {
        signal: cone.signal(number),
        pairs,
    }
}

/// Why something follows, as a checker knows it.
#[derive(Drop)]
enum Why {
    /// It is known before any step.
    Known,
    /// Gates alone imply it: a sweep puts it in.
    ByGates,
    Said(Reason),
}

impl Why {
    /// The last reason of a step.
    fn reason(self) -> Reason {
        match self {
            Why::Said(reason) => reason,
            Why::Known | Why::ByGates => Reason::Gates,
        }
    }
}

/// No place of a lemma.
const NOTHING: (u32, u32) = (0, 0);

/// What is needed of a search, and the refutation as far as it is written.
#[derive(Drop)]
struct Writing {
    /// By lemma, and by variable.
    needed: Vec<u8>,
    facts: Vec<u8>,
    fact_steps: Vec<u32>,
    roots: Vec<u8>,
    waiting: Vec<u32>,
    found: Vec<u32>,
    ways: Ways,
    /// By lemma, its step.
    steps: Vec<u32>,
    written: Vec<Step>,
    /// How much of what was known without a decision is written.
    root: u32,
}

impl Writing {
    fn new(alloc: Global, search: &Search) -> Result<Writing, AllocError> {
        let mut needed = Vec::new(alloc);
        let mut facts = Vec::new(alloc);
        let mut fact_steps = Vec::new(alloc);
        fill_bytes(&mut facts, search.first.facts.count(), 0)?;
        fill(&mut fact_steps, search.first.facts.count(), NONE)?;
        let mut roots = Vec::new(alloc);
        let mut steps = Vec::new(alloc);
        fill_bytes(&mut needed, search.lemmas.count(), 0)?;
        fill_bytes(&mut roots, search.cone.variable_count(), 0)?;
        fill(&mut steps, search.lemmas.count(), NONE)?;
        let mut ways = Ways::new(alloc);
        ways.begin(search.cone.variable_count())?;
        Ok(Writing {
            needed,
            facts,
            fact_steps,
            roots,
            waiting: Vec::new(alloc),
            found: Vec::new(alloc),
            ways,
            steps,
            written: Vec::new(alloc),
            root: 0,
        })
    }

    /// The lemma that a reason is, if it is one, is needed.
    fn need_reason(&mut self, search: &Search, reason: u32) {
        if let Some(place) = clause_of(reason) {
            let label = search.clauses.label(place);
            if label >= FACT && label < EXCITED {
                put_byte(&mut self.facts, label - FACT, 1);
            } else if label < FACT {
                put_byte(&mut self.needed, label, 1);
            }
        }
    }

    /// A literal that was known without a decision is needed.
    fn need_root(&mut self, literal: u32) -> Result<(), AllocError> {
        let variable = variable_of(literal);
        if byte_at(&self.roots, variable) == 0 {
            put_byte(&mut self.roots, variable, 1);
            self.waiting.push(variable)?;
        }
        Ok(())
    }

    fn need_found(&mut self) -> Result<(), AllocError> {
        for k in 0..number_of(self.found.len()) {
            let literal = at(&self.found, k);
            self.need_root(literal)?;
        }
        Ok(())
    }

    /// Finds the literals from which a reason implied what is asked of.
    fn find(&mut self, search: &Search, asked: &Asked, reason: u32) -> Result<(), AllocError> {
        causes(
            &search.cone,
            &search.trail,
            &search.clauses,
            asked,
            &mut self.ways,
            reason,
            &mut self.found,
        )
    }

    /// What a literal that was known without a decision rests on.
    fn need_causes(&mut self, search: &Search, variable: u32) -> Result<(), AllocError> {
        let place = search.trail.place_of(variable);
        let reason = search.trail.reason_of(variable);
        let asked = Asked { variable, place };
        self.need_reason(search, reason);
        self.find(search, &asked, reason)?;
        self.need_found()
    }

    /// All that the literals which wait rest on.
    fn need_all(&mut self, search: &Search) -> Result<(), AllocError> {
        for _count in 0..search.cone.variable_count() {
            let Some(variable) = self.waiting.pop() else {
                break;
            };
            self.need_causes(search, variable)?;
        }
        Ok(())
    }

    /// What a lemma rests on.
    fn need_lemma(&mut self, search: &Search, lemma: u32) -> Result<(), AllocError> {
        let (start, end) = search.lemmas.range(lemma);
        for k in start..end {
            let reason = search.lemmas.reason(k);
            if reason == ROOT {
                self.need_root(search.lemmas.literal(k))?;
            } else {
                self.need_reason(search, reason);
            }
        }
        self.need_reason(search, search.lemmas.last(lemma));
        self.need_all(search)
    }

    /// What the last contradiction rests on.
    fn mark(&mut self, search: &Search, reason: u32) -> Result<(), AllocError> {
        self.need_reason(search, reason);
        self.find(search, &contradicted(), reason)?;
        self.need_found()?;
        self.need_all(search)?;
        for lemma in (0..search.lemmas.count()).rev() {
            if byte_at(&self.needed, lemma) != 0 {
                self.need_lemma(search, lemma)?;
            }
        }
        Ok(())
    }

    /// The step of a lemma or a fact.
    fn step_of(&self, label: u32) -> u32 {
        if label >= FACT {
            at(&self.fact_steps, label - FACT)
        } else {
            at(&self.steps, label)
        }
    }

    /// What the needed facts rest on is needed.
    fn need_facts(&mut self, search: &Search) {
        for fact in (0..search.first.facts.count()).rev() {
            if byte_at(&self.facts, fact) != 0 {
                self.need_rests(search, fact);
            }
        }
    }

    fn need_rests(&mut self, search: &Search, fact: u32) {
        let (start, end) = search.first.facts.range(fact);
        for place in start..end {
            put_byte(&mut self.facts, search.first.facts.rested(place), 1);
        }
    }

    /// The steps of the needed facts.
    fn write_facts(&mut self, alloc: Global, search: &Search) -> Result<(), AllocError> {
        for fact in 0..search.first.facts.count() {
            if byte_at(&self.facts, fact) != 0 {
                put(&mut self.fact_steps, fact, number_of(self.written.len()));
                self.write_fact(alloc, search.first.facts.literal(fact))?;
            }
        }
        Ok(())
    }

    /// A signal of the netlist has its bit, else gates leave nothing.
    fn write_fact(&mut self, alloc: Global, literal: u32) -> Result<(), AllocError> {
        let mut clause = Vec::new(alloc);
        clause.push(Literal {
            signal: SignalId(variable_of(literal)),
            pairs: Pairs::good_is(bit_of(literal) == 1),
        })?;
        self.written
            .push(Step::new(clause, Vec::new(alloc), Reason::Gates))?;
        Ok(())
    }

    fn need_each(&mut self, facts: &[u32]) {
        for fact in facts {
            put_byte(&mut self.facts, *fact, 1);
        }
    }

    /// The steps of what has to differ: else no way is open.
    fn write_passed(&mut self, alloc: Global, passed: &[SignalId]) -> Result<(), AllocError> {
        for signal in passed {
            let mut clause = Vec::new(alloc);
            clause.push(Literal {
                signal: *signal,
                pairs: apart_is(true),
            })?;
            self.written
                .push(Step::new(clause, Vec::new(alloc), Reason::Way))?;
        }
        Ok(())
    }

    /// The last step: gates leave nothing.
    fn push_gates(&mut self, alloc: Global) -> Result<(), AllocError> {
        self.written
            .push(Step::new(Vec::new(alloc), Vec::new(alloc), Reason::Gates))?;
        Ok(())
    }

    /// A reason as a checker knows it.
    fn why(&self, search: &Search, reason: u32) -> Why {
        if let Some(place) = clause_of(reason) {
            return match search.clauses.label(place) {
                POINTS => Why::Said(Reason::Way),
                EXCITED => Why::Known,
                label => Why::Said(Reason::Lemma(self.step_of(label))),
            };
        }
        match search.cone.cause(reason) {
            Cause::Gate { faulty, gate } => match search.cone.shape_in(faulty, gate) {
                Shape::Source => Why::Known,
                _ => Why::ByGates,
            },
            Cause::Three(_) | Cause::Agreeing(_) | Cause::Through(_) => Why::ByGates,
        }
    }

    /// Whether a literal that was known without a decision has no step of its own, and a sweep puts it in.
    fn is_swept(&self, search: &Search, literal: u32) -> bool {
        let reason = search.trail.reason_of(variable_of(literal));
        matches!(self.why(search, reason), Why::ByGates)
    }

    /// Whether what is asked of rests on what a sweep puts in.
    fn rests_on_gates(
        &mut self,
        search: &Search,
        asked: &Asked,
        reason: u32,
    ) -> Result<bool, AllocError> {
        self.find(search, asked, reason)?;
        for k in 0..number_of(self.found.len()) {
            if self.is_swept(search, at(&self.found, k)) {
                return Ok(true);
            }
        }
        Ok(false)
    }

    /// The last reason of the step of a variable that was known without a decision; none where gates tell it or a lemma is that step.
    fn said(&self, search: &Search, variable: u32) -> Option<Reason> {
        if byte_at(&self.roots, variable) == 0 {
            return None;
        }
        let reason = search.trail.reason_of(variable);
        let Why::Said(last) = self.why(search, reason) else {
            return None;
        };
        if matches!(last, Reason::Lemma(_)) && is_alone(search, reason) {
            return None;
        }
        Some(last)
    }

    /// Whether what implied a variable rests on what a sweep puts in.
    fn is_swept_before(&mut self, search: &Search, variable: u32) -> Result<bool, AllocError> {
        let place = search.trail.place_of(variable);
        let reason = search.trail.reason_of(variable);
        self.rests_on_gates(search, &Asked { variable, place }, reason)
    }

    /// The step of a literal, by this reason.
    fn write_alone(
        &mut self,
        alloc: Global,
        search: &Search,
        literal: u32,
        last: Reason,
    ) -> Result<(), AllocError> {
        let rests = self.is_swept_before(search, variable_of(literal))?;
        let mut clause = Vec::new(alloc);
        clause.push(written(&search.cone, literal))?;
        let why = Why::Said(last);
        let moves = self.moves(alloc, search, NOTHING, rests, &why)?;
        self.push_step(clause, moves, why)
    }

    /// The step of a literal that was known without a decision, where it has one.
    fn write_root(
        &mut self,
        alloc: Global,
        search: &Search,
        literal: u32,
    ) -> Result<(), AllocError> {
        match self.said(search, variable_of(literal)) {
            None => Ok(()),
            Some(last) => self.write_alone(alloc, search, literal, last),
        }
    }

    /// The steps of what was known without a decision, up to a place.
    fn write_roots(&mut self, alloc: Global, search: &Search, end: u32) -> Result<(), AllocError> {
        for place in self.root..end {
            self.write_root(alloc, search, search.trail.literal_at(place))?;
        }
        self.root = end;
        Ok(())
    }

    /// The clause of a lemma.
    fn clause(
        &self,
        alloc: Global,
        search: &Search,
        place: u32,
    ) -> Result<Vec<Literal>, AllocError> {
        let mut clause = Vec::new(alloc);
        for k in 0..search.clauses.length(place) {
            clause.push(written(&search.cone, search.clauses.literal(place, k)))?;
        }
        Ok(clause)
    }

    /// Why a lemma took what it took at this place.
    fn why_at(&self, search: &Search, place: u32) -> Why {
        let reason = search.lemmas.reason(place);
        if reason != ROOT {
            return self.why(search, reason);
        }
        if self.is_swept(search, search.lemmas.literal(place)) {
            Why::ByGates
        } else {
            Why::Known
        }
    }

    /// What a lemma took at these places, and what it rests on before: a sweep stands for all that gates imply up to the next literal of another reason,
    /// and up to the last reason; where that is gates, they leave nothing without a sweep before.
    fn moves(
        &self,
        alloc: Global,
        search: &Search,
        places: (u32, u32),
        rests: bool,
        last: &Why,
    ) -> Result<Vec<Move>, AllocError> {
        let mut list = Vec::new(alloc);
        let mut sweeps = rests;
        for place in places.0..places.1 {
            match self.why_at(search, place) {
                Why::Known => {}
                Why::ByGates => sweeps = true,
                Why::Said(reason) => {
                    if sweeps {
                        list.push(Move::Sweep)?;
                    }
                    sweeps = false;
                    let literal = written(&search.cone, search.lemmas.literal(place));
                    list.push(Move::Imply(Implied { literal, reason }))?;
                }
            }
        }
        if sweeps && matches!(last, Why::Said(_)) {
            list.push(Move::Sweep)?;
        }
        Ok(list)
    }

    fn push_step(
        &mut self,
        clause: Vec<Literal>,
        moves: Vec<Move>,
        last: Why,
    ) -> Result<(), AllocError> {
        self.written.push(Step::new(clause, moves, last.reason()))?;
        Ok(())
    }

    /// The step of a lemma.
    fn write_lemma(
        &mut self,
        alloc: Global,
        search: &Search,
        lemma: u32,
    ) -> Result<(), AllocError> {
        let root = search.lemmas.root_length(lemma);
        if root > self.root {
            self.write_roots(alloc, search, root)?;
        }
        let clause = self.clause(alloc, search, search.lemmas.clause(lemma))?;
        let why = self.why(search, search.lemmas.last(lemma));
        let moves = self.moves(alloc, search, search.lemmas.range(lemma), false, &why)?;
        put(&mut self.steps, lemma, number_of(self.written.len()));
        self.push_step(clause, moves, why)
    }

    /// The steps of the lemmas.
    fn write_lemmas(&mut self, alloc: Global, search: &Search) -> Result<(), AllocError> {
        for lemma in 0..search.lemmas.count() {
            if byte_at(&self.needed, lemma) != 0 {
                self.write_lemma(alloc, search, lemma)?;
            }
        }
        Ok(())
    }

    /// All steps.
    fn write(&mut self, alloc: Global, search: &Search, reason: u32) -> Result<(), AllocError> {
        self.need_facts(search);
        self.write_facts(alloc, search)?;
        self.write_lemmas(alloc, search)?;
        let root = search.trail.root_length();
        if root > self.root {
            self.write_roots(alloc, search, root)?;
        }
        let rests = self.rests_on_gates(search, &contradicted(), reason)?;
        let why = self.why(search, reason);
        let moves = self.moves(alloc, search, NOTHING, rests, &why)?;
        self.push_step(Vec::new(alloc), moves, why)
    }
}

/// What is asked of a reason that is contradicted.
fn contradicted() -> Asked {
    Asked {
        variable: NONE,
        place: NONE,
    }
}

/// Whether a clause has one literal, so that its own step says all that it implies.
fn is_alone(search: &Search, reason: u32) -> bool {
    match clause_of(reason) {
        None => false,
        Some(place) => search.clauses.length(place) == 1,
    }
}

/// The refutation of a fault with no open way.
pub(crate) fn no_way(alloc: Global) -> Result<Vec<Step>, AllocError> {
    let mut written = Vec::new(alloc);
    written.push(Step::new(Vec::new(alloc), Vec::new(alloc), Reason::Way))?;
    Ok(written)
}

/// The refutation of a fault of which the first look left nothing: facts, what has to differ, and then gates leave nothing.
pub(crate) fn nothing_left(alloc: Global, search: &mut Search) -> Result<Vec<Step>, AllocError> {
    let mut found = Vec::new(alloc);
    let mut facts = Vec::new(alloc);
    search.first.passed(&search.whole, &mut found, &mut facts)?;
    let mut writing = Writing::new(alloc, search)?;
    writing.need_each(&facts);
    writing.need_facts(search);
    writing.write_facts(alloc, search)?;
    writing.write_passed(alloc, &found)?;
    writing.push_gates(alloc)?;
    Ok(writing.written)
}

/// The refutation of a search that ended with this reason contradicted.
pub(crate) fn refutation_of(
    alloc: Global,
    search: &Search,
    reason: u32,
) -> Result<Vec<Step>, AllocError> {
    let mut writing = Writing::new(alloc, search)?;
    writing.mark(search, reason)?;
    writing.write(alloc, search, reason)?;
    Ok(writing.written)
}
