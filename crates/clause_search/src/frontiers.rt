//! Decisions by the netlist, while a search has met few contradictions: of the gates that a difference has come to and may go through, the one that is nearest to
//! the observed points is to differ; once an observed point differs, what its two bits rest on is looked at back from it, and what isn't made by pins yet
//! gets a pin that makes it. Once all of it is made there is a test, and the other sources may have any bits. (The D-frontier and the J-frontier: Roth, Diagnosis of
//! automata failures, 1966.)
use crate::meetings::Met;
use flat_netlist::{NONE, Shape, Whole};
use implications::{Cone, Trail, UNSET, literal};
use std::alloc::{AllocError, Global};

/// What to do next.
#[derive(Clone, Copy)]
pub(crate) enum Wish {
    Decide(u32),
    /// There is a test.
    Done,
    /// The netlist doesn't tell.
    Nothing,
}

/// The variables that a walk has met.
#[derive(Drop)]
pub(crate) struct Walk {
    met: Met,
}

impl Walk {
    pub(crate) fn new(alloc: Global) -> Walk {
        Walk {
            met: Met::new(alloc),
        }
    }

    pub(crate) fn begin(&mut self, count: u32) -> Result<(), AllocError> {
        self.met.begin(count)
    }

    /// Whether the last walk met a variable.
    pub(crate) fn has_met(&self, variable: u32) -> bool {
        self.met.has(variable)
    }

    /// Of the gates that read a signal: those that differ are met, and of those that may the first one is the best.
    fn meet_readers(
        &mut self,
        cone: &Cone,
        trail: &Trail,
        number: u32,
        best: u32,
    ) -> Result<u32, AllocError> {
        let mut best = best;
        let (start, end) = cone.readers_of(number);
        for slot in start..end {
            let gate = cone.reader(slot);
            let value = trail.value(cone.difference(gate));
            if value == 1 {
                self.met.meet(cone.difference(gate))?;
            } else if value == UNSET && gate < best {
                best = gate;
            }
        }
        Ok(best)
    }

    /// The gate nearest to the observed points that a difference may go through next; NONE if there is none.
    fn nearest(&mut self, cone: &Cone, trail: &Trail) -> Result<u32, AllocError> {
        self.met.forget();
        self.met.meet(cone.difference(cone.site))?;
        let mut best = NONE;
        for k in 0..cone.reached() {
            if k >= self.met.count() {
                break;
            }
            let number = self.met.get(k).wrapping_sub(cone.difference(0));
            best = self.meet_readers(cone, trail, number, best)?;
        }
        Ok(best)
    }

    /// A pin that controls a gate is met; if there is none, one that has no value is to.
    fn control(
        &mut self,
        whole: &Whole,
        cone: &Cone,
        trail: &Trail,
        faulty: bool,
        gate: u32,
        by: u8,
    ) -> Result<Option<u32>, AllocError> {
        let mut open = None;
        let mut least = NONE;
        let (start, end) = cone.pins_of(gate);
        for slot in start..end {
            let value = cone.pin_value(trail, faulty, slot);
            let variable = cone.variable(faulty, cone.pin(slot));
            if value == by {
                if !cone.is_stuck(faulty, slot) {
                    self.met.meet(variable)?;
                }
                return Ok(None);
            }
            if value == UNSET {
                let cost = whole.cost(cone.signal(cone.pin(slot)).0, by);
                if open.is_none() || cost < least {
                    least = cost;
                    open = Some(literal(variable, by));
                }
            }
        }
        Ok(open)
    }

    /// All pins of a gate are met; one that has no value is to have the bit that it had last.
    fn meet_pins(
        &mut self,
        cone: &Cone,
        trail: &Trail,
        faulty: bool,
        gate: u32,
    ) -> Result<Option<u32>, AllocError> {
        let (start, end) = cone.pins_of(gate);
        for slot in start..end {
            let variable = cone.variable(faulty, cone.pin(slot));
            if cone.pin_value(trail, faulty, slot) == UNSET {
                return Ok(Some(literal(variable, trail.saved_bit(variable) & 1)));
            }
            if !cone.is_stuck(faulty, slot) {
                self.met.meet(variable)?;
            }
        }
        Ok(None)
    }

    /// What a variable's bit rests on is met, or what it could rest on is wished.
    fn justify_one(
        &mut self,
        whole: &Whole,
        cone: &Cone,
        trail: &Trail,
        variable: u32,
    ) -> Result<Option<u32>, AllocError> {
        let count = cone.count();
        let faulty = variable >= count;
        let gate = if faulty { variable - count } else { variable };
        match cone.shape_in(faulty, gate) {
            Shape::Source => Ok(None),
            Shape::Controlled { by, to } => {
                if trail.value(variable) == to {
                    self.control(whole, cone, trail, faulty, gate, by)
                } else {
                    self.meet_pins(cone, trail, faulty, gate)
                }
            }
            Shape::Parity { odd: _ } => self.meet_pins(cone, trail, faulty, gate),
        }
    }

    /// Looks at all that the bits of a signal rest on.
    fn justify(
        &mut self,
        whole: &Whole,
        cone: &Cone,
        trail: &Trail,
        number: u32,
    ) -> Result<Wish, AllocError> {
        self.met.forget();
        self.met.meet(cone.variable(false, number))?;
        self.met.meet(cone.variable(true, number))?;
        for k in 0..cone.variable_count() {
            if k >= self.met.count() {
                break;
            }
            let variable = self.met.get(k);
            if let Some(wish) = self.justify_one(whole, cone, trail, variable)? {
                return Ok(Wish::Decide(wish));
            }
        }
        Ok(Wish::Done)
    }

    /// The gate that is nearest to the observed points is to differ.
    fn drive(&mut self, cone: &Cone, trail: &Trail) -> Result<Wish, AllocError> {
        let gate = self.nearest(cone, trail)?;
        if gate == NONE {
            return Ok(Wish::Nothing);
        }
        Ok(Wish::Decide(literal(cone.difference(gate), 1)))
    }

    /// What to do next; whether a difference is to be driven where no observed signal differs.
    pub(crate) fn wish(
        &mut self,
        whole: &Whole,
        cone: &Cone,
        trail: &Trail,
        drives: bool,
    ) -> Result<Wish, AllocError> {
        let point = if cone.is_point {
            cone.driver
        } else {
            differing_point(cone, trail)
        };
        if point != NONE {
            return self.justify(whole, cone, trail, point);
        }
        if drives {
            return self.drive(cone, trail);
        }
        Ok(Wish::Nothing)
    }
}

/// An observed signal that differs, and whose bits are known; NONE if there is none.
fn differing_point(cone: &Cone, trail: &Trail) -> u32 {
    for k in 0..cone.point_count() {
        let point = cone.point(k);
        if trail.value(cone.difference(point)) == 1 {
            return point;
        }
    }
    NONE
}
