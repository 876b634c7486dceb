//! Why a variable has its bit: the literals from which a reason implied it, or that contradict the reason.
use crate::searching::POINTS;
use crate::ways::Ways;
use flat_netlist::{NONE, Shape};
use implications::{Cause, Clauses, Cone, Trail, clause_of, opposite, variable_of};
use std::alloc::AllocError;

/// What is asked of a reason: the variable that it implied, NONE where it is contradicted, and where that stands among the assigned.
#[derive(Clone, Copy)]
pub(crate) struct Asked {
    pub variable: u32,
    pub place: u32,
}

impl Asked {
    /// Whether a variable was assigned before.
    pub(crate) fn is_before(&self, trail: &Trail, variable: u32) -> bool {
        self.variable == NONE || trail.place_of(variable) < self.place
    }
}

/// Adds the literal of an assigned variable, unless it is asked of.
fn add(
    trail: &Trail,
    asked: &Asked,
    variable: u32,
    found: &mut Vec<u32>,
) -> Result<(), AllocError> {
    if variable != asked.variable {
        found.push(trail.literal_of(variable))?;
    }
    Ok(())
}

/// A pin that controls the gate, from before, if there is one; NONE if it is the stuck line, Some of it if not.
fn controlling_pin(
    cone: &Cone,
    trail: &Trail,
    asked: &Asked,
    faulty: bool,
    gate: u32,
    by: u8,
) -> Option<u32> {
    let (start, end) = cone.pins_of(gate);
    for slot in start..end {
        if cone.pin_value(trail, faulty, slot) == by {
            if cone.is_stuck(faulty, slot) {
                return Some(NONE);
            }
            let variable = cone.variable(faulty, cone.pin(slot));
            if variable != asked.variable && asked.is_before(trail, variable) {
                return Some(variable);
            }
        }
    }
    None
}

/// The pins of a gate, but for the stuck line.
fn add_pins(
    cone: &Cone,
    trail: &Trail,
    asked: &Asked,
    faulty: bool,
    gate: u32,
    found: &mut Vec<u32>,
) -> Result<(), AllocError> {
    let (start, end) = cone.pins_of(gate);
    for slot in start..end {
        if !cone.is_stuck(faulty, slot) {
            add(trail, asked, cone.variable(faulty, cone.pin(slot)), found)?;
        }
    }
    Ok(())
}

/// Of a gate that a pin may control: its output alone where that makes all pins alike, a pin that controls it with the output, or all pins with the
/// output.
fn add_controlled(
    cone: &Cone,
    trail: &Trail,
    asked: &Asked,
    faulty: bool,
    gate: u32,
    by: u8,
    found: &mut Vec<u32>,
) -> Result<(), AllocError> {
    let output = cone.variable(faulty, gate);
    add(trail, asked, output, found)?;
    let is_pin = asked.variable != NONE && asked.variable != output;
    if is_pin && trail.value(asked.variable) != by {
        return Ok(());
    }
    if !is_pin {
        if let Some(pin) = controlling_pin(cone, trail, asked, faulty, gate, by) {
            if pin != NONE {
                found.push(trail.literal_of(pin))?;
            }
            return Ok(());
        }
    }
    add_pins(cone, trail, asked, faulty, gate, found)
}

fn add_gate(
    cone: &Cone,
    trail: &Trail,
    asked: &Asked,
    faulty: bool,
    gate: u32,
    found: &mut Vec<u32>,
) -> Result<(), AllocError> {
    match cone.shape_in(faulty, gate) {
        Shape::Source => Ok(()),
        Shape::Controlled { by, to: _ } => {
            add_controlled(cone, trail, asked, faulty, gate, by, found)
        }
        Shape::Parity { odd: _ } => {
            add(trail, asked, cone.variable(faulty, gate), found)?;
            add_pins(cone, trail, asked, faulty, gate, found)
        }
    }
}

fn add_three(
    cone: &Cone,
    trail: &Trail,
    asked: &Asked,
    number: u32,
    found: &mut Vec<u32>,
) -> Result<(), AllocError> {
    add(trail, asked, cone.variable(false, number), found)?;
    add(trail, asked, cone.variable(true, number), found)?;
    add(trail, asked, cone.difference(number), found)
}

/// That a gate differs, and that its other pins don't.
fn add_agreeing(
    cone: &Cone,
    trail: &Trail,
    asked: &Asked,
    gate: u32,
    found: &mut Vec<u32>,
) -> Result<(), AllocError> {
    add(trail, asked, cone.difference(gate), found)?;
    let (start, end) = cone.pins_of(gate);
    for slot in start..end {
        let pin = cone.pin(slot);
        if pin < cone.reached() {
            add(trail, asked, cone.difference(pin), found)?;
        }
    }
    Ok(())
}

/// A pin that agrees, and controls a gate that differs.
fn blocking_pin(cone: &Cone, trail: &Trail, gate: u32, by: u8) -> u32 {
    let (start, end) = cone.pins_of(gate);
    for slot in start..end {
        let pin = cone.pin(slot);
        let agrees = pin >= cone.reached() || trail.value(cone.difference(pin)) == 0;
        if slot != cone.stuck_slot && agrees && trail.value(pin) == by {
            return pin;
        }
    }
    NONE
}

/// The pin of which a reason of `Through` speaks.
fn pin_of(cone: &Cone, trail: &Trail, asked: &Asked, gate: u32) -> u32 {
    if asked.variable == NONE {
        let Shape::Controlled { by, to: _ } = cone.shape(gate) else {
            return NONE;
        };
        return blocking_pin(cone, trail, gate, by);
    }
    if asked.variable < cone.count() {
        asked.variable
    } else {
        asked.variable.wrapping_sub(cone.difference(0))
    }
}

/// That a gate differs, and that its pin agrees or controls it.
fn add_through(
    cone: &Cone,
    trail: &Trail,
    asked: &Asked,
    gate: u32,
    found: &mut Vec<u32>,
) -> Result<(), AllocError> {
    let pin = pin_of(cone, trail, asked, gate);
    add(trail, asked, cone.difference(gate), found)?;
    add(trail, asked, pin, found)?;
    if pin < cone.reached() {
        add(trail, asked, cone.difference(pin), found)?;
    }
    Ok(())
}

/// The other literals of a clause, which are false.
fn add_clause(
    clauses: &Clauses,
    asked: &Asked,
    place: u32,
    found: &mut Vec<u32>,
) -> Result<(), AllocError> {
    for k in 0..clauses.length(place) {
        let literal = clauses.literal(place, k);
        if variable_of(literal) != asked.variable {
            found.push(opposite(literal))?;
        }
    }
    Ok(())
}

/// The literals from which a reason implied what is asked of.
pub(crate) fn causes(
    cone: &Cone,
    trail: &Trail,
    clauses: &Clauses,
    asked: &Asked,
    ways: &mut Ways,
    reason: u32,
    found: &mut Vec<u32>,
) -> Result<(), AllocError> {
    found.clear();
    if let Some(place) = clause_of(reason) {
        if clauses.label(place) == POINTS {
            return ways.add_stops(cone, trail, asked, found);
        }
        return add_clause(clauses, asked, place, found);
    }
    match cone.cause(reason) {
        Cause::Gate { faulty, gate } => add_gate(cone, trail, asked, faulty, gate, found),
        Cause::Three(number) => add_three(cone, trail, asked, number, found),
        Cause::Agreeing(gate) => add_agreeing(cone, trail, asked, gate, found),
        Cause::Through(gate) => add_through(cone, trail, asked, gate, found),
    }
}
