//! What was learned of bits without a fault, and so holds under each: a signal has one bit only, since gates leave nothing where it has the other. It is kept from
//! fault to fault; a refutation that uses it says it as a step of its own, behind those that it rests on.
use crate::literals::variable_of;
use flat_netlist::{NONE, at, fill, number_of, put};
use std::alloc::{AllocError, Global};

/// The facts, with what each rests on.
#[derive(Drop)]
pub struct Facts {
    /// By fact, its signal with its bit, and where those that it rests on end.
    literals: Vec<u32>,
    ends: Vec<u32>,
    rests: Vec<u32>,
    /// By signal, its fact; NONE where there is none.
    numbers: Vec<u32>,
}

impl Facts {
    pub(crate) fn new(alloc: Global) -> Facts {
        Facts {
            literals: Vec::new(alloc),
            ends: Vec::new(alloc),
            rests: Vec::new(alloc),
            numbers: Vec::new(alloc),
        }
    }

    /// There is none, of so many signals.
    pub(crate) fn begin(&mut self, count: u32) -> Result<(), AllocError> {
        self.literals.clear();
        self.ends.clear();
        self.rests.clear();
        fill(&mut self.numbers, count, NONE)
    }

    /// How many there are.
    pub fn count(&self) -> u32 {
        number_of(self.literals.len())
    }

    /// The literal of a fact, of a signal of the netlist.
    pub fn literal(&self, fact: u32) -> u32 {
        at(&self.literals, fact)
    }

    /// The fact of a signal.
    pub fn of(&self, signal: u32) -> Option<u32> {
        match self.numbers.get(signal as usize) {
            None => None,
            Some(number) => { if *number == NONE { None } else { Some(*number) } }
        }
    }

    /// The next fact rests on another one.
    pub(crate) fn rest(&mut self, fact: u32) -> Result<(), AllocError> {
        self.rests.push(fact)?;
        Ok(())
    }

    /// Another fact.
    pub(crate) fn add(&mut self, literal: u32) -> Result<(), AllocError> {
        let number = self.count();
        self.literals.push(literal)?;
        self.ends.push(number_of(self.rests.len()))?;
        put(&mut self.numbers, variable_of(literal), number);
        Ok(())
    }

    /// Where what a fact rests on begins and ends.
    pub fn range(&self, fact: u32) -> (u32, u32) {
        let start = if fact == 0 {
            0
        } else {
            at(&self.ends, fact - 1)
        };
        (start, at(&self.ends, fact))
    }

    /// One that another rests on.
    pub fn rested(&self, place: u32) -> u32 {
        at(&self.rests, place)
    }
}
