//! What is carried from one fault to the next: by signal of the netlist, how much it took part in the last contradictions, and, where both bits cost as much, the
//! bit that it had last. Faults that are searched for in a row mostly lie close together, and what was hard for one is hard for the next.
use crate::queues::Queue;
use decisions::{mixed, signal_count};
use flat_netlist::{Whole, byte_at, number_of};
use implications::{Cone, Trail};
use netlist::Core;
use std::alloc::{AllocError, Global};

/// What weighs less than this part of a contradiction is forgotten.
const LEAST: f64 = 1e-6;

#[derive(Drop)]
pub(crate) struct Habits {
    weights: Vec<f64>,
    bits: Vec<u8>,
}

impl Habits {
    pub(crate) fn new(alloc: Global) -> Habits {
        Habits {
            weights: Vec::new(alloc),
            bits: Vec::new(alloc),
        }
    }

    /// Nothing is carried on.
    pub(crate) fn forget(&mut self) {
        self.weights.clear();
        self.bits.clear();
    }

    /// At first each signal has a bit by a hash.
    pub(crate) fn begin(&mut self, core: &Core) -> Result<(), AllocError> {
        let count = number_of(signal_count(core));
        if number_of(self.bits.len()) == count {
            return Ok(());
        }
        self.weights.clear();
        self.bits.clear();
        for signal in 0..count {
            self.weights.push(0.0)?;
            self.bits.push((mixed(u64::from(signal)) & 1) as u8)?;
        }
        Ok(())
    }

    fn weight(&self, signal: u32) -> f64 {
        match self.weights.get(signal as usize) {
            None => 0.0,
            Some(weight) => *weight,
        }
    }

    /// The bit that a signal is to have first: the cheaper one.
    fn first_bit(&self, whole: &Whole, signal: u32) -> u8 {
        let zero = whole.cost(signal, 0);
        let one = whole.cost(signal, 1);
        if zero == one {
            return byte_at(&self.bits, signal);
        }
        u8::from(one < zero)
    }

    /// One signal's, for the search that begins.
    fn lend_one(
        &self,
        whole: &Whole,
        cone: &Cone,
        trail: &mut Trail,
        queue: &mut Queue,
        number: u32,
    ) {
        let signal = cone.signal(number).0;
        let bit = self.first_bit(whole, signal);
        queue.weigh(number, self.weight(signal));
        trail.prefer(number, bit);
        if number < cone.reached() {
            trail.prefer(cone.variable(true, number), bit);
            trail.prefer(cone.difference(number), 1);
        }
    }

    /// To the search that begins.
    pub(crate) fn lend(&self, whole: &Whole, cone: &Cone, trail: &mut Trail, queue: &mut Queue) {
        for number in 0..cone.count() {
            self.lend_one(whole, cone, trail, queue, number);
        }
    }

    /// One signal's, from the search that has ended.
    fn keep_one(&mut self, cone: &Cone, trail: &Trail, queue: &Queue, number: u32) {
        let place = cone.signal(number).index();
        let weight = queue.share(number);
        if place < self.weights.len() {
            self.weights[place] = if weight < LEAST { 0.0 } else { weight };
        }
        if place < self.bits.len() {
            self.bits[place] = trail.last_bit(number);
        }
    }

    /// From the search that has ended.
    pub(crate) fn keep(&mut self, cone: &Cone, trail: &Trail, queue: &Queue) {
        for number in 0..cone.count() {
            self.keep_one(cone, trail, queue, number);
        }
    }
}
