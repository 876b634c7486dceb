//! The netlist as a whole, made once a room: gates, which signals are observed, the order of evaluation, and how far the gates that read a signal
//! stand.
use crate::arrays::{NONE, at, byte_at, fill, fill_bytes, number_of, put, put_byte};
use crate::graphs::{Graph, Shape, shape_of};
use decisions::{Measures, gate_of, signal_count};
use netlist::{Core, SignalId};
use std::alloc::{AllocError, Global};

/// A netlist with its order.
#[derive(Drop)]
pub struct Whole {
    pub graph: Graph,
    seen: Vec<u8>,
    /// The gates in the order of evaluation, from place 1 on; and by signal its place, 0 for inputs and cells.
    order: Vec<u32>,
    places: Vec<u32>,
    /// By signal: the last place of a gate that reads it and comes to an observed signal; NONE where it is observed itself, 0 where it comes to none.
    far: Vec<u32>,
    /// By signal, what it costs to give it a 0, and a 1. (Goldstein, Controllability/observability analysis of digital circuits, 1979.)
    zero_costs: Vec<u32>,
    one_costs: Vec<u32>,
}

impl Whole {
    /// Of no netlist yet.
    pub fn new(alloc: Global) -> Whole {
        Whole {
            graph: Graph::new(alloc),
            seen: Vec::new(alloc),
            order: Vec::new(alloc),
            places: Vec::new(alloc),
            far: Vec::new(alloc),
            zero_costs: Vec::new(alloc),
            one_costs: Vec::new(alloc),
        }
    }

    /// How many signals there are.
    #[inline(always)]
    pub fn count(&self) -> u32 {
        self.graph.count()
    }

    /// How many places there are, with 0.
    pub fn place_count(&self) -> u32 {
        number_of(self.order.len())
    }

    /// The gate at a place.
    pub fn gate_at(&self, place: u32) -> u32 {
        at(&self.order, place)
    }

    /// The place of a gate; 0 for an input or a cell.
    pub fn place(&self, signal: u32) -> u32 {
        at(&self.places, signal)
    }

    /// Whether an output or a cell reads a signal.
    pub fn is_observed(&self, signal: u32) -> bool {
        byte_at(&self.seen, signal) != 0
    }

    /// The last place of a gate that reads it and comes to an observed signal.
    pub fn far(&self, signal: u32) -> u32 {
        at(&self.far, signal)
    }

    /// Whether a difference at the signal may come to an observed one.
    #[inline(always)]
    pub fn comes_to_point(&self, signal: u32) -> bool {
        self.far(signal) != 0
    }

    /// What a cell reads is observed.
    fn see_pins(&mut self, core: &Core, signal: SignalId) {
        if signal.index() >= signal_count(core) {
            return;
        }
        for pin in core.netlist().pins(signal) {
            put_byte(&mut self.seen, pin.0, 1);
        }
    }

    /// A signal with its pins.
    fn push_signal(&mut self, core: &Core, signal: SignalId) -> Result<(), AllocError> {
        let Some((kind, pins)) = gate_of(core, signal) else {
            self.see_pins(core, signal);
            return self.graph.push_shape(Shape::Source);
        };
        for pin in pins {
            self.graph.push_pin(pin.0)?;
        }
        self.graph.push_shape(shape_of(kind))
    }

    fn see_outputs(&mut self, core: &Core) {
        for output in core.netlist().outputs() {
            put_byte(&mut self.seen, output.0, 1);
        }
    }

    fn take_order(&mut self, core: &Core) -> Result<(), AllocError> {
        self.order.clear();
        self.order.push(NONE)?;
        for gate in core.order() {
            put(&mut self.places, gate.0, number_of(self.order.len()));
            self.order.push(gate.0)?;
        }
        Ok(())
    }

    /// How far the gates that read a signal stand, of which this is known.
    fn find_far(&mut self, signal: u32) {
        let mut far = if self.is_observed(signal) { NONE } else { 0 };
        let (start, end) = self.graph.readers_of(signal);
        for slot in start..end {
            let gate = self.graph.reader(slot);
            if self.comes_to_point(gate) {
                far = far.max(self.place(gate));
            }
        }
        put(&mut self.far, signal, far);
    }

    fn find_far_of_gates(&mut self) {
        for place in (1..self.place_count()).rev() {
            let gate = self.gate_at(place);
            self.find_far(gate);
        }
    }

    fn find_far_of_sources(&mut self) {
        for signal in 0..self.count() {
            if self.place(signal) == 0 {
                self.find_far(signal);
            }
        }
    }

    /// What it costs to give a signal a bit.
    #[inline(always)]
    pub fn cost(&self, signal: u32, bit: u8) -> u32 {
        if bit == 1 {
            at(&self.one_costs, signal)
        } else {
            at(&self.zero_costs, signal)
        }
    }

    fn take_costs(&mut self, alloc: Global, core: &Core) -> Result<(), AllocError> {
        let measures = Measures::of(alloc, core)?;
        self.zero_costs.clear();
        self.one_costs.clear();
        for signal in 0..self.count() {
            self.zero_costs
                .push(measures.cost(SignalId(signal), false))?;
            self.one_costs.push(measures.cost(SignalId(signal), true))?;
        }
        Ok(())
    }

    fn take_netlist(&mut self, alloc: Global, core: &Core) -> Result<(), AllocError> {
        let count = number_of(signal_count(core));
        fill_bytes(&mut self.seen, count, 0)?;
        fill(&mut self.places, count, 0)?;
        fill(&mut self.far, count, 0)?;
        self.graph.begin()?;
        for signal in 0..count {
            self.push_signal(core, SignalId(signal))?;
        }
        self.see_outputs(core);
        self.graph.sort_readers()?;
        self.take_order(core)?;
        self.take_costs(alloc, core)?;
        self.find_far_of_gates();
        self.find_far_of_sources();
        Ok(())
    }

    /// The netlist, unless it was taken before.
    pub fn begin(&mut self, alloc: Global, core: &Core) -> Result<(), AllocError> {
        if self.count() == number_of(signal_count(core)) && self.place_count() != 0 {
            return Ok(());
        }
        self.take_netlist(alloc, core)
    }
}

/// The signal at a pin.
pub fn driver(core: &Core, gate: SignalId, k: u32) -> SignalId {
    if gate.index() >= signal_count(core) {
        return gate;
    }
    match core.netlist().pins(gate).get(k as usize) {
        None => gate,
        Some(pin) => *pin,
    }
}
