//! The part of a netlist that a fault's search takes part in: the observed signals that the fault reaches, and all that these read. It is numbered
//! anew for each fault, first what the fault reaches and last the sources, so that all that a search touches lies close together.
use decisions::gate_of;
use flat_netlist::{
    Graph, NONE, Shape, Whole, at, byte_at, driver, fill, fill_bytes, number_of, put, put_byte,
};
use netlist::{Core, Fault, Line, SignalId};
use std::alloc::{AllocError, Global};

/// The fault reaches the signal.
const REACHED: u8 = 1;
/// It takes part.
const WITHIN: u8 = 2;
/// It takes part, and has its value from outside.
const SOURCE: u8 = 4;

/// The signals that take part, with their gates.
#[derive(Drop)]
pub struct Cone {
    /// By signal of the netlist.
    marks: Vec<u8>,
    numbers: Vec<u32>,
    /// Signals of the netlist: those that the fault reaches, those of them that are observed, and those that take part, as they are found.
    forward: Vec<u32>,
    observed: Vec<u32>,
    backward: Vec<u32>,
    /// The signals that take part, by their numbers here; all that follows speaks of these.
    signals: Vec<u32>,
    reached: u32,
    inner: u32,
    part: Graph,
    /// The gate or source whose stem is stuck, and the place among the pins that is; NONE where it isn't such a fault.
    pub stuck_stem: u32,
    pub stuck_slot: u32,
    /// The signal from which the fault goes on; NONE where its line is a point alone.
    pub site: u32,
    pub is_point: bool,
    /// What comes onto its line.
    pub driver: u32,
    pub stuck_bit: u8,
}

impl Cone {
    /// Of no fault yet.
    pub fn new(alloc: Global) -> Cone {
        Cone {
            marks: Vec::new(alloc),
            numbers: Vec::new(alloc),
            forward: Vec::new(alloc),
            observed: Vec::new(alloc),
            backward: Vec::new(alloc),
            signals: Vec::new(alloc),
            reached: 0,
            inner: 0,
            part: Graph::new(alloc),
            stuck_stem: NONE,
            stuck_slot: NONE,
            site: NONE,
            is_point: false,
            driver: NONE,
            stuck_bit: 0,
        }
    }

    /// How many signals take part.
    #[inline(always)]
    pub fn count(&self) -> u32 {
        number_of(self.signals.len())
    }

    /// How many of them the fault reaches: these have the first numbers.
    #[inline(always)]
    pub fn reached(&self) -> u32 {
        self.reached
    }

    /// From here on come the sources that the fault doesn't reach.
    #[inline(always)]
    pub fn inner(&self) -> u32 {
        self.inner
    }

    /// The signal of the netlist.
    pub fn signal(&self, number: u32) -> SignalId {
        SignalId(at(&self.signals, number))
    }

    /// The number of a signal that takes part.
    pub fn number(&self, signal: SignalId) -> Option<u32> {
        match self.numbers.get(signal.index()) {
            None => None,
            Some(number) => { if *number == NONE { None } else { Some(*number) } }
        }
    }

    /// What a gate computes.
    #[inline(always)]
    pub fn shape(&self, number: u32) -> Shape {
        self.part.shape(number)
    }

    /// Where the pins of a gate begin and end.
    #[inline(always)]
    pub fn pins_of(&self, number: u32) -> (u32, u32) {
        self.part.pins_of(number)
    }

    /// The signal at a slot of the pins.
    #[inline(always)]
    pub fn pin(&self, slot: u32) -> u32 {
        self.part.pin(slot)
    }

    /// Where the gates that read a signal begin and end.
    #[inline(always)]
    pub fn readers_of(&self, number: u32) -> (u32, u32) {
        self.part.readers_of(number)
    }

    /// The gate at a slot of the readers.
    #[inline(always)]
    pub fn reader(&self, slot: u32) -> u32 {
        self.part.reader(slot)
    }

    /// How many observed signals the fault reaches.
    pub fn point_count(&self) -> u32 {
        number_of(self.observed.len())
    }

    /// One of them.
    pub fn point(&self, k: u32) -> u32 {
        at(&self.numbers, at(&self.observed, k))
    }

    /// Takes back what the last fault left.
    fn clear(&mut self, whole: &Whole) -> Result<(), AllocError> {
        self.clear_forward();
        self.clear_backward();
        if number_of(self.marks.len()) != whole.count() {
            fill_bytes(&mut self.marks, whole.count(), 0)?;
            fill(&mut self.numbers, whole.count(), NONE)?;
        }
        self.forward.clear();
        self.observed.clear();
        self.backward.clear();
        self.signals.clear();
        self.reached = 0;
        self.inner = 0;
        self.stuck_stem = NONE;
        self.stuck_slot = NONE;
        self.site = NONE;
        self.is_point = false;
        self.driver = NONE;
        Ok(())
    }

    fn clear_forward(&mut self) {
        for signal in &self.forward {
            put_byte(&mut self.marks, *signal, 0);
        }
    }

    fn clear_backward(&mut self) {
        for signal in &self.backward {
            put_byte(&mut self.marks, *signal, 0);
            put(&mut self.numbers, *signal, NONE);
        }
    }

    fn has(&self, signal: u32, mark: u8) -> bool {
        byte_at(&self.marks, signal) & mark != 0
    }

    fn mark(&mut self, signal: u32, mark: u8) {
        let marks = byte_at(&self.marks, signal) | mark;
        put_byte(&mut self.marks, signal, marks);
    }

    /// The fault reaches a signal.
    fn reach(&mut self, whole: &Whole, signal: u32) -> Result<(), AllocError> {
        if !self.has(signal, REACHED) {
            self.mark(signal, REACHED);
            self.forward.push(signal)?;
            if whole.is_observed(signal) {
                self.observed.push(signal)?;
            }
        }
        Ok(())
    }

    /// All that the fault reaches on a way to an observed signal.
    fn go_forward(&mut self, whole: &Whole, reached: &[u32]) -> Result<(), AllocError> {
        for signal in reached {
            self.reach(whole, *signal)?;
        }
        Ok(())
    }

    /// A signal takes part.
    fn take(&mut self, signal: u32) -> Result<(), AllocError> {
        if !self.has(signal, WITHIN) {
            self.mark(signal, WITHIN);
            self.backward.push(signal)?;
        }
        Ok(())
    }

    fn take_observed(&mut self) -> Result<(), AllocError> {
        for k in 0..self.point_count() {
            let signal = at(&self.observed, k);
            self.take(signal)?;
        }
        Ok(())
    }

    fn take_pins(&mut self, whole: &Whole, signal: u32) -> Result<(), AllocError> {
        if matches!(whole.graph.shape(signal), Shape::Source) {
            self.mark(signal, SOURCE);
        }
        let (start, end) = whole.graph.pins_of(signal);
        for slot in start..end {
            let pin = whole.graph.pin(slot);
            self.take(pin)?;
        }
        Ok(())
    }

    /// All that is read by what takes part.
    fn go_backward(&mut self, whole: &Whole) -> Result<(), AllocError> {
        for k in 0..whole.count() {
            if k >= number_of(self.backward.len()) {
                break;
            }
            let signal = at(&self.backward, k);
            self.take_pins(whole, signal)?;
        }
        Ok(())
    }

    /// Numbers for the signals that take part and have these marks.
    fn give_numbers(&mut self, wanted: u8) -> Result<(), AllocError> {
        for k in 0..number_of(self.backward.len()) {
            let signal = at(&self.backward, k);
            if byte_at(&self.marks, signal) & (REACHED | SOURCE) == wanted {
                let number = self.count();
                put(&mut self.numbers, signal, number);
                self.signals.push(signal)?;
            }
        }
        Ok(())
    }

    fn push_part(&mut self, whole: &Whole, signal: u32) -> Result<(), AllocError> {
        let (start, end) = whole.graph.pins_of(signal);
        for slot in start..end {
            let pin = at(&self.numbers, whole.graph.pin(slot));
            self.part.push_pin(pin)?;
        }
        self.part.push_shape(whole.graph.shape(signal))
    }

    /// The gates that take part, and their pins.
    fn push_parts(&mut self, whole: &Whole) -> Result<(), AllocError> {
        self.part.begin()?;
        for k in 0..self.count() {
            let signal = at(&self.signals, k);
            self.push_part(whole, signal)?;
        }
        self.part.sort_readers()
    }

    /// A fault whose line is observed takes what comes onto it.
    fn start(&mut self, core: &Core, fault: &Fault) -> Result<(), AllocError> {
        self.stuck_bit = u8::from(fault.value);
        match &fault.line {
            Line::Stem(_) => Ok(()),
            Line::Out(x) => self.take(x.0),
            Line::Pin(z, k) => {
                if gate_of(core, *z).is_some() {
                    return Ok(());
                }
                self.take(driver(core, *z, *k).0)
            }
        }
    }

    fn number_or_none(&self, signal: SignalId) -> u32 {
        match self.number(signal) {
            None => NONE,
            Some(number) => number,
        }
    }

    /// Where the fault acts, by the numbers here.
    fn find_site(&mut self, core: &Core, fault: &Fault) {
        match &fault.line {
            Line::Stem(x) => {
                self.site = self.number_or_none(*x);
                self.stuck_stem = self.site;
                self.driver = self.site;
            }
            Line::Out(x) => {
                self.is_point = true;
                self.driver = self.number_or_none(*x);
            }
            Line::Pin(z, k) => {
                self.driver = self.number_or_none(driver(core, *z, *k));
                self.is_point = gate_of(core, *z).is_none();
                if !self.is_point {
                    self.site = self.number_or_none(*z);
                    self.stuck_slot = self.pins_of(self.site).0.wrapping_add(*k);
                }
            }
        }
    }

    /// The part of the netlist for a fault, which reaches these signals.
    pub fn begin(
        &mut self,
        core: &Core,
        whole: &Whole,
        fault: &Fault,
        reached: &[u32],
    ) -> Result<(), AllocError> {
        self.clear(whole)?;
        self.start(core, fault)?;
        self.go_forward(whole, reached)?;
        self.take_observed()?;
        self.go_backward(whole)?;
        self.give_numbers(REACHED)?;
        self.give_numbers(REACHED | SOURCE)?;
        self.reached = self.count();
        self.give_numbers(0)?;
        self.inner = self.count();
        self.give_numbers(SOURCE)?;
        self.push_parts(whole)?;
        self.find_site(core, fault);
        Ok(())
    }
}
