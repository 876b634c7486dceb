//! What a fault reaches on a way to an observed signal, in the order of evaluation, and the signals that each such way goes through. (Dominators: Kirkland
//! and Mercer, A topological search algorithm for ATPG, 1987.) In the order of evaluation each way goes through a gate exactly where nothing that was
//! reached before it is read behind it.
use flat_netlist::{NONE, Waiting, Whole};
use std::alloc::{AllocError, Global};

/// What a fault reaches.
#[derive(Drop)]
pub struct Reach {
    /// The signals that are reached.
    pub reached: Vec<u32>,
    /// The signals that each way goes through, the last one last.
    pub dominators: Vec<u32>,
    /// The gates that are reached and wait, of so many places.
    waiting: Waiting,
    places: u32,
    /// How far the gates stand that read what was reached so far.
    far: u32,
}

impl Reach {
    pub(crate) fn new(alloc: Global) -> Reach {
        Reach {
            reached: Vec::new(alloc),
            dominators: Vec::new(alloc),
            waiting: Waiting::new(alloc),
            places: 0,
            far: 0,
        }
    }

    /// Nothing is reached.
    pub(crate) fn forget(&mut self) {
        self.reached.clear();
        self.dominators.clear();
    }

    /// Nothing is reached, of this netlist.
    pub(crate) fn begin(&mut self, whole: &Whole) -> Result<(), AllocError> {
        self.forget();
        self.far = 0;
        if self.places != whole.place_count() {
            self.places = whole.place_count();
            self.waiting.begin(self.places)?;
        }
        Ok(())
    }

    fn come_to_readers(&mut self, whole: &Whole, signal: u32) {
        let (start, end) = whole.graph.readers_of(signal);
        for slot in start..end {
            let gate = whole.graph.reader(slot);
            if whole.comes_to_point(gate) {
                self.waiting.add(whole.place(gate));
            }
        }
    }

    /// A signal is reached, behind all that were reached before.
    fn visit(&mut self, whole: &Whole, signal: u32) -> Result<(), AllocError> {
        if !whole.comes_to_point(signal) {
            return Ok(());
        }
        if self.far <= whole.place(signal) {
            self.dominators.push(signal)?;
        }
        self.reached.push(signal)?;
        self.far = self.far.max(whole.far(signal));
        self.come_to_readers(whole, signal);
        Ok(())
    }

    /// All that is reached from a signal on; from nowhere where it is NONE.
    pub(crate) fn go(&mut self, whole: &Whole, start: u32) -> Result<(), AllocError> {
        if start == NONE {
            return Ok(());
        }
        self.visit(whole, start)?;
        for _count in 0..whole.place_count() {
            let Some(place) = self.waiting.take_first() else {
                break;
            };
            self.visit(whole, whole.gate_at(place))?;
        }
        Ok(())
    }
}
