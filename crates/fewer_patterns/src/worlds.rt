//! The settled bits of up to 64 patterns, and those of one of them where a signal's bit is turned.
use cubes::Pattern;
use flat_netlist::{
    Graph, NONE, Shape, Waiting, Whole, byte_at, clear_words, fill_bytes, put_byte, put_word,
    word_at,
};
use netlist::{Core, SignalId};
use std::alloc::{AllocError, Global};

/// The word, or its opposite.
fn opposite_if(word: u64, is_opposite: bool) -> u64 {
    if is_opposite { !word } else { word }
}

/// Under which patterns a signal has the bit.
#[inline(always)]
pub(crate) fn bit_at(words: &[u64], signal: u32, bit: u8) -> u64 {
    opposite_if(word_at(words, signal), bit == 0)
}

/// Under which patterns some pin of a gate has the bit.
pub(crate) fn some_pin_at(graph: &Graph, words: &[u64], gate: u32, bit: u8) -> u64 {
    let (start, end) = graph.pins_of(gate);
    let mut some: u64 = 0;
    for slot in start..end {
        some |= bit_at(words, graph.pin(slot), bit);
    }
    some
}

fn parity(graph: &Graph, words: &[u64], gate: u32) -> u64 {
    let (start, end) = graph.pins_of(gate);
    let mut odd: u64 = 0;
    for slot in start..end {
        odd ^= word_at(words, graph.pin(slot));
    }
    odd
}

/// What a gate gives.
fn word_of(graph: &Graph, words: &[u64], gate: u32) -> u64 {
    match graph.shape(gate) {
        Shape::Source => word_at(words, gate),
        Shape::Controlled { by, to } => opposite_if(some_pin_at(graph, words, gate, by), to == 0),
        Shape::Parity { odd } => opposite_if(parity(graph, words, gate), odd != 0),
    }
}

/// Which patterns the lanes of a word have: every so-many-th, from a place on.
#[derive(Clone, Copy)]
pub(crate) struct Lanes {
    pub first: u32,
    pub step: u32,
    pub count: u32,
}

impl Lanes {
    /// The place of the pattern in a lane.
    pub(crate) fn place(&self, lane: u32) -> u32 {
        self.first.wrapping_add(self.step.wrapping_mul(lane))
    }
}

/// The pattern in a lane, as a word.
#[inline(always)]
fn mask_of(lane: u32) -> u64 {
    1u64 << (lane % 64)
}

/// The bits of a pattern for some signals.
fn take(words: &mut Vec<u64>, mask: u64, signals: &[SignalId], bits: &[bool]) {
    for (signal, bit) in signals.iter().zip(bits.iter()) {
        if *bit {
            let word = word_at(words, signal.0) | mask;
            put_word(words, signal.0, word);
        }
    }
}

/// The bits of the patterns of these lanes.
fn take_all(words: &mut Vec<u64>, core: &Core, patterns: &[Pattern], lanes: Lanes) {
    for lane in 0..lanes.count {
        if let Some(pattern) = patterns.get(lanes.place(lane) as usize) {
            let mask = mask_of(lane);
            take(words, mask, core.netlist().inputs(), pattern.inputs());
            take(words, mask, core.netlist().cells(), pattern.cells());
        }
    }
}

/// Settles what gates give.
fn settle_gates(whole: &Whole, words: &mut Vec<u64>) {
    for place in 1..whole.place_count() {
        let gate = whole.gate_at(place);
        let word = word_of(&whole.graph, words, gate);
        put_word(words, gate, word);
    }
}

/// Settles the netlist under the patterns of these lanes.
pub(crate) fn settle(
    whole: &Whole,
    words: &mut Vec<u64>,
    core: &Core,
    patterns: &[Pattern],
    lanes: Lanes,
) -> Result<(), AllocError> {
    clear_words(words, whole.count())?;
    take_all(words, core, patterns, lanes);
    settle_gates(whole, words);
    Ok(())
}

/// Takes the marks away from these signals, and forgets them.
pub(crate) fn unmark(marks: &mut Vec<u8>, signals: &mut Vec<u32>) {
    for signal in signals.iter() {
        put_byte(marks, *signal, 0);
    }
    signals.clear();
}

/// The gates that read a signal wait, where they come to an observed one.
fn wake_readers(whole: &Whole, waiting: &mut Waiting, signal: u32) {
    let (start, end) = whole.graph.readers_of(signal);
    for slot in start..end {
        let gate = whole.graph.reader(slot);
        if whole.comes_to_point(gate) {
            waiting.add(whole.place(gate));
        }
    }
}

/// By signal its bits under up to 64 patterns, of which one is looked at.
#[derive(Drop)]
pub(crate) struct Worlds {
    pub words: Vec<u64>,
    /// The place of the pattern that is looked at.
    lane: u32,
    /// By signal, 1 where its bit differs under this pattern from what it is with a bit turned; and the signals that differ.
    turned: Vec<u8>,
    changed: Vec<u32>,
    /// Gates that wait, by their places. None does between two calls.
    pub waiting: Waiting,
}

impl Worlds {
    /// For a netlist.
    pub(crate) fn new(alloc: Global, whole: &Whole) -> Result<Worlds, AllocError> {
        let mut waiting = Waiting::new(alloc);
        waiting.begin(whole.place_count())?;
        let mut turned = Vec::new(alloc);
        fill_bytes(&mut turned, whole.count(), 0)?;
        Ok(Worlds {
            words: Vec::new(alloc),
            lane: 0,
            turned,
            changed: Vec::new(alloc),
            waiting,
        })
    }

    /// Looks at the pattern at this place.
    pub(crate) fn look_at(&mut self, lane: u32) {
        self.lane = lane % 64;
    }

    /// The pattern that is looked at, as a word.
    #[inline(always)]
    pub(crate) fn mask(&self) -> u64 {
        mask_of(self.lane)
    }

    #[inline(always)]
    pub(crate) fn good(&self, signal: u32) -> u8 {
        (word_at(&self.words, signal) & self.mask() != 0) as u8
    }

    #[inline(always)]
    pub(crate) fn faulty(&self, signal: u32) -> u8 {
        self.good(signal) ^ byte_at(&self.turned, signal)
    }

    /// Whether the signal's bits differ.
    #[inline(always)]
    pub(crate) fn differs(&self, signal: u32) -> bool {
        byte_at(&self.turned, signal) != 0
    }

    /// Whether some pin of a gate has the bit, with what is turned.
    fn has_faulty_pin(&self, graph: &Graph, gate: u32, bit: u8) -> bool {
        let (start, end) = graph.pins_of(gate);
        for slot in start..end {
            if self.faulty(graph.pin(slot)) == bit {
                return true;
            }
        }
        false
    }

    fn faulty_parity(&self, graph: &Graph, gate: u32) -> u8 {
        let (start, end) = graph.pins_of(gate);
        let mut odd = 0;
        for slot in start..end {
            odd ^= self.faulty(graph.pin(slot));
        }
        odd
    }

    /// What a gate gives with what is turned.
    fn faulty_of(&self, graph: &Graph, gate: u32) -> u8 {
        match graph.shape(gate) {
            Shape::Source => self.faulty(gate),
            Shape::Controlled { by, to } => {
                if self.has_faulty_pin(graph, gate, by) {
                    to
                } else {
                    to ^ 1
                }
            }
            Shape::Parity { odd } => odd ^ self.faulty_parity(graph, gate),
        }
    }

    /// The signal's bit differs.
    fn change(&mut self, whole: &Whole, signal: u32) -> Result<(), AllocError> {
        put_byte(&mut self.turned, signal, 1);
        self.changed.push(signal)?;
        wake_readers(whole, &mut self.waiting, signal);
        Ok(())
    }

    /// The gate, where it changes and is observed.
    fn evaluate(&mut self, whole: &Whole, gate: u32) -> Result<u32, AllocError> {
        if self.faulty_of(&whole.graph, gate) == self.faulty(gate) {
            return Ok(NONE);
        }
        self.change(whole, gate)?;
        Ok(if whole.is_observed(gate) { gate } else { NONE })
    }

    /// Turns the signal's bit and settles what changes, until that comes to an observed signal: this one. NONE where it comes to none.
    pub(crate) fn turn(&mut self, whole: &Whole, signal: u32) -> Result<u32, AllocError> {
        if whole.is_observed(signal) {
            return Ok(signal);
        }
        self.change(whole, signal)?;
        let mut seen = NONE;
        for _place in 0..whole.place_count() {
            let Some(place) = self.waiting.take_first() else {
                break;
            };
            if seen == NONE {
                seen = self.evaluate(whole, whole.gate_at(place))?;
            }
        }
        Ok(seen)
    }

    /// Turns it back.
    pub(crate) fn forget(&mut self) {
        unmark(&mut self.turned, &mut self.changed);
    }
}
