//! Which bits of patterns the detection of faults rests on, by tracing back from where they are detected, for up to 64 patterns at once.
//!
//! At a gate whose bit a pin decides, one such pin is followed, that which is followed anyway or else the one that costs least; at others all are.
//! As the patterns are they are traced together, in one pass from the last gate to the first, once it is known what the faults left to each need.
//! A fault comes to the head of its fanout-free region where all other pins on its way are followed; from there on it is the same for all faults of
//! the region: the head's bit is turned once a pattern, and traced back in both worlds from the first point that sees it. In the world where it is
//! turned, what stands before the head in the order of evaluation is as it was.
use crate::ways::{mark, way_of};
use crate::worlds::{Lanes, Worlds, bit_at, settle, some_pin_at, unmark};
use cubes::Pattern;
use flat_netlist::{
    Graph, NONE, Shape, Whole, byte_at, clear_words, fill_bytes, put_byte, word_at,
};
use netlist::{Core, Line, SignalId};
use std::alloc::{AllocError, Global};

/// What is followed.
#[derive(Drop)]
struct Marks {
    /// By signal, under which patterns its bit is followed.
    followed: Vec<u64>,
    /// By signal, under which patterns a difference comes from it to the head of its region.
    open: Vec<u64>,
    /// By signal, whether it is followed with the head turned; and the signals that are.
    turned: Vec<u8>,
    touched: Vec<u32>,
}

/// How many of these signals' bits the pattern of a mask needs.
fn needed_of(followed: &[u64], signals: &[SignalId], mask: u64) -> usize {
    let mut count: usize = 0;
    for signal in signals {
        if word_at(followed, signal.0) & mask != 0 {
            count = count.wrapping_add(1);
        }
    }
    count
}

fn follow_each(followed: &mut Vec<u64>, signals: &[SignalId], mask: u64) {
    for signal in signals {
        mark(followed, signal.0, mask);
    }
}

/// A signal is followed with the head turned.
fn touch(
    worlds: &mut Worlds,
    marks: &mut Marks,
    signal: u32,
    place: u32,
) -> Result<(), AllocError> {
    put_byte(&mut marks.turned, signal, 1);
    marks.touched.push(signal)?;
    worlds.waiting.add(place);
    Ok(())
}

/// Follows the bit that a signal has with the head turned. A signal before the head has its good bit.
fn follow_turned(
    whole: &Whole,
    worlds: &mut Worlds,
    marks: &mut Marks,
    signal: u32,
    head: u32,
) -> Result<(), AllocError> {
    if signal == head || byte_at(&marks.turned, signal) != 0 {
        return Ok(());
    }
    let place = whole.place(signal);
    if place == 0 || place < whole.place(head) {
        mark(&mut marks.followed, signal, worlds.mask());
        return Ok(());
    }
    touch(worlds, marks, signal, place)
}

/// Whether a signal is followed anyway, with the head turned.
fn is_followed(worlds: &Worlds, marks: &Marks, signal: u32, head: u32) -> bool {
    signal == head
        || byte_at(&marks.turned, signal) != 0
        || word_at(&marks.followed, signal) & worlds.mask() != 0 && !worlds.differs(signal)
}

/// What it costs to follow a pin with this bit.
fn cost(whole: &Whole, worlds: &Worlds, marks: &Marks, signal: u32, bit: u8, head: u32) -> u32 {
    if is_followed(worlds, marks, signal, head) {
        return 0;
    }
    whole.cost(signal, bit).saturating_add(1)
}

/// The pin that costs least, of those that decide the gate by this bit with the head turned.
fn deciding(whole: &Whole, worlds: &Worlds, marks: &Marks, gate: u32, by: u8, head: u32) -> u32 {
    let graph = &whole.graph;
    let (start, end) = graph.pins_of(gate);
    let (mut best, mut least) = (NONE, NONE);
    for slot in start..end {
        let pin = graph.pin(slot);
        if worlds.faulty(pin) == by {
            let cost = cost(whole, worlds, marks, pin, by, head);
            if best == NONE || cost < least {
                (best, least) = (pin, cost);
            }
        }
    }
    best
}

/// Follows all pins of a gate, with the head turned.
fn follow_all(
    whole: &Whole,
    worlds: &mut Worlds,
    marks: &mut Marks,
    gate: u32,
    head: u32,
) -> Result<(), AllocError> {
    let graph = &whole.graph;
    let (start, end) = graph.pins_of(gate);
    for slot in start..end {
        follow_turned(whole, worlds, marks, graph.pin(slot), head)?;
    }
    Ok(())
}

/// Follows what a gate's bit rests on, with the head turned.
fn follow_pins(
    whole: &Whole,
    worlds: &mut Worlds,
    marks: &mut Marks,
    gate: u32,
    head: u32,
) -> Result<(), AllocError> {
    let pin = match whole.graph.shape(gate) {
        Shape::Controlled { by, .. } => deciding(whole, worlds, marks, gate, by, head),
        _ => NONE,
    };
    if pin == NONE {
        return follow_all(whole, worlds, marks, gate, head);
    }
    follow_turned(whole, worlds, marks, pin, head)
}

/// A difference needs both of its bits.
fn trace_turned(
    whole: &Whole,
    worlds: &mut Worlds,
    marks: &mut Marks,
    head: u32,
) -> Result<(), AllocError> {
    for _place in 0..whole.place_count() {
        let Some(place) = worlds.waiting.take_last() else {
            break;
        };
        let gate = whole.gate_at(place);
        if worlds.differs(gate) {
            mark(&mut marks.followed, gate, worlds.mask());
        }
        follow_pins(whole, worlds, marks, gate, head)?;
    }
    Ok(())
}

/// Follows the point that sees the difference, and what its bits rest on.
fn trace_seen(
    whole: &Whole,
    worlds: &mut Worlds,
    marks: &mut Marks,
    seen: u32,
    head: u32,
) -> Result<(), AllocError> {
    mark(&mut marks.followed, seen, worlds.mask());
    follow_turned(whole, worlds, marks, seen, head)?;
    trace_turned(whole, worlds, marks, head)
}

/// What is needed for a difference at a head to be seen.
fn turn(
    whole: &Whole,
    worlds: &mut Worlds,
    marks: &mut Marks,
    head: u32,
) -> Result<(), AllocError> {
    mark(&mut marks.followed, head, worlds.mask());
    let seen = worlds.turn(whole, head)?;
    if seen != NONE {
        trace_seen(whole, worlds, marks, seen, head)?;
    }
    unmark(&mut marks.turned, &mut marks.touched);
    worlds.forget();
    Ok(())
}

/// Follows all pins of a gate under these patterns.
fn follow_all_under(graph: &Graph, followed: &mut Vec<u64>, gate: u32, under: u64) {
    let (start, end) = graph.pins_of(gate);
    for slot in start..end {
        mark(followed, graph.pin(slot), under);
    }
}

/// Under which patterns a pin that decides the gate by this bit is followed anyway.
fn decided(graph: &Graph, words: &[u64], followed: &[u64], gate: u32, by: u8) -> u64 {
    let (start, end) = graph.pins_of(gate);
    let mut decided: u64 = 0;
    for slot in start..end {
        let pin = graph.pin(slot);
        decided |= bit_at(words, pin, by) & word_at(followed, pin);
    }
    decided
}

/// The pin that costs least, of those that decide the gate by this bit under some of these patterns.
fn cheapest(whole: &Whole, words: &[u64], gate: u32, by: u8, under: u64) -> u32 {
    let graph = &whole.graph;
    let (start, end) = graph.pins_of(gate);
    let (mut best, mut least) = (NONE, NONE);
    for slot in start..end {
        let pin = graph.pin(slot);
        let cost = whole.cost(pin, by);
        if (best == NONE || cost < least) && bit_at(words, pin, by) & under != 0 {
            (best, least) = (pin, cost);
        }
    }
    best
}

/// Follows under each of these patterns the cheapest pin that decides the gate by this bit: some pin does.
fn follow_cheapest(
    whole: &Whole,
    words: &[u64],
    followed: &mut Vec<u64>,
    gate: u32,
    by: u8,
    under: u64,
) {
    let mut left = under;
    for _turn in 0..64 {
        let pin = cheapest(whole, words, gate, by, left);
        if left == 0 || pin == NONE {
            break;
        }
        let decides = bit_at(words, pin, by) & left;
        mark(followed, pin, decides);
        left ^= decides;
    }
}

/// Follows what a gate's bit rests on under the patterns under which it is followed.
fn follow_back(whole: &Whole, words: &[u64], followed: &mut Vec<u64>, gate: u32) {
    let graph = &whole.graph;
    let under = word_at(followed, gate);
    if under == 0 {
        return;
    }
    let Shape::Controlled { by, .. } = graph.shape(gate) else {
        follow_all_under(graph, followed, gate, under);
        return;
    };
    let some = some_pin_at(graph, words, gate, by);
    if under & !some != 0 {
        follow_all_under(graph, followed, gate, under & !some);
    }
    let left = under & some & !decided(graph, words, followed, gate, by);
    follow_cheapest(whole, words, followed, gate, by, left);
}

/// Traces what is followed back to inputs and cells.
fn trace_back(whole: &Whole, words: &[u64], followed: &mut Vec<u64>) {
    for place in (1..whole.place_count()).rev() {
        follow_back(whole, words, followed, whole.gate_at(place));
    }
}

/// Nothing is followed, of so many signals.
fn marks_of(alloc: Global, count: u32) -> Result<Marks, AllocError> {
    let mut turned = Vec::new(alloc);
    fill_bytes(&mut turned, count, 0)?;
    Ok(Marks {
        followed: Vec::new(alloc),
        open: Vec::new(alloc),
        turned,
        touched: Vec::new(alloc),
    })
}

#[derive(Drop)]
pub(crate) struct Tracing {
    pub worlds: Worlds,
    marks: Marks,
}

impl Tracing {
    pub(crate) fn new(alloc: Global, whole: &Whole) -> Result<Tracing, AllocError> {
        let marks = marks_of(alloc, whole.count())?;
        match Worlds::new(alloc, whole) {
            Ok(worlds) => Ok(Tracing { worlds, marks }),
            Err(refusal) => {
                drop(marks);
                Err(refusal)
            }
        }
    }

    /// Begins with the patterns of these lanes, of which no bit is needed yet.
    pub(crate) fn begin(
        &mut self,
        whole: &Whole,
        core: &Core,
        patterns: &[Pattern],
        lanes: Lanes,
    ) -> Result<(), AllocError> {
        settle(whole, &mut self.worlds.words, core, patterns, lanes)?;
        clear_words(&mut self.marks.open, whole.count())?;
        clear_words(&mut self.marks.followed, whole.count())
    }

    /// Whether the pattern that is looked at needs the bit of a signal.
    pub(crate) fn is_needed(&self, signal: u32) -> bool {
        word_at(&self.marks.followed, signal) & self.worlds.mask() != 0
    }

    /// Whether it needs at least fifteen of sixteen bits of inputs and cells.
    pub(crate) fn is_nearly_whole(&self, core: &Core) -> bool {
        let (inputs, cells) = (core.netlist().inputs(), core.netlist().cells());
        let followed = self.marks.followed.as_slice();
        let mask = self.worlds.mask();
        let needed = needed_of(followed, inputs, mask).wrapping_add(needed_of(
            followed, cells, mask,
        ));
        let all = inputs.len().wrapping_add(cells.len());
        needed.wrapping_mul(16) >= all.wrapping_mul(15)
    }

    /// The pattern that is looked at needs all bits.
    pub(crate) fn take_whole(&mut self, core: &Core) {
        let mask = self.worlds.mask();
        let followed = &mut self.marks.followed;
        follow_each(followed, core.netlist().inputs(), mask);
        follow_each(followed, core.netlist().cells(), mask);
    }

    /// What the detection of a fault of this line needs under the pattern that is looked at is needed, once all is traced.
    pub(crate) fn need(
        &mut self,
        whole: &Whole,
        core: &Core,
        line: Line,
    ) -> Result<(), AllocError> {
        let mask = self.worlds.mask();
        let marks = &mut self.marks;
        let head = way_of(
            whole,
            core,
            &mut marks.followed,
            &mut marks.open,
            line,
            mask,
        );
        if head == NONE {
            return Ok(());
        }
        turn(whole, &mut self.worlds, &mut self.marks, head)
    }

    /// Traces what is followed back to inputs and cells.
    pub(crate) fn trace(&mut self, whole: &Whole) {
        trace_back(whole, &self.worlds.words, &mut self.marks.followed);
    }
}
