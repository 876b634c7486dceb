//! The way of a difference from a fault to the head of its fanout-free region, under the pattern of a mask: all other pins on it are followed.
use flat_netlist::{Graph, NONE, Whole, driver, put_word, word_at};
use netlist::{Core, Line, SignalId};

/// Marks a signal under these patterns.
pub(crate) fn mark(words: &mut Vec<u64>, signal: u32, under: u64) {
    let word = word_at(words, signal) | under;
    put_word(words, signal, word);
}

/// The only gate that reads a signal which isn't observed; NONE at a head.
fn only_reader(whole: &Whole, signal: u32) -> u32 {
    let graph = &whole.graph;
    let (start, end) = graph.readers_of(signal);
    if end.wrapping_sub(start) != 1 || whole.is_observed(signal) {
        return NONE;
    }
    graph.reader(start)
}

/// Follows all pins of a gate but this signal.
fn follow_others(graph: &Graph, followed: &mut Vec<u64>, gate: u32, but: u32, mask: u64) {
    let (start, end) = graph.pins_of(gate);
    for slot in start..end {
        let pin = graph.pin(slot);
        if pin != but {
            mark(followed, pin, mask);
        }
    }
}

/// What is needed for a difference to come from a signal to the head of its region: the head, or NONE where it comes there anyway.
fn open_way(
    whole: &Whole,
    followed: &mut Vec<u64>,
    open: &mut Vec<u64>,
    from: u32,
    mask: u64,
) -> u32 {
    let mut signal = from;
    for _gate in 0..whole.place_count() {
        if word_at(open, signal) & mask != 0 {
            return NONE;
        }
        mark(open, signal, mask);
        let gate = only_reader(whole, signal);
        if gate == NONE {
            return signal;
        }
        follow_others(&whole.graph, followed, gate, signal, mask);
        signal = gate;
    }
    NONE
}

/// What is needed for a pin to have its good bit, and for the gate behind it to differ where the pin does: that one. A pin of a cell is a point.
fn excite_pin(
    whole: &Whole,
    core: &Core,
    followed: &mut Vec<u64>,
    gate: SignalId,
    k: u32,
    mask: u64,
) -> u32 {
    if whole.place(gate.0) == 0 {
        let from = driver(core, gate, k);
        mark(followed, from.0, mask);
        return NONE;
    }
    follow_others(&whole.graph, followed, gate.0, NONE, mask);
    gate.0
}

/// What is needed for a line to have its good bit, and for a signal behind it to differ where the line does: that one. NONE where the line is a point.
fn excite(whole: &Whole, core: &Core, followed: &mut Vec<u64>, line: Line, mask: u64) -> u32 {
    match line {
        Line::Stem(x) => {
            mark(followed, x.0, mask);
            x.0
        }
        Line::Out(y) => {
            mark(followed, y.0, mask);
            NONE
        }
        Line::Pin(z, k) => excite_pin(whole, core, followed, z, k, mask),
    }
}

/// What is needed for a difference at a line to come to the head of its region: the head. NONE where the line is a point, or it comes there anyway.
pub(crate) fn way_of(
    whole: &Whole,
    core: &Core,
    followed: &mut Vec<u64>,
    open: &mut Vec<u64>,
    line: Line,
    mask: u64,
) -> u32 {
    let from = excite(whole, core, followed, line, mask);
    if from == NONE {
        return NONE;
    }
    open_way(whole, followed, open, from, mask)
}
