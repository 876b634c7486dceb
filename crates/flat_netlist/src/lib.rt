//! A netlist in flat arrays that may be read at any place, for searches that owe nothing: what they answer is verified by whoever takes it.
//!
//! A place that isn't there reads as a value of no meaning, and nothing is written there. So such a search needs no invariant and no proof file; a
//! mistake of it costs time or an answer, and no more. Where an answer is to be proved from the netlist itself, `netlist::Core` serves.
//!
//! Gives: `Whole`, `Graph`, `Shape`, `shape_of`, `driver`, `Waiting`; arrays: `NONE`, `at`, `put`, `fill`, and the same of bytes and of words, `number_of`.
//! Proved: its calls are safe and end.
//! Neither: that it is the netlist; time.
#![tactic(auto)]

mod arrays;
mod graphs;
mod waiting;
mod wholes;

pub use arrays::{
    NONE, at, byte_at, clear_words, fill, fill_bytes, number_of, put, put_byte, put_word, word_at,
};
pub use graphs::{Graph, Shape, shape_of};
pub use waiting::Waiting;
pub use wholes::{Whole, driver};
