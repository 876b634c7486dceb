//! Statements with numbers in place of names.

use netlist::Kind;
use smallvec::SmallVec;

/// What is known of a name: it was only read so far, or it is that of an input or of a definition, with its place among them.
#[derive(Clone, Copy, PartialEq, Eq)]
pub enum Role {
    Read,
    Input(usize),
    Definition(usize),
}

/// A statement in which each name stands by its number of first sight.
#[derive(Drop)]
pub enum Numbered {
    Input(usize),
    Output(usize),
    Definition(usize, Kind, SmallVec<usize, 4>),
}

/// A statement and its line, counted from 1.
#[derive(Drop)]
pub struct Entry {
    pub line: u32,
    pub statement: Numbered,
}
