//! Why a text is no list of faults.

/// A line that is no fault's text: its number, from 1, and its bytes.
#[derive(Clone, Copy)]
pub struct Stranger<'a> {
    pub number: usize,
    pub line: &'a [u8],
}

/// A text that is refused for a line, or memory that is refused.
#[derive(Clone, Copy)]
pub enum MarksRefusal<'a> {
    NotFault(Stranger<'a>),
    NoMemory,
}
