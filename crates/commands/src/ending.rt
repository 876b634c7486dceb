//! How a command ends.

use crate::names::FileName;

/// What a command found: that all is well, or the difference that it looks for.
#[derive(Clone, Copy, PartialEq, Eq)]
pub enum Finding {
    Fine,
    Differs,
}

/// What could not be written.
#[derive(Clone, Copy)]
pub enum WriteFailure<'a> {
    File(FileName<'a>),
    Output,
}

/// How a command ends. `R` says why the texts that it read are refused.
#[derive(Clone, Copy)]
pub enum Ending<'a, R> {
    Ended(Finding),
    Refused(R),
    ReadFailed(FileName<'a>),
    WriteFailed(WriteFailure<'a>),
    Missing(FileName<'a>),
    TooLong(FileName<'a>),
    Memory,
}
