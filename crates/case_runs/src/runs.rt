//! Runs of a program over a case, and what they leave.
use crate::case::Case;
use crate::files::parts_of;
use outside::{MemoryShelf, MemorySink};
use std::alloc::{AllocError, Global};

/// What is run.
#[derive(Clone, Copy)]
pub enum Program {
    /// The whole program.
    Whole,
    /// The same with a stage at which workers 0 and 1 wait for each other.
    Meeting,
    /// The program that checks five files and does nothing else.
    Check,
}

/// Who runs them.
pub trait Runner {
    // Holds of one that may run programs: no impl is told of its parameters that threads may share them, so its callers show that.
    ghost ready: { Self → Type 0 };

    /// Runs a program with these words on the shelf and the outputs, and leaves its status, and whether two workers met.
    fn run(&self, alloc: Global, program: Program, words: &[String], ran: &mut Ran)
        requires { Self.ready self.now };
}

/// A word as it is run: `~` is a blank.
fn word_of(alloc: Global, written: &str) -> Result<String, AllocError> {
    let mut word = String::new(alloc);
    for c in written.chars() {
        word.push(if c == '~' { ' ' } else { c })?;
    }
    Ok(word)
}

/// The words of a line, a blank between two.
fn words_of(alloc: Global, line: &str) -> Result<Vec<String>, AllocError> {
    let mut words = Vec::new(alloc);
    for written in line.split(' ') {
        words.push(word_of(alloc, written)?)?;
    }
    Ok(words)
}

/// A shelf and two outputs, and once a run has left them how it ended.
#[derive(Drop)]
pub struct Ran {
    pub status: u8,
    pub has_met: bool,
    pub shelf: MemoryShelf,
    pub out: MemorySink,
    pub err: MemorySink,
}

impl Ran {
    /// The shelf and the outputs before a run.
    fn new(alloc: Global, case: &Case) -> Result<Ran, AllocError> {
        let out = MemorySink::new(alloc, &case.out)?;
        let err = MemorySink::new(alloc, &case.err)?;
        let files = parts_of(alloc, &case.files)?;
        let shelf = MemoryShelf::new(alloc, &files, &case.shelf)?;
        Ok(Ran {
            status: 0,
            has_met: false,
            shelf,
            out,
            err,
        })
    }

    /// Whether the other run has the same status and outputs.
    pub(crate) fn is_as(&self, other: &Ran) -> bool {
        self.status == other.status
            && self.out.bytes() == other.out.bytes()
            && self.err.bytes() == other.err.bytes()
    }
}

/// Runs a program with the words of a line over a case.
pub(crate) fn run<R: Runner>(
    runner: &R,
    alloc: Global,
    case: &Case,
    program: Program,
    line: &str,
) -> Result<Ran, AllocError>
    requires { R.ready runner.now }
{
    let words = words_of(alloc, line)?;
    let mut ran = Ran::new(alloc, case)?;
    runner.run(alloc, program, &words, &mut ran);
    Ok(ran)
}
