//! An input, line by line.
use crate::said::Said;
use crate::texts::{Named, tell};
use std::alloc::{AllocError, Global};

/// What a program does with the lines of its input that tell of no text.
pub trait Script {
    /// What comes of a line over the texts that stand before it.
    fn take(&mut self, alloc: Global, texts: &[Named], line: &str) -> Result<Vec<u8>, AllocError>;
}

/// What comes of an input.
pub fn play<S: Script>(alloc: Global, given: &str, script: &mut S) -> Result<Vec<u8>, AllocError> {
    let mut texts = Vec::new(alloc);
    let mut report = Said::new(alloc);
    for line in given.lines() {
        match tell(&mut texts, alloc, line) {
            Some(told) => told?,
            None => report.push_bytes(&script.take(alloc, &texts, line)?),
        }
    }
    report.end()
}

/// A line as an output repeats it.
pub fn repeated(alloc: Global, line: &str) -> Result<Vec<u8>, AllocError> {
    let mut said = Said::new(alloc);
    said.push_line(line);
    said.end()
}
