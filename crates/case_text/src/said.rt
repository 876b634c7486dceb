//! What a program says, piece by piece. Memory may be refused to a piece; that is asked once, at the end, and not by who adds one.
use itoa::Buffer;
use std::alloc::{AllocError, Global};

/// Pieces of text, one behind the other.
#[derive(Drop)]
pub struct Said {
    pub alloc: Global,
    bytes: Vec<u8>,
    is_refused: bool,
}

impl Said {
    pub fn new(alloc: Global) -> Said {
        Said {
            alloc,
            bytes: Vec::new(alloc),
            is_refused: false,
        }
    }

    pub fn push_bytes(&mut self, bytes: &[u8]) {
        if self.bytes.extend_from_slice(bytes).is_err() {
            self.is_refused = true;
        }
    }

    pub fn push(&mut self, text: &str) {
        self.push_bytes(text.as_bytes());
    }

    /// Adds a text, and ends the line.
    pub fn push_line(&mut self, text: &str) {
        self.push(text);
        self.push("\n");
    }

    /// Adds a number in decimal digits.
    pub fn push_number(&mut self, number: u64) {
        self.push(Buffer::new().format(number));
    }

    /// Adds a text and a number, and ends the line.
    pub fn push_count(&mut self, text: &str, number: u64) {
        self.push(text);
        self.push_number(number);
        self.push("\n");
    }

    /// Adds bits as digits.
    pub fn push_bits(&mut self, bits: &[bool]) {
        for bit in bits {
            self.push(if *bit { "1" } else { "0" });
        }
    }

    /// What was said, if there was memory for all of it.
    pub fn end(self) -> Result<Vec<u8>, AllocError> {
        if self.is_refused {
            Err(AllocError)
        } else {
            Ok(self.bytes)
        }
    }
}
