//! Gates that wait to be looked at, by their places in the order of evaluation: forward the first one comes first, backward the last one.
use crate::arrays::{clear_words, number_of, put_word, word_at};
use std::alloc::{AllocError, Global};

/// By place, in words of 64, whether its gate waits.
#[derive(Drop)]
pub struct Waiting {
    words: Vec<u64>,
    /// No word before this one, and none behind the other, has a bit.
    first: u32,
    last: u32,
}

impl Waiting {
    /// Of no places.
    pub fn new(alloc: Global) -> Waiting {
        Waiting {
            words: Vec::new(alloc),
            first: 0,
            last: 0,
        }
    }

    /// Of so many places none waits.
    pub fn begin(&mut self, places: u32) -> Result<(), AllocError> {
        self.first = 0;
        self.last = 0;
        clear_words(&mut self.words, places / 64 + 1)
    }

    /// How many words there are.
    fn count(&self) -> u32 {
        number_of(self.words.len())
    }

    /// The gate at a place waits.
    pub fn add(&mut self, place: u32) {
        let word = place / 64;
        let bits = word_at(&self.words, word) | (1 << (place % 64));
        put_word(&mut self.words, word, bits);
        self.first = self.first.min(word);
        self.last = self.last.max(word).min(self.count());
    }

    /// Nothing waits.
    fn is_over(&mut self) -> Option<u32> {
        self.first = self.count();
        self.last = 0;
        None
    }

    /// The first place that waits, which waits no more.
    pub fn take_first(&mut self) -> Option<u32> {
        for word in self.first..self.last.wrapping_add(1) {
            let bits = word_at(&self.words, word);
            if bits != 0 {
                self.first = word;
                put_word(&mut self.words, word, bits & bits.wrapping_sub(1));
                return Some(word.wrapping_mul(64).wrapping_add(bits.trailing_zeros()));
            }
        }
        self.is_over()
    }

    /// The last place that waits, which waits no more.
    pub fn take_last(&mut self) -> Option<u32> {
        for word in (self.first..self.last.wrapping_add(1)).rev() {
            let bits = word_at(&self.words, word);
            if bits != 0 {
                self.last = word;
                let bit = 63u32.wrapping_sub(bits.leading_zeros());
                put_word(&mut self.words, word, bits ^ (1 << (bit % 64)));
                return Some(word.wrapping_mul(64).wrapping_add(bit));
            }
        }
        self.is_over()
    }
}
