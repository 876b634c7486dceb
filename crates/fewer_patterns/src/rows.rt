//! Cubes in words: which places have a bit, and which of these a 1. Two cubes are compared 64 places at a time.
use flat_netlist::{number_of, put_word, word_at};
use std::alloc::{AllocError, Global};

/// Rows of so many words, one behind the other. A place of a row stands for an input, or behind these for a cell.
#[derive(Drop)]
pub(crate) struct Rows {
    words: u32,
    set: Vec<u64>,
    ones: Vec<u64>,
}

impl Rows {
    /// No row, of so many places.
    pub(crate) fn new(alloc: Global, places: u32) -> Rows {
        Rows {
            words: places / 64 + 1,
            set: Vec::new(alloc),
            ones: Vec::new(alloc),
        }
    }

    /// No row again.
    pub(crate) fn clear(&mut self) {
        self.set.clear();
        self.ones.clear();
    }

    pub(crate) fn count(&self) -> u32 {
        if self.words == 0 {
            return 0;
        }
        number_of(self.set.len()) / self.words
    }

    /// Where a word of a row stands.
    fn slot(&self, row: u32, word: u32) -> u32 {
        row.wrapping_mul(self.words).wrapping_add(word)
    }

    /// A row more, all open.
    pub(crate) fn push(&mut self) -> Result<(), AllocError> {
        for _word in 0..self.words {
            self.set.push(0)?;
            self.ones.push(0)?;
        }
        Ok(())
    }

    /// Sets a bit.
    pub(crate) fn put(&mut self, row: u32, place: u32, bit: bool) {
        let slot = self.slot(row, place / 64);
        let mask = 1u64 << (place % 64);
        let set = word_at(&self.set, slot) | mask;
        put_word(&mut self.set, slot, set);
        let ones = word_at(&self.ones, slot);
        put_word(
            &mut self.ones,
            slot,
            if bit { ones | mask } else { ones & !mask },
        );
    }

    /// The bit at a place, if it is set.
    pub(crate) fn bit(&self, row: u32, place: u32) -> Option<bool> {
        let slot = self.slot(row, place / 64);
        let mask = 1u64 << (place % 64);
        if word_at(&self.set, slot) & mask == 0 {
            return None;
        }
        Some(word_at(&self.ones, slot) & mask != 0)
    }

    /// How many places have a bit.
    pub(crate) fn size(&self, row: u32) -> u32 {
        let mut size: u32 = 0;
        for word in 0..self.words {
            size = size.wrapping_add(word_at(&self.set, self.slot(row, word)).count_ones());
        }
        size
    }

    /// Whether somewhere this row has a bit and a row of others the other bit.
    pub(crate) fn is_opposed(&self, row: u32, others: &Rows, other: u32) -> bool {
        for word in 0..self.words {
            let (one, two) = (self.slot(row, word), others.slot(other, word));
            let both = word_at(&self.set, one) & word_at(&others.set, two);
            if both & (word_at(&self.ones, one) ^ word_at(&others.ones, two)) != 0 {
                return true;
            }
        }
        false
    }

    /// Takes the bits of a row of others, which isn't opposed.
    pub(crate) fn join(&mut self, row: u32, others: &Rows, other: u32) {
        for word in 0..self.words {
            let (one, two) = (self.slot(row, word), others.slot(other, word));
            let set = word_at(&self.set, one) | word_at(&others.set, two);
            put_word(&mut self.set, one, set);
            let ones = word_at(&self.ones, one) | word_at(&others.ones, two);
            put_word(&mut self.ones, one, ones);
        }
    }
}
