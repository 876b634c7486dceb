//! Sets of the four pairs of bits that a signal may have, without the fault and with it, as four bits of a byte: 00, 01, 10 and 11 from the last one on.
use std::alloc::{AllocError, Global};

pub(crate) const ANY: u8 = 15;

/// The pairs of one bit twice, and the others.
pub(crate) const SAME: u8 = 9;

pub(crate) const DIFFERS: u8 = 6;

/// The pairs with this bit without the fault.
pub(crate) fn good_is(bit: u8) -> u8 {
    if bit == 1 { 12 } else { 3 }
}

/// The pairs with this bit with the fault.
pub(crate) fn faulty_is(bit: u8) -> u8 {
    if bit == 1 { 10 } else { 5 }
}

/// What comes of a set where the bit with the fault is replaced.
pub(crate) fn stuck_at(bit: u8, set: u8) -> u8 {
    let zero = set & 3 != 0;
    let one = set & 12 != 0;
    (if zero { good_is(0) & faulty_is(bit) } else { 0 })
        | (if one { good_is(1) & faulty_is(bit) } else { 0 })
}

/// The pairs that a set has once their bit with the fault is replaced.
pub(crate) fn before_stuck(bit: u8, set: u8) -> u8 {
    let left = set & faulty_is(bit);
    (if left & 3 != 0 { 3 } else { 0 }) | (if left & 12 != 0 { 12 } else { 0 })
}

/// What a gate computes of its pins, one after the other.
#[derive(Clone, Copy)]
pub(crate) enum Fold {
    And,
    Or,
    Xor,
}

impl Fold {
    /// What no pin makes.
    pub(crate) fn unit(self) -> u8 {
        match self {
            Fold::And => pair(3),
            _ => pair(0),
        }
    }

    fn of_number(number: u32) -> Fold {
        match number {
            0 => Fold::And,
            1 => Fold::Or,
            _ => Fold::Xor,
        }
    }

    fn number(self) -> u32 {
        match self {
            Fold::And => 0,
            Fold::Or => 1,
            Fold::Xor => 2,
        }
    }

    /// Of two pairs, each as two bits.
    fn of_pairs(self, one: u8, other: u8) -> u8 {
        match self {
            Fold::And => one & other,
            Fold::Or => one | other,
            Fold::Xor => one ^ other,
        }
    }

    /// Of a pair and a set.
    fn of_pair(self, one: u8, others: u8) -> u8 {
        let mut made = 0;
        for other in 0u8..4 {
            if others & pair(other) != 0 {
                made |= pair(self.of_pairs(one, other));
            }
        }
        made
    }

    /// Of two sets.
    fn of_sets(self, ones: u8, others: u8) -> u8 {
        let mut made = 0;
        for one in 0u8..4 {
            if ones & pair(one) != 0 {
                made |= self.of_pair(one, others);
            }
        }
        made
    }

    /// The pairs that make with one of the others one of the set.
    fn back_from(self, others: u8, wanted: u8) -> u8 {
        let mut left = 0;
        for one in 0u8..4 {
            if self.of_pair(one, others) & wanted != 0 {
                left |= pair(one);
            }
        }
        left
    }
}

/// The set of one pair.
fn pair(number: u8) -> u8 {
    match number & 3 {
        0 => 1,
        1 => 2,
        2 => 4,
        _ => 8,
    }
}

/// The set with each bit turned over.
pub(crate) fn turned(set: u8) -> u8 {
    (if set & 1 != 0 { 8 } else { 0 })
        | (if set & 2 != 0 { 4 } else { 0 })
        | (if set & 4 != 0 { 2 } else { 0 })
        | (if set & 8 != 0 { 1 } else { 0 })
}

/// How many entries a table has: three folds of two sets.
const ENTRIES: u32 = 768;

/// What folds make of two sets, and what they leave of one, looked up.
#[derive(Drop)]
pub(crate) struct Tables {
    images: Vec<u8>,
    backs: Vec<u8>,
}

fn place_of(fold: Fold, one: u8, other: u8) -> usize {
    (fold.number() as usize) * 256 + ((one & 15) as usize) * 16 + ((other & 15) as usize)
}

impl Tables {
    pub(crate) fn new(alloc: Global) -> Tables {
        Tables {
            images: Vec::new(alloc),
            backs: Vec::new(alloc),
        }
    }

    /// Made once.
    pub(crate) fn begin(&mut self) -> Result<(), AllocError> {
        if self.backs.len() == ENTRIES as usize {
            return Ok(());
        }
        self.images.clear();
        self.backs.clear();
        for place in 0..ENTRIES {
            let fold = Fold::of_number(place / 256);
            let one = ((place / 16) & 15) as u8;
            let other = (place & 15) as u8;
            self.images.push(fold.of_sets(one, other))?;
            self.backs.push(fold.back_from(one, other))?;
        }
        Ok(())
    }

    /// What the fold makes of two sets.
    #[inline(always)]
    pub(crate) fn image(&self, fold: Fold, one: u8, other: u8) -> u8 {
        match self.images.get(place_of(fold, one, other)) {
            None => ANY,
            Some(set) => *set,
        }
    }

    /// The pairs that make with one of the others one of the set.
    #[inline(always)]
    pub(crate) fn back(&self, fold: Fold, others: u8, wanted: u8) -> u8 {
        match self.backs.get(place_of(fold, others, wanted)) {
            None => ANY,
            Some(set) => *set,
        }
    }
}
