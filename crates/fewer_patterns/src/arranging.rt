//! In which order rows become patterns: to which pattern a fault is left, the last that detects it, depends on that.
use crate::sorting::Sorted;
use rand_core::Rng;
use std::alloc::{AllocError, Global};

/// The order of a round: in every other one the last row comes first, so that faults are left to the rows that have most bits.
pub(crate) fn order_of<N: Rng>(
    alloc: Global,
    count: u32,
    round: u32,
    rng: &mut N,
) -> Result<Vec<u32>, AllocError> {
    if round % 2 == 0 {
        return reversed(alloc, count);
    }
    shuffled(alloc, count, rng)
}

fn reversed(alloc: Global, count: u32) -> Result<Vec<u32>, AllocError> {
    let mut order = Vec::new(alloc);
    for place in (0..count).rev() {
        order.push(place)?;
    }
    Ok(order)
}

/// By keys that are drawn.
fn shuffled<N: Rng>(alloc: Global, count: u32, rng: &mut N) -> Result<Vec<u32>, AllocError> {
    let mut keys = Vec::new(alloc);
    let bound = count.wrapping_add(1);
    for _place in 0..count {
        keys.push(rng.next_u32() % bound.max(1))?;
    }
    let mut sorted = Sorted::new(alloc);
    sorted.sort(&keys, bound)?;
    let mut order = Vec::new(alloc);
    for slot in 0..count {
        order.push(sorted.number(slot))?;
    }
    Ok(order)
}
