//! Rows filled to patterns.
use crate::rows::Rows;
use cubes::Pattern;
use flat_netlist::number_of;
use netlist::Core;
use rand_core::Rng;
use std::alloc::{AllocError, Global};

/// The bits of a row from a place on, so many, where an open one takes the lowest bit of a word that is drawn.
fn bits_of<N: Rng>(
    alloc: Global,
    rows: &Rows,
    row: u32,
    from: u32,
    count: u32,
    rng: &mut N,
) -> Result<Vec<bool>, AllocError> {
    let mut bits = Vec::with_capacity(alloc, count as usize)?;
    for place in 0..count {
        let bit = match rows.bit(row, from.wrapping_add(place)) {
            Some(bit) => bit,
            None => rng.next_u32() % 2 == 1,
        };
        bits.push(bit)?;
    }
    Ok(bits)
}

/// A pattern for each row, in this order.
pub(crate) fn filled<N: Rng>(
    alloc: Global,
    core: &Core,
    rows: &Rows,
    order: &[u32],
    rng: &mut N,
) -> Result<Vec<Pattern>, AllocError> {
    let inputs = number_of(core.netlist().inputs().len());
    let cells = number_of(core.netlist().cells().len());
    let mut patterns = Vec::new(alloc);
    for row in order {
        let of_inputs = bits_of(alloc, rows, *row, 0, inputs, rng)?;
        let of_cells = bits_of(alloc, rows, *row, inputs, cells, rng)?;
        patterns.push(Pattern::new(of_inputs, of_cells))?;
    }
    Ok(patterns)
}
