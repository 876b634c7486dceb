//! Rows that don't contradict each other, merged.
use crate::rows::Rows;
use crate::sorting::Sorted;
use std::alloc::{AllocError, Global};

/// How many places of each row are open.
fn open_places(alloc: Global, rows: &Rows, places: u32) -> Result<Vec<u32>, AllocError> {
    let mut open = Vec::new(alloc);
    for row in 0..rows.count() {
        open.push(places.saturating_sub(rows.size(row)))?;
    }
    Ok(open)
}

/// Joins a row to the first that it doesn't contradict, or puts it behind them.
fn add(merged: &mut Rows, rows: &Rows, row: u32) -> Result<(), AllocError> {
    for place in 0..merged.count() {
        if !merged.is_opposed(place, rows, row) {
            merged.join(place, rows, row);
            return Ok(());
        }
    }
    let place = merged.count();
    merged.push()?;
    merged.join(place, rows, row);
    Ok(())
}

/// Fewer rows with the bits of all. Rows with most bits come first: what has few fits in anywhere.
pub(crate) fn merged(alloc: Global, rows: &Rows, places: u32) -> Result<Rows, AllocError> {
    let open = open_places(alloc, rows, places)?;
    let mut order = Sorted::new(alloc);
    order.sort(&open, places.wrapping_add(1))?;
    let mut merged = Rows::new(alloc, places);
    for slot in 0..rows.count() {
        add(&mut merged, rows, order.number(slot))?;
    }
    Ok(merged)
}
