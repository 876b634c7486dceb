//! The place of each cell among the cells, to be found in constant time.
ghost use Rattle.std.specs.Prelude.{◌≡◌, ◌≢◌, ◌^◌, ◌<◌, ◌≤◌, length, IfOk};
ghost use Rattle.std.specs.List.{All, AllPairs};
ghost use Rattle.scan_insert.specs.inner.Places.{HasPlaces};

use netlist::SignalId;
use std::alloc::{AllocError, Global};

/// The place of each cell, by how far its signal is above the least of them.
#[derive(Drop)]
pub(crate) struct PlaceTable {
    pub least: u32,
    pub places: Vec<u32>,
}

fn number(cell: SignalId) -> u32
    ensures { result ≡ cell }
{
    cell.0
}

/// A number that no cell's signal is below: the least of them, where there is one.
fn least(cells: &[SignalId]) -> u32
    ensures { All (λ cell. result ≤ cell) cells.now }
{
    let mut least = u32::MAX;
    for cell in cells {
        least = least.min(number(*cell));
    }
    least
}

fn greatest(cells: &[SignalId]) -> u32
    ensures { All (λ cell. cell ≤ result) cells.now }
{
    let mut greatest = 0;
    for cell in cells {
        greatest = greatest.max(number(*cell));
    }
    greatest
}

/// The places of these cells, which differ.
pub(crate) fn place_table(alloc: Global, cells: &[SignalId]) -> Result<PlaceTable, AllocError>
    requires few { length cells.now < 2 ^ 32 }
    requires distinct { AllPairs (λ x y. x ≢ y) cells.now }
    ensures { IfOk result (λ table. HasPlaces table.least table.places.items cells.now (length cells.now)) }
{
    let least = least(cells);
    let span = (greatest(cells) as usize + 1).saturating_sub(least as usize);
    let mut places = vec![in alloc; 0; span]?;
    for (k, cell) in cells.iter().enumerate() {
        places[(number(*cell) - least) as usize] = k as u32;
    }
    Ok(PlaceTable { least, places })
}
