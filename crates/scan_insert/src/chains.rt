//! Chains of scan cells.
ghost use Rattle.std.specs.Prelude.{◌≡◌, ◌≢◌, ◌+◌, ◌^◌, ◌<◌, ◌≤◌, length, slice_get, IfOk, Some};
ghost use Rattle.std.specs.List.{AllPairs, Contains};
ghost use Rattle.scan_insert.specs.Chains.{chains_of};
ghost use Rattle.statement.specs.Tests.{cells_of, longest_of, IsAt};
ghost use Rattle.scan_insert.specs.inner.Places.{start_of, length_of, IsPlaced};

use crate::place_table::{PlaceTable, place_table};
use netlist::{NoMemory, SignalId};
use std::alloc::{AllocError, Global};
use std::marker::Model;

/// Chains, each of cells from its scan input to its scan output.
#[derive(Drop)]
pub struct Chains {
    /// The cells of all chains, one chain behind the other.
    cells: Vec<SignalId>,
    count: u32,
    table: PlaceTable,
}

impl Model for Chains {
    ghost use Rattle.std.specs.Prelude.{ℕ, List};

    ghost Value = { List (List ℕ) };

    ghost use Rattle.scan_insert.specs.Chains.{chains_of};
    ghost use Rattle.scan_insert.specs.inner.Places.{AreDealt};

    ghost view = { λ a. chains_of a.cells.items a.count };

    ghost invariant = { λ a. AreDealt a.cells.items a.count a.table.least a.table.places.items };
}

/// Where a chain begins among the cells.
fn start(cells: usize, count: u32, chain: u32) -> usize
    requires few { cells < 2 ^ 32 }
    requires enough { count ≤ cells }
    requires in_chains { chain < count }
    ensures { result ≡ start_of cells count chain }
{
    let short = cells / count as usize;
    let left_over = cells % count as usize;
    chain as usize * short + left_over.min(chain as usize)
}

/// Where a chain ends among the cells.
fn end(cells: usize, count: u32, chain: u32) -> usize
    requires few { cells < 2 ^ 32 }
    requires enough { count ≤ cells }
    requires in_chains { chain < count }
    ensures length { result ≡ start_of cells count chain + length_of cells count chain }
    ensures within { result ≤ cells }
{
    let short = cells / count as usize;
    let longer = (chain as usize) < cells % count as usize;
    let length = if longer { short + 1 } else { short };
    start(cells, count, chain) + length
}

/// The chain that has this one of the cells, and its place there.
fn place_of(cells: usize, count: u32, at: u32) -> (u32, u32)
    requires few { cells < 2 ^ 32 }
    requires enough { count ≤ cells }
    requires some { 0 < count }
    requires within { at < cells }
    ensures { IsPlaced cells count at result.0 result.1 }
{
    let at = at as usize;
    let short = cells / count as usize;
    let left_over = cells % count as usize;
    let in_long = left_over * (short + 1);
    if at < in_long {
        ((at / (short + 1)) as u32, (at % (short + 1)) as u32)
    } else {
        let behind = at - in_long;
        ((left_over + behind / short) as u32, (behind % short) as u32)
    }
}

fn deal(alloc: Global, cells: &[SignalId], count: u32) -> Result<Chains, NoMemory>
    requires few { length cells.now < 2 ^ 32 }
    requires distinct { AllPairs (λ x y. x ≢ y) cells.now }
    requires enough { count ≤ length cells.now }
    requires some { 0 < length cells.now → 0 < count }
    ensures { IfOk result (λ chains. chains ≡ chains_of cells.now count) }
{
    let table = place_table(alloc, cells)?;
    let cells = cells.to_vec(alloc)?;
    Ok(Chains {
        cells,
        count,
        table,
    })
}

/// Deals the cells, in order, to as many chains as are asked for, but to no more than there are cells.
pub fn stitch(alloc: Global, cells: &[SignalId], asked: u32) -> Result<Chains, NoMemory>
    requires asked { 0 < asked }
    requires few { length cells.now < 2 ^ 32 }
    requires distinct { AllPairs (λ x y. x ≢ y) cells.now }
    ensures { IfOk result (λ chains. chains ≡ chains_of cells.now asked) }
{
    let count = asked.min(cells.len() as u32);
    deal(alloc, cells, count)
}

impl Chains {
    /// How many chains there are.
    pub fn count(&self) -> u32
        ensures { result ≡ length self.now }
    {
        self.count
    }

    /// How many cells the longest chain has; 0 if there is none.
    pub fn longest(&self) -> u32
        ensures { result ≡ longest_of self.now }
    {
        if self.count == 0 {
            return 0;
        }
        (self.cells.len() as u32).div_ceil(self.count)
    }

    /// The cells of a chain, from its scan input to its scan output.
    pub fn chain(&self, chain: u32) -> &[SignalId]
        requires { chain < length self.now }
        ensures { slice_get self.now chain ≡ Some result.now }
    {
        let start = start(self.cells.len(), self.count, chain);
        let end = end(self.cells.len(), self.count, chain);
        &self.cells[start..end]
    }

    /// The chain that has a cell, and the cell's place there, from 0 at the scan input. It takes constant time.
    pub fn place(&self, cell: SignalId) -> (u32, u32)
        requires { Contains (cells_of self.now) cell }
        ensures { IsAt self.now cell result.0 result.1 }
    {
        let above = cell.index() - self.table.least as usize;
        place_of(self.cells.len(), self.count, self.table.places[above])
    }
}
