//! An order of evaluation: each gate after the gates that it reads (Kahn, Topological sorting of large networks, 1962).
ghost use Rattle.std.specs.Prelude.{◌≡◌, ◌<◌, ◌≤◌, ℕ, [], ◌∷◌, length, IfOk, OnOk, MatchOption, slice_get, slice_index};
ghost use Rattle.std.specs.List.{All};
ghost use Rattle.netlist.specs.Gates.{most_pins};
ghost use Rattle.statement.specs.Netlists.{Definition as Equation, signals};
ghost use Rattle.netlist.specs.Conditions.{IsClosed, IsNumbered, whole, most_signals};
ghost use Rattle.netlist.specs.inner.Placed.{IsSorted, HasRanks, start_ranks};
ghost use Rattle.netlist.specs.inner.Sorting.{AreBelow, AreReaders, Counts, HasRoom, IsStarted, Places, PlacesTie, PlacesTies, VisitsSources, start_counts};
ghost use Rattle.netlist.specs.Lines.{IsPinBelow};

use crate::equations::Parts;
use crate::readings::ReaderTable;
use statement::{Line, SignalId};
use std::alloc::{AllocError, Global};

/// The gates that are placed, in order, and the rank of each signal: 1 for inputs and cells, from 2 on for gates in order, 0 for what isn't placed.
#[derive(Drop)]
pub(crate) struct Sorting {
    pub order: Vec<SignalId>,
    pub ranks: Vec<u32>,
}

/// A sorting in the making. A signal that is placed is visited once, and then the pins that read it no longer wait.
#[derive(Drop)]
struct Placing {
    order: Vec<SignalId>,
    ranks: Vec<u32>,
    /// For each gate that isn't placed, how many of its pins wait.
    counts: Vec<u32>,
}

/// The ranks before any gate is placed.
fn start_ranks(alloc: Global, parts: &Parts) -> Result<Vec<u32>, AllocError>
    ensures { IfOk result (λ ranks. ranks.items ≡ start_ranks (whole parts.now)) }
{
    parts
        .inputs
        .iter()
        .map(|_| 1)
        .chain(
            parts
                .definitions
                .iter()
                .map(|d| if d.kind().is_flip_flop() { 1 } else { 0 }),
        )
        .collect(alloc)
}

/// Of each signal how many pins aren't placed yet: at first all.
fn start_counts(alloc: Global, parts: &Parts) -> Result<Vec<u32>, AllocError>
    requires { All (λ (d : Equation). length d.pins ≤ most_pins) (whole parts.now).definitions }
    ensures { IfOk result (λ counts. counts.items ≡ start_counts (whole parts.now)) }
{
    parts
        .inputs
        .iter()
        .map(|_| 0)
        .chain(parts.definitions.iter().map(|d| d.pins().len() as u32))
        .collect(alloc)
}

impl Placing {
    /// No gate is placed, and nothing is visited.
    fn start(alloc: Global, parts: &Parts) -> Result<Placing, AllocError>
        requires numbered { IsNumbered (whole parts.now) }
        requires closed { IsClosed (whole parts.now) }
        requires small { length (signals (whole parts.now)) ≤ most_signals }
        ensures room { IfOk result HasRoom }
        ensures started { IfOk result (IsStarted (whole parts.now) 0) }
    {
        Ok(Placing {
            order: Vec::with_capacity(alloc, parts.definitions.len())?,
            ranks: start_ranks(alloc, parts)?,
            counts: start_counts(alloc, parts)?,
        })
    }

    /// Places a gate behind the others.
    fn place(&mut self, gate: SignalId) -> Result<(), AllocError>
        requires room { HasRoom self.old }
        requires within { gate < length self.old.ranks.items }
        requires unplaced { slice_index self.old.ranks.items gate ≡ 0 }
        ensures { OnOk result (Places gate self.old self.new) }
    {
        let rank = self.order.len() as u32 + 2;
        self.order.push(gate)?;
        self.ranks[gate.index()] = rank;
        Ok(())
    }

    /// Places the signal if it is a gate without pins.
    fn place_tie(&mut self, signal: SignalId) -> Result<(), AllocError>
        requires room { HasRoom self.old }
        requires within { signal < length self.old.ranks.items }
        ensures { OnOk result (PlacesTie signal self.old self.new) }
    {
        if self.ranks[signal.index()] == 0 && self.counts[signal.index()] == 0 {
            self.place(signal)?;
        }
        Ok(())
    }

    /// Places the gates without pins, which wait for nothing.
    fn place_ties(&mut self) -> Result<(), AllocError>
        requires { HasRoom self.old }
        ensures { OnOk result (PlacesTies self.old self.new) }
    {
        for signal in 0..self.ranks.len() {
            self.place_tie(SignalId(signal as u32))?;
        }
        Ok(())
    }

    /// One pin of the gate no longer waits; after the last one the gate is placed.
    fn count_down(&mut self, gate: SignalId) -> Result<(), AllocError>
        requires room { HasRoom self.old }
        requires within { gate < length self.old.ranks.items }
        ensures { OnOk result ((k : ℕ) → Counts (Line.Pin gate k ∷ []) self.old self.new) }
    {
        let place = gate.index();
        if self.ranks[place] != 0 {
            return Ok(());
        }
        if self.counts[place] > 1 {
            self.counts[place] -= 1;
            return Ok(());
        }
        self.place(gate)?;
        Ok(())
    }

    /// The pins on these lines, which read one signal, no longer wait.
    fn visit(&mut self, readers: &[Line]) -> Result<(), AllocError>
        requires room { HasRoom self.old }
        requires below { All (IsPinBelow (length self.old.ranks.items)) readers.now }
        ensures { OnOk result (Counts readers.now self.old self.new) }
    {
        for line in readers {
            if let Line::Pin(gate, _) = line {
                self.count_down(*gate)?;
            }
        }
        Ok(())
    }

    /// The gate at a place in the order.
    fn gate_at(&self, place: usize) -> Option<SignalId>
        ensures { result ≡ slice_get self.now.order.items place }
    {
        self.order.get(place).copied()
    }

    /// Visits the inputs and cells.
    fn visit_sources(&mut self, table: &ReaderTable) -> Result<(), AllocError>
        requires room { HasRoom self.old }
        requires below { AreBelow (length self.old.ranks.items) table.now }
        ensures { OnOk result (VisitsSources table.now self.old self.new) }
    {
        for signal in 0..self.ranks.len() {
            if self.ranks[signal] == 1 {
                self.visit(table.readers(SignalId(signal as u32)))?;
            }
        }
        Ok(())
    }
}

/// Places gates until no more can be placed, in time linear in the pins.
pub(crate) fn sort(alloc: Global, parts: &Parts, table: &ReaderTable) -> Result<Sorting, AllocError>
    requires numbered { IsNumbered (whole parts.now) }
    requires closed { IsClosed (whole parts.now) }
    requires small { length (signals (whole parts.now)) ≤ most_signals }
    requires readers { AreReaders (whole parts.now) table.now }
    ensures { IfOk result (λ s. IsSorted (whole parts.now) s.order.items s.ranks.items) }
{
    let mut placing = Placing::start(alloc, parts)?;
    placing.place_ties()?;
    placing.visit_sources(table)?;
    let mut cursor = 0;
    while let Some(gate) = placing.gate_at(cursor) {
        placing.visit(table.readers(gate))?;
        cursor += 1;
    }
    let Placing {
        order,
        ranks,
        counts: _,
    } = placing;
    Ok(Sorting { order, ranks })
}

/// The first signal that is not placed.
pub(crate) fn first_left(ranks: &[u32]) -> Option<u32>
    requires { length ranks.now ≤ most_signals }
    ensures { MatchOption result (HasRanks ranks.now (length ranks.now)) (λ z. (z < length ranks.now) × (slice_index ranks.now z ≡ 0) × HasRanks ranks.now z) }
{
    for (z, rank) in ranks.iter().enumerate() {
        if *rank == 0 {
            return Some(z as u32);
        }
    }
    None
}
