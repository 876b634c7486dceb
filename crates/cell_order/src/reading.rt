//! An order from its text.
ghost use Rattle.std.specs.Prelude.{◌≡◌, ◌<◌, ◌+◌, ◌/◌, ◌%◌, ◌^◌, length, if◌then◌else◌, nat_lt, MatchBool, MatchResult};
ghost use Rattle.std.specs.List.{All, Contains};
ghost use Rattle.statement.specs.Netlists.{signals};
ghost use Rattle.scan_insert.specs.Chains.{lengths_of};
ghost use Rattle.scan_insert.specs.Scanned.{cell_ids};
ghost use Rattle.cell_order.specs.inner.Refusing.{IsComplete, IsIncomplete};
ghost use Rattle.cell_order.specs.Orders.{AreAllCells, AreRefused, IsOrder, IsRefused, IsRefusedBy};
ghost use Rattle.cell_order.specs.inner.Reads.{texts_in};

use crate::grammar::is_order_text;
use crate::marks::{first_twice, first_unmarked, marks_of};
use crate::naming::{cells_named, said_in};
use crate::refusal::{OrderFault, OrderRefusal};
use name_index::NameIndex;
use netlist::{Netlist, SignalId};
use plain_text::MOST_CHAINS;
use std::alloc::Global;

/// The cells of a netlist in an order, and the number of chains to which they are to be dealt.
#[derive(Drop)]
pub struct Order {
    pub cells: Vec<SignalId>,
    pub chains: usize,
}

/// How many of so many cells a chain is dealt.
fn length_at(cells: usize, chains: usize, chain: usize) -> usize
    requires some { 0 < chains }
    requires few { cells < 2 ^ 63 }
    ensures { result ≡ (if nat_lt chain (cells % chains) then cells / chains + 1 else cells / chains) }
{
    if chain < cells % chains {
        cells / chains + 1
    } else {
        cells / chains
    }
}

/// Whether the chains, of which there are some, are as long as so many cells are dealt.
fn are_even(lengths: &[usize], cells: usize) -> bool
    requires some { 0 < length lengths.now }
    requires few { cells < 2 ^ 63 }
    ensures { MatchBool result (lengths.now ≡ lengths_of cells (length lengths.now)) (¬ (lengths.now ≡ lengths_of cells (length lengths.now))) }
{
    for (chain, length) in lengths.iter().enumerate() {
        if *length != length_at(cells, lengths.len(), chain) {
            return false;
        }
    }
    true
}

/// The cells, where each of the netlist's stands once.
fn complete(
    alloc: Global,
    netlist: &Netlist,
    bound: usize,
    order: Vec<SignalId>,
) -> Result<Vec<SignalId>, OrderFault>
    requires bound { bound ≡ length (signals netlist.now) }
    requires cells { All (Contains (cell_ids netlist.now)) order.items }
    ensures { MatchResult result (λ whole. (whole ≡ order) × IsComplete netlist.now order.items) (IsRefusedBy (IsIncomplete netlist.now order.items)) }
{
    netlist.sound();
    match first_twice(alloc, bound, order.as_slice()) {
        Ok(None) => {}
        Ok(Some(number)) => return Err(OrderFault::Refused(OrderRefusal::Twice(number))),
        Err(_) => return Err(OrderFault::NoMemory),
    }
    let Ok(marks) = marks_of(alloc, bound, order.as_slice()) else {
        return Err(OrderFault::NoMemory);
    };
    match first_unmarked(netlist.cells(), marks.as_slice()) {
        Some(number) => Err(OrderFault::Refused(OrderRefusal::LeftOut(number))),
        None => Ok(order),
    }
}

/// The cells of these names, all of the netlist's, each once.
fn all_cells(alloc: Global, netlist: &Netlist, texts: &[&[u8]]) -> Result<Vec<SignalId>, OrderFault>
    ensures { MatchResult result (λ order. AreAllCells netlist.now (texts_in texts.now) order.items) (IsRefusedBy (AreRefused netlist.now (texts_in texts.now))) }
{
    netlist.sound();
    let bound = netlist.inputs().len() + netlist.definitions().len();
    let Ok(names) = NameIndex::of(alloc, netlist) else {
        return Err(OrderFault::NoMemory);
    };
    let Ok(is_cell) = marks_of(alloc, bound, netlist.cells()) else {
        return Err(OrderFault::NoMemory);
    };
    let order = match cells_named(alloc, &names, is_cell.as_slice(), texts) {
        Ok(order) => order,
        Err(fault) => return Err(fault),
    };
    complete(alloc, netlist, bound, order)
}

/// The order that a text says.
pub fn read_order(alloc: Global, netlist: &Netlist, text: &[u8]) -> Result<Order, OrderFault>
    ensures { MatchResult result (λ order. IsOrder netlist.now text.now order.cells.items order.chains) (IsRefusedBy (IsRefused netlist.now text.now)) }
{
    if !is_order_text(text) {
        return Err(OrderFault::Refused(OrderRefusal::NotOrder));
    }
    let Ok(said) = said_in(alloc, text) else {
        return Err(OrderFault::NoMemory);
    };
    let cells = match all_cells(alloc, netlist, said.names.as_slice()) {
        Ok(cells) => cells,
        Err(fault) => return Err(fault),
    };
    let chains = said.lengths.len();
    if chains > MOST_CHAINS as usize {
        return Err(OrderFault::Refused(OrderRefusal::TooMany));
    }
    if chains > 0 && !are_even(said.lengths.as_slice(), cells.len()) {
        return Err(OrderFault::Refused(OrderRefusal::Uneven));
    }
    Ok(Order { cells, chains })
}
