//! The names of an order, and the cells of these names.
ghost use Rattle.std.specs.Prelude.{◌≡◌, ◌≢◌, ◌<◌, ◌++◌, length, map, IfOk, OnOk, MatchOption, MatchResult};
ghost use Rattle.std.specs.List.{All, Contains};
ghost use Rattle.statement.specs.Netlists.{name_of};
ghost use Rattle.netlist.specs.Netlist.{signal_count};
ghost use Rattle.scan_insert.specs.Scanned.{cell_ids};
ghost use Rattle.cell_order.specs.Orders.{AreCells, IsRefusedBy, words_of};
ghost use Rattle.cell_order.specs.inner.Reads.{AreMarked, HasNames, texts_in};
ghost use Rattle.cell_order.specs.inner.Refusing.{HasStranger};

use crate::grammar::first_line;
use crate::marks::is_marked;
use crate::refusal::{OrderFault, OrderRefusal};
use name_index::NameIndex;
use netlist::SignalId;
use plain_text::split_at;
use std::alloc::{AllocError, Global};

/// The names of an order, and how many each line has.
#[derive(Drop)]
pub(crate) struct Said<'a> {
    pub names: Vec<&'a [u8]>,
    pub lengths: Vec<usize>,
}

/// Adds the words of a line.
fn push_words<'a>(line: &'a [u8], names: &mut Vec<&'a [u8]>) -> Result<(), AllocError>
    ensures { OnOk result (texts_in names.new.items ≡ texts_in names.old.items ++ words_of line.now) }
{
    let mut rest = line;
    'words: while let Some((word, more)) = split_at(rest, b' ') {
        names.push(word)?;
        rest = more;
    }
    names.push(rest)?;
    Ok(())
}

pub(crate) fn said_in<'a>(alloc: Global, text: &'a [u8]) -> Result<Said<'a>, AllocError>
    ensures { IfOk result (HasNames text.now) }
{
    let mut names = Vec::new(alloc);
    let mut lengths = Vec::new(alloc);
    let mut rest = text;
    'lines: while !rest.is_empty() {
        let (line, after) = first_line(rest);
        let before = names.len();
        push_words(line, &mut names)?;
        lengths.push(names.len() - before)?;
        rest = after;
    }
    Ok(Said { names, lengths })
}

/// The cell of this name.
fn cell_named(names: &NameIndex, is_cell: &[bool], name: &[u8]) -> Option<SignalId>
    requires size { length is_cell.now ≡ signal_count names.now }
    requires cells { AreMarked (cell_ids names.now) is_cell.now }
    ensures { MatchOption result (All (λ x. name_of names.now x ≢ name.now) (cell_ids names.now)) (λ x. Contains (cell_ids names.now) x × (name_of names.now x ≡ name.now)) }
{
    names.netlist().sound();
    let Some(signal) = names.get(name) else {
        return None;
    };
    if is_marked(is_cell, signal) {
        Some(signal)
    } else {
        None
    }
}

/// The cells of these names, or the first name that is no cell's.
pub(crate) fn cells_named(
    alloc: Global,
    names: &NameIndex,
    is_cell: &[bool],
    texts: &[&[u8]],
) -> Result<Vec<SignalId>, OrderFault>
    requires size { length is_cell.now ≡ signal_count names.now }
    requires cells { AreMarked (cell_ids names.now) is_cell.now }
    ensures { MatchResult result (λ order. AreCells names.now (texts_in texts.now) order.items) (IsRefusedBy (HasStranger names.now (texts_in texts.now))) }
{
    let mut order = Vec::new(alloc);
    for (place, text) in texts.iter().enumerate() {
        let Some(cell) = cell_named(names, is_cell, text) else {
            return Err(OrderFault::Refused(OrderRefusal::NotCell(place + 1)));
        };
        let Ok(()) = order.push(cell) else {
            return Err(OrderFault::NoMemory);
        };
    }
    Ok(order)
}
