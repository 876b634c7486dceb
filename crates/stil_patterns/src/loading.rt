//! Calls that load the chains.
ghost use Rattle.std.specs.Prelude.{◌≡◌, ◌^◌, ◌<◌, ◌++◌, false, length, map, replicate, OnOk};
ghost use Rattle.statement.specs.Tests.{cells_of, longest_of, by_chain, word_in, word_out, load_items};
ghost use Rattle.stil_vectors.specs.TestFiles.{text_of_bits, text_of_values};

use crate::words::{set_word_in, set_word_out};
use netlist::Tri;
use scan_insert::Chains;
use std::alloc::{AllocError, Global};
use stil_write::{ItemKind, Items, Texts};

/// Room for an item's words, and for one of them.
#[derive(Drop)]
pub struct Room {
    pub(crate) word: Vec<u8>,
    pub(crate) words: Texts,
}

impl Room {
    pub fn new(alloc: Global) -> Room {
        Room {
            word: Vec::new(alloc),
            words: Texts::new(alloc),
        }
    }
}

/// Adds the words for the scan inputs, which bring these bits to the cells.
fn push_ins(room: &mut Room, chains: &Chains, bits: &[bool]) -> Result<(), AllocError>
    requires all { length bits.now ≡ length (cells_of chains.now) }
    requires few { length bits.now < 2 ^ 32 }
    ensures { OnOk result (room.new.words ≡ room.old.words ++ map text_of_bits (map (word_in (longest_of chains.now)) (by_chain chains.now bits.now))) }
{
    let m = chains.longest() as usize;
    let mut start = 0;
    for c in 0..chains.count() {
        let end = start + chains.chain(c).len();
        set_word_in(&mut room.word, &bits[start..end], m)?;
        room.words.push(&room.word)?;
        start = end;
    }
    Ok(())
}

/// Adds the words for the scan outputs, which strobe what the cells should hold.
fn push_outs(room: &mut Room, chains: &Chains, held: &[Tri]) -> Result<(), AllocError>
    requires all { length held.now ≡ length (cells_of chains.now) }
    requires few { length held.now < 2 ^ 32 }
    ensures { OnOk result (room.new.words ≡ room.old.words ++ map text_of_values (map (word_out (longest_of chains.now)) (by_chain chains.now held.now))) }
{
    let m = chains.longest() as usize;
    let mut start = 0;
    for c in 0..chains.count() {
        let end = start + chains.chain(c).len();
        set_word_out(&mut room.word, &held[start..end], m)?;
        room.words.push(&room.word)?;
        start = end;
    }
    Ok(())
}

/// Adds a load of these bits, which strobes what the cells should hold before.
pub fn push_load(
    items: &mut Items,
    room: &mut Room,
    chains: &Chains,
    bits: &[bool],
    held: &[Tri],
) -> Result<(), AllocError>
    requires bits { length bits.now ≡ length (cells_of chains.now) }
    requires held { length held.now ≡ length (cells_of chains.now) }
    requires few { length bits.now < 2 ^ 32 }
    ensures { OnOk result (items.new ≡ items.old ++ load_items chains.now bits.now held.now) }
{
    if chains.count() == 0 {
        return Ok(());
    }
    room.words.clear();
    push_ins(room, chains, bits)?;
    push_outs(room, chains, held)?;
    items.push(ItemKind::Call, &room.words)?;
    Ok(())
}

/// Adds a load of 0s, which strobes what the cells should hold before.
pub fn push_zero_load(
    alloc: Global,
    items: &mut Items,
    room: &mut Room,
    chains: &Chains,
    held: &[Tri],
) -> Result<(), AllocError>
    requires held { length held.now ≡ length (cells_of chains.now) }
    requires few { length held.now < 2 ^ 32 }
    ensures { OnOk result (items.new ≡ items.old ++ load_items chains.now (replicate (length (cells_of chains.now)) false) held.now) }
{
    let zeros = vec![in alloc; false; held.len()]?;
    push_load(items, room, chains, &zeros, held)?;
    Ok(())
}
