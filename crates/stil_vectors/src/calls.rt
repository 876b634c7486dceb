//! The cycles of a call.
ghost use Rattle.std.specs.Prelude.{◌≡◌, ◌+◌, ◌≤◌, ◌<◌, ◌++◌, [], false, length, map, take, drop, slice_index_or, IfOk, OnOk};
ghost use Rattle.std.specs.List.{All, flat_map};
ghost use Rattle.statement.specs.declared.kinds.Tri.TheVariants.{X};
ghost use Rattle.statement.specs.Runs.{numbers_from};
ghost use Rattle.scan_play.specs.Bursts.{cycles_of};
ghost use Rattle.statement.specs.Tests.{column, cycles_of_item};
ghost use Rattle.stil_write.specs.StilFiles.{IsStilCall, item_at, words_of};
ghost use Rattle.statement.specs.Stils.{Call};
ghost use Rattle.stil_vectors.specs.FileVectors.{bits_of, call_size, values_of};

use crate::characters::{bit_of, push_bits, value_of};
use netlist::Tri;
use scan_play::{Burst, no_strobes};
use std::alloc::{AllocError, Global};
use stil_write::{Items, StilFile};

/// Adds character t of each of the first words.
fn push_ins(
    ins: &mut Vec<bool>,
    items: &Items,
    place: usize,
    chains: usize,
    t: usize,
) -> Result<(), AllocError>
    requires item { place < length items.now }
    requires words { chains ≤ length (words_of (item_at items.now place)) }
    requires long { All (λ word. t < length word) (words_of (item_at items.now place)) }
    ensures { OnOk result (ins.new.items ≡ ins.old.items ++ column false (map bits_of (take chains (words_of (item_at items.now place)))) t) }
{
    for chain in 0..chains {
        let word = items.word(place, chain);
        ins.push(bit_of(word[t]))?;
    }
    Ok(())
}

/// Adds character t of each of the words behind them.
fn push_outs(
    outs: &mut Vec<Tri>,
    items: &Items,
    place: usize,
    chains: usize,
    t: usize,
) -> Result<(), AllocError>
    requires item { place < length items.now }
    requires words { length (words_of (item_at items.now place)) ≡ chains + chains }
    requires long { All (λ word. t < length word) (words_of (item_at items.now place)) }
    ensures { OnOk result (outs.new.items ≡ outs.old.items ++ column X (map values_of (drop chains (words_of (item_at items.now place)))) t) }
{
    for k in chains..items.word_count(place) {
        let word = items.word(place, k);
        outs.push(value_of(word[t]))?;
    }
    Ok(())
}

/// What the scan inputs are driven with, shift by shift.
fn all_ins(
    alloc: Global,
    items: &Items,
    place: usize,
    chains: usize,
    size: usize,
) -> Result<Vec<bool>, AllocError>
    requires item { place < length items.now }
    requires words { chains ≤ length (words_of (item_at items.now place)) }
    requires long { All (λ word. length word ≡ size) (words_of (item_at items.now place)) }
    ensures { IfOk result (λ v. v.items ≡ flat_map (column false (map bits_of (take chains (words_of (item_at items.now place))))) (numbers_from 0 size)) }
{
    let mut ins = Vec::with_capacity(alloc, size.saturating_mul(chains))?;
    for t in 0..size {
        push_ins(&mut ins, items, place, chains, t)?;
    }
    Ok(ins)
}

/// What the scan outputs are strobed for, shift by shift.
fn all_outs(
    alloc: Global,
    items: &Items,
    place: usize,
    chains: usize,
    size: usize,
) -> Result<Vec<Tri>, AllocError>
    requires item { place < length items.now }
    requires words { length (words_of (item_at items.now place)) ≡ chains + chains }
    requires long { All (λ word. length word ≡ size) (words_of (item_at items.now place)) }
    ensures { IfOk result (λ v. v.items ≡ flat_map (column X (map values_of (drop chains (words_of (item_at items.now place))))) (numbers_from 0 size)) }
{
    let mut outs = Vec::with_capacity(alloc, size.saturating_mul(chains))?;
    for t in 0..size {
        push_outs(&mut outs, items, place, chains, t)?;
    }
    Ok(outs)
}

/// The cycles of a call, as many as its words have characters, in one burst.
pub(crate) fn call_burst(alloc: Global, file: &StilFile, place: usize) -> Result<Burst, AllocError>
    requires item { place < length file.now.items }
    requires call { item_at file.now.items place ≡ Call (words_of (item_at file.now.items place)) }
    ensures { IfOk result (λ b. cycles_of b ≡ cycles_of_item file.now (item_at file.now.items place)) }
{
    file.sound();
    let items = file.items();
    let width = file.chains().len();
    let count = items.word(place, 0).len();
    let mut drive = Vec::new(alloc);
    push_bits(&mut drive, file.shift_word())?;
    let strobe = no_strobes(alloc, file.po().len())?;
    let ins = all_ins(alloc, items, place, width, count)?;
    let outs = all_outs(alloc, items, place, width, count)?;
    Ok(Burst {
        drive,
        strobe,
        pulse: true,
        width,
        ins,
        outs,
        count,
    })
}
