//! The items of patterns. The responses to 64 patterns are settled at once, each a bit of a word: pattern by pattern that was a sixth of a run.
ghost use Rattle.std.specs.Prelude.{◌≡◌, ◌+◌, ◌^◌, ◌<◌, ◌≤◌, ◌++◌, [], length, map, take, None, IfOk, OnOk};
ghost use Rattle.std.specs.List.{All};
ghost use Rattle.statement.specs.Netlists.{Netlist as Equations, cells};
ghost use Rattle.cubes.specs.Cubes.{IsPatternOf};
ghost use Rattle.statement.specs.Tests.{cells_of, Responds};
ghost use Rattle.scan_insert.specs.Scanned.{AreChainsOf};
ghost use Rattle.events.specs.Words.{bit_of};
ghost use Rattle.word_sim.specs.Words.{HasWidthsOf};
ghost use Rattle.stil_patterns.specs.inner.Added.{AreAll, AreBegun, IsAdded, flush_items, response_at};

use crate::capturing::push_capture;
use crate::loading::{Room, push_load, push_zero_load};
use cubes::Pattern;
use netlist::{Core, Holds, NoMemory, Tri};
use scan_insert::Chains;
use scan_play::{cell_count, complement, flush, push_known, strobes_of};
use std::alloc::{AllocError, Global};
use stil_write::Items;
use word_sim::{ResponseWords, response64};

/// Room for the response to a pattern.
#[derive(Drop)]
struct Bench {
    outputs: Vec<bool>,
    cells: Vec<bool>,
}

fn is_set(word: u64, place: usize) -> bool
    requires { place < 64 }
    ensures { result ≡ bit_of place word }
{
    (word >> place) % 2 == 1
}

/// The bits of words at one place.
fn bits_at(words: &[u64], place: usize, bits: &mut Vec<bool>) -> Result<(), AllocError>
    requires { place < 64 }
    ensures { OnOk result (bits.new.items ≡ map (bit_of place) words.now) }
{
    bits.clear();
    for word in words {
        bits.push(is_set(*word, place))?;
    }
    Ok(())
}

/// Adds a pattern's load and its capture, by the bits of the words at its place; what the cells then hold takes the place of what they held.
fn push_test(
    items: &mut Items,
    room: &mut Room,
    chains: &Chains,
    pattern: &Pattern,
    words: &ResponseWords,
    place: usize,
    held: &mut Vec<Tri>,
    bench: &mut Bench,
) -> Result<(), AllocError>
    requires place { place < 64 }
    requires cells { length pattern.now.cells ≡ length (cells_of chains.now) }
    requires few { length pattern.now.cells < 2 ^ 32 }
    requires held { length held.old.items ≡ length (cells_of chains.now) }
    ensures { OnOk result ((n : Equations) → Responds n None pattern.now (response_at place words.now.outputs.items words.now.cells.items)
        → IsAdded n chains.now pattern.now held.old.items held.new.items items.old items.new) }
{
    bits_at(&words.outputs, place, &mut bench.outputs)?;
    bits_at(&words.cells, place, &mut bench.cells)?;
    push_load(items, room, chains, pattern.cells(), held)?;
    push_capture(items, room, chains, pattern, &bench.outputs)?;
    held.clear();
    push_known(&bench.cells, held)?;
    Ok(())
}

/// Adds the tests of a part of the patterns, 64 at most: each gate is evaluated once for all of them.
fn push_part(
    alloc: Global,
    items: &mut Items,
    room: &mut Room,
    core: &Core,
    chains: &Chains,
    patterns: &[Pattern],
    start: usize,
    end: usize,
    held: &mut Vec<Tri>,
    bench: &mut Bench,
) -> Result<(), NoMemory>
    requires wide { All (HasWidthsOf core.now) patterns.now }
    requires cells { length (cells core.now) ≡ length (cells_of chains.now) }
    requires few_cells { length (cells core.now) < 2 ^ 32 }
    requires order { start ≤ end }
    requires end { end ≤ length patterns.now }
    requires few { end ≤ start + 64 }
    requires begun { AreBegun core.now chains.now (take start patterns.now) items.old held.old.items }
    ensures { OnOk result (AreBegun core.now chains.now (take end patterns.now) items.new held.new.items) }
{
    core.netlist().sound();
    let words = response64(alloc, core, &patterns[start..end])?;
    for k in start..end {
        push_test(
            items,
            room,
            chains,
            &patterns[k],
            &words,
            k - start,
            held,
            bench,
        )?;
    }
    Ok(())
}

/// Adds the three loads that flush the chains.
pub fn push_flush(
    alloc: Global,
    items: &mut Items,
    room: &mut Room,
    chains: &Chains,
    cells: usize,
) -> Result<(), AllocError>
    requires all { cells ≡ length (cells_of chains.now) }
    requires few { cells < 2 ^ 32 }
    ensures { OnOk result (items.new ≡ items.old ++ flush_items chains.now) }
{
    let first = flush(alloc, chains)?;
    let second = complement(alloc, &first)?;
    let idle = vec![in alloc; Tri::X; cells]?;
    let held_first = strobes_of(alloc, &first)?;
    let held_second = strobes_of(alloc, &second)?;
    push_load(items, room, chains, &first, &idle)?;
    push_load(items, room, chains, &second, &held_first)?;
    push_zero_load(alloc, items, room, chains, &held_second)?;
    Ok(())
}

/// Adds the tests of all patterns, 64 after another.
fn push_tests(
    alloc: Global,
    items: &mut Items,
    room: &mut Room,
    core: &Core,
    chains: &Chains,
    patterns: &[Pattern],
    held: &mut Vec<Tri>,
) -> Result<(), NoMemory>
    requires wide { All (HasWidthsOf core.now) patterns.now }
    requires cells { length (cells core.now) ≡ length (cells_of chains.now) }
    requires few_cells { length (cells core.now) < 2 ^ 32 }
    requires begun { AreBegun core.now chains.now [] items.old held.old.items }
    ensures { OnOk result (AreBegun core.now chains.now patterns.now items.new held.new.items) }
{
    let mut bench = Bench {
        outputs: Vec::new(alloc),
        cells: Vec::new(alloc),
    };
    let mut start = 0;
    while start < patterns.len() {
        let end = if patterns.len() - start > 64 {
            start + 64
        } else {
            patterns.len()
        };
        push_part(
            alloc, items, room, core, chains, patterns, start, end, held, &mut bench,
        )?;
        start = end;
    }
    Ok(())
}

/// The items of the patterns' file.
pub(crate) fn items_of(
    alloc: Global,
    core: &Core,
    chains: &Chains,
    patterns: &[Pattern],
    holds: &Holds,
) -> Result<Items, NoMemory>
    requires chains { AreChainsOf core.now chains.now }
    requires patterns { All (IsPatternOf core.now holds.now) patterns.now }
    ensures { IfOk result (λ items. AreAll core.now chains.now patterns.now items) }
{
    let cells = cell_count(core, chains);
    let mut items = Items::new(alloc);
    let mut room = Room::new(alloc);
    push_flush(alloc, &mut items, &mut room, chains, cells)?;
    let mut held = vec![in alloc; Tri::X; cells]?;
    push_tests(
        alloc, &mut items, &mut room, core, chains, patterns, &mut held,
    )?;
    push_zero_load(alloc, &mut items, &mut room, chains, &held)?;
    Ok(items)
}
