//! The patterns that a file applies.
ghost use Rattle.std.specs.Prelude.{◌≡◌, ◌<◌, ◌∷◌, ◌++◌, ℕ, cond, [], length, slice_index_or, take, IfOk, OnOk};
ghost use Rattle.std.specs.List.{All, filter};
ghost use Rattle.netlist.specs.Holds.{AreHoldsOf};
ghost use Rattle.cubes.specs.Cubes.{IsPatternOf};
ghost use Rattle.stil_write.specs.StilFiles.{item_at, words_of};
ghost use Rattle.stil_patterns.specs.Applied.{applied_in, cells_in, chain_in, inputs_in, is_pattern, pattern_in, test_in};
ghost use Rattle.stil_patterns.specs.inner.Reading.{item_before};

use crate::obeying::is_pattern;
use cubes::Pattern;
use netlist::{Holds, Netlist, NoMemory};
use scan_insert::Chains;
use std::alloc::{AllocError, Global};
use stil_write::{ItemKind, Items, StilFile};

/// A word of an item; nothing where there is none.
fn word_at(items: &Items, place: usize, word: usize) -> &[u8]
    requires { place < length items.now }
    ensures { result.now ≡ slice_index_or (words_of (item_at items.now place)) word [] }
{
    if word < items.word_count(place) {
        return items.word(place, word);
    }
    &[]
}

/// A word of a load, where this is one of so many scan inputs' words.
fn scan_word(items: &Items, place: usize, count: usize, word: usize) -> &[u8]
    requires { place < length items.now }
    ensures { result.now ≡ slice_index_or (take count (words_of (item_at items.now place))) word [] }
{
    if word < count {
        return word_at(items, place, word);
    }
    &[]
}

/// Adds what a word brings to a chain of so many cells.
fn push_chain(cells: &mut Vec<bool>, count: usize, word: &[u8]) -> Result<(), AllocError>
    ensures { OnOk result (cells.new.items ≡ cells.old.items ++ chain_in count word.now) }
{
    for k in 0..count.min(word.len()) {
        cells.push(word[word.len() - 1 - k] == b'1')?;
    }
    Ok(())
}

/// What a load in a file of so many chains brings to the cells.
fn cells_in(
    alloc: Global,
    chains: &Chains,
    items: &Items,
    place: usize,
    count: usize,
) -> Result<Vec<bool>, AllocError>
    requires { place < length items.now }
    ensures { IfOk result (λ cells. cells.items ≡ cells_in chains.now (take count (words_of (item_at items.now place)))) }
{
    let mut cells = Vec::new(alloc);
    for c in 0..chains.count() {
        let word = scan_word(items, place, count, c as usize);
        push_chain(&mut cells, chains.chain(c).len(), word)?;
    }
    Ok(cells)
}

/// What a word drives the inputs with, in a file of so many chains.
fn inputs_in(alloc: Global, count: usize, word: &[u8]) -> Result<Vec<bool>, AllocError>
    ensures { IfOk result (λ inputs. inputs.items ≡ inputs_in count word.now) }
{
    let once = count.min(1);
    let mut inputs = Vec::new(alloc);
    for k in 0..word.len().saturating_sub(once) {
        inputs.push(word[k] == b'1')?;
    }
    Ok(inputs)
}

/// The pattern of a load and a vector, in a file of so many chains.
fn pattern_in(
    alloc: Global,
    chains: &Chains,
    items: &Items,
    load: usize,
    vector: usize,
    count: usize,
) -> Result<Pattern, AllocError>
    requires load { load < length items.now }
    requires vector { vector < length items.now }
    ensures { IfOk result (λ p. p ≡ pattern_in count chains.now (words_of (item_at items.now load)) (words_of (item_at items.now vector))) }
{
    let inputs = inputs_in(alloc, count, word_at(items, vector, 0))?;
    let cells = cells_in(alloc, chains, items, load, count)?;
    Ok(Pattern::new(inputs, cells))
}

/// Whether the item at a place applies a pattern: it is a vector, and behind a load where there are chains.
fn is_test(items: &Items, chains: &Chains, place: usize) -> bool
    requires { place < length items.now }
    ensures { (count : ℕ) → test_in count chains.now (item_before items.now place) (item_at items.now place)
        ≡ cond result (pattern_in count chains.now (words_of (item_before items.now place)) (words_of (item_at items.now place)) ∷ []) [] }
{
    if matches!(items.kind(place), ItemKind::Call) {
        return false;
    }
    chains.count() == 0 || (place > 0 && matches!(items.kind(place - 1), ItemKind::Call))
}

/// Adds the pattern that the item at a place applies, if it does and that is a pattern of the netlist that obeys.
fn push_applied(
    patterns: &mut Vec<Pattern>,
    alloc: Global,
    netlist: &Netlist,
    chains: &Chains,
    holds: &Holds,
    file: &StilFile,
    place: usize,
) -> Result<(), AllocError>
    requires place { place < length file.now.items }
    requires holds { AreHoldsOf netlist.now holds.now }
    ensures { OnOk result (patterns.new.items ≡ patterns.old.items
        ++ filter (is_pattern netlist.now holds.now) (test_in (length file.now.chains) chains.now (item_before file.now.items place) (item_at file.now.items place))) }
{
    let items = file.items();
    if !is_test(items, chains, place) {
        return Ok(());
    }
    let count = file.chains().len();
    let load = place.saturating_sub(1);
    let pattern = pattern_in(alloc, chains, items, load, place, count)?;
    if is_pattern(netlist, holds, &pattern) {
        patterns.push(pattern)?;
    }
    Ok(())
}

/// The patterns of the netlist that obey the held inputs and that a file applies, whatever it strobes: for each load with a vector directly behind it what
/// the one brings to the cells and the other drives the inputs with; without chains for each vector.
pub fn applied_patterns(
    alloc: Global,
    netlist: &Netlist,
    chains: &Chains,
    holds: &Holds,
    file: &StilFile,
) -> Result<Vec<Pattern>, NoMemory>
    requires { AreHoldsOf netlist.now holds.now }
    ensures are { IfOk result (λ patterns. patterns.items ≡ applied_in netlist.now holds.now chains.now file.now) }
    ensures obey { IfOk result (λ patterns. All (IsPatternOf netlist.now holds.now) patterns.items) }
{
    let mut patterns = Vec::new(alloc);
    for place in 0..file.items().len() {
        push_applied(&mut patterns, alloc, netlist, chains, holds, file, place)?;
    }
    Ok(patterns)
}
