//! The vectors of a file.
ghost use Rattle.std.specs.Prelude.{◌≡◌, ◌+◌, ◌≤◌, ◌<◌, ◌++◌, ◌^◌, [], length, take, drop, IfOk, OnOk};
ghost use Rattle.scan_play.specs.Bursts.{all_cycles, cycles_of};
ghost use Rattle.statement.specs.Stils.{Vector};
ghost use Rattle.stil_write.specs.StilFiles.{item_at, words_of};
ghost use Rattle.stil_vectors.specs.FileVectors.{IsPulsed, bits_of, together, values_of};
ghost use Rattle.statement.specs.Tests.{cycles_of_item, has_pulse, vectors_in};

use crate::calls::call_burst;
use crate::characters::{push_bits, push_values};
use netlist::{NoMemory, Tri};
use scan_play::{Burst, Vectors, single};
use std::alloc::{AllocError, Global};
use stil_write::{ItemKind, Items, StilFile};

/// The bits of the first words of an item.
fn driven(alloc: Global, items: &Items, place: usize, count: usize) -> Result<Vec<bool>, AllocError>
    requires item { place < length items.now }
    requires words { count ≤ length (words_of (item_at items.now place)) }
    ensures { IfOk result (λ v. v.items ≡ bits_of (together (take count (words_of (item_at items.now place))))) }
{
    let mut bits = Vec::new(alloc);
    for k in 0..count {
        push_bits(&mut bits, items.word(place, k))?;
    }
    Ok(bits)
}

/// The strobes of the last words of an item.
fn strobed(alloc: Global, items: &Items, place: usize, start: usize) -> Result<Vec<Tri>, AllocError>
    requires item { place < length items.now }
    requires words { start ≤ length (words_of (item_at items.now place)) }
    ensures { IfOk result (λ v. v.items ≡ values_of (together (drop start (words_of (item_at items.now place))))) }
{
    let mut values = Vec::new(alloc);
    for k in start..items.word_count(place) {
        push_values(&mut values, items.word(place, k))?;
    }
    Ok(values)
}

/// Whether the clock has a pulse in a vector.
fn has_pulse(items: &Items, place: usize, chains: usize, clock: usize) -> bool
    requires item { place < length items.now }
    requires clock { clock ≡ chains + 1 }
    requires word { IsPulsed chains (words_of (item_at items.now place)) }
    ensures { result ≡ has_pulse chains (words_of (item_at items.now place)) }
{
    if chains == 0 {
        return false;
    }
    let word = items.word(place, clock);
    word[0] == b'P'
}

fn vector_burst(alloc: Global, file: &StilFile, place: usize) -> Result<Burst, AllocError>
    requires item { place < length file.now.items }
    requires vector { item_at file.now.items place ≡ Vector (words_of (item_at file.now.items place)) }
    ensures { IfOk result (λ b. cycles_of b ≡ cycles_of_item file.now (item_at file.now.items place)) }
{
    file.sound();
    let items = file.items();
    let chains = file.chains().len();
    let inputs = chains + 1;
    let pulse = has_pulse(items, place, chains, inputs);
    let drive = driven(alloc, items, place, inputs)?;
    let strobe = strobed(alloc, items, place, inputs + chains.min(1))?;
    Ok(single(alloc, drive, strobe, pulse))
}

fn item_burst(alloc: Global, file: &StilFile, place: usize) -> Result<Burst, AllocError>
    requires { place < length file.now.items }
    ensures { IfOk result (λ b. cycles_of b ≡ cycles_of_item file.now (item_at file.now.items place)) }
{
    match file.items().kind(place) {
        ItemKind::Call => call_burst(alloc, file, place),
        ItemKind::Vector => vector_burst(alloc, file, place),
    }
}

/// The cycles of all items, burst by burst.
fn bursts(alloc: Global, file: &StilFile) -> Result<Vec<Burst>, AllocError>
    ensures { IfOk result (λ v. all_cycles v.items ≡ vectors_in file.now) }
{
    let count = file.items().len();
    let mut bursts = Vec::with_capacity(alloc, count)?;
    for place in 0..count {
        let burst = item_burst(alloc, file, place)?;
        bursts.push(burst)?;
    }
    Ok(bursts)
}

/// What a file does on a tester, cycle by cycle.
pub fn vectors(alloc: Global, file: &StilFile) -> Result<Vectors, NoMemory>
    ensures { IfOk result (λ v. v ≡ vectors_in file.now) }
{
    let all = bursts(alloc, file)?;
    Ok(Vectors::new(all))
}
