//! The names of a file's signals and cells, and the word of a shift.
ghost use Rattle.std.specs.Prelude.{◌≡◌, ◌^◌, ◌<◌, ◌++◌, codes, length, map, IfOk, OnOk};
ghost use Rattle.std.specs.List.{All};
ghost use Rattle.statement.specs.Netlists.{name_of, signals};
ghost use Rattle.statement.specs.Runs.{output_name};
ghost use Rattle.scan_insert.specs.Scanned.{AreChainsOf};
ghost use Rattle.statement.specs.Stils.{where_chained};
ghost use Rattle.statement.specs.Tests.{char_of_bit, shift_word_of, held_or_zero};

use crate::words::char_of_bit;
use netlist::{Holds, Netlist, NoMemory, SignalId};
use scan_insert::{Chains, pin_name};
use std::alloc::{AllocError, Global};
use stil_write::Texts;

/// Adds the names of signals.
fn push_names(names: &mut Texts, netlist: &Netlist, ids: &[SignalId]) -> Result<(), AllocError>
    requires { All (λ x. x < length (signals netlist.now)) ids.now }
    ensures { OnOk result (names.new ≡ names.old ++ map (name_of netlist.now) ids.now) }
{
    for id in ids {
        names.push(netlist.name(*id))?;
    }
    Ok(())
}

/// The inputs, and the scan enable where there are chains.
pub(crate) fn input_names(
    alloc: Global,
    netlist: &Netlist,
    chains: usize,
) -> Result<Texts, AllocError>
    ensures { IfOk result (λ names. names ≡ map (name_of netlist.now) netlist.now.inputs ++ where_chained chains (codes "SC__se")) }
{
    netlist.sound();
    let mut names = Texts::new(alloc);
    push_names(&mut names, netlist, netlist.inputs())?;
    if chains > 0 {
        names.push(b"SC__se")?;
    }
    Ok(names)
}

/// What the tester calls the outputs: one that is an input too has a name of its own.
pub(crate) fn output_names(alloc: Global, netlist: &Netlist) -> Result<Texts, NoMemory>
    ensures { IfOk result (λ names. names ≡ map (output_name netlist.now) netlist.now.outputs) }
{
    netlist.sound();
    let mut names = Texts::new(alloc);
    for place in 0..netlist.outputs().len() {
        let pin = pin_name(alloc, netlist, place as u32)?;
        names.push(&pin).map_err(|_| NoMemory)?;
    }
    Ok(names)
}

pub(crate) fn chain_names(
    alloc: Global,
    netlist: &Netlist,
    chains: &Chains,
) -> Result<Vec<Texts>, AllocError>
    requires { AreChainsOf netlist.now chains.now }
    ensures { IfOk result (λ names. names.items ≡ map (map (name_of netlist.now)) chains.now) }
{
    netlist.sound();
    let mut all = Vec::with_capacity(alloc, chains.count() as usize)?;
    for c in 0..chains.count() {
        let mut names = Texts::new(alloc);
        push_names(&mut names, netlist, chains.chain(c))?;
        all.push(names)?;
    }
    Ok(all)
}

/// The character of what an input has while the chains shift.
fn idle_char(held: Option<bool>) -> u8
    ensures { result ≡ char_of_bit (held_or_zero held) }
{
    char_of_bit(matches!(held, Some(true)))
}

/// What the inputs have while the chains shift; nothing without chains.
pub(crate) fn shift_word(
    alloc: Global,
    inputs: usize,
    holds: &Holds,
    chains: &Chains,
) -> Result<Vec<u8>, AllocError>
    requires all { inputs ≡ length holds.now }
    requires few { inputs < 2 ^ 32 }
    ensures { IfOk result (λ word. word.items ≡ shift_word_of holds.now chains.now) }
{
    let mut word = Vec::new(alloc);
    if chains.count() == 0 {
        return Ok(word);
    }
    for k in 0..inputs as u32 {
        word.push(idle_char(holds.held(k)))?;
    }
    word.push(b'1')?;
    Ok(word)
}
