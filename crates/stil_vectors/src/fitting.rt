//! Whether a file fits a netlist.
ghost use Rattle.std.specs.Prelude.{◌≡◌, ◌+◌, ◌<◌, ◌++◌, IfOk, MatchBool, length, map};
ghost use Rattle.statement.specs.Netlists.{name_of, signals};
ghost use Rattle.statement.specs.Runs.{output_name};
ghost use Rattle.statement.specs.Stils.{numbered};
ghost use Rattle.stil_vectors.specs.Fitting.{FitsNetlist};

use netlist::{Netlist, NoMemory};
use scan_insert::pin_name;
use std::alloc::{AllocError, Global};
use stil_write::{StilFile, Texts, numbered};

/// The file's names, the scan signals behind the others.
fn with_scan(alloc: Global, names: &Texts, stem: &[u8], chains: usize) -> Result<Texts, AllocError>
    ensures { IfOk result (λ all. all ≡ names.now ++ numbered stem.now chains) }
{
    let mut all = Texts::new(alloc);
    all.append(names)?;
    let scanned = numbered(alloc, stem, chains)?;
    all.append(&scanned)?;
    Ok(all)
}

/// Whether these are the names of the netlist's inputs.
fn are_inputs(netlist: &Netlist, names: &Texts) -> bool
    ensures { MatchBool result (names.now ≡ map (name_of netlist.now) netlist.now.inputs) (names.now ≡ map (name_of netlist.now) netlist.now.inputs → ⊥) }
{
    let inputs = netlist.inputs();
    if names.len() != inputs.len() {
        return false;
    }
    netlist.sound();
    for place in 0..inputs.len() {
        let name = names.get(place);
        let input = netlist.name(inputs[place]);
        if name != input {
            return false;
        }
    }
    true
}

/// Whether these are the names of the pins at the netlist's outputs.
fn are_outputs(alloc: Global, netlist: &Netlist, names: &Texts) -> Result<bool, NoMemory>
    ensures { IfOk result (λ yes. MatchBool yes (names.now ≡ map (output_name netlist.now) netlist.now.outputs) (names.now ≡ map (output_name netlist.now) netlist.now.outputs → ⊥)) }
{
    let outputs = netlist.outputs().len();
    if names.len() != outputs {
        return Ok(false);
    }
    netlist.sound();
    for place in 0..outputs {
        let own = names.get(place);
        let pin = pin_name(alloc, netlist, place as u32)?;
        if own != pin.as_slice() {
            return Ok(false);
        }
    }
    Ok(true)
}

/// Whether a file's signals are the pins of a netlist, name by name. The names have to be made, so it takes memory.
pub fn fits(alloc: Global, file: &StilFile, netlist: &Netlist) -> Result<bool, NoMemory>
    ensures { IfOk result (λ yes. MatchBool yes (FitsNetlist file.now netlist.now) (FitsNetlist file.now netlist.now → ⊥)) }
{
    let chains = file.chains().len();
    if (chains == 0) != netlist.cells().is_empty() {
        return Ok(false);
    }
    let inputs = with_scan(alloc, file.pi(), b"SC__si", chains)?;
    if !are_inputs(netlist, &inputs) {
        return Ok(false);
    }
    let outputs = with_scan(alloc, file.po(), b"SC__so", chains)?;
    are_outputs(alloc, netlist, &outputs)
}
