//! Whether a file sets the known inputs of a netlist alone.
ghost use Rattle.std.specs.Prelude.{◌≡◌, ◌++◌, ◌∷◌, [], cond, false, slice_index_or, IfOk, OnOk, MatchBool, map};
ghost use Rattle.statement.specs.Netlists.{name_of};
ghost use Rattle.statement.specs.Stils.{numbered};
ghost use Rattle.unknown_inputs.specs.Unknowns.{known_part};
ghost use Rattle.known_tests.specs.Fitting.{FitsKnown};

use netlist::{Netlist, NoMemory};
use run_report::pin_names;
use std::alloc::{AllocError, Global};
use stil_write::{StilFile, Texts, numbered};

/// Whether the tester can't set the input at a place. Inputs behind the list are known.
pub(crate) fn is_unknown(unknown: &[bool], place: usize) -> bool
    ensures { result ≡ slice_index_or unknown.now place false }
{
    if place < unknown.len() {
        return unknown[place];
    }
    false
}

/// Adds a name, unless it is to be left out.
fn push_unless(left_out: bool, name: &[u8], names: &mut Texts) -> Result<(), AllocError>
    ensures { OnOk result (names.new ≡ names.old ++ cond left_out [] (name.now ∷ [])) }
{
    if left_out {
        return Ok(());
    }
    names.push(name)?;
    Ok(())
}

/// The names of the known inputs.
fn known_names(alloc: Global, netlist: &Netlist, unknown: &[bool]) -> Result<Texts, AllocError>
    ensures { IfOk result (λ names. names ≡ map (name_of netlist.now) (known_part unknown.now netlist.now.inputs)) }
{
    netlist.sound();
    let inputs = netlist.inputs();
    let mut names = Texts::new(alloc);
    for place in 0..inputs.len() {
        let name = netlist.name(inputs[place]);
        push_unless(is_unknown(unknown, place), name, &mut names)?;
    }
    Ok(names)
}

/// The file's names, the scan signals behind the others.
fn with_scan(alloc: Global, names: &Texts, stem: &[u8], chains: usize) -> Result<Texts, AllocError>
    ensures { IfOk result (λ all. all ≡ names.now ++ numbered stem.now chains) }
{
    let mut all = Texts::new(alloc);
    all.append(names)?;
    let scanned = numbered(alloc, stem, chains)?;
    all.append(&scanned)?;
    Ok(all)
}

/// Whether these are the same texts.
fn are_same(texts: &Texts, others: &Texts) -> bool
    ensures { MatchBool result (texts.now ≡ others.now) (texts.now ≡ others.now → ⊥) }
{
    if texts.len() != others.len() {
        return false;
    }
    for place in 0..texts.len() {
        let text = texts.get(place);
        let other = others.get(place);
        if text != other {
            return false;
        }
    }
    true
}

/// Whether a file's signals are the pins of a netlist without its unknown inputs, name by name. The names have to be made, so it takes memory.
pub fn fits_known(
    alloc: Global,
    file: &StilFile,
    netlist: &Netlist,
    unknown: &[bool],
) -> Result<bool, NoMemory>
    ensures { IfOk result (λ yes. MatchBool yes (FitsKnown file.now netlist.now unknown.now) (FitsKnown file.now netlist.now unknown.now → ⊥)) }
{
    let chains = file.chains().len();
    if (chains == 0) != netlist.cells().is_empty() {
        return Ok(false);
    }
    let inputs = with_scan(alloc, file.pi(), b"SC__si", chains)?;
    let known = known_names(alloc, netlist, unknown)?;
    if !are_same(&inputs, &known) {
        return Ok(false);
    }
    let outputs = with_scan(alloc, file.po(), b"SC__so", chains)?;
    let pins = pin_names(alloc, netlist)?;
    Ok(are_same(&outputs, &pins))
}
