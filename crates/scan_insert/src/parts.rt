//! The parts of which the scanned netlist is made.
ghost use Rattle.std.specs.Prelude.{◌≡◌, ◌++◌, ◌∷◌, [], ◌+◌, ◌<◌, ◌≤◌, length, map, IfOk, OnOk};
ghost use Rattle.std.specs.List.{All, zip};
ghost use Rattle.netlist.specs.Conditions.{IsSound, whole};
ghost use Rattle.statement.specs.Netlists.{Definition as Equation, cells, signals};
ghost use Rattle.netlist.specs.Netlist.{define};
ghost use Rattle.statement.specs.declared.kinds.Kind.TheVariants.{Not};
ghost use Rattle.scan_insert.specs.Names.{names_of};
ghost use Rattle.statement.specs.Runs.{numbers_from};
ghost use Rattle.scan_insert.specs.Scan.{show_last};
ghost use Rattle.scan_insert.specs.Scanned.{befores, first_scan_out, last_of, scanned_of, sites_of};
ghost use Rattle.scan_insert.specs.inner.Made.{IsReady, held_at, scan_definitions, stem_at};

use crate::cells::{Enables, define, moved_gate, push_scan_cell};
use crate::chains::Chains;
use crate::shift_paths::{befores, push_scan_outputs};
use crate::signal_names::signal_names;
use crate::sites::Site;
use netlist::{Definition, Kind, Netlist, Parts, SignalId};
use std::alloc::{AllocError, Global};

/// Adds what has the stems of these signals.
fn push_stems(ids: &[SignalId], sites: &[Site], stems: &mut Vec<SignalId>) -> Result<(), AllocError>
    requires { All (λ x. x < length sites.now) ids.now }
    ensures { OnOk result (stems.new.items ≡ stems.old.items ++ map (stem_at sites.now) ids.now) }
{
    for x in ids {
        stems.push(sites[x.index()].stem)?;
    }
    Ok(())
}

/// Adds so many signals from one on.
fn push_numbers(first: u32, count: u32, signals: &mut Vec<SignalId>) -> Result<(), AllocError>
    requires { first + count ≤ 8000000 }
    ensures { OnOk result (signals.new.items ≡ signals.old.items ++ numbers_from first count) }
{
    for c in 0..count {
        signals.push(SignalId(first + c))?;
    }
    Ok(())
}

/// The signals that these are in the scanned netlist, and so many new ones.
fn stems_and_numbers(
    alloc: Global,
    ids: &[SignalId],
    sites: &[Site],
    first: u32,
    count: u32,
) -> Result<Vec<SignalId>, AllocError>
    requires within { All (λ x. x < length sites.now) ids.now }
    requires room { first + count ≤ 8000000 }
    ensures { IfOk result (λ v. v.items ≡ map (stem_at sites.now) ids.now ++ numbers_from first count) }
{
    let mut signals = Vec::with_capacity(alloc, ids.len().saturating_add(count as usize))?;
    push_stems(ids, sites, &mut signals)?;
    push_numbers(first, count, &mut signals)?;
    Ok(signals)
}

/// Adds each definition in its place, and in a cell's place the gates of a scan cell.
fn push_definitions(
    alloc: Global,
    netlist: &Netlist,
    sites: &[Site],
    enables: &Enables,
    befores: &[SignalId],
    made: &mut Vec<Definition>,
) -> Result<(), AllocError>
    requires sound { IsSound netlist.now }
    requires size { length sites.now ≡ length (signals netlist.now) }
    requires low { All (λ t. t.pins ≤ 7000000) sites.now }
    requires befores { length befores.now ≡ length (cells netlist.now) }
    ensures { OnOk result (made.new.items ≡ made.old.items
        ++ scan_definitions sites.now enables.now.enable enables.now.enable_not befores.now netlist.now.definitions) }
{
    let mut cell = 0;
    for definition in netlist.definitions() {
        if definition.kind().is_flip_flop() {
            push_scan_cell(alloc, definition, sites, enables, befores[cell], made)?;
            cell += 1;
        } else {
            made.push(moved_gate(alloc, definition, sites)?)?;
        }
    }
    Ok(())
}

fn scanned_definitions(
    alloc: Global,
    netlist: &Netlist,
    chains: &Chains,
    sites: &[Site],
    first_output: u32,
) -> Result<Vec<Definition>, AllocError>
    requires sound { IsSound netlist.now }
    requires ready { IsReady netlist.now chains.now sites.now }
    requires first { first_output ≡ first_scan_out netlist.now (length chains.now) }
    ensures { IfOk result (λ v. v.items
        ≡ define (length netlist.now.inputs + 1 + length chains.now) Not (length netlist.now.inputs ∷ [])
        ∷ scan_definitions sites.now (length netlist.now.inputs) (length netlist.now.inputs + 1 + length chains.now)
        (befores (held_at sites.now) (length netlist.now.inputs + 1) chains.now) netlist.now.definitions
        ++ map show_last (zip (numbers_from first_output (length chains.now)) (map (λ chain. held_at sites.now (last_of chain)) chains.now))) }
{
    let inputs = netlist.inputs().len() as u32;
    let enables = Enables {
        enable: SignalId(inputs),
        enable_not: SignalId(inputs + 1 + chains.count()),
    };
    let cells = netlist.cells().len();
    let before = befores(alloc, chains, inputs + 1, cells, sites)?;
    let count = (first_output - inputs) as usize;
    let mut made = Vec::with_capacity(alloc, count)?;
    made.push(define(alloc, enables.enable_not, Kind::Not, &[enables.enable])?)?;
    push_definitions(alloc, netlist, sites, &enables, &before, &mut made)?;
    push_scan_outputs(alloc, chains, first_output, sites, &mut made)?;
    Ok(made)
}

/// The parts of the scanned netlist, where there are chains.
pub(crate) fn scanned_parts(
    alloc: Global,
    netlist: &Netlist,
    chains: &Chains,
    sites: &[Site],
) -> Result<Parts, AllocError>
    requires sound { IsSound netlist.now }
    requires ready { IsReady netlist.now chains.now sites.now }
    requires some { 0 < length chains.now }
    requires sites { sites.now ≡ sites_of netlist.now chains.now }
    ensures { IfOk result (λ parts. whole parts ≡ scanned_of netlist.now chains.now) }
{
    let count = chains.count();
    let inputs = netlist.inputs().len() as u32;
    let definitions = netlist.definitions().len() as u32;
    let cells = netlist.cells().len() as u32;
    let first_output = inputs + count + 2 + definitions + 4 * cells;
    Ok(Parts {
        names: signal_names(alloc, netlist, count)?,
        inputs: stems_and_numbers(alloc, netlist.inputs(), sites, inputs, count + 1)?,
        outputs: stems_and_numbers(alloc, netlist.outputs(), sites, first_output, count)?,
        definitions: scanned_definitions(alloc, netlist, chains, sites, first_output)?,
    })
}
