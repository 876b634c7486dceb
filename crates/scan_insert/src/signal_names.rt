//! The names of the scanned netlist's signals.
ghost use Rattle.std.specs.Prelude.{◌≡◌, ◌++◌, ◌∷◌, [], ◌<◌, ◌≤◌, length, map, codes, decimal, IfOk, OnOk};
ghost use Rattle.std.specs.List.{All, flat_map};
ghost use Rattle.statement.specs.Netlists.{Definition as Equation, signals, name_of};
ghost use Rattle.netlist.specs.Conditions.{IsSound};
ghost use Rattle.scan_insert.specs.Names.{definition_names, names_of};
ghost use Rattle.statement.specs.Runs.{numbers_from};

use itoa::Buffer;
use netlist::{Definition, NameTable, Netlist, SignalId};
use std::alloc::{AllocError, Global};

/// Adds a name of two parts, which are put together in `scratch`.
pub fn push_joined(
    names: &mut NameTable,
    scratch: &mut Vec<u8>,
    prefix: &[u8],
    name: &[u8],
) -> Result<(), AllocError>
    ensures { OnOk result (names.new ≡ names.old ++ (prefix.now ++ name.now) ∷ []) }
{
    scratch.clear();
    scratch.extend_from_slice(prefix)?;
    scratch.extend_from_slice(name)?;
    names.push(scratch)
}

/// Adds the names of the inputs.
pub fn push_inputs(netlist: &Netlist, names: &mut NameTable) -> Result<(), AllocError>
    requires { IsSound netlist.now }
    ensures { OnOk result (names.new ≡ names.old ++ map (name_of netlist.now) netlist.now.inputs) }
{
    for x in netlist.inputs() {
        names.push(netlist.name(*x))?;
    }
    Ok(())
}

/// Adds the names of a cell's signals.
fn push_cell(names: &mut NameTable, scratch: &mut Vec<u8>, name: &[u8]) -> Result<(), AllocError>
    ensures { OnOk result (names.new ≡ names.old
        ++ (codes "SC__a_" ++ name.now) ∷ (codes "SC__b_" ++ name.now) ∷ (codes "SC__d_" ++ name.now) ∷ (codes "SC__s_" ++ name.now) ∷ name.now ∷ []) }
{
    push_joined(names, scratch, b"SC__a_", name)?;
    push_joined(names, scratch, b"SC__b_", name)?;
    push_joined(names, scratch, b"SC__d_", name)?;
    push_joined(names, scratch, b"SC__s_", name)?;
    names.push(name)?;
    Ok(())
}

/// Adds the names of a definition's signals.
fn push_definition(
    netlist: &Netlist,
    definition: &Definition,
    names: &mut NameTable,
    scratch: &mut Vec<u8>,
) -> Result<(), AllocError>
    requires within { definition.now.id < length (signals netlist.now) }
    ensures { OnOk result (names.new ≡ names.old ++ definition_names netlist.now definition.now) }
{
    let name = netlist.name(definition.id());
    if definition.kind().is_flip_flop() {
        return push_cell(names, scratch, name);
    }
    names.push(name)?;
    Ok(())
}

/// Adds the names of the definitions' signals.
fn push_definitions(
    netlist: &Netlist,
    names: &mut NameTable,
    scratch: &mut Vec<u8>,
) -> Result<(), AllocError>
    requires { IsSound netlist.now }
    ensures { OnOk result (names.new ≡ names.old ++ flat_map (definition_names netlist.now) netlist.now.definitions) }
{
    for definition in netlist.definitions() {
        push_definition(netlist, definition, names, scratch)?;
    }
    Ok(())
}

/// Adds a name with each of the numbers below a count.
fn push_numbered(
    names: &mut NameTable,
    scratch: &mut Vec<u8>,
    prefix: &[u8],
    count: u32,
) -> Result<(), AllocError>
    ensures { OnOk result (names.new ≡ names.old ++ map (λ c. prefix.now ++ decimal c) (numbers_from 0 count)) }
{
    for c in 0..count {
        let mut digits = Buffer::new();
        push_joined(names, scratch, prefix, digits.format(c).as_bytes())?;
    }
    Ok(())
}

/// How many bytes the names of these signals have together.
fn bytes_of(netlist: &Netlist, ids: &[SignalId]) -> usize
    requires { All (λ x. x < length (signals netlist.now)) ids.now }
{
    let mut bytes: usize = 0;
    for x in ids {
        bytes = bytes.saturating_add(netlist.name(*x).len());
    }
    bytes
}

/// How many bytes the names of the definitions have together.
fn definition_bytes(netlist: &Netlist) -> usize
    requires { IsSound netlist.now }
{
    let mut bytes: usize = 0;
    for definition in netlist.definitions() {
        bytes = bytes.saturating_add(netlist.name(definition.id()).len());
    }
    bytes
}

/// Makes room for all names.
fn reserve(netlist: &Netlist, chains: u32, names: &mut NameTable) -> Result<(), AllocError>
    requires { IsSound netlist.now }
    ensures { names.new ≡ names.old }
{
    let cells = netlist.cells();
    let count = netlist.inputs().len() + netlist.definitions().len();
    let count = count.saturating_add(cells.len().saturating_mul(4));
    let count = count
        .saturating_add((chains as usize).saturating_mul(2))
        .saturating_add(2);
    let bytes = bytes_of(netlist, netlist.inputs()).saturating_add(definition_bytes(netlist));
    let bytes = bytes.saturating_add(bytes_of(netlist, cells).saturating_mul(4));
    let added = count.saturating_mul(16);
    names.reserve(count, bytes.saturating_add(added))
}

/// The names of all signals, with so many chains.
pub(crate) fn signal_names(
    alloc: Global,
    netlist: &Netlist,
    chains: u32,
) -> Result<NameTable, AllocError>
    requires { IsSound netlist.now }
    ensures { IfOk result (λ names. names ≡ names_of netlist.now chains) }
{
    let mut names = NameTable::new(alloc);
    reserve(netlist, chains, &mut names)?;
    let mut scratch = Vec::new(alloc);
    push_inputs(netlist, &mut names)?;
    names.push(b"SC__se")?;
    push_numbered(&mut names, &mut scratch, b"SC__si", chains)?;
    names.push(b"SC__nse")?;
    push_definitions(netlist, &mut names, &mut scratch)?;
    push_numbered(&mut names, &mut scratch, b"SC__so", chains)?;
    Ok(names)
}
