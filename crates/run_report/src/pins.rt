//! The pins at a netlist's outputs.
ghost use Rattle.std.specs.Prelude.{◌≡◌, ◌<◌, ◌++◌, ◌∷◌, [], length, map, IfOk, OnOk};
ghost use Rattle.std.specs.List.{All};
ghost use Rattle.report.specs.Reports.{IsBenchWord};
ghost use Rattle.statement.specs.Runs.{output_name};
ghost use Rattle.scan_insert.specs.Names.{pin_name_of};

use netlist::{NameTable, Netlist, NoMemory};
use scan_insert::pin_name;
use std::alloc::Global;

/// Adds the name of an output's pin.
fn add_pin(
    names: &mut NameTable,
    alloc: Global,
    netlist: &Netlist,
    output: u32,
) -> Result<(), NoMemory>
    requires { output < length netlist.now.outputs }
    ensures { OnOk result (names.new ≡ names.old ++ pin_name_of netlist.now output ∷ []) }
{
    let name = pin_name(alloc, netlist, output)?;
    names.push(name.as_slice()).map_err(|_| NoMemory)
}

/// The name of the pin at each output.
pub fn pin_names(alloc: Global, netlist: &Netlist) -> Result<NameTable, NoMemory>
    ensures names { IfOk result (λ names. names ≡ map (output_name netlist.now) netlist.now.outputs) }
    ensures words { IfOk result (λ names. All IsBenchWord names) }
{
    netlist.sound();
    let mut names = NameTable::new(alloc);
    for output in 0..netlist.outputs().len() as u32 {
        add_pin(&mut names, alloc, netlist, output)?;
    }
    Ok(names)
}
