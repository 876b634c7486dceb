//! The names of a netlist's output pins, each made once: for texts that name pins in many lines.
ghost use Rattle.std.specs.Prelude.{◌≡◌, ◌<◌, IfOk, length, map};
ghost use Rattle.statement.specs.Runs.{output_name};
ghost use Rattle.scan_insert.specs.Names.{pin_name_of};

use netlist::{Netlist, NoMemory};
use scan_insert::pin_name;
use std::alloc::Global;
use std::marker::Model;
use stil_write::Texts;

/// A netlist, and what the tester calls its outputs.
#[derive(Drop)]
pub(crate) struct Pins<'a> {
    netlist: &'a Netlist,
    names: Texts,
}

impl<'a> Model for Pins<'a> {
    ghost use Rattle.std.specs.Prelude.{◌≡◌, map};
    ghost use Rattle.statement.specs.Netlists.{Netlist};
    ghost use Rattle.statement.specs.Runs.{output_name};

    ghost Value = { Netlist };

    ghost view = { λ p. p.netlist.now };

    ghost invariant = { λ p. p.names ≡ map (output_name p.netlist.now) p.netlist.now.outputs };
}

fn pin_names(alloc: Global, netlist: &Netlist) -> Result<Texts, NoMemory>
    ensures { IfOk result (λ names. names ≡ map (output_name netlist.now) netlist.now.outputs) }
{
    netlist.sound();
    let mut names = Texts::new(alloc);
    for output in 0..netlist.outputs().len() {
        let name = pin_name(alloc, netlist, output as u32)?;
        names.push(&name).map_err(|_| NoMemory)?;
    }
    Ok(names)
}

impl<'a> Pins<'a> {
    pub(crate) fn of(alloc: Global, netlist: &'a Netlist) -> Result<Pins<'a>, NoMemory>
        ensures { IfOk result (λ pins. pins ≡ netlist.now) }
    {
        let names = pin_names(alloc, netlist)?;
        Ok(Pins { netlist, names })
    }

    /// The name of an output's pin.
    pub(crate) fn name(&self, output: u32) -> &[u8]
        requires { output < length self.now.outputs }
        ensures { result.now ≡ pin_name_of self.now output }
    {
        self.names.get(output as usize)
    }
}
