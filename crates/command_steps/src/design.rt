//! The design that a command reads, and the chip that is made of it.
ghost use Rattle.std.specs.Prelude.{◌≡◌, ◌≤◌, IfOk, length};
ghost use Rattle.std.specs.List.{All};
ghost use Rattle.netlist.specs.Designs.{IsDesign};
ghost use Rattle.scan_insert.specs.Scanned.{insertion_of};
ghost use Rattle.statement.specs.Faults.{universe_of};
ghost use Rattle.good_files.specs.ScanOff.{design_chains};
ghost use Rattle.commands.specs.Contents.{most_bytes};
ghost use Rattle.commands.specs.Names.{texts_of};
ghost use Rattle.command_steps.specs.Designs.{ReadsDesign};

use crate::reading::netlist_of;
use crate::refusal::Refusal;
use bench_text::Names;
use commands::Stop;
use fault_universe::{FaultSet, few_faults, universe};
use netlist::{Core, Netlist, NoMemory};
use scan_insert::{Scanned, insert, stitch};
use std::alloc::Global;

/// The design that the one text stands for. The text is let go.
pub fn design_of(alloc: Global, texts: Vec<Vec<u8>>) -> Result<Netlist, Stop<Refusal>>
    requires count { length texts.items ≡ 1 }
    requires within { All (λ text. length text ≤ most_bytes) (texts_of texts.items) }
    ensures { ReadsDesign (texts_of texts.items) result }
{
    netlist_of(alloc, texts[0].as_slice(), Names::Design)
}

/// The design with scan cells, in at most so many chains.
pub fn scanned_of(alloc: Global, netlist: &Netlist, asked: u32) -> Result<Scanned, NoMemory>
    requires design { IsDesign netlist.now }
    requires some { 1 ≤ asked }
    ensures { IfOk result (λ s. s ≡ insertion_of netlist.now (design_chains netlist.now asked)) }
{
    netlist.sound();
    let chains = stitch(alloc, netlist.cells(), asked)?;
    insert(alloc, netlist, &chains)
}

/// The faults of a design.
pub fn faults_of(alloc: Global, netlist: &Netlist) -> Result<FaultSet, NoMemory>
    requires { IsDesign netlist.now }
    ensures { IfOk result (λ faults. faults ≡ universe_of netlist.now) }
{
    netlist.sound();
    few_faults();
    universe(alloc, netlist)
}

/// A core for the scanned netlist.
pub fn core_of(alloc: Global, scanned: &Scanned) -> Result<Core, NoMemory>
    ensures { IfOk result (λ core. core ≡ scanned.now.netlist) }
{
    let copy = scanned.netlist().copy(alloc)?;
    match Core::of(alloc, copy) {
        Ok(core) => Ok(core),
        Err(_) => Err(NoMemory),
    }
}
