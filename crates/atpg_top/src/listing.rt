//! `faults`: the list of faults of a file's netlist, shown in pieces.
ghost use Rattle.std.specs.Prelude.{[], ◌∷◌};
ghost use Rattle.commands.specs.World.{world};
ghost use Rattle.commands.specs.Rows.{CommandRow};
ghost use Rattle.atpg_top.specs.Commands.{faults_due};

use crate::fault_list::put_fault_list;
use command_steps::{Refusal, design_of};
use commands::{Ending, FileName, Finding, Stop, WriteFailure, read_in_order};
use outside::{Shelf, Sink, WriteRefusal};
use std::alloc::Global;

/// Shows the faults of the netlist of a file, each with the number of its class.
pub fn list_faults<'a, S: Shelf, T: Sink>(
    alloc: Global,
    shelf: &mut S,
    out: &mut T,
    net: &'a str,
) -> Ending<'a, Refusal>
    ensures { CommandRow (net.now ∷ []) [] faults_due
        (world (S.files shelf.old) (S.failures shelf.old) (T.taken out.old) (T.failures out.old))
        (world (S.files shelf.new) (S.failures shelf.new) (T.taken out.new) (T.failures out.new)) result }
{
    let reads = [FileName::of(net)];
    let texts = match read_in_order(alloc, shelf, &reads) {
        Ok(texts) => texts,
        Err(ending) => return ending,
    };
    let netlist = match design_of(alloc, texts) {
        Ok(netlist) => netlist,
        Err(Stop::Refused(refusal)) => return Ending::Refused(refusal),
        Err(Stop::NoMemory) => return Ending::Memory,
    };
    match put_fault_list(alloc, out, &netlist) {
        Ok(()) => {
            drop(netlist);
            Ending::Ended(Finding::Fine)
        }
        Err(WriteRefusal::Failed) => {
            drop(netlist);
            Ending::WriteFailed(WriteFailure::Output)
        }
        Err(WriteRefusal::NoMemory) => {
            drop(netlist);
            Ending::Memory
        }
    }
}
