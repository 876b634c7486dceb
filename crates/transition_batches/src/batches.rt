//! The netlist of a batch of slow lines.
//!
//! For each slow line alone the netlist, an engine's tables and its labels would be made anew, which costs more than most searches. Here they are made
//! once for many: each slow line has three gates of its own, and all but the one that is searched let their lines pass. Named signals would have to be
//! kept apart from those of the design and of each other; numbered ones are apart, and nobody reads them.
ghost use Rattle.std.specs.Prelude.{◌≡◌, ◌≤◌, length, IfOk, MatchOption};
ghost use Rattle.std.specs.List.{All, AllPairs};
ghost use Rattle.netlist.specs.Conditions.{IsSound};
ghost use Rattle.netlist.specs.Designs.{IsDesign};
ghost use Rattle.netlist.specs.Lines.{IsLineOf};
ghost use Rattle.statement.specs.declared.lines.Fault.{Fault as FaultOf};
ghost use Rattle.transition_batches.specs.Batches.{AreApart, batch_of};

use crate::parts::batch_parts;
use netlist::{Fault, NetRefusal, Netlist, NoMemory};
use std::alloc::Global;

/// The most slow lines of a batch.
pub const MOST_FAULTS: usize = 1024;

/// The two frames of a design with the gates of all these slow lines; none where no netlist can be made of them.
pub fn batch(
    alloc: Global,
    netlist: &Netlist,
    faults: &[Fault],
) -> Result<Option<Netlist>, NoMemory>
    requires design { IsDesign netlist.now }
    requires lines { All (λ (f : FaultOf). IsLineOf netlist.now f.line) faults.now }
    requires apart { AllPairs (AreApart netlist.now) faults.now }
    requires few { length faults.now ≤ 1024 }
    ensures { IfOk result (λ r. MatchOption r (¬ IsSound (batch_of netlist.now faults.now)) (λ b. b ≡ batch_of netlist.now faults.now)) }
{
    netlist.sound();
    let parts = batch_parts(alloc, netlist, faults)?;
    match Netlist::new(alloc, parts) {
        Ok(batch) => Ok(Some(batch)),
        Err(refusal) => match refusal {
            NetRefusal::NoMemory => Err(NoMemory),
            _ => Ok(None),
        },
    }
}
