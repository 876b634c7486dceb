//! The classes of a netlist's faults.
ghost use Rattle.std.specs.Prelude.{◌≡◌, ◌^◌, ◌≤◌, IfOk, length};
ghost use Rattle.statement.specs.Faults.{universe_of};
ghost use Rattle.fault_collapse.specs.Classes.{AreClasses};
ghost use Rattle.fault_collapse.specs.inner.Merging.{AreMerged};

use crate::classes::{Classes, number};
use crate::drivers::drivers;
use crate::joining::{alone, merge_all};
use fault_universe::FaultSet;
use netlist::{Netlist, NoMemory};
use std::alloc::{AllocError, Global};

/// The members by the class of which each is, in trees.
fn merged_faults(
    alloc: Global,
    netlist: &Netlist,
    faults: &FaultSet,
) -> Result<Vec<u32>, AllocError>
    requires universe { faults.now ≡ universe_of netlist.now }
    ensures { IfOk result (λ v. AreMerged netlist.now v.items (length (universe_of netlist.now))) }
{
    let count = faults.len();
    let drivers = drivers(alloc, netlist)?;
    let mut parents = alone(alloc, count)?;
    merge_all(&mut parents, netlist, &drivers, faults);
    Ok(parents)
}

/// The classes by number, in the order of their first members.
fn numbered(alloc: Global, netlist: &Netlist, faults: &FaultSet) -> Result<Classes, AllocError>
    requires universe { faults.now ≡ universe_of netlist.now }
    ensures { IfOk result (λ classes. AreClasses netlist.now classes) }
{
    netlist.sound();
    let parents = merged_faults(alloc, netlist, faults)?;
    number(alloc, &parents, faults)
}

/// Classes of faults that no test tells apart, as far as single gates show.
pub fn collapse(alloc: Global, netlist: &Netlist, faults: &FaultSet) -> Result<Classes, NoMemory>
    requires universe { faults.now ≡ universe_of netlist.now }
    ensures { IfOk result (λ classes. AreClasses netlist.now classes) }
{
    numbered(alloc, netlist, faults).map_err(|_| NoMemory)
}
