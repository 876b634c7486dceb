//! Merging the classes of all joined faults.
ghost use Rattle.std.specs.Prelude.{◌≡◌, ◌+◌, ◌*◌, ◌^◌, ◌<◌, ◌≤◌, ℕ, IfOk, Some, length, slice_get, slice_index, vec_len};
ghost use Rattle.statement.specs.Netlists.{Definition as Equation};
ghost use Rattle.fault_universe.specs.Universe.{all_lines};
ghost use Rattle.statement.specs.Faults.{universe_of};
ghost use Rattle.fault_collapse.specs.inner.Merging.{AreDrivers, AreMerged, IsDriver, IsReadBy};

use crate::drivers::{Driver, reading_driver};
use crate::gates::output_value;
use crate::union_find::merge;
use fault_universe::FaultSet;
use netlist::{Fault, Netlist};
use std::alloc::{AllocError, Global};

/// A class for each fault alone.
pub(crate) fn alone(alloc: Global, count: u32) -> Result<Vec<u32>, AllocError>
    ensures size { IfOk result (λ v. vec_len v ≡ count) }
    ensures each { IfOk result (λ v. (k : ℕ) → k < count → slice_index v.items k ≡ k) }
{
    let mut parents = Vec::with_capacity(alloc, count as usize)?;
    for i in 0..count {
        parents.push(i)?;
    }
    Ok(parents)
}

/// Merges the class of a fault with that of the fault that it makes at the driver's output.
fn merge_fault(parents: &mut [u32], netlist: &Netlist, driver: Driver, i: usize, fault: &Fault)
    requires member { slice_get (universe_of netlist.now) i ≡ Some fault.now }
    requires reader { (d : Equation) × IsReadBy netlist.now fault.now.line d × IsDriver netlist.now d driver }
    requires few { length (universe_of netlist.now) ≤ 2 ^ 32 }
    requires before { AreMerged netlist.now parents.old i }
    ensures { AreMerged netlist.now parents.new (i + 1) }
{
    netlist.sound();
    if let Some(value) = output_value(driver.kind, fault.value) {
        let place = 2 * driver.stem as usize + usize::from(value);
        merge(parents, i, place);
    }
}

/// Merges the classes of a line's two faults with those of the faults that they make at a gate's output.
fn merge_line(
    parents: &mut [u32],
    netlist: &Netlist,
    drivers: &[Driver],
    faults: &FaultSet,
    line: u32,
)
    requires universe { faults.now ≡ universe_of netlist.now }
    requires within { line < length (all_lines netlist.now) }
    requires drivers { AreDrivers netlist.now drivers.now }
    requires few { length (universe_of netlist.now) ≤ 2 ^ 32 }
    requires before { AreMerged netlist.now parents.old (2 * line) }
    ensures { AreMerged netlist.now parents.new (2 * line + 2) }
{
    netlist.sound();
    let first = 2 * line;
    let at_zero = faults.fault(first);
    let at_one = faults.fault(first + 1);
    if let Some(driver) = reading_driver(netlist, drivers, &at_zero.line) {
        merge_fault(parents, netlist, driver, first as usize, &at_zero);
        merge_fault(parents, netlist, driver, first as usize + 1, &at_one);
    }
}

/// Merges each fault's class with that of the fault that it makes at a gate's output.
pub(crate) fn merge_all(
    parents: &mut [u32],
    netlist: &Netlist,
    drivers: &[Driver],
    faults: &FaultSet,
)
    requires universe { faults.now ≡ universe_of netlist.now }
    requires drivers { AreDrivers netlist.now drivers.now }
    requires few { length (universe_of netlist.now) ≤ 2 ^ 32 }
    requires before { AreMerged netlist.now parents.old 0 }
    ensures { AreMerged netlist.now parents.new (length (universe_of netlist.now)) }
{
    let lines = faults.len() / 2;
    for line in 0..lines {
        merge_line(parents, netlist, drivers, faults, line);
    }
}
