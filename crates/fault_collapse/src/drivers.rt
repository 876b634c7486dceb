//! What drives each signal that is no input, in a table that is small beside the definitions.
ghost use Rattle.std.specs.Prelude.{◌≡◌, ◌^◌, ◌<◌, IfOk, MatchOption, length, take};
ghost use Rattle.std.specs.List.{Contains, flat_map};
ghost use Rattle.statement.specs.Netlists.{Definition as Equation, signals};
ghost use Rattle.fault_universe.specs.Universe.{all_lines};
ghost use Rattle.statement.specs.Faults.{lines_of};
ghost use Rattle.fault_collapse.specs.inner.Merging.{AreDrivers, IsDriver, IsReadBy};

use crate::gates::reader_of;
use fault_universe::branches;
use netlist::{Kind, Line, Netlist};
use std::alloc::{AllocError, Global};

/// What drives a signal: the kind of its definition, and the place of its stem among the lines.
#[derive(Clone, Copy)]
pub(crate) struct Driver {
    pub kind: Kind,
    pub stem: u32,
}

fn input_line_count(netlist: &Netlist) -> usize
    requires { length (all_lines netlist.now) < 2 ^ 32 }
    ensures { result ≡ length (flat_map (lines_of netlist.now) (take (length netlist.now.inputs) (signals netlist.now))) }
{
    netlist.sound();
    let mut count = 0;
    for x in netlist.inputs() {
        count += 1 + branches(netlist, *x).len();
    }
    count
}

/// The drivers, in the order of definitions.
pub(crate) fn drivers(alloc: Global, netlist: &Netlist) -> Result<Vec<Driver>, AllocError>
    requires { length (all_lines netlist.now) < 2 ^ 32 }
    ensures { IfOk result (λ v. AreDrivers netlist.now v.items) }
{
    netlist.sound();
    let mut drivers = Vec::with_capacity(alloc, netlist.definitions().len())?;
    let mut next = input_line_count(netlist);
    for definition in netlist.definitions() {
        drivers.push(Driver {
            kind: definition.kind(),
            stem: next as u32,
        })?;
        next += 1 + branches(netlist, definition.id()).len();
    }
    Ok(drivers)
}

/// The driver that has a pin for which the line stands.
pub(crate) fn reading_driver(netlist: &Netlist, drivers: &[Driver], line: &Line) -> Option<Driver>
    requires line { Contains (all_lines netlist.now) line.now }
    requires drivers { AreDrivers netlist.now drivers.now }
    ensures { MatchOption result ((d : Equation) → IsReadBy netlist.now line.now d → ⊥) (λ driver. (d : Equation) × IsReadBy netlist.now line.now d × IsDriver netlist.now d driver) }
{
    netlist.sound();
    let Some(z) = reader_of(netlist, line) else {
        return None;
    };
    Some(drivers[z.index() - netlist.inputs().len()])
}
