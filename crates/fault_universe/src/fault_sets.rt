//! The list of faults.
ghost use Rattle.std.specs.Prelude.{◌≡◌, ◌^◌, ◌<◌, ◌==◌, IfOk, Some, length, slice_get};
ghost use Rattle.statement.specs.Netlists.{signals, readers_of};
ghost use Rattle.fault_universe.specs.Universe.{all_lines, branching, fault_limit};
ghost use Rattle.statement.specs.Faults.{universe_of};

use netlist::{Fault, Line, Netlist, NoMemory, SignalId};
use std::alloc::{AllocError, Global};
use std::marker::Model;

/// The faults of a netlist: for each signal in order its stem and then its branches, each at 0 and then at 1.
/// Of a line's two faults the line alone is kept.
#[derive(Drop)]
pub struct FaultSet {
    lines: Vec<Line>,
}

impl Model for FaultSet {
    ghost use Rattle.std.specs.Prelude.{◌^◌, ◌<◌, List, length};
    ghost use Rattle.std.specs.List.{flat_map};
    ghost use Rattle.statement.specs.declared.lines.Fault.{Fault};
    ghost use Rattle.statement.specs.Faults.{faults_of};

    ghost Value = { List Fault };

    ghost view = { λ s. flat_map faults_of s.lines.items };

    ghost invariant = { λ s. length s.lines.items < 2 ^ 30 };
}

/// How many signals there are.
pub fn signal_count(netlist: &Netlist) -> u32
    ensures { result ≡ length (signals netlist.now) }
{
    netlist.sound();
    (netlist.inputs().len() + netlist.definitions().len()) as u32
}

/// The branches of a stem: its readers, where these are two or more.
pub fn branches(netlist: &Netlist, x: SignalId) -> &[Line]
    requires { x < length (signals netlist.now) }
    ensures { result.now ≡ branching (readers_of netlist.now x) }
{
    let readers = netlist.readers(x);
    if readers.len() >= 2 { readers } else { &[] }
}

fn line_count(netlist: &Netlist) -> usize
    requires { length (all_lines netlist.now) < 2 ^ 30 }
    ensures { result ≡ length (all_lines netlist.now) }
{
    netlist.sound();
    let mut count = 0;
    for x in 0..signal_count(netlist) {
        count += 1 + branches(netlist, SignalId(x)).len();
    }
    count
}

/// The lines in order, counted first, so that their table has no room to spare.
fn lines(alloc: Global, netlist: &Netlist) -> Result<Vec<Line>, AllocError>
    requires { length (all_lines netlist.now) < 2 ^ 30 }
    ensures { IfOk result (λ v. v.items ≡ all_lines netlist.now) }
{
    netlist.sound();
    let mut lines = Vec::with_capacity(alloc, line_count(netlist))?;
    for x in 0..signal_count(netlist) {
        lines.push(Line::Stem(SignalId(x)))?;
        lines.extend_from_slice(branches(netlist, SignalId(x)))?;
    }
    Ok(lines)
}

/// All single stuck-at faults of a netlist.
pub fn universe(alloc: Global, netlist: &Netlist) -> Result<FaultSet, NoMemory>
    requires { length (universe_of netlist.now) < fault_limit }
    ensures { IfOk result (λ faults. faults ≡ universe_of netlist.now) }
{
    match lines(alloc, netlist) {
        Ok(lines) => Ok(FaultSet { lines }),
        Err(_) => Err(NoMemory),
    }
}

impl FaultSet {
    /// How many faults there are.
    pub fn len(&self) -> u32
        ensures { result ≡ length self.now }
    {
        2 * self.lines.len() as u32
    }

    /// Whether there is no fault.
    pub fn is_empty(&self) -> bool
        ensures { result ≡ (length self.now == 0) }
    {
        self.len() == 0
    }

    /// The fault at a place of the list.
    pub fn fault(&self, i: u32) -> Fault
        requires { i < length self.now }
        ensures { slice_get self.now i ≡ Some result }
    {
        Fault {
            line: self.lines[(i / 2) as usize],
            value: i % 2 == 1,
        }
    }
}
