//! The first evidence of each fault.
ghost use Rattle.std.specs.Prelude.{◌≡◌, ◌<◌, ◌≤◌, ◌+◌, ◌^◌, length, slice_index, replicate, None, IfOk};
ghost use Rattle.std.specs.List.{All, Contains};
ghost use Rattle.netlist.specs.Netlist.{signal_count};
ghost use Rattle.netlist.specs.Lines.{signal_of};
ghost use Rattle.statement.specs.Faults.{universe_of};
ghost use Rattle.check_parts.specs.Firsts.{AreFirst, AreFirsts, AreStarts, IsFirst, IsNoted, IsOfFault, offset, spot, start};

use evidence::Evidence;
use fault_universe::{faults_have_lines, faults_have_signals};
use netlist::{Fault, Line, Netlist, SignalId};
use std::alloc::{AllocError, Global};

/// A row for each signal, one behind the other: a place for its stem, for it as an output and for each of its pins, each at 0 and at 1.
/// At a fault's place stands where in the certificate its first evidence is, if there is some.
#[derive(Drop)]
pub struct Firsts {
    pub starts: Vec<usize>,
    pub places: Vec<Option<usize>>,
}

/// Where each signal's row starts, and where the last one ends.
fn starts_of(alloc: Global, netlist: &Netlist) -> Result<Vec<usize>, AllocError>
    ensures { IfOk result (λ starts. AreStarts netlist.now starts.items) }
{
    netlist.sound();
    let count = netlist.inputs().len() + netlist.definitions().len();
    let mut starts = Vec::with_capacity(alloc, count + 1)?;
    let mut next = 0usize;
    for x in 0..count {
        starts.push(next)?;
        next += 4 + 2 * netlist.pins(SignalId(x as u32)).len();
    }
    starts.push(next)?;
    Ok(starts)
}

/// Where a fault's place is in its signal's row.
fn offset_of(fault: &Fault) -> usize
    ensures { result ≡ offset fault.now.line fault.now.value }
{
    let bit = if fault.value { 1 } else { 0 };
    match fault.line {
        Line::Stem(_) => bit,
        Line::Out(_) => 2 + bit,
        Line::Pin(_, k) => 4 + 2 * k as usize + bit,
    }
}

fn signal_of(line: &Line) -> SignalId
    ensures { result ≡ signal_of line.now }
{
    match line {
        Line::Stem(x) => *x,
        Line::Pin(z, _) => *z,
        Line::Out(y) => *y,
    }
}

/// A fault's place.
fn spot_of(netlist: &Netlist, starts: &[usize], fault: &Fault) -> usize
    requires starts { AreStarts netlist.now starts.now }
    requires member { Contains (universe_of netlist.now) fault.now }
    ensures spot { result ≡ spot netlist.now fault.now }
    ensures within { result < start netlist.now (signal_count netlist.now) }
{
    netlist.sound();
    faults_have_lines();
    faults_have_signals();
    starts[signal_of(&fault.line).index()] + offset_of(fault)
}

/// Puts down where a fault has evidence, unless it had some before.
fn note(places: &mut Vec<Option<usize>>, spot: usize, k: usize)
    requires { spot < length places.old.items }
    ensures { IsNoted places.old.items places.new.items spot k }
{
    match places[spot] {
        Some(_) => {}
        None => places[spot] = Some(k),
    }
}

/// So many places without evidence.
fn free_places(alloc: Global, count: usize) -> Result<Vec<Option<usize>>, AllocError>
    ensures { IfOk result (λ places. places.items ≡ replicate count None) }
{
    vec![in alloc; None; count]
}

/// Where each fault's first evidence stands among this.
fn places_of(
    alloc: Global,
    netlist: &Netlist,
    starts: &[usize],
    evidence: &[(Fault, Evidence)],
) -> Result<Vec<Option<usize>>, AllocError>
    requires starts { AreStarts netlist.now starts.now }
    requires each { All (IsOfFault netlist.now) evidence.now }
    ensures { IfOk result (λ places. AreFirst netlist.now evidence.now (length evidence.now) places.items) }
{
    netlist.sound();
    faults_have_lines();
    faults_have_signals();
    let mut places = free_places(alloc, starts[starts.len() - 1])?;
    for (k, pair) in evidence.iter().enumerate() {
        let spot = spot_of(netlist, starts, &pair.0);
        note(&mut places, spot, k);
    }
    Ok(places)
}

impl Firsts {
    pub fn of(
        alloc: Global,
        netlist: &Netlist,
        evidence: &[(Fault, Evidence)],
    ) -> Result<Firsts, AllocError>
        requires { All (IsOfFault netlist.now) evidence.now }
        ensures { IfOk result (AreFirsts netlist.now evidence.now) }
    {
        let starts = starts_of(alloc, netlist)?;
        let places = places_of(alloc, netlist, &starts, evidence)?;
        Ok(Firsts { starts, places })
    }

    /// Where the first evidence of a fault stands.
    pub fn get(
        &self,
        netlist: &Netlist,
        evidence: &[(Fault, Evidence)],
        fault: &Fault,
    ) -> Option<usize>
        requires first { AreFirsts netlist.now evidence.now self.now }
        requires member { Contains (universe_of netlist.now) fault.now }
        ensures { IsFirst evidence.now (length evidence.now) fault.now result }
    {
        self.places[spot_of(netlist, &self.starts, fault)]
    }
}
