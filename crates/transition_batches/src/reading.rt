//! What lines read in the second frame of a batch.
//!
//! A line reads the late value of a slow line that is this line or its stem, and both read the same signal. So the signals that slow lines read are
//! marked, once for a batch, and the list of slow lines is gone over only for lines whose signal is marked: all others, nearly all of a large
//! netlist, cost one look at a mark. (A table from each line to its slow line would save the list too, at four bytes for each pin.)
ghost use Rattle.std.specs.Prelude.{◌≡◌, ◌<◌, ◌≤◌, length, IfOk};
ghost use Rattle.std.specs.List.{All, Contains};
ghost use Rattle.netlist.specs.Conditions.{IsSound};
ghost use Rattle.netlist.specs.Lines.{IsLineOf};
ghost use Rattle.statement.specs.Netlists.{signals};
ghost use Rattle.statement.specs.declared.lines.Fault.{Fault as FaultOf};
ghost use Rattle.transition_frames.specs.Frames.{source_of as source, second as in_next};
ghost use Rattle.transition_batches.specs.Batches.{tie_at as tie_of, read_late, late_pins};
ghost use Rattle.transition_batches.specs.inner.Marks.{AreSourcesMarked, IsBatch};

use netlist::{Definition, Fault, Line, Netlist, SignalId};
use smallvec::SmallVec;
use std::alloc::{AllocError, Global};
use transition_frames::source_of;

/// The tie of the slow line at a place; what holds it back and what its readers read in the second frame come behind it.
pub(crate) fn tie_at(netlist: &Netlist, place: usize) -> SignalId
    requires small { length (signals netlist.now) ≤ 1000000 }
    requires few { place ≤ 1024 }
    ensures { result ≡ tie_of netlist.now place }
{
    SignalId((netlist.inputs().len() + 2 * netlist.definitions().len() + 3 * place) as u32)
}

/// A signal in the second frame.
pub(crate) fn second(netlist: &Netlist, x: SignalId) -> SignalId
    requires small { length (signals netlist.now) ≤ 1000000 }
    requires within { x < length (signals netlist.now) }
    ensures { result ≡ in_next netlist.now x }
{
    if x.index() < netlist.inputs().len() {
        return x;
    }
    SignalId(x.0 + netlist.definitions().len() as u32)
}

/// Marks the signals that slow lines read.
pub(crate) fn mark_sources(
    alloc: Global,
    netlist: &Netlist,
    faults: &[Fault],
) -> Result<Vec<bool>, AllocError>
    requires { All (λ (f : FaultOf). IsLineOf netlist.now f.line) faults.now }
    ensures { IfOk result (λ marks. AreSourcesMarked netlist.now faults.now marks.items) }
{
    netlist.sound();
    let count = netlist.inputs().len() + netlist.definitions().len();
    let mut marks = vec![in alloc; false; count]?;
    for fault in faults {
        marks[source_of(netlist, &fault.line).index()] = true;
    }
    Ok(marks)
}

/// What a line reads, by all slow lines.
fn read_by_list(netlist: &Netlist, faults: &[Fault], line: &Line, x: SignalId) -> SignalId
    requires small { length (signals netlist.now) ≤ 1000000 }
    requires few { length faults.now ≤ 1024 }
    requires within { x < length (signals netlist.now) }
    ensures { result ≡ read_late netlist.now 0 faults.now line.now x }
{
    for place in 0..faults.len() {
        let slow = faults[place].line;
        if slow.is(&Line::Stem(x)) || slow.is(line) {
            return SignalId(tie_at(netlist, place).0 + 2);
        }
    }
    second(netlist, x)
}

/// What a line reads, which reads x in the netlist.
pub(crate) fn read(
    netlist: &Netlist,
    faults: &[Fault],
    marks: &[bool],
    line: &Line,
    x: SignalId,
) -> SignalId
    requires small { length (signals netlist.now) ≤ 1000000 }
    requires few { length faults.now ≤ 1024 }
    requires marked { AreSourcesMarked netlist.now faults.now marks.now }
    requires within { x < length (signals netlist.now) }
    requires own { source netlist.now line.now ≡ x }
    ensures { result ≡ read_late netlist.now 0 faults.now line.now x }
{
    if marks[x.index()] {
        return read_by_list(netlist, faults, line, x);
    }
    second(netlist, x)
}

/// What the pins of a definition read.
pub(crate) fn read_pins(
    alloc: Global,
    netlist: &Netlist,
    faults: &[Fault],
    marks: &[bool],
    definition: &Definition,
) -> Result<SmallVec<SignalId, 4>, AllocError>
    requires batch { IsBatch netlist.now faults.now marks.now }
    requires own { Contains netlist.now.definitions definition.now }
    ensures { IfOk result (λ v. v.items ≡ late_pins netlist.now faults.now definition.now.id 0 definition.now.pins) }
{
    let pins = definition.pins();
    let mut read_pins = SmallVec::new(alloc);
    for k in 0..pins.len() {
        let pin = Line::Pin(definition.id(), k as u32);
        read_pins.push(read(netlist, faults, marks, &pin, pins[k]))?;
    }
    Ok(read_pins)
}
