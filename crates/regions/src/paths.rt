//! For each signal the head of its region, and the patterns under which its path to the head is sensitized.
ghost use Rattle.std.specs.Prelude.{◌≡◌, ◌<◌, ◌≤◌, length, IfOk, IfSome};
ghost use Rattle.std.specs.List.{Contains};
ghost use Rattle.netlist.specs.Lines.{IsLineOf};
ghost use Rattle.statement.specs.Netlists.{signals};
ghost use Rattle.netlist.specs.Netlist.{IsGateAt};
ghost use Rattle.netlist.specs.Conditions.{most_signals};
ghost use Rattle.regions.specs.Paths.{AreClosed, AreOpen, IsReach, IsReachOf};
ghost use Rattle.regions.specs.inner.Controlled.{AreControlled};

use crate::controlling::Controlling;
use crate::passing::{known, noncontrolling, passing};
use crate::readers::{is_flip_flop, reads_alone};
use netlist::{Core, Definition, Fault, Line, Netlist, SignalId};
use std::alloc::{AllocError, Global};

/// A head and a word for each signal.
#[derive(Drop)]
pub struct Paths {
    pub heads: Vec<SignalId>,
    pub opens: Vec<u64>,
}

/// Each signal is its own head, and its path there is empty.
fn close(heads: &mut Vec<SignalId>, opens: &mut Vec<u64>)
    requires same { length opens.old.items ≡ length heads.old.items }
    requires small { length heads.old.items ≤ most_signals }
    ensures { AreClosed (length heads.old.items) (length heads.old.items) heads.new.items opens.new.items }
{
    for x in 0..heads.len() {
        heads[x] = SignalId(x as u32);
        opens[x] = u64::MAX;
    }
}

/// Where this pin alone reads its signal, the signal's path goes on from the gate.
#[inline(always)]
fn open_pin(
    netlist: &Netlist,
    values: &[u64],
    definition: &Definition,
    place: usize,
    controlling: Controlling,
    heads: &mut Vec<SignalId>,
    opens: &mut Vec<u64>,
)
    requires member { Contains netlist.now.definitions definition.now }
    requires place { place < length definition.now.pins }
    requires size { length values.now ≡ length (signals netlist.now) }
    requires controlled { AreControlled definition.now.kind definition.now.pins values.now controlling.one controlling.two }
    requires open { AreOpen netlist.now values.now heads.old.items opens.old.items }
    ensures { AreOpen netlist.now values.now heads.new.items opens.new.items }
{
    netlist.sound();
    let pins = definition.pins();
    let id = pins[place];
    let gate = definition.id();
    if !reads_alone(netlist, gate, place, id) {
        return;
    }
    let side = noncontrolling(definition.kind(), values[id.index()]);
    let passes = controlling.passing(side);
    opens[id.index()] = opens[gate.index()] & passes;
    heads[id.index()] = heads[gate.index()];
}

/// The paths of the signals that the pins of a gate alone read go on from the gate.
#[inline(always)]
fn open_gate(
    netlist: &Netlist,
    values: &[u64],
    gate: SignalId,
    heads: &mut Vec<SignalId>,
    opens: &mut Vec<u64>,
)
    requires gate { IsGateAt netlist.now gate }
    requires size { length values.now ≡ length (signals netlist.now) }
    requires open { AreOpen netlist.now values.now heads.old.items opens.old.items }
    ensures { AreOpen netlist.now values.now heads.new.items opens.new.items }
{
    netlist.sound();
    let definition = netlist.definition(gate);
    let pins = definition.pins();
    let controlling = Controlling::of(definition.kind(), pins, values);
    for place in 0..pins.len() {
        open_pin(
            netlist,
            values,
            definition,
            place,
            controlling,
            heads,
            opens,
        );
    }
}

impl Paths {
    /// Room for the signals of a netlist.
    pub fn new(alloc: Global, netlist: &Netlist) -> Result<Paths, AllocError>
        ensures heads { IfOk result (λ p. length p.heads.items ≡ length (signals netlist.now)) }
        ensures opens { IfOk result (λ p. length p.opens.items ≡ length (signals netlist.now)) }
    {
        netlist.sound();
        let count = netlist.inputs().len() + netlist.definitions().len();
        let heads = vec![in alloc; SignalId(0); count]?;
        let opens = vec![in alloc; u64::MAX; count]?;
        Ok(Paths { heads, opens })
    }

    /// The heads and words for these values: one pass back over the gates.
    pub fn open(&mut self, core: &Core, values: &[u64])
        requires size { length values.now ≡ length (signals core.now) }
        requires heads { length self.old.heads.items ≡ length (signals core.now) }
        requires opens { length self.old.opens.items ≡ length (signals core.now) }
        ensures { AreOpen core.now values.now self.new.heads.items self.new.opens.items }
    {
        let netlist = core.netlist();
        netlist.sound();
        close(&mut self.heads, &mut self.opens);
        let order = core.order();
        for k in (0..order.len()).rev() {
            open_gate(netlist, values, order[k], &mut self.heads, &mut self.opens);
        }
    }

    /// The head that a stuck stem reaches, and the patterns under which it does.
    fn reach_from(
        &self,
        netlist: &Netlist,
        values: &[u64],
        id: SignalId,
        value: bool,
    ) -> (SignalId, u64)
        requires within { id < length (signals netlist.now) }
        requires size { length values.now ≡ length (signals netlist.now) }
        requires open { AreOpen netlist.now values.now self.now.heads.items self.now.opens.items }
        ensures { IsReachOf netlist.now values.now (Line.Stem id) value result.0 result.1 }
    {
        let _ = netlist;
        let excited = values[id.index()] ^ known(value);
        (self.heads[id.index()], excited & self.opens[id.index()])
    }

    /// The same of a stuck pin; none for a cell's pin.
    fn reach_through(
        &self,
        netlist: &Netlist,
        values: &[u64],
        gate: SignalId,
        place: usize,
        value: bool,
    ) -> Option<(SignalId, u64)>
        requires line { IsLineOf netlist.now (Line.Pin gate place) }
        requires size { length values.now ≡ length (signals netlist.now) }
        requires open { AreOpen netlist.now values.now self.now.heads.items self.now.opens.items }
        ensures { IfSome result (λ w. IsReachOf netlist.now values.now (Line.Pin gate place) value w.0 w.1) }
    {
        netlist.sound();
        let definition = netlist.definition(gate);
        if is_flip_flop(definition.kind()) {
            return None;
        }
        let pins = definition.pins();
        let excited = values[pins[place].index()] ^ known(value);
        let open = excited & self.opens[gate.index()];
        let word = passing(definition.kind(), pins, place, values, open);
        Some((self.heads[gate.index()], word))
    }

    /// The head that a fault may reach, and the patterns under which it does; none for a line that only an observed point reads.
    pub fn reach(&self, netlist: &Netlist, values: &[u64], fault: &Fault) -> Option<(SignalId, u64)>
        requires line { IsLineOf netlist.now fault.now.line }
        requires size { length values.now ≡ length (signals netlist.now) }
        requires open { AreOpen netlist.now values.now self.now.heads.items self.now.opens.items }
        ensures { IfSome result (λ w. IsReach netlist.now values.now fault.now w.0 w.1) }
    {
        netlist.sound();
        match &fault.line {
            Line::Stem(x) => Some(self.reach_from(netlist, values, *x, fault.value)),
            Line::Pin(z, k) => self.reach_through(netlist, values, *z, *k as usize, fault.value),
            Line::Out(_) => None,
        }
    }
}
