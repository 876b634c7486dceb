//! What guides read of a netlist and its labels.
ghost use Rattle.std.specs.Prelude.{◌≡◌, ◌≤◌, length, IsTrue};
ghost use Rattle.std.specs.List.{Contains};
ghost use Rattle.statement.specs.Netlists.{signals};
ghost use Rattle.pair_sim.specs.Sims.{IsNotBlocked};

use netlist::{Core, Fault, Kind, Line, SignalId, Tri};
use pair_sim::PairSim;

/// A signal, and the bit that it should have.
#[derive(Clone, Copy, Drop)]
pub struct Aim {
    pub signal: SignalId,
    pub bit: bool,
}

/// How many signals there are.
pub fn signal_count(core: &Core) -> usize
    ensures { result ≡ length (signals core.now) }
{
    let netlist = core.netlist();
    netlist.sound();
    netlist.inputs().len() + netlist.definitions().len()
}

/// Whether it is a signal's id.
fn is_signal(core: &Core, signal: SignalId) -> bool
    ensures { IsTrue result → Contains (signals core.now) signal }
{
    core.netlist().sound();
    signal.index() < signal_count(core)
}

/// The value of a signal without the fault.
pub fn good(core: &Core, labels: &PairSim, signal: SignalId) -> Option<Tri>
    requires { labels.now.netlist ≡ core.now }
{
    if !is_signal(core, signal) {
        return None;
    }
    Some(labels.good(signal))
}

/// Whether the value of a signal without the fault isn't known.
pub fn is_unknown(core: &Core, labels: &PairSim, signal: SignalId) -> bool
    requires { labels.now.netlist ≡ core.now }
{
    matches!(good(core, labels, signal), Some(Tri::X))
}

/// Whether both values of a signal are known and differ.
pub fn has_effect(core: &Core, labels: &PairSim, signal: SignalId) -> bool
    requires same { labels.now.netlist ≡ core.now }
    requires not_blocked { IsNotBlocked labels.now }
{
    if !is_signal(core, signal) {
        return false;
    }
    match labels.good(signal) {
        Tri::Zero => matches!(labels.faulty(signal), Tri::One),
        Tri::One => matches!(labels.faulty(signal), Tri::Zero),
        Tri::X => false,
    }
}

/// Whether the fault may still reach a signal, and doesn't yet.
pub fn may_get_effect(core: &Core, labels: &PairSim, signal: SignalId) -> bool
    requires same { labels.now.netlist ≡ core.now }
    requires not_blocked { IsNotBlocked labels.now }
{
    may_differ(core, labels, signal) && !has_effect(core, labels, signal)
}

/// The kind and the pins of the gate of a signal; none for an input, a cell and what is no signal.
pub fn gate_of(core: &Core, signal: SignalId) -> Option<(Kind, &[SignalId])> {
    if signal.index() >= signal_count(core) {
        return None;
    }
    let kind = core.netlist().kind(signal)?;
    if kind.is_flip_flop() {
        return None;
    }
    Some((kind, core.netlist().pins(signal)))
}

/// The signal that comes onto a line.
fn driver(core: &Core, line: &Line) -> SignalId {
    match line {
        Line::Stem(x) => *x,
        Line::Out(x) => *x,
        Line::Pin(z, k) => {
            if z.index() >= signal_count(core) {
                return *z;
            }
            match core.netlist().pins(*z).get(*k as usize) {
                None => *z,
                Some(x) => *x,
            }
        }
    }
}

/// What excites the fault, while the value on its line isn't known.
pub fn excitation(core: &Core, fault: &Fault, labels: &PairSim) -> Option<Aim>
    requires { labels.now.netlist ≡ core.now }
{
    let signal = driver(core, &fault.line);
    if !is_unknown(core, labels, signal) {
        return None;
    }
    Some(Aim {
        signal,
        bit: !fault.value,
    })
}

/// The lines that read a signal.
pub fn readers<'a>(core: &'a Core, signal: SignalId) -> &'a [Line] {
    if signal.index() >= signal_count(core) {
        return &[];
    }
    core.netlist().readers(signal)
}

/// Whether the fault may reach a signal.
pub fn may_differ(core: &Core, labels: &PairSim, signal: SignalId) -> bool
    requires same { labels.now.netlist ≡ core.now }
    requires not_blocked { IsNotBlocked labels.now }
{
    is_signal(core, signal) && labels.may_differ(signal)
}

/// Whether its pins tell nothing of a signal.
pub fn is_own_unknown(core: &Core, labels: &PairSim, signal: SignalId) -> bool
    requires same { labels.now.netlist ≡ core.now }
    requires not_blocked { IsNotBlocked labels.now }
{
    is_signal(core, signal) && matches!(labels.own(signal), Tri::X)
}

/// Of the pins: how many are X, and whether an odd number of the others are 1.
pub fn count_pins(core: &Core, labels: &PairSim, pins: &[SignalId]) -> (u32, bool)
    requires { labels.now.netlist ≡ core.now }
{
    let mut unknown: u32 = 0;
    let mut odd = false;
    for pin in pins {
        match good(core, labels, *pin) {
            Some(Tri::X) => unknown = unknown.saturating_add(1),
            Some(Tri::One) => odd = !odd,
            _ => {}
        }
    }
    (unknown, odd)
}

/// Whether a kind turns the bit over.
pub fn is_inverting(kind: Kind) -> bool {
    matches!(kind, Kind::Nand | Kind::Nor | Kind::Xnor | Kind::Not)
}

/// The place of a gate in the order of evaluation, from 1; 0 for inputs and cells.
pub fn place_of(core: &Core, signal: SignalId) -> u64
    ensures { result ≤ 16000000 }
{
    let schedule = core.schedule();
    match schedule.places.get(signal.index()) {
        None => 0,
        Some(place) => {
            if (*place as usize) < schedule.order.len() && *place < 16_000_000 {
                (*place as u64) + 1
            } else {
                0
            }
        }
    }
}
