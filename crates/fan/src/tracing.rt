//! The lowest objective alone, traced back gate by gate: to the pin that is hardest to have where all pins are needed, and else to the easiest. (The
//! backtrace of Goel 1981.) Nothing stands on it but the speed of the search.
ghost use Rattle.std.specs.Prelude.{◌≡◌, ⊤};
ghost use Rattle.pair_sim.specs.Sims.{IsNotBlocked};

use crate::cases::RoledCase;
use crate::frontier::Frontier;
use crate::guides::{Stop, has_head};
use crate::paths::Paths;
use decisions::{
    Aim, By, Measures, Orders, Places, count_pins, excitation, gate_of, hash_in, is_inverting,
    is_own_unknown, is_unknown, may_differ, mixed, place_of, readers, signal_count,
};
use netlist::{Core, Kind, SignalId};
use pair_sim::PairSim;
use redundancy_cert::Side;
use std::alloc::AllocError;
use std::marker::Model;

/// Which pin of a gate is gone to, unless it is one by a hash.
#[derive(Clone, Copy, Drop)]
pub(crate) enum Pick {
    /// The one for which the bit costs least.
    Easiest(bool),
    /// The one for which the bit costs most.
    Hardest(bool),
    /// The one for which either bit costs least.
    Cheapest,
}

/// How a backtrace goes from gate to gate.
#[derive(Clone, Copy, Drop)]
pub(crate) enum Way {
    /// To pins by what bits cost.
    ByCost,
    /// To pins by a hash, another one in each round.
    ByHash(u32),
}

/// What a backtrace goes by: what bits cost, the orders of wide gates' pins and how far each is known, what is wanted where both bits cost alike, how it
/// goes from gate to gate, and where it stops.
#[derive(Drop)]
pub(crate) struct Course<'a> {
    measures: &'a Measures,
    orders: &'a Orders,
    places: Places,
    salt: u64,
    way: Way,
    stop: Stop,
}

// Contracts see nothing of it.
impl<'a> Model for Course<'a> {
    ghost Value = { ⊤ };

    ghost view = { λ _. tt };
}

impl<'a> Course<'a> {
    /// By what bits cost, to head lines.
    pub(crate) fn of(
        measures: &'a Measures,
        orders: &'a Orders,
        places: Places,
        salt: u64,
    ) -> Course<'a> {
        Course {
            measures,
            orders,
            places,
            salt,
            way: Way::ByCost,
            stop: Stop::Heads,
        }
    }

    /// The places, for another course.
    pub(crate) fn into_places(self) -> Places {
        let Course {
            measures: _,
            orders: _,
            places,
            salt: _,
            way: _,
            stop: _,
        } = self;
        places
    }

    /// From here on it goes so.
    pub(crate) fn go(&mut self, way: Way, stop: Stop) {
        self.way = way;
        self.stop = stop;
    }

    pub(crate) fn stop(&self) -> Stop {
        self.stop
    }

    pub(crate) fn measures(&self) -> &'a Measures {
        self.measures
    }

    /// So many decisions stand.
    pub(crate) fn reach(&mut self, depth: usize) {
        self.places.reach(depth);
    }

    /// The first pin of an order that is X.
    fn first_unknown(&mut self, core: &Core, labels: &PairSim, number: usize) -> Option<SignalId>
        requires { labels.now.netlist ≡ core.now }
    {
        self.places.first_unknown(core, labels, self.orders, number)
    }

    /// The pins of a gate, of many pins from the first one on that is X.
    pub(crate) fn left<'p>(
        &mut self,
        core: &Core,
        labels: &PairSim,
        gate: SignalId,
        pins: &'p [SignalId],
    ) -> &'p [SignalId]
        requires { labels.now.netlist ≡ core.now }
    {
        self.places.left(core, labels, self.orders, gate, pins)
    }

    /// The bit that is cheaper. Where both cost alike it depends on fault and signal: were it the same for all faults, their tests would be alike,
    /// and a chain of parity gates would need one for each input.
    pub(crate) fn cheap_bit(&self, signal: SignalId) -> bool {
        let measures = self.measures;
        if measures.cost(signal, false) == measures.cost(signal, true) {
            return mixed(self.salt ^ signal.index() as u64) & 1 == 1;
        }
        measures.cheap_bit(signal)
    }
}

/// What is least at the pin that is gone to.
fn weight(course: &Course, pin: SignalId, pick: Pick) -> u64 {
    let measures = course.measures;
    let cost = match pick {
        Pick::Easiest(bit) => measures.cost(pin, bit),
        Pick::Hardest(bit) => u32::MAX - measures.cost(pin, bit),
        Pick::Cheapest => measures.cost(pin, false).min(measures.cost(pin, true)),
    };
    match (course.way, pick) {
        (Way::ByHash(round), Pick::Easiest(_) | Pick::Hardest(_)) => {
            hash_in(round, course.salt, pin)
        }
        _ => u64::from(cost),
    }
}

/// That pin, where each one is looked at.
fn best_pin(
    core: &Core,
    course: &Course,
    labels: &PairSim,
    pins: &[SignalId],
    pick: Pick,
) -> Option<SignalId>
    requires { labels.now.netlist ≡ core.now }
{
    let mut best: Option<SignalId> = None;
    let mut least: u64 = 0;
    for pin in pins {
        let own = weight(course, *pin, pick);
        if is_unknown(core, labels, *pin) && (best.is_none() || own < least) {
            best = Some(*pin);
            least = own;
        }
    }
    best
}

/// The number of the order by which a gate's pins are gone to, if there is one.
fn order_of(course: &Course, gate: SignalId, pins: &[SignalId], pick: Pick) -> Option<usize> {
    let by = match (course.way, pick) {
        (Way::ByCost, Pick::Easiest(_)) => By::Cheapest,
        (Way::ByCost, Pick::Hardest(_)) => By::Dearest,
        _ => return None,
    };
    course.orders.number(gate, pins, by)
}

/// The pin that is X to go to.
pub(crate) fn picked(
    core: &Core,
    course: &mut Course,
    labels: &PairSim,
    gate: SignalId,
    pins: &[SignalId],
    pick: Pick,
) -> Option<SignalId>
    requires { labels.now.netlist ≡ core.now }
{
    match order_of(course, gate, pins, pick) {
        None => best_pin(core, course, labels, pins, pick),
        Some(number) => course.first_unknown(core, labels, number),
    }
}

/// The pin of a parity gate to go to, and its bit: what gives the gate its own where no other is X.
fn into_parity(
    core: &Core,
    course: &Course,
    labels: &PairSim,
    pins: &[SignalId],
    bit: bool,
) -> Option<Aim>
    requires { labels.now.netlist ≡ core.now }
{
    let (unknown, odd) = count_pins(core, labels, pins);
    let signal = best_pin(core, course, labels, pins, Pick::Cheapest)?;
    let bit = if unknown == 1 {
        bit != odd
    } else {
        course.cheap_bit(signal)
    };
    Some(Aim { signal, bit })
}

/// The pin to go to from a gate that should have a bit, and the bit of the pin.
fn into_gate(core: &Core, course: &mut Course, labels: &PairSim, aim: Aim) -> Option<Aim>
    requires { labels.now.netlist ≡ core.now }
{
    let (kind, pins) = gate_of(core, aim.signal)?;
    let bit = aim.bit != is_inverting(kind);
    let pick = match kind {
        Kind::And | Kind::Nand if bit => Pick::Hardest(true),
        Kind::Or | Kind::Nor if !bit => Pick::Hardest(false),
        Kind::Xor | Kind::Xnor => return into_parity(core, course, labels, pins, bit),
        _ => Pick::Easiest(bit),
    };
    let signal = picked(core, course, labels, aim.signal, pins, pick)?;
    Some(Aim { signal, bit })
}

/// Whether a signal comes before the best so far in the order of evaluation.
fn is_lower(core: &Core, signal: SignalId, best: &Option<Aim>) -> bool {
    match best {
        None => true,
        Some(aim) => place_of(core, signal) < place_of(core, aim.signal),
    }
}

/// The lowest decided gate that isn't justified.
fn lowest_decided(roled: &RoledCase, labels: &PairSim, stack: &[Side]) -> Option<Aim>
    requires same { labels.now.netlist ≡ roled.now.case.core.now }
    requires not_blocked { IsNotBlocked labels.now }
{
    let core = roled.case.core;
    let mut best: Option<Aim> = None;
    for side in stack {
        let signal = side.signal;
        let is_open = !has_head(roled.roles, signal)
            && is_own_unknown(core, labels, signal)
            && gate_of(core, signal).is_some();
        if is_open && is_lower(core, signal, &best) {
            best = Some(Aim {
                signal,
                bit: side.bit,
            });
        }
    }
    best
}

/// The bit at which an effect goes past a pin.
pub(crate) fn passing_bit(course: &Course, kind: Kind, pin: SignalId) -> bool {
    match kind {
        Kind::And | Kind::Nand => true,
        Kind::Or | Kind::Nor => false,
        _ => course.cheap_bit(pin),
    }
}

/// The lowest of the pins that is X.
fn lowest_of(core: &Core, labels: &PairSim, pins: &[SignalId]) -> Option<SignalId>
    requires { labels.now.netlist ≡ core.now }
{
    let mut best: Option<SignalId> = None;
    let mut least: u64 = 0;
    for pin in pins {
        let place = place_of(core, *pin);
        if is_unknown(core, labels, *pin) && (best.is_none() || place < least) {
            best = Some(*pin);
            least = place;
        }
    }
    best
}

/// The lowest pin that is X of a gate that the effect should go through.
fn lowest_pin(core: &Core, course: &mut Course, labels: &PairSim, gate: SignalId) -> Option<Aim>
    requires { labels.now.netlist ≡ core.now }
{
    let (kind, pins) = gate_of(core, gate)?;
    let signal = match course.orders.number(gate, pins, By::Lowest) {
        None => lowest_of(core, labels, pins)?,
        Some(number) => course.first_unknown(core, labels, number)?,
    };
    let bit = passing_bit(course, kind, signal);
    Some(Aim { signal, bit })
}

/// The objective that is traced back: that the fault is excited; or else what is lowest in the order of evaluation of the decided gates that
/// aren't justified and of the pins of the nearest gate of the D-frontier. What is low is decided by little, so it fails early.
pub(crate) fn objective(
    roled: &RoledCase,
    course: &mut Course,
    frontier: &Frontier,
    labels: &PairSim,
    stack: &[Side],
    paths: &mut Paths,
) -> Result<Option<Aim>, AllocError>
    requires same { labels.now.netlist ≡ roled.now.case.core.now }
    requires not_blocked { IsNotBlocked labels.now }
{
    let core = roled.case.core;
    if let Some(aim) = excitation(core, &roled.case.fault, labels) {
        return Ok(Some(aim));
    }
    let decided = lowest_decided(roled, labels, stack);
    if let Some(gate) = frontier.nearest(core, course.measures(), labels, paths)? {
        if let Some(pin) = lowest_pin(core, course, labels, gate) {
            if is_lower(core, pin.signal, &decided) {
                return Ok(Some(pin));
            }
        }
    }
    let Some(gate) = decided else {
        return Ok(None);
    };
    Ok(into_gate(core, course, labels, gate))
}

/// Whether the backtrace ends at a signal: at a head line, an input or a cell, and at the first fanout stem where it is to.
fn ends(roled: &RoledCase, labels: &PairSim, id: SignalId, stop: Stop) -> bool
    requires same { labels.now.netlist ≡ roled.now.case.core.now }
    requires not_blocked { IsNotBlocked labels.now }
{
    let core = roled.case.core;
    if has_head(roled.roles, id) || gate_of(core, id).is_none() {
        return true;
    }
    matches!(stop, Stop::Stems) && readers(core, id).len() >= 2 && !may_differ(core, labels, id)
}

/// Where an objective leads.
pub(crate) fn trace_from(
    roled: &RoledCase,
    course: &mut Course,
    labels: &PairSim,
    objective: Aim,
) -> Option<Aim>
    requires same { labels.now.netlist ≡ roled.now.case.core.now }
    requires not_blocked { IsNotBlocked labels.now }
{
    let stop = course.stop();
    let mut aim = objective;
    for _step in 0..signal_count(roled.case.core) {
        if ends(roled, labels, aim.signal, stop) {
            return Some(aim);
        }
        aim = into_gate(roled.case.core, course, labels, aim)?;
    }
    None
}
