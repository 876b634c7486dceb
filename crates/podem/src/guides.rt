//! What a decision is made for: an objective, traced back to an input or a cell. Nothing stands on it but the speed of the search.
ghost use Rattle.std.specs.Prelude.{◌≡◌, ⊤};
ghost use Rattle.pair_sim.specs.Sims.{IsNotBlocked};

use decisions::{
    Aim, By, Case, Effects, Measures, Orders, Places, count_pins, excitation, gate_of, hash_in,
    is_unknown, may_get_effect, mixed, place_of, readers, salt_of, signal_count,
};
use netlist::{Core, Fault, Kind, Line, SignalId};
use pair_sim::PairSim;
use std::alloc::AllocError;
use std::marker::Model;

/// A gate that the fault's effect has reached, what it costs to see it, and what lets the effect through.
#[derive(Clone, Copy)]
struct Front {
    gate: SignalId,
    cost: u32,
    aim: Aim,
}

/// Which pin the backtrace goes to.
#[derive(Clone, Copy)]
pub(crate) enum Pick {
    /// Where one pin decides the easiest, and where all have to have the bit the hardest.
    Needed,
    /// One by a hash of fault and signal, another one in each round.
    Any(u32),
    /// The lowest in the order of evaluation: what is low is decided by little.
    Lowest,
}

/// What guides the search for one fault: what bits cost, the orders of wide gates' pins and how far each is known, what is wanted where both bits cost
/// alike, which pin the backtrace goes to, and the signals with an effect.
#[derive(Drop)]
pub(crate) struct Guide<'a> {
    measures: &'a Measures,
    orders: &'a Orders,
    salt: u64,
    pick: Pick,
    pub(crate) effects: Effects,
    pub(crate) places: Places,
}

// Contracts see nothing of it: no answer rests on it. (So what it is made of stands in no proof of the functions that hand it on.)
impl<'a> Model for Guide<'a> {
    ghost Value = { ⊤ };

    ghost view = { λ _. tt };
}

impl<'a> Guide<'a> {
    /// With room for effects and for places in orders, whatever it held.
    pub(crate) fn of(
        measures: &'a Measures,
        orders: &'a Orders,
        fault: &Fault,
        effects: Effects,
        places: Places,
    ) -> Guide<'a> {
        Guide {
            measures,
            orders,
            salt: salt_of(fault),
            pick: Pick::Needed,
            effects,
            places,
        }
    }

    /// Another search begins.
    pub(crate) fn begin(&mut self) {
        self.effects.begin();
    }

    /// Looks at what the trail of labels has gained, after so many decisions.
    pub(crate) fn follow(
        &mut self,
        case: &Case,
        labels: &PairSim,
        depth: usize,
    ) -> Result<(), AllocError>
        requires same { labels.now.netlist ≡ case.now.core.now }
        requires not_blocked { IsNotBlocked labels.now }
    {
        self.effects.follow(case.core, &case.fault, labels)?;
        self.places.reach(depth);
        Ok(())
    }

    /// From here on the backtrace goes to these pins.
    pub(crate) fn go_to(&mut self, pick: Pick) {
        self.pick = pick;
    }

    /// The number of the order by which a gate's pins are gone to, if there is one.
    fn order(&self, gate: SignalId, pins: &[SignalId], dear: bool) -> Option<usize> {
        let by = match self.pick {
            Pick::Needed => if dear { By::Dearest } else { By::Cheapest },
            Pick::Any(_) => return None,
            Pick::Lowest => By::Lowest,
        };
        self.orders.number(gate, pins, by)
    }

    /// The first pin of an order that is X.
    fn first_unknown(&mut self, core: &Core, labels: &PairSim, number: usize) -> Option<SignalId>
        requires { labels.now.netlist ≡ core.now }
    {
        self.places.first_unknown(core, labels, self.orders, number)
    }

    fn cost(&self, signal: SignalId, bit: bool) -> u32 {
        self.measures.cost(signal, bit)
    }

    /// The bit that is cheaper. Where both cost alike it depends on fault and signal: were it the same for all faults, their tests would be alike,
    /// and a parity tree would need one for each input.
    fn cheap_bit(&self, signal: SignalId) -> bool {
        let zero = self.cost(signal, false);
        let one = self.cost(signal, true);
        if zero == one {
            return mixed(self.salt ^ signal.index() as u64) & 1 == 1;
        }
        one < zero
    }

    /// What is least at the pin that is gone to, where a bit is wanted of one pin, or of all if it is dear.
    fn weight(&self, core: &Core, pin: SignalId, bit: bool, dear: bool) -> u64 {
        let cost = self.cost(pin, bit);
        match self.pick {
            Pick::Needed => u64::from(if dear { u32::MAX - cost } else { cost }),
            Pick::Any(round) => hash_in(round, self.salt, pin),
            Pick::Lowest => place_of(core, pin),
        }
    }
}

/// Whether a weight is less than the least so far.
fn is_better(weight: u64, best: &Option<(SignalId, u64)>) -> bool {
    match best {
        None => true,
        Some((_, least)) => weight < *least,
    }
}

/// The pin that is X to go to for a bit, which is wanted of one pin, or of all if it is dear.
fn pin_for(
    core: &Core,
    guide: &mut Guide,
    labels: &PairSim,
    gate: SignalId,
    pins: &[SignalId],
    bit: bool,
    dear: bool,
) -> Option<Aim>
    requires { labels.now.netlist ≡ core.now }
{
    let signal = match guide.order(gate, pins, dear) {
        Some(number) => guide.first_unknown(core, labels, number)?,
        None => best_pin(core, guide, labels, pins, bit, dear)?,
    };
    Some(Aim { signal, bit })
}

/// That pin, where each one is looked at.
fn best_pin(
    core: &Core,
    guide: &Guide,
    labels: &PairSim,
    pins: &[SignalId],
    bit: bool,
    dear: bool,
) -> Option<SignalId>
    requires { labels.now.netlist ≡ core.now }
{
    let mut best = None;
    for pin in pins {
        let weight = guide.weight(core, *pin, bit, dear);
        if is_unknown(core, labels, *pin) && is_better(weight, &best) {
            best = Some((*pin, weight));
        }
    }
    let (signal, _) = best?;
    Some(signal)
}

/// The pin that is X for which its cheaper bit costs least, at that bit.
fn cheapest_pin(core: &Core, guide: &Guide, labels: &PairSim, pins: &[SignalId]) -> Option<Aim>
    requires { labels.now.netlist ≡ core.now }
{
    let mut best = None;
    for pin in pins {
        let cost = u64::from(guide.cost(*pin, guide.cheap_bit(*pin)));
        if is_unknown(core, labels, *pin) && is_better(cost, &best) {
            best = Some((*pin, cost));
        }
    }
    let (signal, _) = best?;
    Some(Aim {
        signal,
        bit: guide.cheap_bit(signal),
    })
}

/// A pin of a parity gate, and the bit there: what gives the output its bit where only that pin is X.
fn parity_pin(
    core: &Core,
    guide: &Guide,
    labels: &PairSim,
    pins: &[SignalId],
    bit: bool,
) -> Option<Aim>
    requires { labels.now.netlist ≡ core.now }
{
    let aim = cheapest_pin(core, guide, labels, pins)?;
    let (unknown, odd) = count_pins(core, labels, pins);
    if unknown == 1 {
        return Some(Aim {
            signal: aim.signal,
            bit: bit != odd,
        });
    }
    Some(aim)
}

/// One step back from an aim: a pin of its gate, and the bit there.
fn step_back(core: &Core, guide: &mut Guide, labels: &PairSim, aim: &Aim) -> Option<Aim>
    requires { labels.now.netlist ≡ core.now }
{
    let (kind, pins) = gate_of(core, aim.signal)?;
    match kind {
        Kind::And => pin_for(core, guide, labels, aim.signal, pins, aim.bit, aim.bit),
        Kind::Nand => pin_for(core, guide, labels, aim.signal, pins, !aim.bit, !aim.bit),
        Kind::Or => pin_for(core, guide, labels, aim.signal, pins, aim.bit, !aim.bit),
        Kind::Nor => pin_for(core, guide, labels, aim.signal, pins, !aim.bit, aim.bit),
        Kind::Xor => parity_pin(core, guide, labels, pins, aim.bit),
        Kind::Xnor => parity_pin(core, guide, labels, pins, !aim.bit),
        Kind::Not => pin_for(core, guide, labels, aim.signal, pins, !aim.bit, false),
        Kind::Buff => pin_for(core, guide, labels, aim.signal, pins, aim.bit, false),
        Kind::Dff | Kind::Const0 | Kind::Const1 => None,
    }
}

/// Where the aim leads back to.
fn trace_back(core: &Core, guide: &mut Guide, labels: &PairSim, start: &Aim) -> Aim
    requires { labels.now.netlist ≡ core.now }
{
    let mut aim = *start;
    for _step in 0..signal_count(core) {
        match step_back(core, guide, labels, &aim) {
            None => return aim,
            Some(next) => aim = next,
        }
    }
    aim
}

/// What a gate's pin should have so that an effect on another pin goes through.
fn through(core: &Core, guide: &mut Guide, labels: &PairSim, gate: SignalId) -> Option<Aim>
    requires { labels.now.netlist ≡ core.now }
{
    let (kind, pins) = gate_of(core, gate)?;
    match kind {
        Kind::And | Kind::Nand => pin_for(core, guide, labels, gate, pins, true, true),
        Kind::Or | Kind::Nor => pin_for(core, guide, labels, gate, pins, false, true),
        Kind::Xor | Kind::Xnor => cheapest_pin(core, guide, labels, pins),
        _ => None,
    }
}

/// Whether a gate is nearer to the observed points than the best so far.
fn is_nearer(gate: SignalId, cost: u32, best: &Option<Front>) -> bool {
    match best {
        None => true,
        Some(front) => {
            cost < front.cost || (cost == front.cost && gate.index() < front.gate.index())
        }
    }
}

/// A gate that an effect reaches, if it is better than the best so far.
fn consider(
    core: &Core,
    guide: &mut Guide,
    labels: &PairSim,
    gate: SignalId,
    best: Option<Front>,
) -> Option<Front>
    requires same { labels.now.netlist ≡ core.now }
    requires not_blocked { IsNotBlocked labels.now }
{
    let cost = guide.measures.sight(gate);
    if !may_get_effect(core, labels, gate) || !is_nearer(gate, cost, &best) {
        return best;
    }
    match through(core, guide, labels, gate) {
        None => best,
        Some(aim) => Some(Front { gate, cost, aim }),
    }
}

/// The gates that read a signal with an effect.
fn consider_readers(
    core: &Core,
    guide: &mut Guide,
    labels: &PairSim,
    signal: SignalId,
    start: Option<Front>,
) -> Option<Front>
    requires same { labels.now.netlist ≡ core.now }
    requires not_blocked { IsNotBlocked labels.now }
{
    let mut best = start;
    for line in readers(core, signal) {
        if let Line::Pin(gate, _) = line {
            best = consider(core, guide, labels, *gate, best);
        }
    }
    best
}

/// The best gate of the D-frontier: those that read a signal with an effect, whose own label may still get one.
fn frontier(case: &Case, guide: &mut Guide, labels: &PairSim) -> Option<Front>
    requires same { labels.now.netlist ≡ case.now.core.now }
    requires not_blocked { IsNotBlocked labels.now }
{
    let core = case.core;
    let mut best = None;
    if let Line::Pin(gate, _) = &case.fault.line {
        best = consider(core, guide, labels, *gate, best);
    }
    for number in 0..guide.effects.len() {
        if let Some(signal) = guide.effects.signal(number) {
            best = consider_readers(core, guide, labels, signal, best);
        }
    }
    best
}

/// The objective: the fault is excited, and then the gate of the D-frontier that is nearest to the observed points lets its effect through.
fn objective(case: &Case, guide: &mut Guide, labels: &PairSim) -> Option<Aim>
    requires same { labels.now.netlist ≡ case.now.core.now }
    requires not_blocked { IsNotBlocked labels.now }
{
    if let Some(aim) = excitation(case.core, &case.fault, labels) {
        return Some(aim);
    }
    Some(frontier(case, guide, labels)?.aim)
}

/// What to decide, if the labels tell.
pub(crate) fn best_aim(case: &Case, guide: &mut Guide, labels: &PairSim) -> Option<Aim>
    requires same { labels.now.netlist ≡ case.now.core.now }
    requires not_blocked { IsNotBlocked labels.now }
{
    let start = objective(case, guide, labels)?;
    Some(trace_back(case.core, guide, labels, &start))
}
