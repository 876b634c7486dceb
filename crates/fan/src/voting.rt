//! All objectives together, traced back by votes to head lines, to inputs and cells, and to fanout stems. (The multiple backtrace of Fujiwara and Shimono
//! 1983.) Nothing stands on it but the speed of the search.
ghost use Rattle.std.specs.Prelude.{◌≡◌};
ghost use Rattle.pair_sim.specs.Sims.{IsNotBlocked};

use crate::cases::RoledCase;
use crate::guides::{Stop, has_head};
use crate::tracing::{Course, Pick, passing_bit, picked};
use crate::wants::{Votes, Wants, turned, votes_for};
use decisions::{
    Aim, count_pins, excitation, gate_of, is_inverting, is_own_unknown, is_unknown, may_differ,
    readers, signal_count,
};
use netlist::{Core, Kind, SignalId};
use pair_sim::PairSim;
use redundancy_cert::Side;
use std::alloc::AllocError;

/// Adds to what is wanted of a signal, if it is X.
fn want(
    core: &Core,
    labels: &PairSim,
    wants: &mut Wants,
    id: SignalId,
    votes: Votes,
) -> Result<(), AllocError>
    requires { labels.now.netlist ≡ core.now }
{
    if is_unknown(core, labels, id) {
        return wants.add(core, id, votes);
    }
    Ok(())
}

/// Adds the same to what is wanted of each pin that is X.
fn want_each(
    core: &Core,
    labels: &PairSim,
    wants: &mut Wants,
    pins: &[SignalId],
    votes: Votes,
) -> Result<(), AllocError>
    requires { labels.now.netlist ≡ core.now }
{
    for pin in pins {
        want(core, labels, wants, *pin, votes)?;
    }
    Ok(())
}

/// All pins are wanted at a bit, and one of them, the easiest, at the other. Where the backtrace stops at stems it comes to those of which nothing is
/// wanted too: a fanout stem among them may be nearer than the one that is wanted.
fn want_pins(
    core: &Core,
    course: &mut Course,
    labels: &PairSim,
    wants: &mut Wants,
    gate: SignalId,
    bit: bool,
    all: u32,
    some: u32,
) -> Result<(), AllocError>
    requires { labels.now.netlist ≡ core.now }
{
    let Some((_, pins)) = gate_of(core, gate) else {
        return Ok(());
    };
    if all > 0 || matches!(course.stop(), Stop::Stems) {
        let left = course.left(core, labels, gate, pins);
        want_each(core, labels, wants, left, votes_for(bit, all))?;
    }
    if some == 0 {
        return Ok(());
    }
    match picked(core, course, labels, gate, pins, Pick::Easiest(!bit)) {
        None => Ok(()),
        Some(pin) => want(core, labels, wants, pin, votes_for(!bit, some)),
    }
}

/// The pins of a parity gate are wanted at their cheaper bits, or the only one that is X at what gives the bit.
fn want_parity(
    core: &Core,
    course: &Course,
    labels: &PairSim,
    wants: &mut Wants,
    pins: &[SignalId],
    votes: Votes,
) -> Result<(), AllocError>
    requires { labels.now.netlist ≡ core.now }
{
    let (unknown, odd) = count_pins(core, labels, pins);
    if unknown == 1 {
        return want_each(core, labels, wants, pins, turned(votes, odd));
    }
    let both = votes.zero.saturating_add(votes.one);
    for pin in pins {
        let wanted = votes_for(course.cheap_bit(*pin), both);
        want(core, labels, wants, *pin, wanted)?;
    }
    Ok(())
}

/// What is wanted of a gate is wanted of its pins.
fn spread(
    core: &Core,
    course: &mut Course,
    labels: &PairSim,
    wants: &mut Wants,
    gate: SignalId,
    votes: Votes,
) -> Result<(), AllocError>
    requires { labels.now.netlist ≡ core.now }
{
    let Some((kind, pins)) = gate_of(core, gate) else {
        return Ok(());
    };
    let inner = turned(votes, is_inverting(kind));
    match kind {
        Kind::And | Kind::Nand => {
            want_pins(
                core, course, labels, wants, gate, true, inner.one, inner.zero,
            )
        }
        Kind::Or | Kind::Nor => {
            want_pins(
                core, course, labels, wants, gate, false, inner.zero, inner.one,
            )
        }
        Kind::Xor | Kind::Xnor => want_parity(core, course, labels, wants, pins, inner),
        Kind::Not | Kind::Buff => want_each(core, labels, wants, pins, inner),
        Kind::Dff | Kind::Const0 | Kind::Const1 => Ok(()),
    }
}

/// The effect should go through a gate.
pub(crate) fn want_through(
    core: &Core,
    course: &mut Course,
    labels: &PairSim,
    wants: &mut Wants,
    gate: SignalId,
) -> Result<(), AllocError>
    requires { labels.now.netlist ≡ core.now }
{
    let Some((kind, pins)) = gate_of(core, gate) else {
        return Ok(());
    };
    for pin in course.left(core, labels, gate, pins) {
        let bit = passing_bit(course, kind, *pin);
        want(core, labels, wants, *pin, votes_for(bit, 1))?;
    }
    Ok(())
}

/// The decided bits of gates that their pins don't make are wanted.
pub(crate) fn want_decided(
    roled: &RoledCase,
    course: &mut Course,
    labels: &PairSim,
    wants: &mut Wants,
    stack: &[Side],
) -> Result<(), AllocError>
    requires same { labels.now.netlist ≡ roled.now.case.core.now }
    requires not_blocked { IsNotBlocked labels.now }
{
    let core = roled.case.core;
    for side in stack {
        if !has_head(roled.roles, side.signal) && is_own_unknown(core, labels, side.signal) {
            let votes = votes_for(side.bit, 1);
            spread(core, course, labels, wants, side.signal, votes)?;
        }
    }
    Ok(())
}

/// That the fault is excited is wanted; whether it isn't yet.
pub(crate) fn want_excited(
    roled: &RoledCase,
    labels: &PairSim,
    wants: &mut Wants,
) -> Result<bool, AllocError>
    requires { labels.now.netlist ≡ roled.now.case.core.now }
{
    match excitation(roled.case.core, &roled.case.fault, labels) {
        None => Ok(false),
        Some(aim) => {
            let votes = votes_for(aim.bit, 1);
            want(roled.case.core, labels, wants, aim.signal, votes)?;
            Ok(true)
        }
    }
}

/// Whether the backtrace stops at a fanout stem.
fn stops(core: &Core, labels: &PairSim, id: SignalId, votes: Votes, stop: Stop) -> bool
    requires same { labels.now.netlist ≡ core.now }
    requires not_blocked { IsNotBlocked labels.now }
{
    if readers(core, id).len() < 2 || may_differ(core, labels, id) {
        return false;
    }
    matches!(stop, Stop::Stems) || (votes.zero > 0 && votes.one > 0)
}

/// What the backtrace has found: the end that is wanted most so far.
#[derive(Clone, Copy)]
struct Best {
    aim: Option<Aim>,
    most: u32,
}

impl Best {
    /// The better one of it and another end.
    fn or(self, aim: Aim, votes: Votes) -> Best {
        let all = votes.zero.saturating_add(votes.one);
        if self.aim.is_none() || all > self.most {
            return Best {
                aim: Some(aim),
                most: all,
            };
        }
        self
    }
}

/// Whether a signal is an end of the backtrace: a head line, an input or a cell.
fn is_end(roled: &RoledCase, id: SignalId) -> bool {
    has_head(roled.roles, id) || gate_of(roled.case.core, id).is_none()
}

/// Goes back from what is wanted: the first fanout stem at which it stops, or the end that is wanted most.
pub(crate) fn trace_back(
    roled: &RoledCase,
    course: &mut Course,
    labels: &PairSim,
    wants: &mut Wants,
) -> Result<Option<Aim>, AllocError>
    requires same { labels.now.netlist ≡ roled.now.case.core.now }
    requires not_blocked { IsNotBlocked labels.now }
{
    let core = roled.case.core;
    let stop = course.stop();
    let mut best = Best { aim: None, most: 0 };
    for _step in 0..signal_count(core) {
        let Some(id) = wants.next() else {
            break;
        };
        let votes = wants.votes(id);
        let aim = Aim {
            signal: id,
            bit: votes.one > votes.zero,
        };
        if is_end(roled, id) {
            best = best.or(aim, votes);
        } else if stops(core, labels, id, votes, stop) {
            return Ok(Some(aim));
        } else {
            spread(core, course, labels, wants, id, votes)?;
        }
    }
    Ok(best.aim)
}
