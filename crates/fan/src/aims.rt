//! Signals that may be forced: what the fault's line, implications and a single gate of the D-frontier ask for. (Implication and unique sensitization
//! of Fujiwara and Shimono 1983.) These are guesses: `forcing` looks at the other side of each, and decides it where that is closed. So a rule that
//! is left out here costs time and no answer; only what is next to a decision is asked for, and the rest comes up when the next turn asks.
//!
//! A guess is made when it is come to, from pins that stand in the netlist: those behind the one that is decided are never made.
ghost use Rattle.std.specs.Prelude.{◌≡◌};
ghost use Rattle.pair_sim.specs.Sims.{IsNotBlocked};

use crate::cases::RoledCase;
use crate::guides::{Guide, has_head};
use crate::tracing::Course;
use decisions::{count_pins, gate_of, is_inverting, is_own_unknown, is_unknown};
use netlist::{Core, Kind, SignalId};
use pair_sim::PairSim;
use redundancy_cert::Side;

/// What is asked of pins: that each one that is X has a bit; of pins that an effect passes, each to which it can't come itself.
#[derive(Clone, Copy)]
pub(crate) struct Asked<'a> {
    pub pins: &'a [SignalId],
    pub bit: bool,
    pub is_passed: bool,
}

/// Whether one of the pins alone is X.
fn is_last(core: &Core, labels: &PairSim, pins: &[SignalId]) -> bool
    requires { labels.now.netlist ≡ core.now }
{
    let mut unknown: u32 = 0;
    for pin in pins {
        if is_unknown(core, labels, *pin) {
            if unknown > 0 {
                return false;
            }
            unknown = 1;
        }
    }
    unknown == 1
}

/// What the pins of a gate have to have so that it has its decided bit.
fn implied<'a>(
    core: &'a Core,
    course: &mut Course,
    labels: &PairSim,
    side: &Side,
) -> Option<Asked<'a>>
    requires { labels.now.netlist ≡ core.now }
{
    let (kind, all) = gate_of(core, side.signal)?;
    let inner = side.bit != is_inverting(kind);
    let pins = course.left(core, labels, side.signal, all);
    let bit = match kind {
        Kind::And | Kind::Nand if inner || is_last(core, labels, pins) => inner,
        Kind::Or | Kind::Nor if !inner || is_last(core, labels, pins) => inner,
        Kind::Xor | Kind::Xnor => parity_left(core, labels, pins, inner)?,
        Kind::Not | Kind::Buff => inner,
        _ => return None,
    };
    Some(Asked {
        pins,
        bit,
        is_passed: false,
    })
}

/// The bit of a parity gate's last pin.
fn parity_left(core: &Core, labels: &PairSim, pins: &[SignalId], bit: bool) -> Option<bool>
    requires { labels.now.netlist ≡ core.now }
{
    let (unknown, odd) = count_pins(core, labels, pins);
    if unknown == 1 { Some(bit != odd) } else { None }
}

/// What the other pins of a gate have to have so that an effect goes through.
fn passed<'a>(
    core: &'a Core,
    course: &mut Course,
    labels: &PairSim,
    gate: SignalId,
) -> Option<Asked<'a>>
    requires { labels.now.netlist ≡ core.now }
{
    let (kind, all) = gate_of(core, gate)?;
    let bit = match kind {
        Kind::And | Kind::Nand => true,
        Kind::Or | Kind::Nor => false,
        _ => return None,
    };
    Some(Asked {
        pins: course.left(core, labels, gate, all),
        bit,
        is_passed: true,
    })
}

/// What is asked for by the decision at a place of the stack, or behind all of them by the gate of the D-frontier where there is one alone.
pub(crate) fn asked_at<'a>(
    roled: &RoledCase<'a>,
    guide: &mut Guide,
    labels: &PairSim,
    stack: &[Side],
    place: usize,
) -> Option<Asked<'a>>
    requires same { labels.now.netlist ≡ roled.now.case.core.now }
    requires not_blocked { IsNotBlocked labels.now }
{
    let core = roled.case.core;
    let Some(side) = stack.get(place) else {
        let gate = guide.frontier.only_gate()?;
        return passed(core, &mut guide.course, labels, gate);
    };
    if has_head(roled.roles, side.signal) || !is_own_unknown(core, labels, side.signal) {
        return None;
    }
    implied(core, &mut guide.course, labels, side)
}
