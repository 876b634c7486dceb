//! Signals of which one side is closed, so that the other is forced. A side is decided by way of trial and its labels tell whether it is closed, where FAN
//! has rules of implication gate by gate: so all that follows from a decision counts, whatever gates it goes through, and each Forced shows its reason.
//!
//! Where the search looks at one side of a decision alone, a place that may be forced is decided without the trial, and split on. A signal that is no
//! place can't be split on, so its other side is looked at.
ghost use Rattle.std.specs.Prelude.{IsTrue};
ghost use Rattle.fan.specs.inner.Searching.{IsRoledCase, IsOnPath, IsGoing, IsChosen, IsFreeToDecide, IsForcedSeen};

use crate::aims::{Asked, asked_at};
use crate::cases::RoledCase;
use crate::choosing::{is_free, is_split};
use crate::guides::Guide;
use crate::standing::go;
use decisions::{Aim, excitation, may_differ};
use netlist::{Point, SignalId};
use pair_sim::{PairSim, State};
use redundancy_cert::Side;

/// What was seen of signals that may be forced.
#[derive(Drop)]
pub enum Seen {
    Reached(Point),
    /// The other side of this one is closed.
    ShutBeside(Aim),
    /// This place may be forced, and its other side isn't looked at.
    Guess(Aim),
    Nothing,
}

/// Whether a pin is asked of, and may be decided and isn't known.
#[tactic(auto, using(crate::proofs::Beside::same_netlist, crate::proofs::Beside::not_blocked))]
fn is_asked(
    roled: &RoledCase,
    labels: &PairSim,
    stack: &[Side],
    asked: &Asked,
    pin: SignalId,
) -> bool
    requires case { IsRoledCase roled.now }
    requires at { IsOnPath roled.now.case labels.now stack.now }
    requires going { IsGoing roled.now.case stack.now }
    ensures { IsTrue result → IsFreeToDecide roled.now.case labels.now pin }
{
    if asked.is_passed && may_differ(roled.case.core, labels, pin) {
        return false;
    }
    is_free(roled, labels, stack, pin)
}

/// Looks at the other side of a signal, but not at that of a place where the search looks at one side alone.
fn look_beside(roled: &RoledCase, labels: &mut PairSim, stack: &[Side], aim: Aim) -> Seen
    requires case { IsRoledCase roled.now }
    requires chosen { IsChosen roled.now.case labels.old stack.now aim.signal }
    ensures { IsForcedSeen roled.now labels.old labels.new stack.now result }
{
    if !roled.looks && is_split(roled, labels, stack, aim.signal) {
        return Seen::Guess(aim);
    }
    match go(roled, labels, stack, aim.signal, !aim.bit) {
        State::Test(point) => Seen::Reached(point),
        State::Blocked => Seen::ShutBeside(aim),
        State::Going => {
            labels.undo();
            Seen::Nothing
        }
    }
}

/// Looks for a pin that is forced, or may be.
fn find_at(roled: &RoledCase, labels: &mut PairSim, stack: &[Side], asked: &Asked) -> Seen
    requires case { IsRoledCase roled.now }
    requires at { IsOnPath roled.now.case labels.old stack.now }
    requires going { IsGoing roled.now.case stack.now }
    ensures { IsForcedSeen roled.now labels.old labels.new stack.now result }
{
    for pin in asked.pins {
        if is_asked(roled, labels, stack, asked, *pin) {
            let aim = Aim {
                signal: *pin,
                bit: asked.bit,
            };
            match look_beside(roled, labels, stack, aim) {
                Seen::Reached(point) => return Seen::Reached(point),
                Seen::ShutBeside(aim) => return Seen::ShutBeside(aim),
                Seen::Guess(aim) => return Seen::Guess(aim),
                Seen::Nothing => {}
            }
        }
    }
    Seen::Nothing
}

/// Looks at what excites the fault.
#[tactic(auto, using(crate::proofs::Beside::same_netlist))]
fn find_excited(roled: &RoledCase, labels: &mut PairSim, stack: &[Side]) -> Seen
    requires case { IsRoledCase roled.now }
    requires at { IsOnPath roled.now.case labels.old stack.now }
    requires going { IsGoing roled.now.case stack.now }
    ensures { IsForcedSeen roled.now labels.old labels.new stack.now result }
{
    let Some(aim) = excitation(roled.case.core, &roled.case.fault, labels) else {
        return Seen::Nothing;
    };
    let pins = [aim.signal];
    let asked = Asked {
        pins: &pins,
        bit: aim.bit,
        is_passed: false,
    };
    find_at(roled, labels, stack, &asked)
}

/// Looks at what excites the fault, behind that at each decision, and then at the gate of the D-frontier where there is one alone.
#[tactic(auto, using(crate::proofs::Beside::same_netlist, crate::proofs::Beside::not_blocked))]
fn find_of(
    roled: &RoledCase,
    guide: &mut Guide,
    labels: &mut PairSim,
    stack: &[Side],
    number: usize,
) -> Seen
    requires case { IsRoledCase roled.now }
    requires at { IsOnPath roled.now.case labels.old stack.now }
    requires going { IsGoing roled.now.case stack.now }
    ensures { IsForcedSeen roled.now labels.old labels.new stack.now result }
{
    if number == 0 {
        return find_excited(roled, labels, stack);
    }
    match asked_at(roled, guide, labels, stack, number - 1) {
        None => Seen::Nothing,
        Some(asked) => find_at(roled, labels, stack, &asked),
    }
}

/// Looks for a signal whose other side is closed.
pub(crate) fn find_forced(
    roled: &RoledCase,
    guide: &mut Guide,
    labels: &mut PairSim,
    stack: &[Side],
) -> Seen
    requires case { IsRoledCase roled.now }
    requires at { IsOnPath roled.now.case labels.old stack.now }
    requires going { IsGoing roled.now.case stack.now }
    ensures { IsForcedSeen roled.now labels.old labels.new stack.now result }
{
    for number in 0..stack.len() + 2 {
        match find_of(roled, guide, labels, stack, number) {
            Seen::Reached(point) => return Seen::Reached(point),
            Seen::ShutBeside(aim) => return Seen::ShutBeside(aim),
            Seen::Guess(aim) => return Seen::Guess(aim),
            Seen::Nothing => {}
        }
    }
    Seen::Nothing
}
