//! What is said of each machine.
//!
//! A judge says the same of all machines that show the same value at a strobe. So it is asked for each of the three values, and their bits tell
//! whether something is said of a machine of which nothing was; that is seldom, and then all machines are walked.
ghost use Rattle.std.specs.Prelude.{◌≡◌, ◌&&◌, ◌^◌, ◌<◌, ◌≤◌, ℕ, None, IfOk, length, not, replicate};
ghost use Rattle.statement.specs.declared.kinds.Tri.TheVariants.{Zero, One, X};
ghost use Rattle.scan_play.specs.Judging.{played_or_else};
ghost use Rattle.lane_play.specs.inner.Bits.{bit_in};
ghost use Rattle.lane_play.specs.inner.Lanes.{lane};
ghost use Rattle.lane_play.specs.inner.Verdicts.{AreJudgedIn, AreLeft, AreSaid, is_open, said_of};

use crate::bits::Bits;
use crate::packed::Lanes;
use crate::watching::Watch;
use netlist::Tri;
use scan_play::{Judge, Played};
use std::alloc::{AllocError, Global};

/// What was first said of each machine, and a bit for each of which nothing was said yet.
#[derive(Drop)]
pub(crate) struct Verdicts {
    pub found: Vec<Option<Played>>,
    pub left: Bits,
    pub ghost few: { length found.items ≤ 128 },
    pub ghost lefts: { AreLeft found.items (length found.items) left },
}

/// Whether nothing was said.
pub(crate) fn is_open(said: &Option<Played>) -> bool
    ensures { result ≡ is_open said.now }
{
    match said {
        Some(_) => false,
        None => true,
    }
}

/// The machines of which nothing was said.
fn left_of(found: &[Option<Played>]) -> Bits
    requires { length found.now ≤ 128 }
    ensures { AreLeft found.now (length found.now) result }
{
    let mut left = Bits::none();
    for k in 0..found.len() {
        left = left.with(k, is_open(&found[k]));
    }
    left
}

impl Verdicts {
    /// Nothing is said of so many machines.
    pub(crate) fn none(alloc: Global, count: usize) -> Result<Verdicts, AllocError>
        requires { count ≤ 128 }
        ensures { IfOk result (λ v. v.found.items ≡ replicate count None) }
    {
        let mut found = Vec::with_capacity(alloc, count)?;
        for _done in 0..count {
            found.push(None)?;
        }
        let left = left_of(&found);
        Ok(Verdicts { found, left })
    }
}

/// What a judge says of each value at a strobe.
#[derive(Clone, Copy)]
pub(crate) struct Sayings {
    zero: Option<Played>,
    one: Option<Played>,
    unknown: Option<Played>,
}

/// What is said where something is, and nothing before.
fn first_of(one: Option<Played>, other: Option<Played>) -> Option<Played>
    ensures { result ≡ played_or_else one other }
{
    match one {
        Some(said) => Some(said),
        None => other,
    }
}

/// These machines, where something is said.
fn masked(said: &Option<Played>, bits: Bits) -> Bits
    ensures { (k : ℕ) → k < 128 → bit_in k result ≡ (not (is_open said.now) && bit_in k bits) }
{
    match said {
        Some(_) => bits,
        None => Bits::none(),
    }
}

/// Asks a judge for each value.
pub(crate) fn ask<J: Judge>(judge: &J, cycle: u64, output: u32, strobe: Tri) -> Sayings
    ensures zero { result.zero ≡ J.says judge.now cycle output strobe Zero }
    ensures one { result.one ≡ J.says judge.now cycle output strobe One }
    ensures unknown { result.unknown ≡ J.says judge.now cycle output strobe X }
{
    Sayings {
        zero: judge.says(cycle, output, strobe, Tri::Zero),
        one: judge.says(cycle, output, strobe, Tri::One),
        unknown: judge.says(cycle, output, strobe, Tri::X),
    }
}

impl Sayings {
    /// What is said of a value.
    fn of(self, value: Tri) -> Option<Played>
        ensures { result ≡ said_of self.zero self.one self.unknown value }
    {
        match value {
            Tri::Zero => self.zero,
            Tri::One => self.one,
            Tri::X => self.unknown,
        }
    }

    /// The machines of which something is said.
    pub(crate) fn told(self, shown: Lanes) -> Bits
        ensures { (k : ℕ) → k < 128 → bit_in k result ≡ not (is_open (said_of self.zero self.one self.unknown (lane k shown))) }
    {
        let zero = masked(&self.zero, shown.known.and(shown.value.opposite()));
        let one = masked(&self.one, shown.known.and(shown.value));
        let unknown = masked(&self.unknown, shown.known.opposite());
        zero.or(one.or(unknown))
    }
}

/// Takes down what is said of each machine of which nothing was.
#[inline(never)]
fn take_down(sayings: Sayings, shown: Lanes, verdicts: Verdicts) -> Verdicts
    ensures { AreSaid (said_of sayings.zero sayings.one sayings.unknown) shown verdicts.found.items result.found.items }
{
    let Verdicts { mut found, left: _ } = verdicts;
    for k in 0..found.len() {
        found[k] = first_of(found[k], sayings.of(shown.lane(k)));
    }
    let left = left_of(&found);
    Verdicts { found, left }
}

/// What is said where a bit is strobed.
fn judge_bit<J: Judge>(
    judge: &J,
    cycle: u64,
    output: u32,
    strobe: Tri,
    shown: Lanes,
    verdicts: Verdicts,
) -> Verdicts
    ensures { AreSaid (J.says judge.now cycle output strobe) shown verdicts.found.items result.found.items }
{
    let sayings = ask(judge, cycle, output, strobe);
    if sayings.told(shown).and(verdicts.left).is_none() {
        return verdicts;
    }
    take_down(sayings, shown, verdicts)
}

#[inline(always)]
fn judge_output<J: Judge>(
    judge: &J,
    cycle: u64,
    output: u32,
    strobe: Tri,
    shown: Lanes,
    verdicts: Verdicts,
) -> Verdicts
    ensures { AreSaid (J.says judge.now cycle output strobe) shown verdicts.found.items result.found.items }
{
    match strobe {
        Tri::X => verdicts,
        Tri::Zero => judge_bit(judge, cycle, output, Tri::Zero, shown, verdicts),
        Tri::One => judge_bit(judge, cycle, output, Tri::One, shown, verdicts),
    }
}

/// What is said in a cycle.
pub(crate) fn judge_row<J: Judge>(
    judge: &J,
    cycle: u64,
    strobes: &[Tri],
    shown: &[Lanes],
    verdicts: Verdicts,
) -> Verdicts
    requires same { length strobes.now ≡ length shown.now }
    requires few { length strobes.now < 2 ^ 32 }
    ensures { AreJudgedIn (J.says judge.now) cycle strobes.now shown.now verdicts.found.items result.found.items }
{
    let mut so_far = verdicts;
    for o in 0..strobes.len() {
        so_far = judge_output(judge, cycle, o as u32, strobes[o], shown[o], so_far);
    }
    so_far
}

/// The verdicts of a judge, who is done once he has said something of each machine.
impl<J: Judge> Watch<J> for Verdicts {
    ghost use Rattle.lane_play.specs.inner.Steps.{ArePlayed};

    ghost kept = { λ j v faults n cycles state. ArePlayed (J.says j) faults n cycles state v.found.items };

    fn hear(
        self,
        judge: &J,
        number: u64,
        strobes: &[Tri],
        shown: &[Lanes],
    ) -> Result<Self, AllocError> {
        Ok(judge_row(judge, number, strobes, shown, self))
    }

    fn is_done(&self) -> bool {
        self.left.is_none()
    }
}
