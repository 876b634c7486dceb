//! How many strobes of each machine something is said of.
ghost use Rattle.std.specs.Prelude.{◌≡◌, ◌+◌, ◌^◌, ◌<◌, ◌≤◌, ℕ, Bool, IfOk, length, replicate};
ghost use Rattle.std.specs.List.{All};
ghost use Rattle.scan_play.specs.Cycles.{IsCycleOf};
ghost use Rattle.lane_play.specs.Counted.{AreCounted, on_one, on_other, one_if};
ghost use Rattle.lane_play.specs.inner.Bits.{bit_in};
ghost use Rattle.lane_play.specs.inner.Counts.{AreMore, AreMoreIn, number_at};

use crate::bits::Bits;
use crate::judging::ask;
use crate::packed::Lanes;
use crate::playing::play;
use crate::watching::Watch;
use netlist::{Core, Fault, NoMemory, Tri};
use scan_play::{Judge, Vectors};
use std::alloc::{AllocError, Global};

/// A judge to whom each place, a cycle and an output, is on one side or on the other.
pub trait Sides: Judge {
    ghost side: { Self → ℕ → ℕ → Bool };

    fn is_on_one(&self, cycle: u64, output: u32) -> bool
        ensures { result ≡ side self.now cycle output };
}

/// Of how many strobes of each machine something is said, on either side.
#[derive(Drop)]
pub struct Counts {
    pub one: Vec<u64>,
    pub other: Vec<u64>,
}

/// One more, where it counts. A number that no word holds is refused as memory is: no test has so many strobes.
fn more(number: u64, counts: bool) -> Result<u64, AllocError>
    ensures { IfOk result (λ more. more ≡ number + one_if counts) }
{
    if !counts {
        return Ok(number);
    }
    match number.checked_add(1) {
        Some(more) => Ok(more),
        None => Err(AllocError),
    }
}

/// Adds 1 for each machine that has its bit.
fn add(bits: Bits, numbers: Vec<u64>) -> Result<Vec<u64>, AllocError>
    requires { length numbers.items ≤ 128 }
    ensures size { IfOk result (λ v. length v.items ≡ length numbers.items) }
    ensures each { IfOk result (λ v. (k : ℕ) → k < length numbers.items → number_at v.items k ≡ number_at numbers.items k + one_if (bit_in k bits)) }
{
    let mut numbers = numbers;
    for k in 0..numbers.len() {
        numbers[k] = more(numbers[k], bits.has(k))?;
    }
    Ok(numbers)
}

/// Counts where a bit is strobed.
fn count_bit<S: Sides>(
    sides: &S,
    cycle: u64,
    output: u32,
    strobe: Tri,
    shown: Lanes,
    counts: Counts,
) -> Result<Counts, AllocError>
    requires one { length counts.one.items ≤ 128 }
    requires other { length counts.other.items ≤ 128 }
    ensures one { IfOk result (λ new. AreMore (on_one (S.says sides.now) (S.side sides.now) cycle output strobe) shown counts.one.items new.one.items) }
    ensures other { IfOk result (λ new. AreMore (on_other (S.says sides.now) (S.side sides.now) cycle output strobe) shown counts.other.items new.other.items) }
{
    let told = ask(sides, cycle, output, strobe).told(shown);
    if told.is_none() {
        return Ok(counts);
    }
    let Counts { one, other } = counts;
    if sides.is_on_one(cycle, output) {
        let one = add(told, one)?;
        Ok(Counts { one, other })
    } else {
        let other = add(told, other)?;
        Ok(Counts { one, other })
    }
}

fn count_output<S: Sides>(
    sides: &S,
    cycle: u64,
    output: u32,
    strobe: Tri,
    shown: Lanes,
    counts: Counts,
) -> Result<Counts, AllocError>
    requires one { length counts.one.items ≤ 128 }
    requires other { length counts.other.items ≤ 128 }
    ensures one { IfOk result (λ new. AreMore (on_one (S.says sides.now) (S.side sides.now) cycle output strobe) shown counts.one.items new.one.items) }
    ensures other { IfOk result (λ new. AreMore (on_other (S.says sides.now) (S.side sides.now) cycle output strobe) shown counts.other.items new.other.items) }
{
    match strobe {
        Tri::X => Ok(counts),
        Tri::Zero => count_bit(sides, cycle, output, Tri::Zero, shown, counts),
        Tri::One => count_bit(sides, cycle, output, Tri::One, shown, counts),
    }
}

/// Counts in a cycle.
fn count_row<S: Sides>(
    sides: &S,
    cycle: u64,
    strobes: &[Tri],
    shown: &[Lanes],
    counts: Counts,
) -> Result<Counts, AllocError>
    requires same { length strobes.now ≡ length shown.now }
    requires few { length strobes.now < 2 ^ 32 }
    requires one { length counts.one.items ≤ 128 }
    requires other { length counts.other.items ≤ 128 }
    ensures one { IfOk result (λ new. AreMoreIn (on_one (S.says sides.now) (S.side sides.now)) cycle strobes.now shown.now counts.one.items new.one.items) }
    ensures other { IfOk result (λ new. AreMoreIn (on_other (S.says sides.now) (S.side sides.now)) cycle strobes.now shown.now counts.other.items new.other.items) }
{
    let mut so_far = counts;
    for o in 0..strobes.len() {
        so_far = count_output(sides, cycle, o as u32, strobes[o], shown[o], so_far)?;
    }
    Ok(so_far)
}

/// The counts so far, which are never done.
#[derive(Drop)]
struct Counter {
    counts: Counts,
    ghost one: { length counts.one.items ≤ 128 },
    ghost other: { length counts.other.items ≤ 128 },
}

impl<S: Sides> Watch<S> for Counter {
    ghost use Rattle.lane_play.specs.Counted.{on_one, on_other};
    ghost use Rattle.lane_play.specs.inner.Steps.{AreCountedOn};

    ghost kept = { λ s w faults n cycles state. AreCountedOn (on_one (S.says s) (S.side s)) faults n cycles state w.counts.one.items
        × AreCountedOn (on_other (S.says s) (S.side s)) faults n cycles state w.counts.other.items };

    fn hear(
        self,
        judge: &S,
        number: u64,
        strobes: &[Tri],
        shown: &[Lanes],
    ) -> Result<Self, AllocError> {
        let Counter { counts } = self;
        let counts = count_row(judge, number, strobes, shown, counts)?;
        Ok(Counter { counts })
    }

    fn is_done(&self) -> bool {
        false
    }
}

/// So many zeros.
fn zeros(alloc: Global, count: usize) -> Result<Vec<u64>, AllocError>
    ensures { IfOk result (λ v. v.items ≡ replicate count 0) }
{
    let zeros = vec![in alloc; 0u64; count]?;
    Ok(zeros)
}

/// Plays vectors on a netlist for up to 128 stuck lines side by side, to their end: of how many strobes the judge says something with each.
pub fn count_lanes<S: Sides>(
    alloc: Global,
    core: &Core,
    faults: &[Fault],
    vectors: &Vectors,
    sides: &S,
) -> Result<Counts, NoMemory>
    requires machines { length faults.now ≤ 128 }
    requires fits { All (IsCycleOf core.now) vectors.now }
    requires few { length vectors.now < 2 ^ 64 }
    ensures one { IfOk result (λ counts. AreCounted (on_one (S.says sides.now) (S.side sides.now)) core.now faults.now vectors.now counts.one.items) }
    ensures other { IfOk result (λ counts. AreCounted (on_other (S.says sides.now) (S.side sides.now)) core.now faults.now vectors.now counts.other.items) }
{
    core.netlist().sound();
    let one = zeros(alloc, faults.len())?;
    let other = zeros(alloc, faults.len())?;
    let counts = Counts { one, other };
    let Counter { counts } = play(alloc, core, faults, vectors, sides, Counter { counts })?;
    Ok(counts)
}
