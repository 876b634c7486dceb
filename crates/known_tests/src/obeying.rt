//! Whether cycles drive held inputs with their bits.
//!
//! The inputs of a burst but its last few keep their bits. Where the held ones are among these, the burst is looked at once.
ghost use Rattle.std.specs.Prelude.{◌≡◌, ◌++◌, ◌<◌, ◌≤◌, length, slice_get, MatchBool};
ghost use Rattle.std.specs.List.{All};
ghost use Rattle.statement.specs.Patterns.{Obeys};
ghost use Rattle.statement.specs.Runs.{Cycle};
ghost use Rattle.scan_play.specs.Bursts.{cycle_of, cycles_of};
ghost use Rattle.known_tests.specs.inner.Holding.{IsDriven};

use scan_play::{Burst, Vectors};

/// The bit at a place of two lists, one behind the other.
fn bit_at(drive: &[bool], more: &[bool], place: usize) -> Option<bool>
    ensures { result ≡ slice_get (drive.now ++ more.now) place }
{
    if place < drive.len() {
        return Some(drive[place]);
    }
    let behind = place - drive.len();
    if behind < more.len() {
        return Some(more[behind]);
    }
    None
}

/// Whether an input has the bit at which it is held, if it is.
fn is_driven(held: Option<bool>, bit: Option<bool>) -> bool
    ensures { MatchBool result (IsDriven held bit) (¬ IsDriven held bit) }
{
    match held {
        None => true,
        Some(own) => match bit {
            None => false,
            Some(other) => own == other,
        },
    }
}

/// Whether each held input has its bit.
fn is_obeyed(held: &[Option<bool>], drive: &[bool], more: &[bool]) -> bool
    ensures { MatchBool result (Obeys held.now (drive.now ++ more.now)) (¬ Obeys held.now (drive.now ++ more.now)) }
{
    for place in 0..held.len() {
        let hold = held[place];
        let bit = bit_at(drive, more, place);
        if !is_driven(hold, bit) {
            return false;
        }
    }
    true
}

/// Whether it is so in a cycle of a burst.
fn cycle_obeys(held: &[Option<bool>], burst: &Burst, t: usize) -> bool
    requires { t < burst.now.count }
    ensures { MatchBool result (Obeys held.now (cycle_of burst.now t).drive) (¬ Obeys held.now (cycle_of burst.now t).drive) }
{
    let from = t * burst.width;
    is_obeyed(held, &burst.drive, &burst.ins[from..from + burst.width])
}

/// Whether it is so in each cycle of a burst, one after the other.
fn cycles_obey(held: &[Option<bool>], burst: &Burst) -> bool
    ensures { MatchBool result
        (All (λ (cycle : Cycle). Obeys held.now cycle.drive) (cycles_of burst.now))
        (¬ All (λ (cycle : Cycle). Obeys held.now cycle.drive) (cycles_of burst.now)) }
{
    for t in 0..burst.count {
        if !cycle_obeys(held, burst, t) {
            return false;
        }
    }
    true
}

/// Whether it is so in each cycle of a burst.
fn burst_obeys(held: &[Option<bool>], burst: &Burst) -> bool
    ensures { MatchBool result
        (All (λ (cycle : Cycle). Obeys held.now cycle.drive) (cycles_of burst.now))
        (¬ All (λ (cycle : Cycle). Obeys held.now cycle.drive) (cycles_of burst.now)) }
{
    if held.len() > burst.drive.len() {
        return cycles_obey(held, burst);
    }
    if burst.count == 0 {
        return true;
    }
    is_obeyed(held, &burst.drive, &[])
}

/// Whether each cycle drives the held inputs with their bits.
pub fn obeys_known(held: &[Option<bool>], vectors: &Vectors) -> bool
    ensures { MatchBool result
        (All (λ (cycle : Cycle). Obeys held.now cycle.drive) vectors.now)
        (¬ All (λ (cycle : Cycle). Obeys held.now cycle.drive) vectors.now) }
{
    for burst in vectors.bursts() {
        if !burst_obeys(held, burst) {
            return false;
        }
    }
    true
}
