//! The changes that points read, listed once for all faults of a head. (To go over the trail for each of them reads all that changed each time.)
ghost use Rattle.std.specs.Prelude.{◌≡◌, ◌<◌, ◌&&◌, nat_lt, ℕ, map, length, OnOk, if◌then◌else◌};
ghost use Rattle.std.specs.List.{All, list_any};
ghost use Rattle.events.specs.declared.trails.Change.{Change as ChangeOf};
ghost use Rattle.events.specs.Words.{bit_of};
ghost use Rattle.regions.specs.declared.fours.Four.{Four as FourOf};
ghost use Rattle.regions.specs.Side.{lane_of};
ghost use Rattle.word_sim.specs.inner.Differences.{shown_of, shows_under, in_lane, AreLastSeen, IsFirstSeen};

use events::Change;
use regions::{Four, Lane};
use std::alloc::AllocError;

/// A change that a point reads: the first such point, and the patterns under which it is one.
#[derive(Clone, Copy)]
pub(crate) struct Shown {
    pub point: u32,
    pub under: u64,
}

/// The changes of signals that points read, in place of what was listed.
pub(crate) fn list_shown(
    trail: &[Change<u64>],
    values: &[u64],
    first: &[u32],
    count: usize,
    shown: &mut Vec<Shown>,
) -> Result<(), AllocError>
    requires within { All (λ (c : ChangeOf ℕ). c.signal < length values.now) trail.now }
    requires size { length first.now ≡ length values.now }
    ensures { OnOk result (shown.new.items ≡ shown_of first.now count values.now trail.now) }
{
    shown.clear();
    for change in trail {
        let x = change.signal.index();
        let point = first[x];
        let under = change.before ^ values[x];
        if (point as usize) < count && under != 0 {
            shown.push(Shown { point, under })?;
        }
    }
    Ok(())
}

/// The same of one lane.
pub(crate) fn list_lane(
    trail: &[Change<Four>],
    values: &[Four],
    lane: Lane,
    first: &[u32],
    count: usize,
    shown: &mut Vec<Shown>,
) -> Result<(), AllocError>
    requires within { All (λ (c : ChangeOf FourOf). c.signal < length values.now) trail.now }
    requires size { length first.now ≡ length values.now }
    ensures { OnOk result (shown.new.items ≡ shown_of first.now count (map (lane_of lane) values.now) (map (in_lane lane) trail.now)) }
{
    shown.clear();
    for change in trail {
        let x = change.signal.index();
        let point = first[x];
        let under = change.before.of(lane) ^ values[x].of(lane);
        if under != 0 && (point as usize) < count {
            shown.push(Shown { point, under })?;
        }
    }
    Ok(())
}

/// The patterns under which some change shows.
pub(crate) fn all_under(shown: &[Shown]) -> u64
    ensures { (j : ℕ) → j < 64 → bit_of j result ≡ list_any (shows_under j) shown.now }
{
    let mut all = 0;
    for k in 0..shown.len() {
        let change = shown[k];
        all |= change.under;
    }
    all
}

/// The lesser of a number and the point of a change, if it shows under a pattern.
#[inline(always)]
fn lesser(change: Shown, j: u32, least: usize) -> usize
    requires { j < 64 }
    ensures { result ≡ (if (nat_lt change.point least && shows_under j change) then change.point else least) }
{
    let point = change.point as usize;
    if point < least && (change.under >> j) % 2 == 1 {
        point
    } else {
        least
    }
}

/// The first point at which some change shows under a pattern, or the count of points.
fn first_under(shown: &[Shown], j: u32, count: usize) -> usize
    requires { j < 64 }
    ensures { IsFirstSeen count j shown.now result }
{
    let mut least = count;
    for k in 0..shown.len() {
        let change = shown[k];
        least = lesser(change, j, least);
    }
    least
}

/// The last of these patterns under which some change shows, and the first point at which one does.
pub(crate) fn last_among(shown: &[Shown], all: u64, used: u64, count: usize) -> Option<(u32, usize)>
    requires all { (j : ℕ) → j < 64 → bit_of j all ≡ list_any (shows_under j) shown.now }
    ensures { AreLastSeen count used shown.now result }
{
    let under = all & used;
    if under == 0 {
        return None;
    }
    let last = 63 - under.leading_zeros();
    Some((last, first_under(shown, last, count)))
}
