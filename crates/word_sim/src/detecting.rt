//! The last of up to 64 patterns that detects a fault, and the first point at which it does.
ghost use Rattle.std.specs.Prelude.{◌≡◌, ◌⊎◌, ◌<◌, ◌≤◌, ◌^◌, ◌==◌, ◌&&◌, [], ℕ, IsTrue, length, List, Option, slice_index, IfSome, if◌then◌else◌};
ghost use Rattle.std.specs.List.{All, list_any};
ghost use Rattle.netlist.specs.Lines.{IsLineOf};
ghost use Rattle.statement.specs.Netlists.{Netlist as Equations, signals};
ghost use Rattle.events.specs.declared.trails.Change.{Change as ChangeOf};
ghost use Rattle.events.specs.Stuck.{IsObservedOnly};
ghost use Rattle.events.specs.Words.{bit_of, ones};
ghost use Rattle.word_sim.specs.inner.Differences.{shows, AreShown, IsFirstShown, IsSole};
ghost use Rattle.statement.specs.Patterns.{Pattern as Bits};
ghost use Rattle.word_sim.specs.Hits.{LastMarked};
ghost use Rattle.word_sim.specs.inner.Found.{IsFoundMarked};
ghost use Rattle.word_sim.specs.inner.Packed.{AreGoodFor, IsMarked};
ghost use Rattle.observed_points.specs.Points.{ArePoints, IsReadAt, point_of};
ghost use Rattle.std.specs.Option.{option_map};

use cubes::Pattern;
use events::{Change, Events, Words};
use netlist::Fault;
use observed_points::Points;

/// The patterns that tell a change apart at a point.
#[inline(always)]
fn shown(change: &Change<u64>, values: &[u64], first: &[u32], count: usize) -> u64
    requires within { change.now.signal < length values.now }
    requires size { length first.now ≡ length values.now }
    ensures { (j : ℕ) → j < 64 → bit_of j result ≡ shows first.now count values.now j change.now }
{
    let x = change.signal.index();
    if (first[x] as usize) < count {
        change.before ^ values[x]
    } else {
        0
    }
}

/// The patterns that tell some change apart at a point.
fn all_shown(trail: &[Change<u64>], values: &[u64], first: &[u32], count: usize) -> u64
    requires within { All (λ (c : ChangeOf ℕ). c.signal < length values.now) trail.now }
    requires size { length first.now ≡ length values.now }
    ensures { (j : ℕ) → j < 64 → bit_of j result ≡ list_any (shows first.now count values.now j) trail.now }
{
    let mut all = 0;
    for change in trail {
        all |= shown(change, values, first, count);
    }
    all
}

/// The lesser of a number and the first point at which a change shows under a pattern.
#[inline(always)]
fn lesser(change: &Change<u64>, values: &[u64], first: &[u32], j: u32, least: usize) -> usize
    requires within { change.now.signal < length values.now }
    requires size { length first.now ≡ length values.now }
    requires low { j < 64 }
    ensures { result ≡ (if shows first.now least values.now j change.now then slice_index first.now change.now.signal else least) }
{
    let x = change.signal.index();
    let place = first[x] as usize;
    if place < least && ((change.before ^ values[x]) >> j) % 2 == 1 {
        place
    } else {
        least
    }
}

/// The first point at which some change shows under a pattern, or the count of points.
fn first_shown(trail: &[Change<u64>], values: &[u64], first: &[u32], count: usize, j: u32) -> usize
    requires within { All (λ (c : ChangeOf ℕ). c.signal < length values.now) trail.now }
    requires size { length first.now ≡ length values.now }
    requires low { j < 64 }
    ensures { IsFirstShown first.now count values.now j trail.now result }
{
    let mut least = count;
    for change in trail {
        least = lesser(change, values, first, j, least);
    }
    least
}

/// The last pattern under which some change shows, and the first point at which one does.
fn last_shown(
    trail: &[Change<u64>],
    values: &[u64],
    first: &[u32],
    count: usize,
    used: u64,
) -> Option<(u32, usize)>
    requires within { All (λ (c : ChangeOf ℕ). c.signal < length values.now) trail.now }
    requires size { length first.now ≡ length values.now }
    ensures { AreShown first.now count values.now used trail.now result }
{
    let shown = all_shown(trail, values, first, count) & used;
    if shown == 0 {
        return None;
    }
    let last = 63 - shown.leading_zeros();
    Some((last, first_shown(trail, values, first, count, last)))
}

/// The last pattern under which a word differs, at a point.
fn last_differing(differ: u64, used: u64, number: u32) -> Option<(u32, usize)>
    ensures { IsSole differ used number result }
{
    let seen = differ & used;
    if seen == 0 {
        return None;
    }
    Some((63 - seen.leading_zeros(), number as usize))
}

/// The word of a bit under every pattern.
fn known(bit: bool) -> u64
    ensures { result ≡ (if bit then ones else 0) }
{
    if bit { u64::MAX } else { 0 }
}

/// The last of the marked patterns under which the one point that reads the stuck line sees the other bit.
fn last_at(
    events: &Events<'_, u64>,
    points: &Points,
    marks: u64,
    fault: &Fault,
    number: u32,
) -> Option<(u32, usize)>
    requires points { ArePoints events.now.netlist points.now.seen.items points.now.first.items points.now.numbers.items }
    requires read { IsReadAt events.now.netlist fault.now.line number }
    ensures { IsFoundMarked events.now.netlist events.now.values marks fault.now result }
{
    events.core().netlist().sound();
    let signal = points.seen[number as usize];
    let good = events.values()[signal.index()];
    last_differing(good ^ known(fault.value), marks, number)
}

/// The last of the marked patterns under which a point sees what the stuck line changes. The words are then those before.
fn last_stuck(
    events: &mut Events<'_, u64>,
    points: &Points,
    marks: u64,
    fault: &Fault,
) -> Option<(u32, usize)>
    requires points { ArePoints events.old.netlist points.now.seen.items points.now.first.items points.now.numbers.items }
    requires line { IsLineOf events.old.netlist fault.now.line }
    requires enters { ¬ IsObservedOnly events.old.netlist fault.now.line }
    requires trail { events.old.trail ≡ [] }
    ensures found { IsFoundMarked events.old.netlist events.old.values marks fault.now result }
    ensures same { events.new ≡ events.old }
{
    events.core().netlist().sound();
    let rule = Words {
        fault: Some(*fault),
    };
    events.stick(&rule, fault);
    let found = last_shown(
        events.trail(),
        events.values(),
        &points.first,
        points.seen.len(),
        marks,
    );
    events.undo(0);
    found
}

/// The last of the patterns that are marked which detects a fault, and the number of the first point at which it does. The words are then those before.
pub fn last_marked(
    events: &mut Events<'_, u64>,
    points: &Points,
    marks: u64,
    fault: &Fault,
) -> Option<(u32, usize)>
    requires points { ArePoints events.old.netlist points.now.seen.items points.now.first.items points.now.numbers.items }
    requires line { IsLineOf events.old.netlist fault.now.line }
    requires trail { events.old.trail ≡ [] }
    ensures found { (patterns : List Bits) → AreGoodFor events.old.netlist patterns events.old.values → IsMarked (length patterns) marks
        → LastMarked events.old.netlist patterns marks fault.now (option_map (λ (w : ℕ × ℕ). (w.0, point_of events.old.netlist w.1)) result) }
    ensures small { IfSome result (λ w. (w.0 < 64) × (w.1 < 2 ^ 32)) }
    ensures same { events.new ≡ events.old }
{
    match points.sole(events.core().netlist(), &fault.line) {
        Some(number) => last_at(events, points, marks, fault, number),
        None => last_stuck(events, points, marks, fault),
    }
}
