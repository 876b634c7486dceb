//! Under which patterns some point sees a signal turned over.
ghost use Rattle.std.specs.Prelude.{◌≡◌, ◌<◌, ℕ, [], length};
ghost use Rattle.std.specs.List.{All, list_any};
ghost use Rattle.statement.specs.Netlists.{signals};
ghost use Rattle.events.specs.declared.trails.Change.{Change as ChangeOf};
ghost use Rattle.events.specs.Words.{bit_of};
ghost use Rattle.observed_points.specs.Points.{ArePoints};
ghost use Rattle.word_sim.specs.inner.Differences.{shows};
ghost use Rattle.detections.specs.inner.Telling.{AreSeenUnder, IsSeenUnder};

use events::{Change, Events};
use netlist::SignalId;
use observed_points::Points;
use regions::turn;

/// The patterns that tell a change apart at a point: there are so many, and each signal has the first that reads it.
#[inline(always)]
fn shown(change: &Change<u64>, values: &[u64], first: &[u32], count: usize) -> u64
    requires within { change.now.signal < length values.now }
    requires size { length first.now ≡ length values.now }
    ensures { (j : ℕ) → j < 64 → bit_of j result ≡ shows first.now count values.now j change.now }
{
    let x = change.signal.index();
    if (first[x] as usize) < count {
        change.before ^ values[x]
    } else {
        0
    }
}

/// The patterns that tell some change apart at a point.
fn all_shown(trail: &[Change<u64>], values: &[u64], first: &[u32], count: usize) -> u64
    requires within { All (λ (c : ChangeOf ℕ). c.signal < length values.now) trail.now }
    requires size { length first.now ≡ length values.now }
    ensures { (j : ℕ) → j < 64 → bit_of j result ≡ list_any (shows first.now count values.now j) trail.now }
{
    let mut all = 0;
    for change in trail {
        all |= shown(change, values, first, count);
    }
    all
}

/// The patterns under which some point sees the signal turned over. The words are then those before.
fn seen_of(events: &mut Events<'_, u64>, points: &Points, signal: SignalId) -> u64
    requires points { ArePoints events.old.netlist points.now.seen.items points.now.first.items points.now.numbers.items }
    requires within { signal < length (signals events.old.netlist) }
    requires trail { events.old.trail ≡ [] }
    ensures seen { IsSeenUnder events.old.netlist events.old.values signal result }
    ensures same { events.new ≡ events.old }
{
    events.core().netlist().sound();
    turn(events, signal, u64::MAX);
    let count = points.seen.len();
    let seen = all_shown(events.trail(), events.values(), &points.first, count);
    events.undo(0);
    seen
}

/// The same, by what is known of the batch.
pub(crate) fn known_or_seen(
    events: &mut Events<'_, u64>,
    points: &Points,
    known: &mut Vec<Option<u64>>,
    signal: SignalId,
) -> u64
    requires points { ArePoints events.old.netlist points.now.seen.items points.now.first.items points.now.numbers.items }
    requires within { signal < length (signals events.old.netlist) }
    requires trail { events.old.trail ≡ [] }
    requires known { AreSeenUnder events.old.netlist events.old.values known.old.items }
    ensures seen { IsSeenUnder events.old.netlist events.old.values signal result }
    ensures known { AreSeenUnder events.old.netlist events.old.values known.new.items }
    ensures same { events.new ≡ events.old }
{
    if let Some(word) = known[signal.index()] {
        return word;
    }
    let word = seen_of(events, points, signal);
    known[signal.index()] = Some(word);
    word
}
