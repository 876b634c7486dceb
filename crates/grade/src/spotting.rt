//! At which strobe a pattern first shows a fault: of the points that it reaches the one strobed first is taken.
//!
//! Where the fault reaches the head of its fanout-free region under the pattern, the head is turned over under that pattern alone, so that nothing is
//! evaluated for the other 63; else the stuck line is put onto the words of all. The words are then those before.
ghost use Rattle.std.specs.Prelude.{◌≡◌, ◌<◌, [], ℕ, drop, length, slice_index, take, if◌then◌else◌};
ghost use Rattle.std.specs.List.{All};
ghost use Rattle.netlist.specs.Lines.{IsLineOf};
ghost use Rattle.events.specs.declared.trails.Change.{Change as ChangeOf};
ghost use Rattle.events.specs.Stuck.{IsObservedOnly};
ghost use Rattle.events.specs.Trails.{undone};
ghost use Rattle.word_sim.specs.inner.Differences.{IsFirstShown, shows};
ghost use Rattle.grade.specs.inner.Keys.{IsTimingOf, most_key};
ghost use Rattle.statement.specs.Netlists.{signals};
ghost use Rattle.events.specs.Words.{bit_of};
ghost use Rattle.regions.specs.Paths.{AreOpen};
ghost use Rattle.grade.specs.inner.Spotting.{IsSpotted, IsSpottedFrom};

use crate::keys::{Timing, key_of};
use events::{Change, Events, Words};
use netlist::{Fault, SignalId};
use regions::{Paths, turn};

/// The lesser of a number and the least key of a signal that a change shows under a pattern.
#[inline(always)]
fn nearer(change: &Change<u64>, values: &[u64], keys: &[u64], j: u32, least: u64) -> u64
    requires within { change.now.signal < length values.now }
    requires size { length keys.now ≡ length values.now }
    requires low { j < 64 }
    ensures { result ≡ (if shows keys.now least values.now j change.now then slice_index keys.now change.now.signal else least) }
{
    let x = change.signal.index();
    let key = keys[x];
    if key < least && ((change.before ^ values[x]) >> j) % 2 == 1 {
        key
    } else {
        least
    }
}

/// The least key of the signals that changed under a pattern, or the greatest number.
fn nearest(trail: &[Change<u64>], values: &[u64], keys: &[u64], j: u32) -> u64
    requires within { All (λ (c : ChangeOf ℕ). c.signal < length values.now) trail.now }
    requires size { length keys.now ≡ length values.now }
    requires low { j < 64 }
    ensures { IsFirstShown keys.now most_key values.now j trail.now result }
{
    let mut least = u64::MAX;
    for change in trail {
        least = nearer(change, values, keys, j, least);
    }
    least
}

/// The least key of what changed, under a pattern. Then nothing has changed.
fn nearest_undone(events: &mut Events<'_, u64>, timing: &Timing<'_>, j: u32) -> u64
    requires size { length timing.now.keys.items ≡ length (signals events.old.netlist) }
    requires low { j < 64 }
    ensures first { IsFirstShown timing.now.keys.items most_key events.old.values j events.old.trail result }
    ensures size { length events.old.values ≡ length (signals events.old.netlist) }
    ensures undone { events.new ≡ record events.old { values = undone (drop 0 events.old.trail) events.old.values; trail = take 0 events.old.trail } }
{
    let key = nearest(events.trail(), events.values(), &timing.keys, j);
    events.undo(0);
    key
}

/// By what the stuck line changes.
fn spot_stuck(events: &mut Events<'_, u64>, timing: &Timing<'_>, fault: &Fault, j: u32) -> u64
    requires timing { IsTimingOf events.old.netlist timing.now }
    requires line { IsLineOf events.old.netlist fault.now.line }
    requires enters { ¬ IsObservedOnly events.old.netlist fault.now.line }
    requires trail { events.old.trail ≡ [] }
    requires low { j < 64 }
    ensures first { IsSpotted events.old.netlist timing.now.chains.now events.old.values fault.now j result }
    ensures same { events.new ≡ events.old }
{
    events.core().netlist().sound();
    let rule = Words {
        fault: Some(*fault),
    };
    events.stick(&rule, fault);
    nearest_undone(events, timing, j)
}

/// Whether a word has the bit of a pattern.
fn has_bit(word: u64, j: u32) -> bool
    requires { j < 64 }
    ensures { result ≡ bit_of j word }
{
    (word >> j) % 2 == 1
}

/// By what the head of the fault's region changes, turned over under the one pattern.
fn spot_turned(events: &mut Events<'_, u64>, timing: &Timing<'_>, head: SignalId, j: u32) -> u64
    requires timing { IsTimingOf events.old.netlist timing.now }
    requires within { head < length (signals events.old.netlist) }
    requires trail { events.old.trail ≡ [] }
    requires low { j < 64 }
    ensures first { IsSpottedFrom events.old.netlist timing.now.chains.now events.old.values head j result }
    ensures same { events.new ≡ events.old }
{
    events.core().netlist().sound();
    turn(events, head, 1u64 << j);
    nearest_undone(events, timing, j)
}

/// By what it changes: from the head that it reaches, where it does.
fn spot_within(
    events: &mut Events<'_, u64>,
    paths: &Paths,
    timing: &Timing<'_>,
    fault: &Fault,
    j: u32,
) -> u64
    requires timing { IsTimingOf events.old.netlist timing.now }
    requires open { AreOpen events.old.netlist events.old.values paths.now.heads.items paths.now.opens.items }
    requires line { IsLineOf events.old.netlist fault.now.line }
    requires enters { ¬ IsObservedOnly events.old.netlist fault.now.line }
    requires trail { events.old.trail ≡ [] }
    requires low { j < 64 }
    ensures first { IsSpotted events.old.netlist timing.now.chains.now events.old.values fault.now j result }
    ensures same { events.new ≡ events.old }
{
    let netlist = events.core().netlist();
    netlist.sound();
    match paths.reach(netlist, events.values(), fault) {
        Some((head, word)) => {
            if has_bit(word, j) {
                spot_turned(events, timing, head, j)
            } else {
                spot_stuck(events, timing, fault, j)
            }
        }
        None => spot_stuck(events, timing, fault, j),
    }
}

/// The key of the strobe at which a pattern first shows a fault, if it does at some.
pub(crate) fn spot(
    events: &mut Events<'_, u64>,
    paths: &Paths,
    timing: &Timing<'_>,
    fault: &Fault,
    j: u32,
) -> u64
    requires timing { IsTimingOf events.old.netlist timing.now }
    requires open { AreOpen events.old.netlist events.old.values paths.now.heads.items paths.now.opens.items }
    requires line { IsLineOf events.old.netlist fault.now.line }
    requires trail { events.old.trail ≡ [] }
    requires low { j < 64 }
    ensures first { IsSpotted events.old.netlist timing.now.chains.now events.old.values fault.now j result }
    ensures same { events.new ≡ events.old }
{
    let netlist = events.core().netlist();
    netlist.sound();
    match timing.points.sole(netlist, &fault.line) {
        Some(number) => key_of(netlist, timing.chains, number as usize),
        None => spot_within(events, paths, timing, fault, j),
    }
}
