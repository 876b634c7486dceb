//! The decisions of a path, and whether one is contradicted.
ghost use Rattle.std.specs.Prelude.{◌≡◌, ◌+◌, ◌<◌, ◌≤◌, ◌++◌, length, map, reverse, vec_capacity};
ghost use Rattle.std.specs.List.{All, list_any};
ghost use Rattle.tri.specs.declared.labels.Label.{Label as LabelOf};
ghost use Rattle.events.specs.declared.trails.Change.{Change as ChangeOf};
ghost use Rattle.pair_sim.specs.inner.Levels.{clashes, clashes_at, is_contradicted};

use events::Change;
use netlist::{SignalId, Tri};
use tri::{Label, Labelling, is_known_as};

/// A decision of the path.
#[derive(Clone, Copy)]
pub(crate) struct Level {
    pub signal: SignalId,
    pub bit: bool,
    /// Where the trail ended before.
    pub mark: usize,
    /// Whether a decision is contradicted, this one included.
    pub contradicted: bool,
}

/// Whether a decision of the levels is contradicted: the last one says so.
pub(crate) fn is_contradicted(levels: &[Level]) -> bool
    ensures { result ≡ is_contradicted (reverse levels.now) }
{
    if levels.is_empty() {
        return false;
    }
    levels[levels.len() - 1].contradicted
}

/// Whether the decided bit is the other one than what the pins tell.
fn clashes(decision: Option<bool>, own: Tri) -> bool
    ensures { result ≡ clashes decision own }
{
    match decision {
        None => false,
        Some(bit) => is_known_as(!bit, own),
    }
}

/// Whether the decision on a signal whose label changed is contradicted.
pub(crate) fn has_clash(labelling: &Labelling, changes: &[Change<Label>], values: &[Label]) -> bool
    requires { All (λ (c : ChangeOf LabelOf). c.signal < length values.now) changes.now }
    ensures { result ≡ list_any (clashes_at labelling.now.decided.items values.now) changes.now }
{
    for change in changes {
        let label = values[change.signal.index()];
        if clashes(labelling.decision(change.signal), label.own) {
            return true;
        }
    }
    false
}

/// Names the signals of changes.
pub(crate) fn name_changes(changes: &[Change<Label>], names: &mut Vec<SignalId>)
    requires { length names.old.items + length changes.now ≤ vec_capacity names.old }
    ensures names { names.new.items ≡ names.old.items ++ map (λ (c : ChangeOf LabelOf). c.signal) changes.now }
    ensures room { vec_capacity names.old ≤ vec_capacity names.new }
{
    for change in changes {
        if names.push(change.signal).is_err() {
            unreachable!();
        }
    }
}
