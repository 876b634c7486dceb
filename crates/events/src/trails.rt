//! Trails: what changed, with the values before.
ghost use Rattle.std.specs.Prelude.{◌≡◌, ◌<◌, ◌≤◌, length, take, drop, vec_capacity};
ghost use Rattle.std.specs.List.{All};
ghost use Rattle.events.specs.declared.trails.Change.{Change as ChangeOf};
ghost use Rattle.events.specs.Trails.{undone};

use netlist::SignalId;

/// A signal, and the value that it had.
#[derive(Clone, Copy)]
pub struct Change<V> {
    pub signal: SignalId,
    pub before: V,
}

/// Takes back the changes from a place of the trail on, the last one first.
pub(crate) fn undo<V: Copy>(trail: &mut Vec<Change<V>>, mark: usize, values: &mut Vec<V>)
    requires mark { mark ≤ length trail.old.items }
    requires within { All (λ (c : ChangeOf V). c.signal < length values.old.items) (drop mark trail.old.items) }
    ensures values { values.new.items ≡ undone (drop mark trail.old.items) values.old.items }
    ensures trail { trail.new.items ≡ take mark trail.old.items }
    ensures room { vec_capacity trail.new ≡ vec_capacity trail.old }
{
    for k in (mark..trail.len()).rev() {
        let change = trail[k];
        values[change.signal.index()] = change.before;
    }
    trail.truncate(mark);
}
