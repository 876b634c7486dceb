//! The observed points that a fault may reach. Along a path no signal comes to differ that could not without a decision: so only the points of
//! these signals have to be looked at.
ghost use Rattle.std.specs.Prelude.{◌≡◌, ◌+◌, ◌^◌, ◌≤◌, ◌<◌, ◌∷◌, ◌++◌, ◌&&◌, ◌||◌, [], false, nat_lt, if◌then◌else◌, ℕ, List, length, take, slice_index, vec_len, vec_capacity, IfOk, IsTrue};
ghost use Rattle.std.specs.List.{All, flat_map};
ghost use Rattle.netlist.specs.Lines.{IsLineOf};
ghost use Rattle.statement.specs.Netlists.{signals};
ghost use Rattle.netlist.specs.Settled.{at};
ghost use Rattle.tri.specs.declared.labels.Label.{Label as LabelOf};
ghost use Rattle.events.specs.declared.trails.Change.{Change as ChangeOf};
ghost use Rattle.events.specs.Stuck.{IsObservedOnly};
ghost use Rattle.observed_points.specs.Points.{ArePoints};
ghost use Rattle.tri.specs.Paths.{has_effect};
ghost use Rattle.pair_sim.specs.inner.Levels.{blank};
ghost use Rattle.pair_sim.specs.inner.Reach.{AreViewed, IsStateInView, reached_one};

use crate::points::has_effect;
use crate::states::State;
use events::Change;
use netlist::{Core, Line, Netlist, SignalId};
use observed_points::{Points, point_at};
use std::alloc::{AllocError, Global};
use tri::Label;

/// The points of a netlist, and the signals there that may differ.
#[derive(Drop)]
pub(crate) struct Reach {
    pub points: Points,
    /// Whether these are all signals at observed points that may differ without a decision.
    pub known: bool,
    pub signals: Vec<SignalId>,
}

/// What the labels of some signals tell.
#[derive(Clone, Copy)]
pub(crate) struct View {
    /// The first point with an effect, or the count of points.
    pub least: usize,
    /// Whether a signal may differ.
    pub differs: bool,
}

/// Of a change, the signal where an observed point reads it and it may differ.
fn collect_one(
    points: &Points,
    change: &Change<Label>,
    values: &[Label],
    signals: &mut Vec<SignalId>,
)
    requires within { change.now.signal < length values.now }
    requires size { length points.now.first.items ≡ length values.now }
    requires room { vec_len signals.old < vec_capacity signals.old }
    ensures signals { signals.new.items ≡ signals.old.items ++ reached_one points.now.first.items (length points.now.seen.items) values.now change.now }
    ensures len { vec_len signals.new ≤ vec_len signals.old + 1 }
    ensures room { vec_capacity signals.new ≡ vec_capacity signals.old }
{
    let x = change.signal.index();
    if (points.first[x] as usize) < points.seen.len() && values[x].may_differ {
        signals.push_reserved(change.signal);
    }
}

/// The signals of changes that observed points read and that may differ.
fn collect(
    points: &Points,
    changes: &[Change<Label>],
    values: &[Label],
    signals: &mut Vec<SignalId>,
)
    requires within { All (λ (c : ChangeOf LabelOf). c.signal < length values.now) changes.now }
    requires size { length points.now.first.items ≡ length values.now }
    requires room { vec_len signals.old + length changes.now ≤ vec_capacity signals.old }
    ensures signals { signals.new.items ≡ signals.old.items ++ flat_map (reached_one points.now.first.items (length points.now.seen.items) values.now) changes.now }
    ensures room { vec_capacity signals.new ≡ vec_capacity signals.old }
{
    for change in changes {
        collect_one(points, change, values, signals);
    }
}

impl Reach {
    /// Nothing is known yet.
    pub(crate) fn new(alloc: Global, core: &Core) -> Result<Reach, AllocError>
        ensures points { IfOk result (λ r. ArePoints core.now r.points.seen.items r.points.first.items r.points.numbers.items) }
        ensures known { IfOk result (λ r. r.known ≡ false) }
        ensures room { IfOk result (λ r. length (signals core.now) ≤ vec_capacity r.signals) }
    {
        let netlist = core.netlist();
        netlist.sound();
        let count = netlist.inputs().len() + netlist.definitions().len();
        let points = Points::of(alloc, core)?;
        let signals = Vec::with_capacity(alloc, count)?;
        Ok(Reach {
            points,
            known: false,
            signals,
        })
    }

    /// A fault came onto a line, and these labels changed. Where only a point reads the line nothing is known.
    pub(crate) fn note(
        &mut self,
        netlist: &Netlist,
        line: &Line,
        changes: &[Change<Label>],
        values: &[Label],
    )
        requires points { ArePoints netlist.now self.old.points.seen.items self.old.points.first.items self.old.points.numbers.items }
        requires line { IsLineOf netlist.now line.now }
        requires within { All (λ (c : ChangeOf LabelOf). c.signal < length values.now) changes.now }
        requires size { length values.now ≡ length (signals netlist.now) }
        requires room { length changes.now ≤ vec_capacity self.old.signals }
        ensures points { self.new.points ≡ self.old.points }
        ensures known { IsTrue self.new.known → ¬ IsObservedOnly netlist.now line.now }
        ensures signals { self.new.signals.items ≡ flat_map (reached_one self.old.points.first.items (length self.old.points.seen.items) values.now) changes.now }
        ensures room { vec_capacity self.new.signals ≡ vec_capacity self.old.signals }
    {
        self.known = self.points.sole(netlist, line).is_none();
        self.signals.clear();
        collect(&self.points, changes, values, &mut self.signals);
    }
}

/// The lesser of a point and the first one so far, where the label has an effect.
fn lesser(label: &Label, place: usize, least: usize) -> usize
    ensures { result ≡ (if has_effect label.now && nat_lt place least then place else least) }
{
    if has_effect(label) && place < least {
        place
    } else {
        least
    }
}

fn either(one: bool, other: bool) -> bool
    ensures { result ≡ (one || other) }
{
    one || other
}

/// One signal more, which this point is the first to read.
fn view_more(view: View, place: usize, label: &Label) -> View
    ensures { (first : List ℕ) (count : ℕ) (values : List LabelOf) (ids : List ℕ) (x : ℕ) → slice_index first x ≡ place → at values blank x ≡ label.now
        → AreViewed first count values ids view.least view.differs → AreViewed first count values (ids ++ x ∷ []) result.least result.differs }
{
    View {
        least: lesser(label, place, view.least),
        differs: either(view.differs, label.may_differ),
    }
}

/// What the labels of the signals tell.
fn view_of(reach: &Reach, values: &[Label]) -> View
    requires size { length reach.now.points.first.items ≡ length values.now }
    requires within { All (λ x. x < length values.now) reach.now.signals.items }
    ensures { AreViewed reach.now.points.first.items (length reach.now.points.seen.items) values.now reach.now.signals.items result.least result.differs }
{
    let mut view = View {
        least: reach.points.seen.len(),
        differs: false,
    };
    for id in &reach.signals {
        let x = id.index();
        view = view_more(view, reach.points.first[x] as usize, &values[x]);
    }
    view
}

/// Where a path stands, by the labels of these signals alone.
pub(crate) fn state_in_view(netlist: &Netlist, reach: &Reach, values: &[Label]) -> State
    requires size { length reach.now.points.first.items ≡ length values.now }
    requires within { All (λ x. x < length values.now) reach.now.signals.items }
    requires few { length reach.now.points.seen.items < 2 ^ 32 }
    ensures { IsStateInView netlist.now reach.now.points.first.items (length reach.now.points.seen.items) values.now reach.now.signals.items result }
{
    let view = view_of(reach, values);
    if view.least < reach.points.seen.len() {
        State::Test(point_at(netlist, view.least))
    } else if view.differs {
        State::Going
    } else {
        State::Blocked
    }
}
