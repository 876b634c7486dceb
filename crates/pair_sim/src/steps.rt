//! The steps of a simulation: a decision more, and the last one taken back.
ghost use Rattle.std.specs.Prelude.{◌≡◌, ◌+◌, ◌≤◌, ◌<◌, [], None, Some, length, slice_index_or, vec_capacity};
ghost use Rattle.std.specs.Bool.{MatchBool};
ghost use Rattle.netlist.specs.Holds.{AreHoldsOf};
ghost use Rattle.netlist.specs.Lines.{IsLineOf};
ghost use Rattle.statement.specs.Netlists.{signals};
ghost use Rattle.tri.specs.Labelling.{decided_in};
ghost use Rattle.tri.specs.Labels.{source_label, held_value};
ghost use Rattle.label_events.specs.Lines.{AgreeOnOtherLines};
ghost use Rattle.observed_points.specs.Points.{ArePoints};
ghost use Rattle.pair_sim.specs.inner.Steps.{IsRelabelled, IsForgotten, IsNamed, IsPlayedBack, IsSettledBack, IsSiteSettled, IsFaultPut, IsFaultSet, IsFaultReplaced, site_of};

use crate::levels::{Level, has_clash, name_changes};
use crate::reach::Reach;
use events::Events;
use label_events::LabelRule;
use netlist::{Fault, Holds, Line, Netlist, SignalId, Tri};
use tri::{Label, Labelling, label_of};

/// The decided bit of a signal changes: the labels that this reaches are worked out anew.
pub(crate) fn relabel(
    labelling: &mut Labelling,
    events: &mut Events<Label>,
    signal: SignalId,
    decision: Option<bool>,
)
    requires within { signal < length (signals events.old.netlist) }
    requires row { length labelling.old.decided.items ≡ length (signals events.old.netlist) }
    requires room { length events.old.trail ≤ events.old.room }
    ensures { IsRelabelled signal decision labelling.old labelling.new events.old events.new }
{
    labelling.decided[signal.index()] = decision;
    let rule = LabelRule { labelling };
    events.change(&rule, signal, label_of(decision, Tri::X, Tri::X, false));
}

/// After a decision: whether one is contradicted. The trail has nothing of it then; else the signals that changed are named.
pub(crate) fn note(
    was: bool,
    labelling: &Labelling,
    events: &mut Events<Label>,
    names: &mut Vec<SignalId>,
    mark: usize,
) -> bool
    requires mark { mark ≤ length events.old.trail }
    requires room { length names.old.items + length events.old.trail ≤ vec_capacity names.old + mark }
    ensures noted { MatchBool result
        (IsForgotten was labelling.now.decided.items mark events.old events.new names.old.items names.new.items)
        (IsNamed was labelling.now.decided.items mark events.old events.new names.old.items names.new.items) }
    ensures room { vec_capacity names.old ≤ vec_capacity names.new }
{
    let changes = &events.trail()[mark..];
    let contradicted = was || has_clash(labelling, changes, events.values());
    if contradicted {
        events.forget_from(mark);
    } else {
        name_changes(changes, names);
    }
    contradicted
}

/// Takes a decision back: the trail is played back, or where there is none the labels settle anew.
pub(crate) fn take_back(
    labelling: &mut Labelling,
    events: &mut Events<Label>,
    names: &mut Vec<SignalId>,
    level: &Level,
)
    requires within { level.now.signal < length (signals events.old.netlist) }
    requires row { length labelling.old.decided.items ≡ length (signals events.old.netlist) }
    requires room { length events.old.trail ≤ events.old.room }
    requires mark { level.now.mark ≤ length events.old.trail }
    ensures back { MatchBool level.now.contradicted
        (IsSettledBack level.now.signal level.now.mark labelling.old labelling.new events.old events.new names.old.items names.new.items)
        (IsPlayedBack level.now.signal level.now.mark labelling.old labelling.new events.old events.new names.old.items names.new.items) }
    ensures room { vec_capacity names.new ≡ vec_capacity names.old }
{
    if level.contradicted {
        relabel(labelling, events, level.signal, None);
        events.forget_from(level.mark);
    } else {
        labelling.decided[level.signal.index()] = None;
        events.undo(level.mark);
        names.truncate(level.mark);
    }
}

/// The signal that may change where the fault on this line does.
fn site(line: &Line) -> Option<SignalId>
    ensures { result ≡ site_of line.now }
{
    match line {
        Line::Stem(x) => Some(*x),
        Line::Pin(z, _) => Some(*z),
        Line::Out(_) => None,
    }
}

/// What is driven onto a signal if it is an input or a cell: the bit at which an input is held, else X, with its decision.
fn driven_onto(labelling: &Labelling, netlist: &Netlist, holds: &Holds, id: SignalId) -> Label
    requires { AreHoldsOf netlist.now holds.now }
    ensures { result ≡ source_label (decided_in labelling.now.decided.items) id (held_value (slice_index_or holds.now id None)) }
{
    if id.index() < netlist.inputs().len() {
        labelling.input(id, holds)
    } else {
        labelling.source(id, Tri::X)
    }
}

/// The fault on this line is another one, or none: what it reaches is worked out anew.
fn settle_site(labelling: &Labelling, events: &mut Events<Label>, holds: &Holds, line: &Line)
    requires line { IsLineOf events.old.netlist line.now }
    requires holds { AreHoldsOf events.old.netlist holds.now }
    requires room { length events.old.trail ≤ events.old.room }
    ensures { IsSiteSettled holds.now line.now labelling.now events.old events.new }
{
    let netlist = events.core().netlist();
    netlist.sound();
    match site(line) {
        None => {}
        Some(id) => {
            let driven = driven_onto(labelling, netlist, holds, id);
            let rule = LabelRule { labelling };
            events.change(&rule, id, driven);
        }
    }
}

/// Another fault, or none, comes onto a line. What that changes can't be taken back.
fn put_fault(
    labelling: &mut Labelling,
    events: &mut Events<Label>,
    holds: &Holds,
    line: &Line,
    fault: Option<Fault>,
)
    requires line { IsLineOf events.old.netlist line.now }
    requires holds { AreHoldsOf events.old.netlist holds.now }
    requires same { AgreeOnOtherLines line.now labelling.old.fault fault }
    requires room { length events.old.trail ≤ events.old.room }
    ensures { IsFaultPut holds.now fault labelling.old labelling.new events.old events.new }
{
    labelling.fault = fault;
    settle_site(labelling, events, holds, line);
    events.forget();
}

/// A fault comes onto a line where there was none. What that changes stands on the trail.
fn set_fault(labelling: &mut Labelling, events: &mut Events<Label>, holds: &Holds, fault: &Fault)
    requires line { IsLineOf events.old.netlist fault.now.line }
    requires holds { AreHoldsOf events.old.netlist holds.now }
    requires none { labelling.old.fault ≡ None }
    requires room { length events.old.trail ≤ events.old.room }
    requires empty { events.old.trail ≡ [] }
    ensures { IsFaultSet holds.now fault.now labelling.old labelling.new events.old events.new }
{
    labelling.fault = Some(*fault);
    settle_site(labelling, events, holds, &fault.line);
}

/// Another fault comes in place of this one: what the two reach is worked out anew, and at which points it may be seen.
pub(crate) fn replace_fault(
    labelling: &mut Labelling,
    events: &mut Events<Label>,
    reach: &mut Reach,
    holds: &Holds,
    last: &Fault,
    fault: &Fault,
)
    requires last { labelling.old.fault ≡ Some last.now }
    requires last_line { IsLineOf events.old.netlist last.now.line }
    requires line { IsLineOf events.old.netlist fault.now.line }
    requires holds { AreHoldsOf events.old.netlist holds.now }
    requires room { length events.old.trail ≤ events.old.room }
    requires points { ArePoints events.old.netlist reach.old.points.seen.items reach.old.points.first.items reach.old.points.numbers.items }
    requires reach_room { length (signals events.old.netlist) ≤ vec_capacity reach.old.signals }
    ensures { IsFaultReplaced holds.now fault.now labelling.old labelling.new reach.old reach.new events.old events.new }
{
    put_fault(labelling, events, holds, &last.line, None);
    set_fault(labelling, events, holds, fault);
    reach.note(
        events.core().netlist(),
        &fault.line,
        events.trail(),
        events.values(),
    );
    events.forget();
}
