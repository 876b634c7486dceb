//! What the labels at the observed points tell.
ghost use Rattle.std.specs.Prelude.{◌≡◌, ◌<◌, ◌∷◌, ◌++◌, [], List, length, IsFalse, IsTrue, map, take};
ghost use Rattle.std.specs.List.{flat_map};
ghost use Rattle.netlist.specs.Conditions.{IsSound};
ghost use Rattle.statement.specs.Netlists.{signals};
ghost use Rattle.netlist.specs.Settled.{at};
ghost use Rattle.statement.specs.Values.{outs, next};
ghost use Rattle.tri.specs.declared.labels.Label.{Label as LabelOf};
ghost use Rattle.tri.specs.Labels.{Decisions, labels};
ghost use Rattle.tri.specs.Paths.{has_effect};
ghost use Rattle.pair_sim.specs.inner.Levels.{blank};
ghost use Rattle.pair_sim.specs.inner.Points.{IsSight, IsStateOf};

use crate::states::State;
use netlist::{Fault, Line, Netlist, Point, Tri};
use tri::{Label, on_line};

/// What points tell.
#[derive(Clone, Copy)]
pub(crate) enum PointsSight {
    /// The first point whose two values are known and differ.
    Effect(u32),
    /// There is none, and some point may differ.
    Differs,
    /// No point may differ.
    Same,
}

/// Whether both values are known and differ.
pub(crate) fn has_effect(label: &Label) -> bool
    ensures { result ≡ has_effect label.now }
{
    match label.good {
        Tri::Zero => matches!(label.faulty, Tri::One),
        Tri::One => matches!(label.faulty, Tri::Zero),
        Tri::X => false,
    }
}

/// One point more, which is number k.
fn see(sight: PointsSight, k: u32, label: &Label) -> PointsSight
    ensures { (labels : List LabelOf) → length labels ≡ k → IsSight labels sight → IsSight (labels ++ label.now ∷ []) result }
{
    match sight {
        PointsSight::Effect(first) => PointsSight::Effect(first),
        PointsSight::Differs => {
            if has_effect(label) {
                PointsSight::Effect(k)
            } else {
                PointsSight::Differs
            }
        }
        PointsSight::Same => {
            if has_effect(label) {
                PointsSight::Effect(k)
            } else if label.may_differ {
                PointsSight::Differs
            } else {
                PointsSight::Same
            }
        }
    }
}

/// What the outputs tell.
pub(crate) fn sight_at_outputs(
    netlist: &Netlist,
    fault: &Option<Fault>,
    values: &[Label],
) -> PointsSight
    requires sound { IsSound netlist.now }
    requires size { length values.now ≡ length (signals netlist.now) }
    ensures { (path : Decisions) → IsSight (outs (labels fault.now path) netlist.now (at values.now blank)) result }
{
    let outputs = netlist.outputs();
    let mut sight = PointsSight::Same;
    for k in 0..outputs.len() {
        let x = outputs[k];
        let label = on_line(fault, &Line::Out(x), values[x.index()]);
        sight = see(sight, k as u32, &label);
    }
    sight
}

/// What the cells' pins tell.
pub(crate) fn sight_at_cells(
    netlist: &Netlist,
    fault: &Option<Fault>,
    values: &[Label],
) -> PointsSight
    requires sound { IsSound netlist.now }
    requires size { length values.now ≡ length (signals netlist.now) }
    ensures { (path : Decisions) → IsSight (next (labels fault.now path) netlist.now (at values.now blank)) result }
{
    let cells = netlist.cells();
    let mut sight = PointsSight::Same;
    for k in 0..cells.len() {
        let cell = cells[k];
        let pin = netlist.definition(cell).pins()[0];
        let label = on_line(fault, &Line::Pin(cell, 0), values[pin.index()]);
        sight = see(sight, k as u32, &label);
    }
    sight
}

/// Where a path stands.
pub(crate) fn state_of(
    netlist: &Netlist,
    fault: &Option<Fault>,
    values: &[Label],
    contradicted: bool,
) -> State
    requires sound { IsSound netlist.now }
    requires size { length values.now ≡ length (signals netlist.now) }
    ensures { (path : Decisions) → IsStateOf contradicted
        (outs (labels fault.now path) netlist.now (at values.now blank))
        (next (labels fault.now path) netlist.now (at values.now blank)) result }
{
    if contradicted {
        return State::Blocked;
    }
    match sight_at_outputs(netlist, fault, values) {
        PointsSight::Effect(k) => State::Test(Point::Output(k)),
        PointsSight::Differs => match sight_at_cells(netlist, fault, values) {
            PointsSight::Effect(k) => State::Test(Point::Cell(k)),
            PointsSight::Differs => State::Going,
            PointsSight::Same => State::Going,
        },
        PointsSight::Same => match sight_at_cells(netlist, fault, values) {
            PointsSight::Effect(k) => State::Test(Point::Cell(k)),
            PointsSight::Differs => State::Going,
            PointsSight::Same => State::Blocked,
        },
    }
}
