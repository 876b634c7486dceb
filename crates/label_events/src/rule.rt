//! Labels as a rule by which values settle anew: each gate's pins are gone over once.
ghost use Rattle.std.specs.Prelude.{◌≡◌, ◌<◌, ◌≤◌, ℕ, List, [], ◌∷◌, length, map, slice_index, IfSome, IsFalse, IsTrue};
ghost use Rattle.std.specs.List.{All};
ghost use Rattle.netlist.specs.Settled.{at};
ghost use Rattle.tri.specs.Labels.{labels, on_line};
ghost use Rattle.tri.specs.Labelling.{decided_in};
ghost use Rattle.tri.specs.declared.labels.Label.{Label as LabelOf};
ghost use Rattle.tri.specs.Gates.{gate_tri};
ghost use Rattle.tri.specs.Gathered.{AreTriReductionsOf};
ghost use Rattle.netlist.specs.Gates.{most_pins};
ghost use Rattle.label_events.specs.Gathered.{AreGoodPins, IsNoPinStuck, pin_labels};

use crate::watched::{controlled, controls, hides_label};
use events::Comparing;
use netlist::{Definition, Kind, Line, Logic, SignalId, Tri};
use tri::{Label, Labelling, Together, gate_label, known, label_of, on_line};

/// Labels under a fault, or none, and decisions.
#[derive(Clone, Copy)]
pub struct LabelRule<'a> {
    pub labelling: &'a Labelling,
}

/// What the labels on the pins of a gate are together, but for their values with the fault.
#[derive(Clone, Copy)]
struct GoodPins {
    good: Together,
    may_differ: bool,
}

impl GoodPins {
    #[inline(always)]
    fn none() -> GoodPins
        ensures { AreGoodPins [] result }
    {
        GoodPins {
            good: Together::none(),
            may_differ: false,
        }
    }

    /// With one more, at the front.
    #[inline(always)]
    fn with(self, label: Label) -> GoodPins
        ensures { (pins : List LabelOf) → AreGoodPins pins self → AreGoodPins (label ∷ pins) result }
    {
        GoodPins {
            good: self.good.with(label.good),
            may_differ: label.may_differ || self.may_differ,
        }
    }
}

/// The label of a signal.
#[inline(always)]
fn label_at(values: &[Label], id: SignalId) -> Label
    requires { id < length values.now }
    ensures { (d : LabelOf) → result ≡ at values.now d id }
{
    values[id.index()]
}

impl LabelRule<'_> {
    /// The label on a pin of the gate.
    fn on_pin(&self, gate: &Definition, place: u32, values: &[Label]) -> Option<Label>
        requires below { All (λ x. x < length values.now) gate.now.pins }
        ensures within { IfSome result (λ l. place < length gate.now.pins) }
        ensures label { IfSome result (λ l. (d : LabelOf) → l ≡ on_line self.now.labelling.now.fault (Line.Pin gate.now.id place) (at values.now d (slice_index gate.now.pins place))) }
    {
        let pins = gate.pins();
        if place as usize >= pins.len() {
            return None;
        }
        let label = label_at(values, pins[place as usize]);
        Some(self.line(&Line::Pin(gate.id(), place), label))
    }

    /// Whether a stuck pin of the gate reads the signal.
    fn is_stuck_reader(&self, gate: &Definition, id: SignalId) -> bool
        ensures { IsFalse result → (k : ℕ) (l : LabelOf) → k < length gate.now.pins → slice_index gate.now.pins k ≡ id → on_line self.now.labelling.now.fault (Line.Pin gate.now.id k) l ≡ l }
    {
        let Some(fault) = &self.labelling.fault else {
            return false;
        };
        let Line::Pin(reader, place) = &fault.line else {
            return false;
        };
        if reader.index() != gate.id().index() {
            return false;
        }
        match gate.pins().get(*place as usize) {
            None => false,
            Some(pin) => pin.index() == id.index(),
        }
    }

    /// Whether the fault's line is a pin of the gate.
    #[inline(always)]
    fn is_at(&self, id: SignalId) -> bool
        ensures { IsFalse result → IsNoPinStuck self.now.labelling.now.fault id }
    {
        let Some(fault) = &self.labelling.fault else {
            return false;
        };
        let Line::Pin(reader, _) = &fault.line else {
            return false;
        };
        reader.index() == id.index()
    }

    /// The label on a pin of a gate.
    #[inline(always)]
    fn pin_label(&self, is_at: bool, id: SignalId, place: u32, label: Label) -> Label
        requires { IsFalse is_at → IsNoPinStuck self.now.labelling.now.fault id }
        ensures { result ≡ on_line self.now.labelling.now.fault (Line.Pin id place) label }
    {
        if is_at {
            return self.line(&Line::Pin(id, place), label);
        }
        label
    }

    /// What the labels on the pins of a gate are together, but for their values with the fault.
    #[inline(always)]
    fn good_pins(&self, is_at: bool, id: SignalId, pins: &[SignalId], values: &[Label]) -> GoodPins
        requires at { IsFalse is_at → IsNoPinStuck self.now.labelling.now.fault id }
        requires below { All (λ x. x < length values.now) pins.now }
        requires few { length pins.now ≤ most_pins }
        ensures { AreGoodPins (pin_labels self.now.labelling.now.fault (decided_in self.now.labelling.now.decided.items) id pins.now values.now) result }
    {
        let mut all = GoodPins::none();
        for k in (0..pins.len()).rev() {
            let label = self.pin_label(is_at, id, k as u32, values[pins[k].index()]);
            all = all.with(label);
        }
        all
    }

    /// What the values with the fault on the pins of a gate are together.
    #[inline(always)]
    fn faulty_pins(
        &self,
        is_at: bool,
        id: SignalId,
        pins: &[SignalId],
        values: &[Label],
    ) -> Together
        requires at { IsFalse is_at → IsNoPinStuck self.now.labelling.now.fault id }
        requires below { All (λ x. x < length values.now) pins.now }
        requires few { length pins.now ≤ most_pins }
        ensures { AreTriReductionsOf (map (λ (l : LabelOf). l.faulty) (pin_labels self.now.labelling.now.fault (decided_in self.now.labelling.now.decided.items) id pins.now values.now)) result }
    {
        let mut all = Together::none();
        for k in (0..pins.len()).rev() {
            let label = self.pin_label(is_at, id, k as u32, values[pins[k].index()]);
            all = all.with(label.faulty);
        }
        all
    }

    /// What a gate makes with the fault where one of its pins may differ; where none may, nobody asks.
    #[inline(always)]
    fn faulty_made(
        &self,
        may_differ: bool,
        is_at: bool,
        id: SignalId,
        kind: Kind,
        pins: &[SignalId],
        values: &[Label],
    ) -> Tri
        requires at { IsFalse is_at → IsNoPinStuck self.now.labelling.now.fault id }
        requires below { All (λ x. x < length values.now) pins.now }
        requires few { length pins.now ≤ most_pins }
        ensures { IsTrue may_differ → result ≡ gate_tri kind (map (λ (l : LabelOf). l.faulty) (pin_labels self.now.labelling.now.fault (decided_in self.now.labelling.now.decided.items) id pins.now values.now)) }
    {
        if !may_differ {
            return Tri::X;
        }
        self.faulty_pins(is_at, id, pins, values).through(kind)
    }
}

impl Logic for LabelRule<'_> {
    type Value = Label;

    ghost rule = { λ r. labels r.labelling.now.fault (decided_in r.labelling.now.decided.items) };

    fn blank(&self) -> Label {
        self.labelling.blank()
    }

    #[inline(always)]
    fn line(&self, line: &Line, value: Label) -> Label {
        on_line(&self.labelling.fault, line, value)
    }

    fn gate(&self, definition: &Definition, pins: &[Label]) -> Label {
        gate_label(
            self.labelling.decision(definition.id()),
            definition.kind(),
            pins,
        )
    }
}

impl Comparing for LabelRule<'_> {
    #[inline(always)]
    fn is_same(&self, one: Label, other: Label) -> bool {
        one == other
    }

    #[inline(always)]
    fn made(&self, id: SignalId, kind: Kind, pins: &[SignalId], values: &[Label]) -> Label {
        let is_at = self.is_at(id);
        let on_pins = self.good_pins(is_at, id, pins, values);
        let faulty = self.faulty_made(on_pins.may_differ, is_at, id, kind, pins, values);
        let label = label_of(
            self.labelling.decision(id),
            on_pins.good.through(kind),
            faulty,
            on_pins.may_differ,
        );
        self.line(&Line::Stem(id), label)
    }

    #[inline(always)]
    fn tells_by_pins(&self) -> bool {
        true
    }

    fn hides(
        &self,
        gate: &Definition,
        place: u32,
        id: SignalId,
        value: Label,
        values: &[Label],
    ) -> bool {
        let Some(label) = self.on_pin(gate, place, values) else {
            return false;
        };
        if gate.pins()[place as usize].index() == id.index() {
            return false;
        }
        if self.is_stuck_reader(gate, id) {
            return false;
        }
        hides_label(gate.kind(), label, label_at(values, id), value)
    }

    fn told(&self, gate: &Definition, place: u32, values: &[Label]) -> Option<Label> {
        let label = self.on_pin(gate, place, values)?;
        let id = gate.id();
        if self.labelling.decision(id).is_some() {
            return None;
        }
        if !controls(gate.kind(), label.good) || !controls(gate.kind(), label.faulty) {
            return None;
        }
        let bit = known(controlled(gate.kind()));
        Some(self.line(&Line::Stem(id), label_of(None, bit, bit, false)))
    }

    fn watched(&self, gate: &Definition, values: &[Label]) -> u32 {
        let pins = gate.pins();
        let count = pins.len();
        for k in (0..count).rev() {
            let label = self.line(&Line::Pin(gate.id(), k as u32), values[pins[k].index()]);
            if label.good == Tri::X && label.faulty == Tri::X {
                return k as u32;
            }
        }
        0
    }
}
