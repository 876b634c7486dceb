//! Rules whose values can be told apart, and that evaluate a gate in one pass over its pins.
ghost use Rattle.std.specs.Prelude.{◌≡◌, ◌↔◌, ◌<◌, ◌≤◌, length, slice_set, IfSome, IsTrue};
ghost use Rattle.std.specs.List.{All};
ghost use Rattle.netlist.specs.Gates.{most_pins};
ghost use Rattle.netlist.specs.Settled.{at};
ghost use Rattle.events.specs.Waiting.{given};

use netlist::{Definition, Kind, Logic, SignalId};

/// A rule for which values can settle anew.
pub trait Comparing: Logic {
    /// Whether two values are the same.
    fn is_same(&self, one: Self::Value, other: Self::Value) -> bool
        ensures { IsTrue result ↔ (one ≡ other) };

    /// What the stem of a gate makes of what the gate makes of its pins, which read these values of all signals.
    fn made(
        &self,
        id: SignalId,
        kind: Kind,
        pins: &[SignalId],
        values: &[Self::Value],
    ) -> Self::Value
        requires below { All (λ x. x < length values.now) pins.now }
        requires few { length pins.now ≤ most_pins }
        ensures { (d : Self.Value) → result ≡ given (Self.rule self.now) (at values.now d) (record { id = id; kind = kind; pins = pins.now }) };

    /// Whether it ever says what one pin tells of a gate: the three below do nothing otherwise.
    #[inline(always)]
    fn tells_by_pins(&self) -> bool {
        false
    }

    /// Whether a gate makes the same once a signal has another value, as far as its pin at this place tells. To say no is always right.
    #[inline(always)]
    fn hides(
        &self,
        gate: &Definition,
        place: u32,
        id: SignalId,
        value: Self::Value,
        values: &[Self::Value],
    ) -> bool
        requires below { All (λ x. x < length values.now) gate.now.pins }
        requires within { id < length values.now }
        ensures { IsTrue result → (d : Self.Value) → given (Self.rule self.now) (at (slice_set values.now id value) d) gate.now ≡ given (Self.rule self.now) (at values.now d) gate.now }
    {
        false
    }

    /// What the stem of a gate makes, where its pin at this place alone tells.
    #[inline(always)]
    fn told(&self, gate: &Definition, place: u32, values: &[Self::Value]) -> Option<Self::Value>
        requires below { All (λ x. x < length values.now) gate.now.pins }
        ensures { IfSome result (λ v. (d : Self.Value) → v ≡ given (Self.rule self.now) (at values.now d) gate.now) }
    {
        None
    }

    /// The place of a pin that hides the most changes at others. Any is right.
    #[inline(always)]
    fn watched(&self, gate: &Definition, values: &[Self::Value]) -> u32
        requires below { All (λ x. x < length values.now) gate.now.pins }
        requires few { length gate.now.pins ≤ most_pins }
    {
        0
    }
}
