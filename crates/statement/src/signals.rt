//! Signals by number.
ghost use Rattle.std.specs.Prelude.{◌≡◌};

use std::marker::Model;

/// A signal, by its place: the inputs in order, then the definitions in order.
#[derive(Clone, Copy, Default, PartialEq, Eq)]
pub struct SignalId(pub u32);

impl Model for SignalId {
    ghost use Rattle.std.specs.Prelude.{ℕ};

    ghost Value = { ℕ };

    ghost view = { λ s. s.0 };

    ghost inverse = { λ n. record { 0 = n } };
}

impl SignalId {
    pub fn index(self) -> usize
        ensures { result ≡ self }
    {
        self.0 as usize
    }
}
