//! Gates over three values.
ghost use Rattle.std.specs.Prelude.{◌≡◌, ◌↔◌, Bool};
ghost use Rattle.statement.specs.Values.{known};
ghost use Rattle.tri.specs.Gates.{gate_tri, IsForced};

use crate::together::Together;
use netlist::{Kind, Tri};

/// What a gate makes of the values on its pins, each of which is taken for itself: an AND of a signal that is X and its complement is X.
pub fn gate(kind: Kind, values: &[Tri]) -> Tri
    ensures table { result ≡ gate_tri kind values.now }

    // A bit exactly where every choice of bits for the Xs gives that bit.
    ensures exact { (b : Bool) → (result ≡ known b) ↔ IsForced kind values.now b }
{
    let mut all = Together::none();
    for k in (0..values.len()).rev() {
        all = all.with(values[k]);
    }
    all.through(kind)
}
