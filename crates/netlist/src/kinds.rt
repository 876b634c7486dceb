//! What gates compute, and the values of three-valued simulation.
ghost use Rattle.std.specs.Prelude.{◌≡◌};
ghost use Rattle.netlist.specs.Gates.{allows_pins};

use statement::Kind;

/// More than any cell library has, and few enough that counts over all pins of a netlist fit.
pub const MOST_PINS: usize = 1024;

/// Whether it may have so many pins.
pub fn allows(kind: Kind, pins: usize) -> bool
    ensures { result ≡ allows_pins kind pins }
{
    match kind {
        Kind::Const0 | Kind::Const1 => pins == 0,
        Kind::Not | Kind::Buff | Kind::Dff => pins == 1,
        Kind::Xor | Kind::Xnor => 2 <= pins && pins <= MOST_PINS,
        Kind::And | Kind::Nand | Kind::Or | Kind::Nor => 1 <= pins && pins <= MOST_PINS,
    }
}
