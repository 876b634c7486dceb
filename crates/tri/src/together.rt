//! What three values are together, from which each kind of gate takes its value: gathered in one pass, without a copy of the values.
ghost use Rattle.std.specs.Prelude.{◌≡◌, List, [], ◌∷◌};
ghost use Rattle.statement.specs.declared.kinds.Tri.{Tri as Value};
ghost use Rattle.tri.specs.Gathered.{mark};
ghost use Rattle.tri.specs.Gates.{gate_tri, conjunction_tri, disjunction_tri, parity_tri};
ghost use Rattle.statement.specs.Values.{known};
ghost use Rattle.netlist.specs.ThreeValues.{complement};

use netlist::{Kind, Tri};

/// Which of 0, 1 and X are among them, a bit for each; whether an odd number of them is 1, and the first.
#[derive(Clone, Copy)]
pub struct Together {
    seen: u8,
    odd: bool,
    first: Tri,
}

/// The value of a bit that is known.
pub fn known(bit: bool) -> Tri
    ensures { result ≡ known bit }
{
    if bit { Tri::One } else { Tri::Zero }
}

/// 0 for 1 and 1 for 0; X stays.
fn complement(value: Tri) -> Tri
    ensures { result ≡ complement value }
{
    match value {
        Tri::Zero => Tri::One,
        Tri::One => Tri::Zero,
        Tri::X => Tri::X,
    }
}

/// The bit of a value: three tests would be branches, which no processor foresees.
fn mark(value: Tri) -> u8
    ensures { result ≡ mark value }
{
    match value {
        Tri::Zero => 1,
        Tri::One => 2,
        Tri::X => 4,
    }
}

impl Together {
    ghost use Rattle.tri.specs.Gathered.{AreTriReductionsOf};

    pub fn none() -> Together
        ensures { AreTriReductionsOf [] result }
    {
        Together {
            seen: 0,
            odd: false,
            first: Tri::Zero,
        }
    }

    /// With one value more, at the front.
    #[inline(always)]
    pub fn with(self, value: Tri) -> Together
        ensures { (values : List Value) → AreTriReductionsOf values self → AreTriReductionsOf (value ∷ values) result }
    {
        Together {
            seen: self.seen | mark(value),
            odd: if matches!(value, Tri::One) {
                !self.odd
            } else {
                self.odd
            },
            first: value,
        }
    }

    fn conjunction(self) -> Tri
        ensures { (values : List Value) → AreTriReductionsOf values self → result ≡ conjunction_tri values }
    {
        if self.seen & 1 != 0 {
            Tri::Zero
        } else if self.seen & 4 != 0 {
            Tri::X
        } else {
            Tri::One
        }
    }

    fn disjunction(self) -> Tri
        ensures { (values : List Value) → AreTriReductionsOf values self → result ≡ disjunction_tri values }
    {
        if self.seen & 2 != 0 {
            Tri::One
        } else if self.seen & 4 != 0 {
            Tri::X
        } else {
            Tri::Zero
        }
    }

    fn parity(self) -> Tri
        ensures { (values : List Value) → AreTriReductionsOf values self → result ≡ parity_tri values }
    {
        if self.seen & 4 != 0 {
            Tri::X
        } else {
            known(self.odd)
        }
    }

    /// What a gate makes of them.
    pub fn through(self, kind: Kind) -> Tri
        ensures { (values : List Value) → AreTriReductionsOf values self → result ≡ gate_tri kind values }
    {
        match kind {
            Kind::And => self.conjunction(),
            Kind::Nand => complement(self.conjunction()),
            Kind::Or => self.disjunction(),
            Kind::Nor => complement(self.disjunction()),
            Kind::Xor => self.parity(),
            Kind::Xnor => complement(self.parity()),
            Kind::Not => complement(self.first),
            Kind::Buff | Kind::Dff => self.first,
            Kind::Const0 => Tri::Zero,
            Kind::Const1 => Tri::One,
        }
    }
}
