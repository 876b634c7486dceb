//! What gates compute, and the values of three-valued simulation.
ghost use Rattle.std.specs.Prelude.{◌≡◌};
ghost use Rattle.statement.specs.Netlists.{is_flip_flop};

/// What a definition computes.
#[derive(Clone, Copy, PartialEq, Eq)]
pub enum Kind {
    And,
    Nand,
    Or,
    Nor,
    Xor,
    Xnor,
    Not,
    Buff,
    Dff,
    /// A tie cell: a gate without pins that gives 0.
    Const0,
    /// A tie cell that gives 1.
    Const1,
}

impl Kind {
    /// Whether it keeps a bit from one tick to the next.
    pub fn is_flip_flop(self) -> bool
        ensures { result ≡ is_flip_flop self }
    {
        matches!(self, Kind::Dff)
    }
}

/// A value that may be unknown: X stands for either bit.
#[derive(Clone, Copy, PartialEq, Eq)]
pub enum Tri {
    Zero,
    One,
    X,
}
