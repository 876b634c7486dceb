//! The steps of a refutation. A refutation is a list of them, whose last clause is empty.
ghost use Rattle.std.specs.Prelude.{◌≡◌};
ghost use Rattle.refutation.specs.Refutations.{denied};

use crate::pairs::Pairs;
use netlist::SignalId;
use std::marker::Model;

/// The signal has one of these pairs.
#[derive(Clone, Copy, PartialEq, Eq)]
pub struct Literal {
    pub signal: SignalId,
    pub pairs: Pairs,
}

/// What can't be where the literals so far are so.
#[derive(Clone, Copy, PartialEq, Eq)]
pub enum Reason {
    /// The gate makes of the pairs that its pins may have one that it may have.
    Gate(SignalId),
    /// A literal of an earlier step's clause, from 0, is so.
    Lemma(u32),
    /// A way is open to an observed point: signals that may differ, each read by the gate of the next.
    Way,
    /// The gates allow each signal a pair, all of them together.
    Gates,
}

/// A literal, and the reason why its opposite can't be.
#[derive(Clone, Copy, PartialEq, Eq)]
pub struct Implied {
    pub literal: Literal,
    pub reason: Reason,
}

/// What follows where the literals so far are so.
#[derive(Clone, Copy, PartialEq, Eq)]
pub enum Move {
    /// The literal is so.
    Imply(Implied),
    /// The signals have pairs that the gates allow, all of them together.
    Sweep,
}

/// A clause, of which a literal is so; what follows where none is; and the reason why that can't be.
#[derive(Drop)]
pub struct Step {
    clause: Vec<Literal>,
    moves: Vec<Move>,
    last: Reason,
}

impl Model for Step {
    ghost use Rattle.refutation.specs.Steps.{Step};

    ghost Value = { Step };

    ghost view = { λ s. record { clause = s.clause.items; moves = s.moves.items; last = s.last } };
}

impl Literal {
    /// The signal has another pair.
    pub fn denied(&self) -> Literal
        ensures { result ≡ denied self.now }
    {
        Literal {
            signal: self.signal,
            pairs: self.pairs.others(),
        }
    }
}

impl Step {
    pub fn new(clause: Vec<Literal>, moves: Vec<Move>, last: Reason) -> Step
        ensures { result ≡ record { clause = clause.items; moves = moves.items; last = last } }
    {
        Step {
            clause,
            moves,
            last,
        }
    }

    pub fn clause(&self) -> &[Literal]
        ensures { result.now ≡ self.now.clause }
    {
        &self.clause
    }

    pub fn moves(&self) -> &[Move]
        ensures { result.now ≡ self.now.moves }
    {
        &self.moves
    }

    pub fn last(&self) -> &Reason
        ensures { result.now ≡ self.now.last }
    {
        &self.last
    }
}
