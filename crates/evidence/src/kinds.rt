//! The two kinds of evidence.
use redundancy_cert::Tree;
use refutation::Step;
use std::marker::Model;

/// What is shown of a fault.
#[derive(Drop)]
pub enum Evidence {
    /// A tree of decisions, each of whose closed ends has a label that no test has. Ends may be open.
    Tree(Tree),
    /// The steps of a refutation. It has no ends, so none is open.
    Refutation(Refutation),
}

/// The steps of a refutation.
#[derive(Drop)]
pub struct Refutation {
    steps: Vec<Step>,
}

impl Model for Refutation {
    ghost use Rattle.std.specs.Prelude.{List};
    ghost use Rattle.refutation.specs.Steps.{Step};

    ghost Value = { List Step };

    ghost view = { λ r. r.steps.items };
}

impl Refutation {
    ghost use Rattle.std.specs.Prelude.{◌≡◌};

    pub fn new(steps: Vec<Step>) -> Refutation
        ensures { result ≡ steps.items }
    {
        Refutation { steps }
    }

    pub fn steps(&self) -> &[Step]
        ensures { result.now ≡ self.now }
    {
        &self.steps
    }
}
