//! The rule by which labels settle, and the labels of all signals by one pass.
ghost use Rattle.std.specs.Prelude.{◌≡◌, ◌<◌, ℕ, map, length, IfOk, None, slice_set, slice_index_or};
ghost use Rattle.std.specs.List.{All};
ghost use Rattle.netlist.specs.Holds.{AreHoldsOf};
ghost use Rattle.tri.specs.Labels.{source_label, held_value, labels};
ghost use Rattle.tri.specs.Labelling.{decided_in, AreLabelled, IsUndecided};

use crate::labels::{Label, gate_label, label_of, on_line};
use crate::together::known;
use netlist::{Core, Definition, Fault, Holds, Line, Logic, SignalId, Tri};
use std::alloc::{AllocError, Global};

/// The rule of labels under a fault, or none, and the decided bits, by the number of the signal.
#[derive(Drop)]
pub struct Labelling {
    pub fault: Option<Fault>,
    pub decided: Vec<Option<bool>>,
}

/// The bit at which an input is held, else X.
fn held_value(hold: Option<bool>) -> Tri
    ensures { result ≡ held_value hold }
{
    match hold {
        None => Tri::X,
        Some(bit) => known(bit),
    }
}

impl Labelling {
    /// Without a decision.
    pub fn new(alloc: Global, core: &Core, fault: Option<Fault>) -> Result<Labelling, AllocError>
        ensures { IfOk result (λ b. IsUndecided core.now fault b) }
    {
        let count = core.netlist().inputs().len() + core.netlist().definitions().len();
        let mut decided = Vec::with_capacity(alloc, count)?;
        for _done in 0..count {
            decided.push(None)?;
        }
        Ok(Labelling { fault, decided })
    }

    /// The decided bit of a signal, if there is one.
    pub fn decision(&self, id: SignalId) -> Option<bool>
        ensures { result ≡ decided_in self.now.decided.items id }
    {
        match self.decided.get(id.index()) {
            None => None,
            Some(bit) => *bit,
        }
    }

    /// The label of an input or a cell onto which this value is driven, where its stem isn't stuck.
    pub fn source(&self, id: SignalId, own: Tri) -> Label
        ensures { result ≡ source_label (decided_in self.now.decided.items) id own }
    {
        label_of(self.decision(id), own, Tri::X, false)
    }

    /// The label that is driven onto an input.
    pub fn input(&self, id: SignalId, holds: &Holds) -> Label
        requires { id < length holds.now }
        ensures { result ≡ source_label (decided_in self.now.decided.items) id (held_value (slice_index_or holds.now id None)) }
    {
        self.source(id, held_value(holds.held(id.0)))
    }
}

impl Logic for Labelling {
    type Value = Label;

    ghost rule = { λ b. labels b.fault (decided_in b.decided.items) };

    fn blank(&self) -> Label {
        label_of(None, Tri::X, Tri::X, false)
    }

    fn line(&self, line: &Line, value: Label) -> Label {
        on_line(&self.fault, line, value)
    }

    fn gate(&self, definition: &Definition, pins: &[Label]) -> Label {
        gate_label(self.decision(definition.id()), definition.kind(), pins)
    }
}

/// The labels that are driven onto the inputs.
fn input_labels(
    alloc: Global,
    labelling: &Labelling,
    ids: &[SignalId],
    holds: &Holds,
) -> Result<Vec<Label>, AllocError>
    requires { All (λ x. x < length holds.now) ids.now }
    ensures { IfOk result (λ v. v.items ≡ map (λ x. source_label (decided_in labelling.now.decided.items) x (held_value (slice_index_or holds.now x None))) ids.now) }
{
    let mut found = Vec::with_capacity(alloc, ids.len())?;
    for id in ids {
        found.push(labelling.input(*id, holds))?;
    }
    Ok(found)
}

/// The labels that are driven onto the cells.
fn cell_labels(
    alloc: Global,
    labelling: &Labelling,
    ids: &[SignalId],
) -> Result<Vec<Label>, AllocError>
    ensures { IfOk result (λ v. v.items ≡ map (λ x. source_label (decided_in labelling.now.decided.items) x Tri.X) ids.now) }
{
    let mut found = Vec::with_capacity(alloc, ids.len())?;
    for id in ids {
        found.push(labelling.source(*id, Tri::X))?;
    }
    Ok(found)
}

/// The labels of all signals, by one pass over the netlist.
pub fn label_all(
    alloc: Global,
    core: &Core,
    labelling: &Labelling,
    holds: &Holds,
) -> Result<Vec<Label>, AllocError>
    requires { AreHoldsOf core.now holds.now }
    ensures { IfOk result (λ v. AreLabelled labelling.now.fault (decided_in labelling.now.decided.items) core.now holds.now v.items) }
{
    core.netlist().sound();
    let inputs = input_labels(alloc, labelling, core.netlist().inputs(), holds)?;
    let state = cell_labels(alloc, labelling, core.netlist().cells())?;
    let values = core.settle(alloc, labelling, &inputs, &state)?;
    Ok(values)
}
