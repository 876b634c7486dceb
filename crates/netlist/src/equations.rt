//! Definitions, and the parts of which a netlist is made.
ghost use Rattle.std.specs.Prelude.{◌≡◌, IfOk};
ghost use Rattle.netlist.specs.Conditions.{whole};

use plain_text::Texts;
use smallvec::SmallVec;
use statement::{Kind, SignalId};
use std::alloc::{AllocError, Global};
use std::marker::Model;

/// A signal and what drives it.
#[derive(Drop)]
pub struct Definition {
    pub id: SignalId,
    pub kind: Kind,
    pub pins: SmallVec<SignalId, 4>,
}

impl Model for Definition {
    ghost use Rattle.statement.specs.Netlists.{Definition};

    ghost Value = { Definition };

    ghost view = { λ d. record { id = d.id; kind = d.kind; pins = d.pins.items } };
}

impl Definition {
    pub fn new(id: SignalId, kind: Kind, pins: SmallVec<SignalId, 4>) -> Definition
        ensures { result ≡ record { id = id; kind = kind; pins = pins.items } }
    {
        Definition { id, kind, pins }
    }

    pub fn id(&self) -> SignalId
        ensures { result ≡ self.now.id }
    {
        self.id
    }

    pub fn kind(&self) -> Kind
        ensures { result ≡ self.now.kind }
    {
        self.kind
    }

    pub fn pins(&self) -> &[SignalId]
        ensures { result.now ≡ self.now.pins }
    {
        self.pins.as_slice()
    }

    /// An equal definition.
    pub fn copy(&self, alloc: Global) -> Result<Definition, AllocError>
        ensures { IfOk result (λ d. d ≡ self.now) }
    {
        let pins = SmallVec::from_slice(alloc, self.pins())?;
        Ok(Definition::new(self.id(), self.kind(), pins))
    }
}

/// The parts of a netlist: `names` has the name of signal 0, 1 and so on, and then those of names that are read and not defined.
#[derive(Drop)]
pub struct Parts {
    pub names: Texts,
    pub inputs: Vec<SignalId>,
    pub outputs: Vec<SignalId>,
    pub definitions: Vec<Definition>,
}

fn copy_definitions(
    alloc: Global,
    definitions: &[Definition],
) -> Result<Vec<Definition>, AllocError>
    ensures { IfOk result (λ v. v.items ≡ definitions.now) }
{
    let mut copies = Vec::with_capacity(alloc, definitions.len())?;
    for definition in definitions {
        copies.push(definition.copy(alloc)?)?;
    }
    Ok(copies)
}

impl Parts {
    /// Equal parts.
    pub fn copy(&self, alloc: Global) -> Result<Parts, AllocError>
        ensures { IfOk result (λ p. whole p ≡ whole self.now) }
    {
        Ok(Parts {
            names: self.names.copy(alloc)?,
            inputs: self.inputs.clone()?,
            outputs: self.outputs.clone()?,
            definitions: copy_definitions(alloc, &self.definitions)?,
        })
    }
}
