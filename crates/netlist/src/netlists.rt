//! Netlists: made of parts, or refused with the first cause.
ghost use Rattle.std.specs.Prelude.{◌≡◌, ◌<◌, ◌≤◌, ℕ, List, length, map, MatchOption, MatchResult, Some, [], slice_get, IfOk};
ghost use Rattle.std.specs.List.{Contains, filter};
ghost use Rattle.std.specs.Option.{option_map, option_map_or};
ghost use Rattle.statement.specs.Netlists.{Definition as Equation, cells, is_cell, signals, readers_of};
ghost use Rattle.netlist.specs.Netlist.{definition_of};
ghost use Rattle.netlist.specs.Orders.{IsOrder};
ghost use Rattle.netlist.specs.inner.Kept.{AreNamed, IsArranged};
ghost use Rattle.netlist.specs.Conditions.{IsWellFormed, IsSound, IsCause, whole};

use crate::equations::{Definition, Parts};
use crate::no_memory::NoMemory;
use crate::order::{Sorting, first_left, sort};
use crate::readings::ReaderTable;
use statement::{Kind, Line, SignalId};
use std::alloc::{AllocError, Global};
use std::marker::Model;

/// The most signals of any netlist.
pub const MOST_SIGNALS: usize = 8_000_000;

/// The most signals of a netlist that may be scanned.
pub const MOST_DESIGN_SIGNALS: usize = 1_000_000;

/// Why parts are refused: the first cause in this order, with the least signal.
#[derive(Clone, Copy, PartialEq, Eq)]
pub enum NetRefusal {
    /// More than 8,000,000 signals.
    TooMany,
    NoInput,
    NoOutput,
    /// A name that is read and neither an input nor defined.
    Undefined(SignalId),
    /// A gate of the greatest set of gates each of which reads a gate of the set.
    Loop(SignalId),
    NoMemory,
}

/// A netlist without loops, in which each name that is read is defined.
#[derive(Drop)]
pub struct Netlist {
    parts: Parts,
    flip_flops: Vec<SignalId>,
    table: ReaderTable,
    order: Vec<SignalId>,
}

impl Model for Netlist {
    ghost use Rattle.statement.specs.Netlists.{Netlist};
    ghost use Rattle.netlist.specs.Conditions.{whole};
    ghost use Rattle.netlist.specs.inner.Kept.{IsKept};

    ghost Value = { Netlist };

    ghost view = { λ n. whole n.parts };

    ghost invariant = { λ n. IsKept (whole n.parts) n.flip_flops.items n.table n.order.items };
}

/// The cells, by their signals.
fn flip_flops(alloc: Global, parts: &Parts) -> Result<Vec<SignalId>, AllocError>
    ensures { IfOk result (λ v. v.items ≡ map (λ (d : Equation). d.id) (cells (whole parts.now))) }
{
    let mut cells = Vec::new(alloc);
    for definition in &parts.definitions {
        if definition.kind().is_flip_flop() {
            cells.push(definition.id())?;
        }
    }
    Ok(cells)
}

/// The first cause against the parts, but for loops and want of memory.
fn refusal(parts: &Parts) -> Option<NetRefusal>
    requires { IsWellFormed (whole parts.now) }
    ensures { MatchOption result (AreNamed (whole parts.now)) (IsCause (whole parts.now)) }
{
    let inputs = parts.inputs.len();
    if inputs > MOST_SIGNALS || parts.definitions.len() > MOST_SIGNALS - inputs {
        return Some(NetRefusal::TooMany);
    }
    if inputs == 0 {
        return Some(NetRefusal::NoInput);
    }
    if parts.outputs.is_empty() {
        return Some(NetRefusal::NoOutput);
    }
    let signals = inputs + parts.definitions.len();
    if signals < parts.names.len() {
        return Some(NetRefusal::Undefined(SignalId(signals as u32)));
    }
    None
}

/// The readers of every signal, and an order of evaluation.
#[derive(Drop)]
struct Arranged {
    table: ReaderTable,
    order: Vec<SignalId>,
}

/// The readers and an order, unless there is a loop.
fn arrange(alloc: Global, parts: &Parts) -> Result<Arranged, NetRefusal>
    requires formed { IsWellFormed (whole parts.now) }
    requires named { AreNamed (whole parts.now) }
    ensures { MatchResult result (λ a. IsArranged (whole parts.now) a.table a.order.items) (IsCause (whole parts.now)) }
{
    let Ok(table) = ReaderTable::of_parts(alloc, parts) else {
        return Err(NetRefusal::NoMemory);
    };
    let Ok(sorting) = sort(alloc, parts, &table) else {
        return Err(NetRefusal::NoMemory);
    };
    let Sorting { order, ranks } = sorting;
    match first_left(&ranks) {
        Some(z) => Err(NetRefusal::Loop(SignalId(z))),
        None => Ok(Arranged { table, order }),
    }
}

/// The netlist of parts that are sound.
fn finish(alloc: Global, parts: Parts, arranged: Arranged) -> Result<Netlist, AllocError>
    requires { IsArranged (whole parts) arranged.table arranged.order.items }
    ensures { IfOk result (λ n. n ≡ whole parts) }
{
    let flip_flops = flip_flops(alloc, &parts)?;
    let Arranged { table, order } = arranged;
    Ok(Netlist {
        parts,
        flip_flops,
        table,
        order,
    })
}

impl Netlist {
    /// The netlist of the parts, or the first cause against it.
    pub fn new(alloc: Global, parts: Parts) -> Result<Netlist, NetRefusal>
        requires { IsWellFormed (whole parts) }
        ensures { MatchResult result (λ n. n ≡ whole parts) (IsCause (whole parts)) }
    {
        if let Some(refusal) = refusal(&parts) {
            return Err(refusal);
        }
        match arrange(alloc, &parts) {
            Ok(arranged) => finish(alloc, parts, arranged).map_err(|_| NetRefusal::NoMemory),
            Err(refusal) => Err(refusal),
        }
    }

    /// An equal netlist.
    pub fn copy(&self, alloc: Global) -> Result<Netlist, NoMemory>
        ensures { IfOk result (λ n. n ≡ self.now) }
    {
        Ok(Netlist {
            parts: self.parts.copy(alloc)?,
            flip_flops: self.flip_flops.clone()?,
            table: self.table.copy(alloc)?,
            order: self.order.clone()?,
        })
    }

    /// The gates, each after the gates that it reads.
    pub(crate) fn order(&self) -> &[SignalId]
        ensures { IsOrder self.now result.now }
    {
        &self.order
    }

    /// What every netlist is.
    pub fn sound(&self)
        ensures { IsSound self.now }
    {
        let _ = &self.parts;
    }

    pub fn inputs(&self) -> &[SignalId]
        ensures { result.now ≡ self.now.inputs }
    {
        &self.parts.inputs
    }

    pub fn outputs(&self) -> &[SignalId]
        ensures { result.now ≡ self.now.outputs }
    {
        &self.parts.outputs
    }

    /// Gates and cells, in the order of signals.
    pub fn definitions(&self) -> &[Definition]
        ensures { result.now ≡ self.now.definitions }
    {
        &self.parts.definitions
    }

    /// The flip-flops, by their signals, in order.
    pub fn cells(&self) -> &[SignalId]
        ensures { result.now ≡ map (λ (d : Equation). d.id) (cells self.now) }
    {
        &self.flip_flops
    }

    pub fn name(&self, id: SignalId) -> &[u8]
        requires { id < length (signals self.now) }
        ensures { slice_get self.now.names id ≡ Some result.now }
    {
        self.parts.names.get(id.index())
    }

    /// The definition of a signal that is no input.
    pub fn definition(&self, id: SignalId) -> &Definition
        requires defined { length self.now.inputs ≤ id }
        requires within { id < length (signals self.now) }
        ensures member { Contains self.now.definitions result.now }
        ensures same { result.now.id ≡ id }
    {
        &self.parts.definitions[id.index() - self.parts.inputs.len()]
    }

    /// None for an input.
    pub fn kind(&self, id: SignalId) -> Option<Kind>
        requires { id < length (signals self.now) }
        ensures { result ≡ option_map (λ (d : Equation). d.kind) (definition_of self.now id) }
    {
        if id.index() < self.parts.inputs.len() {
            return None;
        }
        self.sound();
        Some(self.definition(id).kind())
    }

    /// None for an input.
    pub fn pins(&self, id: SignalId) -> &[SignalId]
        requires { id < length (signals self.now) }
        ensures { result.now ≡ option_map_or (λ (d : Equation). d.pins) (definition_of self.now id) [] }
    {
        if id.index() < self.parts.inputs.len() {
            return &[];
        }
        self.sound();
        self.definition(id).pins()
    }

    /// The lines that read a signal: pins of gates and cells in the order of definition and place, then its output.
    pub fn readers(&self, id: SignalId) -> &[Line]
        requires { id < length (signals self.now) }
        ensures { result.now ≡ readers_of self.now id }
    {
        self.table.readers(id)
    }
}
