//! Gates and cells drawn from words.
ghost use Rattle.std.specs.Prelude.{◌≡◌, ◌+◌, ◌%◌, ◌^◌, ◌<◌, [], ◌∷◌, IfOk, OnOk};
ghost use Rattle.net_gen.specs.Samples.{sampled_kind, drawn_pins, after_pins, drawn_gate, after_gate, drawn_gates, after_gates, drawn_cells, first_word, rest};

use netlist::{Definition, Kind, SignalId};
use rand_core::Rng;
use smallvec::SmallVec;
use std::alloc::{AllocError, Global};

/// The kind of a number drawn below 7.
fn kind_of(number: u32) -> Kind
    ensures { result ≡ sampled_kind number }
{
    match number {
        0 => Kind::And,
        1 => Kind::Nand,
        2 => Kind::Or,
        3 => Kind::Nor,
        4 => Kind::Xor,
        5 => Kind::Xnor,
        _ => Kind::Not,
    }
}

/// The pins of a gate, among the signals below this one.
fn draw_pins<R: Rng>(
    alloc: Global,
    kind: Kind,
    id: u32,
    rng: &mut R,
) -> Result<SmallVec<SignalId, 4>, AllocError>
    requires { 0 < id }
    ensures pins { IfOk result (λ pins. pins.items ≡ drawn_pins kind id (R.stream rng.old)) }
    ensures left { OnOk result (R.stream rng.new ≡ after_pins kind (R.stream rng.old)) }
{
    let mut pins = SmallVec::new(alloc);
    pins.push(SignalId(rng.next_u32() % id))?;
    if !matches!(kind, Kind::Not) {
        pins.push(SignalId(rng.next_u32() % id))?;
    }
    Ok(pins)
}

/// A gate, whose pins are among the signals below it.
fn draw_gate<R: Rng>(alloc: Global, id: u32, rng: &mut R) -> Result<Definition, AllocError>
    requires { 0 < id }
    ensures gate { IfOk result (λ gate. gate ≡ drawn_gate id (R.stream rng.old)) }
    ensures left { OnOk result (R.stream rng.new ≡ after_gate (R.stream rng.old)) }
{
    let kind = kind_of(rng.next_u32() % 7);
    let pins = draw_pins(alloc, kind, id, rng)?;
    Ok(Definition::new(SignalId(id), kind, pins))
}

/// So many gates, with the ids from this one on.
pub(crate) fn draw_gates<R: Rng>(
    alloc: Global,
    first: u32,
    count: u32,
    rng: &mut R,
) -> Result<Vec<Definition>, AllocError>
    requires some { 0 < first }
    requires fits { first + count < 2 ^ 32 }
    ensures gates { IfOk result (λ gates. gates.items ≡ drawn_gates count first (R.stream rng.old)) }
    ensures left { OnOk result (R.stream rng.new ≡ after_gates count (R.stream rng.old)) }
{
    let mut gates = Vec::with_capacity(alloc, count as usize)?;
    for j in 0..count {
        gates.push(draw_gate(alloc, first + j, rng)?)?;
    }
    Ok(gates)
}

/// A cell that takes the value of one of the gates.
fn draw_cell<R: Rng>(
    alloc: Global,
    id: u32,
    first: u32,
    gates: u32,
    rng: &mut R,
) -> Result<Definition, AllocError>
    requires some { 0 < gates }
    requires fits { first + gates < 2 ^ 32 }
    ensures cell { IfOk result (λ cell. cell ≡ record { id = id; kind = Kind.Dff; pins = (first + first_word (R.stream rng.old) % gates) ∷ [] }) }
    ensures left { OnOk result (R.stream rng.new ≡ rest (R.stream rng.old)) }
{
    let mut pins = SmallVec::new(alloc);
    pins.push(SignalId(first + rng.next_u32() % gates))?;
    Ok(Definition::new(SignalId(id), Kind::Dff, pins))
}

/// So many cells with the ids from this one on, and room behind them for the gates, which have the ids from `first` on.
pub(crate) fn draw_cells<R: Rng>(
    alloc: Global,
    count: u32,
    id: u32,
    first: u32,
    gates: u32,
    rng: &mut R,
) -> Result<Vec<Definition>, AllocError>
    requires some { 0 < gates }
    requires ids { id + count < 2 ^ 32 }
    requires fits { first + gates < 2 ^ 32 }
    ensures { IfOk result (λ cells. cells.items ≡ drawn_cells count id first gates (R.stream rng.old)) }
{
    let mut cells = Vec::with_capacity(alloc, count as usize + gates as usize)?;
    for k in 0..count {
        cells.push(draw_cell(alloc, id + k, first, gates, rng)?)?;
    }
    Ok(cells)
}
