//! Machines by themselves: what each one's cells hold, apart from the 128 side by side.
ghost use Rattle.std.specs.Prelude.{◌≡◌, ◌≢◌, ◌<◌, ◌≤◌, ◌++◌, ◌∷◌, [], ℕ, Some, length, slice_index_or, IfOk, OnOk};
ghost use Rattle.std.specs.List.{All, slice_get};
ghost use Rattle.statement.specs.declared.kinds.Tri.{Tri as Value};
ghost use Rattle.statement.specs.declared.kinds.Tri.TheVariants.{X};
ghost use Rattle.lane_play.specs.declared.packing.Machine.{Machine as One};
ghost use Rattle.lane_play.specs.inner.Apart.{AreLines, ArePacked};
ghost use Rattle.lane_play.specs.inner.Lanes.{lane, lanes};

use crate::packed::Lanes;
use netlist::{Fault, Tri};
use scan_play::Played;
use std::alloc::{AllocError, Global};

/// What the cells of a machine hold, and what was said of it, if anything. Once it was, nothing is done with the cells.
#[derive(Drop)]
pub(crate) struct Machine {
    pub state: Vec<Tri>,
    pub said: Option<Played>,
}

/// Adds a line.
fn push(fault: &Fault, lines: &mut Vec<Fault>) -> Result<(), AllocError>
    ensures { OnOk result (lines.new.items ≡ lines.old.items ++ fault.now ∷ []) }
{
    lines.extend_from_slice(&[*fault])
}

/// The faults at these places.
pub(crate) fn lines_of(
    alloc: Global,
    faults: &[Fault],
    places: &[usize],
) -> Result<Vec<Fault>, AllocError>
    requires { All (λ place. place < length faults.now) places.now }
    ensures { IfOk result (λ v. AreLines faults.now places.now v.items) }
{
    let mut lines = Vec::with_capacity(alloc, places.len())?;
    for place in places {
        push(&faults[*place], &mut lines)?;
    }
    Ok(lines)
}

/// The same, and this is the value of machine k, of which nothing was known.
fn put(lanes: Lanes, k: usize, value: Tri) -> Lanes
    requires low { k < 128 }
    requires free { lane k lanes ≡ X }
    ensures here { lane k result ≡ value }
    ensures others { (j : ℕ) → j < 128 → j ≢ k → lane j result ≡ lane j lanes }
{
    match value {
        Tri::X => lanes,
        Tri::Zero => lanes.with(k, false),
        Tri::One => lanes.with(k, true),
    }
}

/// What a cell holds in the machines at these places, side by side.
fn pack_cell(machines: &[Machine], places: &[usize], cell: usize) -> Lanes
    requires few { length places.now ≤ 128 }
    requires there { All (λ place. place < length machines.now) places.now }
    requires within { All (λ (m : One). cell < length m.state.items) machines.now }
    ensures { (k place : ℕ) (m : One) (t : Value) → slice_get places.now k ≡ Some place → slice_get machines.now place ≡ Some m → lane k result ≡ slice_index_or m.state.items cell t }
{
    let mut packed = Lanes::unknown();
    for k in 0..places.len() {
        packed = put(packed, k, machines[places[k]].state[cell]);
    }
    packed
}

/// What the cells of the machines at these places hold, side by side.
pub(crate) fn pack(
    alloc: Global,
    cells: usize,
    machines: &[Machine],
    places: &[usize],
) -> Result<Vec<Lanes>, AllocError>
    requires few { length places.now ≤ 128 }
    requires there { All (λ place. place < length machines.now) places.now }
    requires sized { All (λ (m : One). length m.state.items ≡ cells) machines.now }
    ensures { IfOk result (λ v. ArePacked machines.now places.now cells v.items) }
{
    let mut packed = Vec::with_capacity(alloc, cells)?;
    for cell in 0..cells {
        packed.push(pack_cell(machines, places, cell))?;
    }
    Ok(packed)
}

/// What the cells of machine k hold.
pub(crate) fn unpack(alloc: Global, k: usize, state: &[Lanes]) -> Result<Vec<Tri>, AllocError>
    requires { k < 128 }
    ensures { IfOk result (λ v. v.items ≡ lanes k state.now) }
{
    let mut own = Vec::with_capacity(alloc, state.len())?;
    for value in state {
        own.push(value.lane(k))?;
    }
    Ok(own)
}
