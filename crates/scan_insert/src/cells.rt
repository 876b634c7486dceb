//! Definitions in the scanned netlist.
ghost use Rattle.std.specs.Prelude.{◌≡◌, ◌++◌, ◌∷◌, [], ◌+◌, ◌<◌, ◌≤◌, length, map, IfOk, OnOk};
ghost use Rattle.std.specs.List.{All};
ghost use Rattle.netlist.specs.Netlist.{define};
ghost use Rattle.netlist.specs.Gates.{allows_pins};
ghost use Rattle.scan_insert.specs.Scan.{scan_cell};
ghost use Rattle.scan_insert.specs.inner.Made.{stem_at, naming_at};

use crate::sites::{Site, after};
use netlist::{Definition, Kind, SignalId};
use smallvec::SmallVec;
use std::alloc::{AllocError, Global};

/// The scan enable, and its complement.
#[derive(Clone, Copy, PartialEq, Eq)]
pub(crate) struct Enables {
    pub enable: SignalId,
    pub enable_not: SignalId,
}

/// A gate that reads these signals.
pub(crate) fn define(
    alloc: Global,
    id: SignalId,
    kind: Kind,
    pins: &[SignalId],
) -> Result<Definition, AllocError>
    ensures { IfOk result (λ d. d ≡ define id kind pins.now) }
{
    Ok(Definition::new(id, kind, SmallVec::from_slice(alloc, pins)?))
}

/// What has the stems of these signals.
fn stems(
    alloc: Global,
    pins: &[SignalId],
    sites: &[Site],
) -> Result<SmallVec<SignalId, 4>, AllocError>
    requires { All (λ x. x < length sites.now) pins.now }
    ensures { IfOk result (λ v. v.items ≡ map (stem_at sites.now) pins.now) }
{
    let mut stems = SmallVec::new(alloc);
    for x in pins {
        stems.push(sites[x.index()].stem)?;
    }
    Ok(stems)
}

/// A gate as the scanned netlist has it: its signal and its pins by their new numbers.
pub(crate) fn moved_gate(
    alloc: Global,
    gate: &Definition,
    sites: &[Site],
) -> Result<Definition, AllocError>
    requires within { gate.now.id < length sites.now }
    requires pins { All (λ x. x < length sites.now) gate.now.pins }
    ensures { IfOk result (λ d. d ≡ define (stem_at sites.now gate.now.id) gate.now.kind (map (stem_at sites.now) gate.now.pins)) }
{
    let pins = stems(alloc, gate.pins(), sites)?;
    Ok(Definition::new(sites[gate.id().index()].stem, gate.kind(), pins))
}

/// Adds the gates of a scan cell in a cell's place: `before` is what it takes when it shifts.
pub(crate) fn push_scan_cell(
    alloc: Global,
    cell: &Definition,
    sites: &[Site],
    enables: &Enables,
    before: SignalId,
    made: &mut Vec<Definition>,
) -> Result<(), AllocError>
    requires within { cell.now.id < length sites.now }
    requires pins { All (λ x. x < length sites.now) cell.now.pins }
    requires low { All (λ t. t.pins ≤ 7000000) sites.now }
    ensures { OnOk result (made.new.items ≡ made.old.items ++ scan_cell (naming_at sites.now enables.now.enable enables.now.enable_not before) cell.now) }
{
    let site = sites[cell.id().index()];
    let captured = site.pins;
    let shifted = after(captured, 1);
    let chosen = after(captured, 2);
    let held = after(captured, 3);
    let mut pins = stems(alloc, cell.pins(), sites)?;
    pins.push(enables.enable_not)?;
    made.push(Definition::new(captured, Kind::And, pins))?;
    made.push(define(alloc, shifted, Kind::And, &[before, enables.enable])?)?;
    made.push(define(alloc, chosen, Kind::Or, &[captured, shifted])?)?;
    made.push(define(alloc, held, Kind::Dff, &[chosen])?)?;
    made.push(define(alloc, site.stem, Kind::Buff, &[held])?)?;
    Ok(())
}
