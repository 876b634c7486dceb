//! Tests by bits of inputs and cells that were found elsewhere: labels tell whether they are one.
ghost use Rattle.std.specs.Prelude.{IfOk, IfSome, OnOk};
ghost use Rattle.netlist.specs.Holds.{AreHoldsOf};
ghost use Rattle.netlist.specs.Lines.{IsLineOf};
ghost use Rattle.tri.specs.Paths.{IsTestPath};
ghost use Rattle.redundancy_cert.specs.TestCubes.{IsTestCube};
ghost use Rattle.podem.specs.Rooms.{IsReusablePodemRoom};
ghost use Rattle.podem.specs.inner.Searching.{AreOnSources, IsTestAt, IsReady, IsKept};

use crate::engine::{PodemRoom, room_of};
use crate::searching::{cube_there, wanted_source};
use cubes::Cube;
use decisions::Case;
use netlist::{Core, Fault, Holds, NoMemory, Point, SignalId};
use pair_sim::{PairSim, State};
use std::alloc::{AllocError, Global};

/// The point, if the labels are a test's.
fn point_of_test(labels: &PairSim) -> Option<Point>
    ensures { IfSome result (IsTestPath labels.now.fault labels.now.netlist labels.now.holds labels.now.path) }
{
    match labels.state() {
        State::Test(point) => Some(point),
        State::Blocked | State::Going => None,
    }
}

/// Decides one bit more, where it is that of a source that is X. The point, if that makes a test.
fn test_with(case: &Case, labels: &mut PairSim, signal: SignalId, bit: bool) -> Option<Point>
    requires { AreOnSources case.now labels.old }
    ensures at { AreOnSources case.now labels.new }
    ensures test { IfSome result (IsTestAt case.now labels.new) }
{
    let source = wanted_source(case.core, labels, signal)?;
    labels.assign(source, bit);
    point_of_test(labels)
}

/// Decides these bits in turn, until they are a test at this point.
fn first_test(case: &Case, labels: &mut PairSim, bits: &[(SignalId, bool)]) -> Option<Point>
    requires { IsReady case.now labels.old }
    ensures kept { IsKept case.now labels.new }
    ensures test { IfSome result (IsTestAt case.now labels.new) }
{
    if let Some(point) = point_of_test(labels) {
        return Some(point);
    }
    for given in bits {
        if let Some(point) = test_with(case, labels, given.0, given.1) {
            return Some(point);
        }
    }
    None
}

/// The cube of the test that these bits are.
fn tried(
    alloc: Global,
    case: &Case,
    labels: &mut PairSim,
    bits: &[(SignalId, bool)],
) -> Result<Option<(Cube, Point)>, AllocError>
    requires { IsReady case.now labels.old }
    ensures test { IfOk result (λ o. IfSome o (λ t. IsTestCube case.now.fault case.now.core.now case.now.holds.now t.0 t.1)) }
    ensures kept { OnOk result (IsKept case.now labels.new) }
{
    match first_test(case, labels, bits) {
        Some(point) => {
            let cube = cube_there(alloc, case, labels, &point)?;
            Ok(Some((cube, point)))
        }
        None => Ok(None),
    }
}

/// Decides these bits in turn until they are a test of the fault: its cube, where the other sources stay open, and its point. None where they never are
/// one. A bit of a signal that is no source, or whose value is known already, is passed over. The room serves as before.
pub fn tried_in<'a>(
    alloc: Global,
    room: PodemRoom,
    core: &'a Core,
    fault: Fault,
    holds: &'a Holds,
    bits: &[(SignalId, bool)],
) -> Result<(Option<(Cube, Point)>, PodemRoom), NoMemory>
    requires holds { AreHoldsOf core.now holds.now }
    requires line { IsLineOf core.now fault.line }
    requires room { IsReusablePodemRoom core.now holds.now room }
    ensures test { IfOk result (λ r. IfSome r.0 (λ t. IsTestCube fault core.now holds.now t.0 t.1)) }
    ensures room { IfOk result (λ r. IsReusablePodemRoom core.now holds.now r.1) }
{
    let case = Case { core, fault, holds };
    let mut labels = PairSim::in_room(room.labels, core, case.fault, holds);
    core.netlist().sound();
    let found = tried(alloc, &case, &mut labels, bits)?;
    let room = PodemRoom {
        labels: room_of(&case, labels),
        effects: room.effects,
        places: room.places,
    };
    Ok((found, room))
}
