//! The engine: up to four attempts, each a whole search, of which the last alone may give up. They differ in the pin that the backtrace goes to, so
//! what one misses another may find; a fault that is redundant mostly stays so dear to all of them.
ghost use Rattle.std.specs.Prelude.{◌≡◌, ◌≤◌, None, IfOk, IfSome, OnOk};
ghost use Rattle.netlist.specs.Holds.{AreHoldsOf};
ghost use Rattle.netlist.specs.Lines.{IsLineOf};
ghost use Rattle.pair_sim.specs.Rooms.{IsReusableLabelRoom};
ghost use Rattle.podem.specs.Rooms.{IsReusablePodemRoom};
ghost use Rattle.podem.specs.inner.Searching.{IsReady, IsAnswer, IsKept};

use crate::guides::{Guide, Pick};
use crate::searching::{short_search, whole_search};
use decisions::{Case, Effects, Measures, Orders, Places};
use evidence::{Engine, Found};
use netlist::{Core, Fault, Holds, NoMemory};
use pair_sim::{PairSim, SimRoom};
use std::alloc::{AllocError, Global};

/// A search that decides inputs and cells alone, with what guides it.
#[derive(Drop)]
pub struct Podem {
    measures: Measures,
    orders: Orders,
}

/// What a search leaves to the next one: its labels, and the rooms of the signals with an effect and of places in orders.
#[derive(Drop)]
pub struct PodemRoom {
    pub(crate) labels: SimRoom,
    pub(crate) effects: Effects,
    pub(crate) places: Places,
}

/// As many Closed an attempt may take before the search begins anew.
const FEW: u32 = 16;

/// So often it begins anew with pins by a hash.
const ROUNDS: u32 = 2;

/// A short search, if its answer is more than that it gave up; if not, its decisions are taken back.
fn short_attempt(
    alloc: Global,
    case: &Case,
    guide: &mut Guide,
    labels: &mut PairSim,
    limit: u32,
) -> Result<Option<Found>, AllocError>
    requires start { IsReady case.now labels.old }
    ensures answer { IfOk result (λ o. IfSome o (IsAnswer case.now limit)) }
    ensures kept { OnOk result (IsKept case.now labels.new) }
    ensures back { IfOk result (λ o. o ≡ None → IsReady case.now labels.new) }
{
    if limit <= FEW {
        return Ok(None);
    }
    let found = short_search(alloc, case, guide, labels, FEW)?;
    if found.is_none() {
        labels.undo_all();
    }
    Ok(found)
}

/// The attempts, one after the other.
fn attempts(
    alloc: Global,
    case: &Case,
    guide: &mut Guide,
    labels: &mut PairSim,
    limit: u32,
) -> Result<Found, NoMemory>
    requires start { IsReady case.now labels.old }
    requires some { 1 ≤ limit }
    ensures answer { IfOk result (IsAnswer case.now limit) }
    ensures kept { OnOk result (IsKept case.now labels.new) }
{
    if let Some(found) = short_attempt(alloc, case, guide, labels, limit)? {
        return Ok(found);
    }
    for round in 0..ROUNDS {
        guide.go_to(Pick::Any(round));
        if let Some(found) = short_attempt(alloc, case, guide, labels, limit)? {
            return Ok(found);
        }
    }
    let last = if limit <= FEW {
        Pick::Needed
    } else {
        Pick::Lowest
    };
    guide.go_to(last);
    let found = whole_search(alloc, case, guide, labels, limit)?;
    Ok(found)
}

/// A search with labels of its own.
fn search_alone(
    alloc: Global,
    case: &Case,
    guide: &mut Guide,
    limit: u32,
) -> Result<Found, NoMemory>
    requires some { 1 ≤ limit }
    requires holds { AreHoldsOf case.now.core.now case.now.holds.now }
    requires line { IsLineOf case.now.core.now case.now.fault.line }
    ensures { IfOk result (IsAnswer case.now limit) }
{
    let mut labels = PairSim::new(alloc, case.core, case.fault, case.holds)?;
    case.core.netlist().sound();
    attempts(alloc, case, guide, &mut labels, limit)
}

/// What is kept of a case's labels.
pub(crate) fn room_of(case: &Case, labels: PairSim) -> SimRoom
    requires kept { IsKept case.now labels }
    requires line { IsLineOf case.now.core.now case.now.fault.line }
    ensures { IsReusableLabelRoom case.now.core.now case.now.holds.now result }
{
    labels.into_room()
}

/// A search in a room, and the room back.
fn search_kept(
    podem: &Podem,
    alloc: Global,
    room: PodemRoom,
    case: &Case,
    limit: u32,
) -> Result<(Found, PodemRoom), NoMemory>
    requires some { 1 ≤ limit }
    requires holds { AreHoldsOf case.now.core.now case.now.holds.now }
    requires line { IsLineOf case.now.core.now case.now.fault.line }
    requires room { IsReusablePodemRoom case.now.core.now case.now.holds.now room }
    ensures answer { IfOk result (λ r. IsAnswer case.now limit r.0) }
    ensures room { IfOk result (λ r. IsReusablePodemRoom case.now.core.now case.now.holds.now r.1) }
{
    let mut labels = PairSim::in_room(room.labels, case.core, case.fault, case.holds);
    let mut guide = Guide::of(
        &podem.measures,
        &podem.orders,
        &case.fault,
        room.effects,
        room.places,
    );
    case.core.netlist().sound();
    let found = attempts(alloc, case, &mut guide, &mut labels, limit)?;
    let room = PodemRoom {
        labels: room_of(case, labels),
        effects: guide.effects,
        places: guide.places,
    };
    Ok((found, room))
}

impl Podem {
    /// The search with the measures of a netlist. For another one its answers are right too, but it may be slow.
    pub fn of(alloc: Global, core: &Core) -> Result<Podem, NoMemory> {
        let measures = Measures::of(alloc, core)?;
        let orders = Orders::of(alloc, core, &measures)?;
        Ok(Podem { measures, orders })
    }
}

impl Engine for Podem {
    ghost use Rattle.std.specs.Prelude.{false};
    ghost use Rattle.podem.specs.Rooms.{IsReusablePodemRoom};
    ghost use Rattle.podem.specs.Sources.{HasSourceEvidence};

    type Room = PodemRoom;

    ghost serves = { IsReusablePodemRoom };

    // Only inputs that aren't held and cells are decided: no Partial for a backtrack limit of 2 to their number or more, and no Open where there is a
    // test.
    ghost keeps_rule = { HasSourceEvidence };

    ghost refutes = { false };

    fn search(
        &self,
        alloc: Global,
        core: &Core,
        fault: Fault,
        limit: u32,
        holds: &Holds,
    ) -> Result<Found, NoMemory> {
        let places = Places::of(alloc, self.orders.count())?;
        let effects = Effects::new(alloc);
        let mut guide = Guide::of(&self.measures, &self.orders, &fault, effects, places);
        let case = Case { core, fault, holds };
        search_alone(alloc, &case, &mut guide, limit)
    }

    fn room(&self, alloc: Global, core: &Core, holds: &Holds) -> Result<PodemRoom, NoMemory> {
        let places = Places::of(alloc, self.orders.count())?;
        let effects = Effects::new(alloc);
        let labels = SimRoom::new(alloc, core, holds)?;
        Ok(PodemRoom {
            labels,
            effects,
            places,
        })
    }

    fn search_in(
        &self,
        alloc: Global,
        room: PodemRoom,
        core: &Core,
        fault: Fault,
        limit: u32,
        holds: &Holds,
    ) -> Result<(Found, PodemRoom), NoMemory> {
        let case = Case { core, fault, holds };
        search_kept(self, alloc, room, &case, limit)
    }
}
