//! The engine: up to eight attempts, each a whole search, of which the last alone may give up and looks at both sides of each decision. The first goes
//! back from the lowest objective to a head line and is short. The next two stop at the fanout stems nearest to what is wanted, so that a contradiction
//! stays within its block: from all objectives together, and from the lowest. Four short ones more go back from the lowest to head lines, over pins by a
//! hash: few faults that can be tested are missed by all of them. The last goes back from all objectives to head lines, up to the limit.
ghost use Rattle.std.specs.Prelude.{◌≡◌, ◌≤◌, false, IfOk, IfSome, OnOk};
ghost use Rattle.netlist.specs.Holds.{AreHoldsOf};
ghost use Rattle.netlist.specs.Lines.{IsLineOf};
ghost use Rattle.fan.specs.Trees.{HasEvidenceOnPlaces};
ghost use Rattle.fan.specs.inner.Searching.{IsRoledCase, IsReady, IsAnswer, IsKept, AreOfCase};
ghost use Rattle.evidence.specs.Answers.{HasEvidence, MayAnswer};
ghost use Rattle.pair_sim.specs.Rooms.{IsReusableLabelRoom};
ghost use Rattle.head_lines.specs.Rooms.{IsReusableRoleRoom};
ghost use Rattle.fan.specs.inner.Rooms.{IsReusableFanRoom};

use crate::cases::RoledCase;
use crate::guides::{Guide, GuideRoom, Objectives, Stop};
use crate::searching::{short_search, whole_search};
use decisions::{Case, Measures, Orders};
use evidence::{Engine, Found};
use head_lines::{RoleRoom, WantRoom, roles_of};
use netlist::{Core, Fault, Holds, NoMemory};
use pair_sim::{PairSim, SimRoom};
use std::alloc::{AllocError, Global};

/// As many Closed the first attempt may take before the search begins anew.
const FEW: u32 = 16;

/// As many the second and the third may take.
const MORE: u32 = 64;

/// So many are short: the first three, and four with pins by a hash, each for a few Closed.
const SHORT: u32 = 7;

/// A search that stops at head lines, with what guides it.
#[derive(Drop)]
pub struct Fan {
    measures: Measures,
    orders: Orders,
}

/// What a search leaves to the next one: its labels, the roles of signals, and the rooms of what is wanted of them and of its guide.
#[derive(Drop)]
pub struct FanRoom {
    labels: SimRoom,
    roles: RoleRoom,
    wants: WantRoom,
    guide: GuideRoom,
}

/// Has the guide go back as a short attempt does; as many Closed as that may take.
fn lead(guide: &mut Guide, number: u32) -> u32
    ensures { 1 ≤ result }
{
    match number {
        0 => {
            guide.go_back(Objectives::One, Stop::Heads);
            FEW
        }
        1 => {
            guide.go_back(Objectives::All, Stop::Stems);
            MORE
        }
        2 => {
            guide.go_back(Objectives::One, Stop::Stems);
            MORE
        }
        _ => {
            guide.go_anyhow(number - 3);
            FEW
        }
    }
}

/// A short search, if its answer is more than that it gave up; if not, its decisions are taken back.
#[tactic(auto, using(crate::proofs::Steps::kept_before, crate::proofs::Steps::ready_again))]
fn short_attempt(
    alloc: Global,
    roled: &RoledCase,
    guide: &mut Guide,
    labels: &mut PairSim,
    wants: &mut WantRoom,
    few: u32,
    limit: u32,
) -> Result<Option<Found>, AllocError>
    requires start { IsReady roled.now.case labels.old wants.old }
    requires some { 1 ≤ few }
    requires case { IsRoledCase roled.now }
    ensures answer { IfOk result (λ o. IfSome o (IsAnswer roled.now.case limit)) }
    ensures kept { OnOk result (IsKept roled.now.case labels.new wants.new) }
    ensures back { IfOk result (λ o. o ≡ None → IsReady roled.now.case labels.new wants.new) }
{
    if limit <= few {
        return Ok(None);
    }
    let found = short_search(alloc, roled, guide, labels, wants, few)?;
    if found.is_none() {
        labels.undo_all();
    }
    Ok(found)
}

/// The attempts, one after the other.
fn attempts(
    alloc: Global,
    roled: &RoledCase,
    guide: &mut Guide,
    labels: &mut PairSim,
    wants: &mut WantRoom,
    limit: u32,
) -> Result<Found, NoMemory>
    requires start { IsReady roled.now.case labels.old wants.old }
    requires some { 1 ≤ limit }
    requires case { IsRoledCase roled.now }
    ensures evidence { IfOk result (HasEvidence roled.now.case.fault roled.now.case.core.now roled.now.case.holds.now limit) }
    ensures rule { IfOk result (HasEvidenceOnPlaces roled.now.case.fault roled.now.case.core.now roled.now.case.holds.now limit) }
    ensures kind { IfOk result (MayAnswer false) }
    ensures kept { OnOk result (IsKept roled.now.case labels.new wants.new) }
{
    for number in 0..SHORT {
        let few = lead(guide, number);
        if let Some(found) = short_attempt(alloc, roled, guide, labels, wants, few, limit)? {
            return Ok(found);
        }
    }
    guide.go_back(Objectives::All, Stop::Heads);
    let last = RoledCase {
        case: Case {
            core: roled.case.core,
            fault: roled.case.fault,
            holds: roled.case.holds,
        },
        roles: roled.roles,
        looks: true,
    };
    let found = whole_search(alloc, &last, guide, labels, wants, limit)?;
    Ok(found)
}

/// A search with labels of its own.
fn search_alone(
    alloc: Global,
    roled: &RoledCase,
    guide: &mut Guide,
    limit: u32,
) -> Result<Found, NoMemory>
    requires some { 1 ≤ limit }
    requires case { IsRoledCase roled.now }
    ensures evidence { IfOk result (HasEvidence roled.now.case.fault roled.now.case.core.now roled.now.case.holds.now limit) }
    ensures rule { IfOk result (HasEvidenceOnPlaces roled.now.case.fault roled.now.case.core.now roled.now.case.holds.now limit) }
    ensures kind { IfOk result (MayAnswer false) }
{
    let case = &roled.case;
    let mut wants = WantRoom::of(alloc, case.core)?;
    let mut labels = PairSim::new(alloc, case.core, case.fault, case.holds)?;
    attempts(alloc, roled, guide, &mut labels, &mut wants, limit)
}

/// A search once roles are those under the fault, and the roles back.
fn search_aimed(
    alloc: Global,
    case: &Case,
    room: RoleRoom,
    guide: &mut Guide,
    labels: &mut PairSim,
    wants: &mut WantRoom,
    limit: u32,
) -> Result<(Found, RoleRoom), NoMemory>
    requires some { 1 ≤ limit }
    requires holds { AreHoldsOf case.now.core.now case.now.holds.now }
    requires start { IsReady case.now labels.old wants.old }
    requires roles { IsReusableRoleRoom case.now.core.now case.now.holds.now room }
    ensures evidence { IfOk result (λ r. HasEvidence case.now.fault case.now.core.now case.now.holds.now limit r.0) }
    ensures rule { IfOk result (λ r. HasEvidenceOnPlaces case.now.fault case.now.core.now case.now.holds.now limit r.0) }
    ensures kind { IfOk result (λ r. MayAnswer false r.0) }
    ensures kept { OnOk result (IsKept case.now labels.new wants.new) }
    ensures roles { IfOk result (λ r. IsReusableRoleRoom case.now.core.now case.now.holds.now r.1) }
{
    let mut roles = room;
    roles.aim(case.core, &case.fault, case.holds)?;
    let roled = RoledCase {
        case: Case {
            core: case.core,
            fault: case.fault,
            holds: case.holds,
        },
        roles: roles.roles(),
        looks: false,
    };
    let found = attempts(alloc, &roled, guide, labels, wants, limit)?;
    Ok((found, roles))
}

/// What is kept of a case's labels.
fn room_of(case: &Case, labels: PairSim) -> SimRoom
    requires kept { AreOfCase case.now labels }
    requires line { IsLineOf case.now.core.now case.now.fault.line }
    ensures { IsReusableLabelRoom case.now.core.now case.now.holds.now result }
{
    labels.into_room()
}

/// A search in a room, and the room back. (All that may fail is behind one call, so that what a search holds is let go at one place.)
fn search_kept(
    fan: &Fan,
    alloc: Global,
    room: FanRoom,
    case: &Case,
    limit: u32,
) -> Result<(Found, FanRoom), NoMemory>
    requires some { 1 ≤ limit }
    requires holds { AreHoldsOf case.now.core.now case.now.holds.now }
    requires line { IsLineOf case.now.core.now case.now.fault.line }
    requires room { IsReusableFanRoom case.now.core.now case.now.holds.now room }
    ensures evidence { IfOk result (λ r. HasEvidence case.now.fault case.now.core.now case.now.holds.now limit r.0) }
    ensures rule { IfOk result (λ r. HasEvidenceOnPlaces case.now.fault case.now.core.now case.now.holds.now limit r.0) }
    ensures kind { IfOk result (λ r. MayAnswer false r.0) }
    ensures room { IfOk result (λ r. IsReusableFanRoom case.now.core.now case.now.holds.now r.1) }
{
    let mut labels = PairSim::in_room(room.labels, case.core, case.fault, case.holds);
    let mut wants = room.wants;
    let mut guide = Guide::of(&fan.measures, &fan.orders, &case.fault, room.guide);
    let (found, roles) = search_aimed(
        alloc,
        case,
        room.roles,
        &mut guide,
        &mut labels,
        &mut wants,
        limit,
    )?;
    Ok((
        found,
        FanRoom {
            labels: room_of(case, labels),
            roles,
            wants,
            guide: guide.into_room(),
        },
    ))
}

impl Fan {
    /// The search with the measures of a netlist. For another one its answers are right too, but it may be slow.
    pub fn of(alloc: Global, core: &Core) -> Result<Fan, NoMemory> {
        let measures = Measures::of(alloc, core)?;
        let orders = Orders::of(alloc, core, &measures)?;
        Ok(Fan { measures, orders })
    }
}

impl Engine for Fan {
    ghost use Rattle.std.specs.Prelude.{false};
    ghost use Rattle.statement.specs.Netlists.{Netlist};
    ghost use Rattle.statement.specs.Patterns.{Holds};
    ghost use Rattle.fan.specs.Trees.{HasEvidenceOnPlaces};
    ghost use Rattle.pair_sim.specs.Rooms.{IsReusableLabelRoom};
    ghost use Rattle.head_lines.specs.Rooms.{IsReusableRoleRoom, IsReusableWantRoom};

    type Room = FanRoom;

    ghost serves = { λ (n : Netlist) (holds : Holds) r. IsReusableLabelRoom n holds r.labels × IsReusableRoleRoom n holds r.roles × IsReusableWantRoom n r.wants };

    // Splits decide places alone, and Forced bound signals and head lines alone: no Partial for a limit of 2 to the number of places or more, and no
    // Open where the condition for a test is met.
    ghost keeps_rule = { HasEvidenceOnPlaces };

    ghost refutes = { false };

    fn search(
        &self,
        alloc: Global,
        core: &Core,
        fault: Fault,
        limit: u32,
        holds: &Holds,
    ) -> Result<Found, NoMemory> {
        let roles = roles_of(alloc, core, &fault, holds)?;
        let room = GuideRoom::of(alloc, core, &self.orders)?;
        let mut guide = Guide::of(&self.measures, &self.orders, &fault, room);
        let roled = RoledCase {
            case: Case { core, fault, holds },
            roles: &roles,
            looks: false,
        };
        search_alone(alloc, &roled, &mut guide, limit)
    }

    fn room(&self, alloc: Global, core: &Core, holds: &Holds) -> Result<FanRoom, NoMemory> {
        let wants = WantRoom::of(alloc, core)?;
        let roles = RoleRoom::of(alloc, core, holds)?;
        let guide = GuideRoom::of(alloc, core, &self.orders)?;
        let labels = SimRoom::new(alloc, core, holds)?;
        Ok(FanRoom {
            labels,
            roles,
            wants,
            guide,
        })
    }

    fn search_in(
        &self,
        alloc: Global,
        room: FanRoom,
        core: &Core,
        fault: Fault,
        limit: u32,
        holds: &Holds,
    ) -> Result<(Found, FanRoom), NoMemory> {
        let case = Case { core, fault, holds };
        search_kept(self, alloc, room, &case, limit)
    }
}
