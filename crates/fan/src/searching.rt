//! The search from the path without decisions.
//!
//! As in `podem`, a stack of decisions stands for the tree (`decisions`). A turn of the last attempt looks first for a signal of which one side is
//! closed already, and forces it to the other (`forcing`): FAN's unique implications, told by labels. Else it splits on what the backtrace wants
//! (`guides`), a head line or a fanout stem sooner than an input, and looks at both sides. Short attempts, whose trees are dropped where they give up,
//! go to the own side of a decision first, also of a place that only may be forced, and look at the other one where the own is closed or once they
//! come back to it: most end in a test before that.
//!
//! Where the condition for a test is met the head lines are justified without a decision (`head_lines`), so such a path is a test.
ghost use Rattle.std.specs.Prelude.{◌≡◌, ◌≤◌, ◌||◌, not, true, false, [], ◌∷◌, IfOk, IfSome, OnOk};
ghost use Rattle.decisions.specs.Climbing.{IsAtEnd, IsBacktrackStep};
ghost use Rattle.head_lines.specs.HeadLines.{IsPlace};
ghost use Rattle.head_lines.specs.Justified.{IsMetAt};
ghost use Rattle.head_lines.specs.Rooms.{IsReusableWantRoom};
ghost use Rattle.pair_sim.specs.Sims.{sim};
ghost use Rattle.redundancy_cert.specs.declared.nodes.Node.{Node as NodeOf};
ghost use Rattle.fan.specs.inner.Searching.{IsRoledCase, IsAt, MayTurn, IsGoing, IsSideClosed, IsSideOpen, IsStepped, IsChosen, IsReady, IsAnswer, IsSettled, IsTested, HasGivenUp, IsEnd, IsKept, AreOfCase};

use crate::cases::RoledCase;
use crate::choosing::choose;
use crate::forcing::{Seen, find_forced};
use crate::guides::{Guide, best_aim};
use crate::standing::{go, stand_at_end};
use decisions::{Aim, Step, climb, close_both, closed_tree, one_if, push, tree_so_far};
use evidence::Found;
use head_lines::{WantRoom, justified_cube};
use netlist::Point;
use pair_sim::{PairSim, State};
use redundancy_cert::{Node, Other, Side, Tree};
use std::alloc::{AllocError, Global};

/// Where a search ends.
#[derive(Drop)]
pub enum End {
    /// The condition for a test is met there.
    Met(Point),
    /// The tree is whole.
    AllClosed(Vec<Node>),
    /// There are as many Closed as the limit.
    GivenUp,
}

/// A turn where this side is closed: goes to the other one.
fn after_closed(
    alloc: Global,
    roled: &RoledCase,
    guide: &mut Guide,
    labels: &mut PairSim,
    stack: &mut Vec<Side>,
    side: Aim,
) -> Result<Step, AllocError>
    requires case { IsRoledCase roled.now }
    requires at { IsAt roled.now labels.old stack.old.items }
    requires chosen { IsChosen roled.now.case labels.old stack.old.items side.signal }
    requires closed { IsSideClosed roled.now.case stack.old.items side.signal side.bit }
    ensures { IfOk result (IsStepped roled.now stack.old.items labels.new stack.new.items) }
{
    match go(roled, labels, stack, side.signal, !side.bit) {
        State::Test(point) => Ok(Step::Found(point)),
        State::Blocked => {
            close_both(
                alloc,
                &mut guide.effects,
                labels,
                stack,
                side.signal,
                side.bit,
            )
        }
        State::Going => push(stack, side.signal, !side.bit, Other::Shut),
    }
}

/// A turn where this side of a place may be gone on with: goes to the other one, and to this one where that is closed.
fn after_going(
    roled: &RoledCase,
    labels: &mut PairSim,
    stack: &mut Vec<Side>,
    side: Aim,
) -> Result<Step, AllocError>
    requires case { IsRoledCase roled.now }
    requires at { IsAt roled.now labels.old stack.old.items }
    requires chosen { IsChosen roled.now.case labels.old stack.old.items side.signal }
    requires place { IsPlace roled.now.case.fault roled.now.case.core.now roled.now.case.holds.now side.signal }
    requires going { IsSideOpen roled.now.case stack.old.items side.signal side.bit }
    ensures { IfOk result (IsStepped roled.now stack.old.items labels.new stack.new.items) }
{
    match go(roled, labels, stack, side.signal, !side.bit) {
        State::Test(point) => Ok(Step::Found(point)),
        State::Blocked => {
            labels.assign(side.signal, side.bit);
            push(stack, side.signal, side.bit, Other::Shut)
        }
        State::Going => push(stack, side.signal, !side.bit, Other::Untried),
    }
}

/// Decides this side of a place, once the other one is looked at.
fn split(
    alloc: Global,
    roled: &RoledCase,
    guide: &mut Guide,
    labels: &mut PairSim,
    stack: &mut Vec<Side>,
    side: Aim,
) -> Result<Step, AllocError>
    requires case { IsRoledCase roled.now }
    requires at { IsAt roled.now labels.old stack.old.items }
    requires chosen { IsChosen roled.now.case labels.old stack.old.items side.signal }
    requires place { IsPlace roled.now.case.fault roled.now.case.core.now roled.now.case.holds.now side.signal }
    ensures { IfOk result (IsStepped roled.now stack.old.items labels.new stack.new.items) }
{
    let other = Aim {
        signal: side.signal,
        bit: !side.bit,
    };
    match go(roled, labels, stack, other.signal, other.bit) {
        State::Test(point) => Ok(Step::Found(point)),
        State::Blocked => after_closed(alloc, roled, guide, labels, stack, other),
        State::Going => {
            labels.undo();
            after_going(roled, labels, stack, other)
        }
    }
}

/// Decides this side of a place, and looks at the other one only where this one is closed.
fn hurry(
    alloc: Global,
    roled: &RoledCase,
    guide: &mut Guide,
    labels: &mut PairSim,
    stack: &mut Vec<Side>,
    side: Aim,
) -> Result<Step, AllocError>
    requires case { IsRoledCase roled.now }
    requires hurries { roled.now.looks ≡ false }
    requires at { IsAt roled.now labels.old stack.old.items }
    requires chosen { IsChosen roled.now.case labels.old stack.old.items side.signal }
    requires place { IsPlace roled.now.case.fault roled.now.case.core.now roled.now.case.holds.now side.signal }
    ensures { IfOk result (IsStepped roled.now stack.old.items labels.new stack.new.items) }
{
    match go(roled, labels, stack, side.signal, side.bit) {
        State::Test(point) => Ok(Step::Found(point)),
        State::Blocked => after_closed(alloc, roled, guide, labels, stack, side),
        State::Going => push(stack, side.signal, side.bit, Other::Untried),
    }
}

/// Decides on what the guide wants, or on another place.
fn decide(
    alloc: Global,
    roled: &RoledCase,
    guide: &mut Guide,
    labels: &mut PairSim,
    stack: &mut Vec<Side>,
    wanted: &Option<Aim>,
) -> Result<Step, AllocError>
    requires case { IsRoledCase roled.now }
    requires at { IsAt roled.now labels.old stack.old.items }
    requires going { IsGoing roled.now.case stack.old.items }
    ensures { IfOk result (IsStepped roled.now stack.old.items labels.new stack.new.items) }
{
    let aim = choose(roled, labels, stack, wanted);
    if roled.looks {
        split(alloc, roled, guide, labels, stack, aim)
    } else {
        hurry(alloc, roled, guide, labels, stack, aim)
    }
}

/// A turn where the search may go on: what is forced is decided, or else a place.
fn take_turn(
    alloc: Global,
    roled: &RoledCase,
    guide: &mut Guide,
    labels: &mut PairSim,
    stack: &mut Vec<Side>,
) -> Result<Step, AllocError>
    requires case { IsRoledCase roled.now }
    requires at { IsAt roled.now labels.old stack.old.items }
    requires going { IsGoing roled.now.case stack.old.items }
    ensures { IfOk result (IsStepped roled.now stack.old.items labels.new stack.new.items) }
{
    guide.follow(roled, labels, stack.len())?;
    let seen = find_forced(roled, guide, labels, stack);
    match seen {
        Seen::Reached(point) => Ok(Step::Found(point)),
        Seen::ShutBeside(aim) => {
            let other = Aim {
                signal: aim.signal,
                bit: !aim.bit,
            };
            after_closed(alloc, roled, guide, labels, stack, other)
        }
        Seen::Guess(aim) => hurry(alloc, roled, guide, labels, stack, aim),
        Seen::Nothing => {
            let wanted = best_aim(roled, guide, labels, stack)?;
            decide(alloc, roled, guide, labels, stack, &wanted)
        }
    }
}

/// The path's end is closed: goes back.
fn go_back(
    alloc: Global,
    guide: &mut Guide,
    labels: &mut PairSim,
    stack: &mut Vec<Side>,
) -> Result<Step, AllocError>
    requires { IsAtEnd labels.old.fault labels.old.netlist labels.old.holds labels.old stack.old.items }
    ensures end { OnOk result (IsAtEnd labels.old.fault labels.old.netlist labels.old.holds labels.new stack.new.items) }
    ensures step { IfOk result (IsBacktrackStep (NodeOf.Closed ∷ []) stack.old.items stack.new.items) }
{
    let done = closed_tree(alloc)?;
    match climb(&mut guide.effects, labels, stack, done)? {
        Some(nodes) => Ok(Step::Done(nodes)),
        None => Ok(Step::On(true)),
    }
}

/// A turn of the search. Where it came back to a side that wasn't looked at, that is looked at first.
fn turn(
    alloc: Global,
    roled: &RoledCase,
    guide: &mut Guide,
    labels: &mut PairSim,
    stack: &mut Vec<Side>,
    is_seen: bool,
) -> Result<Step, AllocError>
    requires case { IsRoledCase roled.now }
    requires may { MayTurn roled.now is_seen labels.old stack.old.items }
    ensures { IfOk result (IsStepped roled.now stack.old.items labels.new stack.new.items) }
{
    if is_seen {
        return take_turn(alloc, roled, guide, labels, stack);
    }
    match stand_at_end(roled, labels, stack) {
        State::Test(point) => Ok(Step::Found(point)),
        State::Blocked => go_back(alloc, guide, labels, stack),
        State::Going => take_turn(alloc, roled, guide, labels, stack),
    }
}

/// Whether the end of the path was looked at, where the search goes on; whether it came back there.
fn is_end_seen(looks: bool, came_back: bool) -> bool
    ensures { result ≡ (looks || not came_back) }
{
    looks || !came_back
}

/// The search from the path without decisions, where it may go on.
fn search_on(
    alloc: Global,
    roled: &RoledCase,
    guide: &mut Guide,
    labels: &mut PairSim,
    stack: &mut Vec<Side>,
    limit: u32,
) -> Result<End, AllocError>
    requires case { IsRoledCase roled.now }
    requires start { labels.old ≡ sim roled.now.case.core.now roled.now.case.fault roled.now.case.holds.now [] }
    requires empty { stack.old.items ≡ [] }
    requires going { IsGoing roled.now.case [] }
    ensures end { IfOk result (IsEnd roled.now limit labels.new stack.new.items) }
    ensures kept { OnOk result (AreOfCase roled.now.case labels.new) }
{
    let mut closed: u32 = 0;
    let mut is_seen = true;
    while closed < limit {
        match turn(alloc, roled, guide, labels, stack, is_seen)? {
            Step::Found(point) => return Ok(End::Met(point)),
            Step::Done(nodes) => return Ok(End::AllClosed(nodes)),
            Step::On(more) => {
                closed += one_if(more);
                is_seen = is_end_seen(roled.looks, more);
            }
        }
    }
    Ok(End::GivenUp)
}

/// The search from the path without decisions.
fn search_from(
    alloc: Global,
    roled: &RoledCase,
    guide: &mut Guide,
    labels: &mut PairSim,
    stack: &mut Vec<Side>,
    limit: u32,
) -> Result<End, AllocError>
    requires case { IsRoledCase roled.now }
    requires start { labels.old ≡ sim roled.now.case.core.now roled.now.case.fault roled.now.case.holds.now [] }
    requires empty { stack.old.items ≡ [] }
    requires some { 1 ≤ limit }
    ensures end { IfOk result (IsEnd roled.now limit labels.new stack.new.items) }
    ensures kept { OnOk result (AreOfCase roled.now.case labels.new) }
{
    match stand_at_end(roled, labels, stack) {
        State::Test(point) => Ok(End::Met(point)),
        State::Blocked => {
            let nodes = closed_tree(alloc)?;
            Ok(End::AllClosed(nodes))
        }
        State::Going => {
            guide.begin();
            search_on(alloc, roled, guide, labels, stack, limit)
        }
    }
}

/// The test at a path where the condition for one is met.
#[tactic(auto, using(crate::proofs::Steps::met_case))]
fn test_at(
    alloc: Global,
    roled: &RoledCase,
    labels: &PairSim,
    point: Point,
    wants: &mut WantRoom,
) -> Result<Found, AllocError>
    requires case { IsRoledCase roled.now }
    requires met { IsMetAt roled.now.case.fault roled.now.case.core.now roled.now.case.holds.now labels.now point }
    requires wants { IsReusableWantRoom roled.now.case.core.now wants.old }
    ensures test { IfOk result (IsTested roled.now.case) }
    ensures kept { OnOk result (IsKept roled.now.case labels.now wants.new) }
{
    let cube = justified_cube(
        alloc,
        roled.case.core,
        &roled.case.fault,
        roled.case.holds,
        roled.roles,
        labels,
        &point,
        wants,
    )?;
    Ok(Found::Test(cube, point))
}

/// A search whose tree is dropped where it gives up: a test, a tree without Open, or nothing.
#[tactic(auto, using(crate::proofs::Looked::tested_settled))]
pub(crate) fn short_search(
    alloc: Global,
    roled: &RoledCase,
    guide: &mut Guide,
    labels: &mut PairSim,
    wants: &mut WantRoom,
    limit: u32,
) -> Result<Option<Found>, AllocError>
    requires start { IsReady roled.now.case labels.old wants.old }
    requires case { IsRoledCase roled.now }
    requires some { 1 ≤ limit }
    ensures answer { IfOk result (λ o. IfSome o (IsSettled roled.now.case limit)) }
    ensures kept { OnOk result (IsKept roled.now.case labels.new wants.new) }
{
    let mut stack = Vec::new(alloc);
    match search_from(alloc, roled, guide, labels, &mut stack, limit)? {
        End::Met(point) => {
            let found = test_at(alloc, roled, labels, point, wants)?;
            Ok(Some(found))
        }
        End::AllClosed(nodes) => Ok(Some(Found::Closed(Tree::new(nodes)))),
        End::GivenUp => Ok(None),
    }
}

/// The tree where a search gives up that looks at both sides of a decision.
fn given_up(
    alloc: Global,
    roled: &RoledCase,
    labels: &PairSim,
    stack: Vec<Side>,
    limit: u32,
) -> Result<Found, AllocError>
    requires looks { roled.now.looks ≡ true }
    requires given { HasGivenUp roled.now limit labels.now stack.items }
    ensures { IfOk result (IsAnswer roled.now.case limit) }
{
    let nodes = tree_so_far(alloc, stack)?;
    Ok(Found::Partial(Tree::new(nodes)))
}

/// A search that looks at both sides of a decision: a test, a tree without Open, or a tree with as many Closed as the limit.
#[tactic(auto, using(crate::proofs::Looked::tested_ok))]
pub(crate) fn whole_search(
    alloc: Global,
    roled: &RoledCase,
    guide: &mut Guide,
    labels: &mut PairSim,
    wants: &mut WantRoom,
    limit: u32,
) -> Result<Found, AllocError>
    requires start { IsReady roled.now.case labels.old wants.old }
    requires case { IsRoledCase roled.now }
    requires looks { roled.now.looks ≡ true }
    requires some { 1 ≤ limit }
    ensures answer { IfOk result (IsAnswer roled.now.case limit) }
    ensures kept { OnOk result (IsKept roled.now.case labels.new wants.new) }
{
    let mut stack = Vec::new(alloc);
    match search_from(alloc, roled, guide, labels, &mut stack, limit)? {
        End::Met(point) => test_at(alloc, roled, labels, point, wants),
        End::AllClosed(nodes) => Ok(Found::Closed(Tree::new(nodes))),
        End::GivenUp => given_up(alloc, roled, labels, stack, limit),
    }
}
