//! The search from the path without decisions.
//!
//! Branch and bound over the bits of inputs and cells alone (Goel 1981). The D-algorithm (Roth 1966) decides on inner signals too, and then has
//! to justify what it decided; here each decision can be had, and whether a path is closed is told by its labels.
//!
//! A turn of the last attempt looks at the other side of a decision before it goes to the wanted one. Where that is closed already, the decision
//! is Forced and takes nothing from the backtrack limit; where it is a test, the search is over. Short attempts, whose trees are dropped where they
//! give up, look at the other side only where the wanted one is closed, or once they come back to it: most end in a test before that.
//!
//! The decisions are a stack that stands for the tree at any time (`decisions`).
ghost use Rattle.std.specs.Prelude.{◌≡◌, ◌≤◌, ◌<◌, ◌||◌, not, Bool, true, false, None, [], ◌∷◌, length, IfOk, IfSome, OnOk, MatchOption, IsTrue, map};
ghost use Rattle.std.specs.List.{All, Contains};
ghost use Rattle.statement.specs.declared.kinds.Tri.TheVariants.{X};
ghost use Rattle.statement.specs.Netlists.{signals};
ghost use Rattle.decisions.specs.Cases.{IsCase};
ghost use Rattle.decisions.specs.declared.cases.Case.{Case as CaseOf};
ghost use Rattle.decisions.specs.Climbing.{IsAtEnd, IsBacktrackStep};
ghost use Rattle.pair_sim.specs.Sims.{HasGood, IsFree};
ghost use Rattle.redundancy_cert.specs.TestCubes.{IsTestCube};
ghost use Rattle.podem.specs.Sources.{all_sources, value_of};
ghost use Rattle.podem.specs.inner.Searching.{MayGoOn, MayTurn, IsFreeSource, IsChosen, IsClosedSide, IsGoingSide, IsSeen, IsGone, IsKnownAt, IsTestAt, IsStepped, IsReady, IsAnswer, IsSettled, IsKept, HasGivenUp};

use crate::guides::{Guide, best_aim};
use cubes::Cube;
use decisions::{
    Aim, Case, Step, climb, close_both, closed_tree, one_if, push, signal_count, tree_so_far,
};
use evidence::Found;
use netlist::{Core, Point, SignalId, Tri};
use pair_sim::{PairSim, State};
use redundancy_cert::{Node, Other, Side, Tree};
use std::alloc::{AllocError, Global};

/// Looks at a side, and comes back unless it's a test.
fn look(labels: &mut PairSim, signal: SignalId, bit: bool) -> State
    requires { IsFree labels.old signal }
    ensures { IsSeen labels.old signal bit result labels.new }
{
    labels.assign(signal, bit);
    let state = labels.state();
    match state {
        State::Test(_) => {}
        State::Blocked => labels.undo(),
        State::Going => labels.undo(),
    }
    state
}

/// Goes to a side, and comes back if its label is closed.
fn go(labels: &mut PairSim, signal: SignalId, bit: bool) -> State
    requires { IsFree labels.old signal }
    ensures { IsGone labels.old signal bit result labels.new }
{
    labels.assign(signal, bit);
    let state = labels.state();
    match state {
        State::Blocked => labels.undo(),
        State::Test(_) | State::Going => {}
    }
    state
}

/// The first of these signals that is X.
fn first_free(labels: &PairSim, ids: &[SignalId]) -> Option<SignalId>
    requires { All (Contains (signals labels.now.netlist)) ids.now }
    ensures { MatchOption result (All (IsKnownAt labels.now) ids.now) (λ x. Contains ids.now x × HasGood labels.now x X) }
{
    for id in ids {
        if matches!(labels.good(*id), Tri::X) {
            return Some(*id);
        }
    }
    None
}

/// A source that is X: while the search may go on there is one.
fn any_free(case: &Case, labels: &PairSim, stack: &Vec<Side>) -> SignalId
    requires { (looks : Bool) × MayGoOn case.now looks labels.now stack.now.items }
    ensures { IsFreeSource case.now stack.now.items result }
{
    let netlist = case.core.netlist();
    match first_free(labels, netlist.inputs()) {
        Some(signal) => signal,
        None => match first_free(labels, netlist.cells()) {
            Some(signal) => signal,
            None => unreachable!(),
        },
    }
}

/// Whether a signal is an input or a cell.
fn is_source(core: &Core, signal: SignalId) -> bool
    requires { signal < length (signals core.now) }
    ensures { IsTrue result → Contains (all_sources core.now) signal }
{
    let netlist = core.netlist();
    netlist.sound();
    if signal.index() < netlist.inputs().len() {
        return true;
    }
    netlist.definition(signal).kind().is_flip_flop()
}

/// This signal, if it is an input or a cell and is X.
pub(crate) fn wanted_source(core: &Core, labels: &PairSim, wanted: SignalId) -> Option<SignalId>
    requires { labels.now.netlist ≡ core.now }
    ensures { IfSome result (λ x. Contains (all_sources core.now) x × HasGood labels.now x X) }
{
    core.netlist().sound();
    if wanted.index() >= signal_count(core) || !is_source(core, wanted) {
        return None;
    }
    match labels.good(wanted) {
        Tri::X => Some(wanted),
        Tri::Zero | Tri::One => None,
    }
}

/// The source to which the objective leads back.
fn guided(case: &Case, guide: &mut Guide, labels: &PairSim, stack: &Vec<Side>) -> Option<Aim>
    requires { (looks : Bool) × MayGoOn case.now looks labels.now stack.now.items }
    ensures { IfSome result (λ a. IsFreeSource case.now stack.now.items a.signal) }
{
    let aim = best_aim(case, guide, labels)?;
    let signal = wanted_source(case.core, labels, aim.signal)?;
    Some(Aim {
        signal,
        bit: aim.bit,
    })
}

/// What to decide next.
fn choose(case: &Case, guide: &mut Guide, labels: &PairSim, stack: &Vec<Side>) -> Aim
    requires { (looks : Bool) × MayGoOn case.now looks labels.now stack.now.items }
    ensures { IsFreeSource case.now stack.now.items result.signal }
{
    match guided(case, guide, labels, stack) {
        Some(aim) => aim,
        None => Aim {
            signal: any_free(case, labels, stack),
            bit: false,
        },
    }
}

/// A turn where this side is closed: goes to the other one.
fn after_closed(
    alloc: Global,
    guide: &mut Guide,
    labels: &mut PairSim,
    stack: &mut Vec<Side>,
    side: Aim,
) -> Result<Step, AllocError>
    requires end { IsAtEnd labels.old.fault labels.old.netlist labels.old.holds labels.old stack.old.items }
    requires free { IsFree labels.old side.signal }
    ensures { (c : CaseOf) (looks : Bool) → IsChosen c looks labels.old stack.old.items side.signal → IsClosedSide c stack.old.items side.signal side.bit
        → IfOk result (IsStepped c looks stack.old.items labels.new stack.new.items) }
{
    match go(labels, side.signal, !side.bit) {
        State::Test(point) => Ok(Step::Found(point)),
        State::Blocked => {
            close_both(
                alloc,
                &mut guide.effects,
                labels,
                stack,
                side.signal,
                side.bit,
            )
        }
        State::Going => push(stack, side.signal, !side.bit, Other::Shut),
    }
}

/// A turn where this side may be gone on with: goes to the other one, and to this one where that is closed.
fn after_going(
    case: &Case,
    labels: &mut PairSim,
    stack: &mut Vec<Side>,
    side: Aim,
) -> Result<Step, AllocError>
    requires chosen { IsChosen case.now true labels.old stack.old.items side.signal }
    requires going { IsGoingSide case.now stack.old.items side.signal side.bit }
    ensures { IfOk result (IsStepped case.now true stack.old.items labels.new stack.new.items) }
{
    match go(labels, side.signal, !side.bit) {
        State::Test(point) => Ok(Step::Found(point)),
        State::Blocked => {
            labels.assign(side.signal, side.bit);
            push(stack, side.signal, side.bit, Other::Shut)
        }
        State::Going => push(stack, side.signal, !side.bit, Other::Untried),
    }
}

/// Decides this side, once the other one is looked at.
fn split(
    alloc: Global,
    case: &Case,
    guide: &mut Guide,
    labels: &mut PairSim,
    stack: &mut Vec<Side>,
    side: Aim,
) -> Result<Step, AllocError>
    requires { IsChosen case.now true labels.old stack.old.items side.signal }
    ensures { IfOk result (IsStepped case.now true stack.old.items labels.new stack.new.items) }
{
    let other = Aim {
        signal: side.signal,
        bit: !side.bit,
    };
    match look(labels, other.signal, other.bit) {
        State::Test(point) => Ok(Step::Found(point)),
        State::Blocked => after_closed(alloc, guide, labels, stack, other),
        State::Going => after_going(case, labels, stack, other),
    }
}

/// Decides this side, and looks at the other one only where this one is closed.
fn hurry(
    alloc: Global,
    case: &Case,
    guide: &mut Guide,
    labels: &mut PairSim,
    stack: &mut Vec<Side>,
    side: Aim,
) -> Result<Step, AllocError>
    requires { IsChosen case.now false labels.old stack.old.items side.signal }
    ensures { IfOk result (IsStepped case.now false stack.old.items labels.new stack.new.items) }
{
    match go(labels, side.signal, side.bit) {
        State::Test(point) => Ok(Step::Found(point)),
        State::Blocked => after_closed(alloc, guide, labels, stack, side),
        State::Going => push(stack, side.signal, side.bit, Other::Untried),
    }
}

/// A turn where the search may go on: a decision more.
fn take_turn(
    alloc: Global,
    case: &Case,
    guide: &mut Guide,
    labels: &mut PairSim,
    stack: &mut Vec<Side>,
    looks: bool,
) -> Result<Step, AllocError>
    requires { MayGoOn case.now looks labels.old stack.old.items }
    ensures { IfOk result (IsStepped case.now looks stack.old.items labels.new stack.new.items) }
{
    guide.follow(case, labels, stack.len())?;
    let aim = choose(case, guide, labels, stack);
    if looks {
        split(alloc, case, guide, labels, stack, aim)
    } else {
        hurry(alloc, case, guide, labels, stack, aim)
    }
}

/// The path's end is closed: goes back.
fn go_back(
    alloc: Global,
    guide: &mut Guide,
    labels: &mut PairSim,
    stack: &mut Vec<Side>,
) -> Result<Step, AllocError>
    requires { IsAtEnd labels.old.fault labels.old.netlist labels.old.holds labels.old stack.old.items }
    ensures end { OnOk result (IsAtEnd labels.old.fault labels.old.netlist labels.old.holds labels.new stack.new.items) }
    ensures step { IfOk result (IsBacktrackStep (Node.Closed ∷ []) stack.old.items stack.new.items) }
{
    let done = closed_tree(alloc)?;
    match climb(&mut guide.effects, labels, stack, done)? {
        Some(nodes) => Ok(Step::Done(nodes)),
        None => Ok(Step::On(true)),
    }
}

/// A turn of the search. Where it came back to a side that wasn't looked at, that is looked at first.
fn turn(
    alloc: Global,
    case: &Case,
    guide: &mut Guide,
    labels: &mut PairSim,
    stack: &mut Vec<Side>,
    looks: bool,
    is_seen: bool,
) -> Result<Step, AllocError>
    requires { MayTurn case.now looks is_seen labels.old stack.old.items }
    ensures { IfOk result (IsStepped case.now looks stack.old.items labels.new stack.new.items) }
{
    if is_seen {
        return take_turn(alloc, case, guide, labels, stack, looks);
    }
    match labels.state() {
        State::Test(point) => Ok(Step::Found(point)),
        State::Blocked => go_back(alloc, guide, labels, stack),
        State::Going => take_turn(alloc, case, guide, labels, stack, looks),
    }
}

/// The values of sources without the fault.
fn source_values(
    alloc: Global,
    case: &Case,
    labels: &PairSim,
    ids: &[SignalId],
) -> Result<Vec<Tri>, AllocError>
    requires case { IsCase case.now }
    requires of_case { IsKept case.now labels.now }
    requires sources { All (Contains (all_sources case.now.core.now)) ids.now }
    ensures { IfOk result (λ v. v.items ≡ map (value_of case.now.holds.now labels.now.path) ids.now) }
{
    let mut values = Vec::with_capacity(alloc, ids.len())?;
    for id in ids {
        values.push(labels.good(*id))?;
    }
    Ok(values)
}

/// The cube of a test.
pub(crate) fn cube_there(
    alloc: Global,
    case: &Case,
    labels: &PairSim,
    point: &Point,
) -> Result<Cube, AllocError>
    requires case { IsCase case.now }
    requires test { IsTestAt case.now labels.now point.now }
    ensures { IfOk result (λ c. IsTestCube case.now.fault case.now.core.now case.now.holds.now c point.now) }
{
    let netlist = case.core.netlist();
    let inputs = source_values(alloc, case, labels, netlist.inputs())?;
    let cells = source_values(alloc, case, labels, netlist.cells())?;
    Ok(Cube::new(inputs, cells))
}

/// Whether the end of the path was looked at, where the search goes on; whether it came back there.
fn is_end_seen(looks: bool, came_back: bool) -> bool
    ensures { result ≡ (looks || not came_back) }
{
    looks || !came_back
}

/// The search from the path without decisions, where it may go on, up to where it gives up.
fn search_on(
    alloc: Global,
    case: &Case,
    guide: &mut Guide,
    labels: &mut PairSim,
    stack: &mut Vec<Side>,
    limit: u32,
    looks: bool,
) -> Result<Option<Found>, AllocError>
    requires start { MayGoOn case.now looks labels.old [] }
    requires empty { stack.old.items ≡ [] }
    ensures answer { IfOk result (λ o. IfSome o (IsSettled case.now limit)) }
    ensures given_up { IfOk result (λ o. o ≡ None → HasGivenUp case.now looks limit labels.new stack.new.items) }
    ensures kept { OnOk result (IsKept case.now labels.new) }
{
    let mut closed: u32 = 0;
    let mut is_seen = true;
    while closed < limit {
        match turn(alloc, case, guide, labels, stack, looks, is_seen)? {
            Step::Found(point) => {
                let cube = cube_there(alloc, case, labels, &point)?;
                return Ok(Some(Found::Test(cube, point)));
            }
            Step::Done(nodes) => return Ok(Some(Found::Closed(Tree::new(nodes)))),
            Step::On(more) => {
                closed += one_if(more);
                is_seen = is_end_seen(looks, more);
            }
        }
    }
    Ok(None)
}

/// The search from the path without decisions: a test, a tree without Open, or nothing where it gives up.
fn search_from(
    alloc: Global,
    case: &Case,
    guide: &mut Guide,
    labels: &mut PairSim,
    stack: &mut Vec<Side>,
    limit: u32,
    looks: bool,
) -> Result<Option<Found>, AllocError>
    requires start { IsReady case.now labels.old }
    requires empty { stack.old.items ≡ [] }
    requires some { 1 ≤ limit }
    ensures answer { IfOk result (λ o. IfSome o (IsSettled case.now limit)) }
    ensures given_up { IfOk result (λ o. o ≡ None → HasGivenUp case.now looks limit labels.new stack.new.items) }
    ensures kept { OnOk result (IsKept case.now labels.new) }
{
    match labels.state() {
        State::Test(point) => {
            let cube = cube_there(alloc, case, labels, &point)?;
            Ok(Some(Found::Test(cube, point)))
        }
        State::Blocked => {
            let tree = closed_tree(alloc)?;
            Ok(Some(Found::Closed(Tree::new(tree))))
        }
        State::Going => {
            guide.begin();
            search_on(alloc, case, guide, labels, stack, limit, looks)
        }
    }
}

/// A search that looks at the other side of a decision only where its own is closed, or once it comes back to it: a test, a tree without Open, or
/// nothing where it gives up.
pub(crate) fn short_search(
    alloc: Global,
    case: &Case,
    guide: &mut Guide,
    labels: &mut PairSim,
    limit: u32,
) -> Result<Option<Found>, AllocError>
    requires start { IsReady case.now labels.old }
    requires some { 1 ≤ limit }
    ensures answer { IfOk result (λ o. IfSome o (IsSettled case.now limit)) }
    ensures kept { OnOk result (IsKept case.now labels.new) }
{
    let mut stack = Vec::new(alloc);
    search_from(alloc, case, guide, labels, &mut stack, limit, false)
}

/// A search that looks at both sides of a decision: a test, a tree without Open, or a tree with as many Closed as the backtrack limit.
pub(crate) fn whole_search(
    alloc: Global,
    case: &Case,
    guide: &mut Guide,
    labels: &mut PairSim,
    limit: u32,
) -> Result<Found, AllocError>
    requires start { IsReady case.now labels.old }
    requires some { 1 ≤ limit }
    ensures answer { IfOk result (IsAnswer case.now limit) }
    ensures kept { OnOk result (IsKept case.now labels.new) }
{
    let mut stack = Vec::new(alloc);
    if let Some(found) = search_from(alloc, case, guide, labels, &mut stack, limit, true)? {
        return Ok(found);
    }
    let nodes = tree_so_far(alloc, stack)?;
    Ok(Found::Partial(Tree::new(nodes)))
}
