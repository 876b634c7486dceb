//! The way over the nodes of a tree: the decisions above the node that is looked at, and the labels under them.
ghost use Rattle.std.specs.Prelude.{◌≡◌, ◌<◌, [], ◌∷◌, ◌++◌, None, Some, not, length, IsTrue, OnOk, IfOk};
ghost use Rattle.std.specs.Bool.{MatchBool};
ghost use Rattle.netlist.specs.Lines.{IsLineOf};
ghost use Rattle.statement.specs.Netlists.{signals};
ghost use Rattle.tri.specs.Paths.{decisions, IsClosedPath};
ghost use Rattle.redundancy_cert.specs.Trees.{DecidesSignal};
ghost use Rattle.redundancy_cert.specs.Fits.{NodeFits};
ghost use Rattle.redundancy_cert.specs.inner.Passing.{SameRun};
ghost use Rattle.redundancy_cert.specs.inner.Walk.{IsAt, IsForcedBy, after, path_of, waiting_of, StandsFor};

use crate::nodes::Node;
use crate::passes::Pass;
use netlist::{Fault, SignalId};
use std::alloc::AllocError;

/// A decision above the node that is looked at.
#[derive(Clone, Copy)]
pub(crate) struct Step {
    pub signal: SignalId,
    pub bit: bool,
    /// The tree of the signal's 1 is still to come.
    pub waiting: bool,
}

/// Goes back to the last step whose 1 is still to come, and turns it to 1; without one, to the root.
fn climb(pass: &mut Pass, path: &mut Vec<Step>)
    requires { IsAt pass.old path.old.items }
    ensures at { IsAt pass.new path.new.items }
    ensures same { SameRun pass.old pass.new }
    ensures stands { StandsFor path.new.items (waiting_of path.old.items) }
{
    for k in (0..path.len()).rev() {
        pass.standing();
        let step = path[k];
        if step.waiting {
            path[k] = Step {
                signal: step.signal,
                bit: true,
                waiting: false,
            };
            path.truncate(k + 1);
            pass.decide(step.signal, Some(true));
            return;
        }
        pass.decide(step.signal, None);
    }
    path.clear();
}

/// Goes back to the root.
pub(crate) fn unwind(pass: &mut Pass, path: &mut Vec<Step>)
    requires { IsAt pass.old path.old.items }
    ensures at { IsAt pass.new [] }
    ensures same { SameRun pass.old pass.new }
    ensures none { path.new.items ≡ [] }
{
    for k in (0..path.len()).rev() {
        pass.standing();
        let step = path[k];
        pass.decide(step.signal, None);
    }
    path.clear();
}

/// One decision more.
#[tactic(auto, using(crate::proofs::StepLemmas::entered, crate::proofs::StepLemmas::same_run))]
fn descend(pass: &mut Pass, path: &mut Vec<Step>, step: Step) -> Result<(), AllocError>
    requires at { IsAt pass.old path.old.items }
    requires within { step.signal < length (signals pass.old.netlist) }
    requires free { decisions (path_of path.old.items) step.signal ≡ None }
    ensures at { IsAt pass.new path.new.items }
    ensures same { SameRun pass.old pass.new }
    ensures path { OnOk result (path.new.items ≡ path.old.items ++ step ∷ []) }
{
    pass.standing();
    let signal = step.signal;
    let bit = step.bit;
    path.push(step)?;
    pass.decide(signal, Some(bit));
    Ok(())
}

/// A node that ends the path: where it fits, the side that waits comes next.
fn leave(pass: &mut Pass, path: &mut Vec<Step>, fits: bool) -> bool
    requires { IsAt pass.old path.old.items }
    ensures at { IsAt pass.new path.new.items }
    ensures same { SameRun pass.old pass.new }
    ensures is { result ≡ fits }
    ensures stands { IsTrue fits → StandsFor path.new.items (waiting_of path.old.items) }
{
    if fits {
        climb(pass, path);
        true
    } else {
        false
    }
}

/// A split: where it fits, the side of 0 comes next.
#[tactic(auto, using(crate::proofs::WalkLemmas::stands_split))]
fn split(
    pass: &mut Pass,
    path: &mut Vec<Step>,
    signal: SignalId,
    fits: bool,
) -> Result<bool, AllocError>
    requires at { IsAt pass.old path.old.items }
    requires within { signal < length (signals pass.old.netlist) }
    requires free { IsTrue fits → decisions (path_of path.old.items) signal ≡ None }
    ensures at { IsAt pass.new path.new.items }
    ensures same { SameRun pass.old pass.new }
    ensures is { IfOk result (λ b. b ≡ fits) }
    ensures stands { IfOk result (λ b. IsTrue fits → StandsFor path.new.items (after (path_of path.old.items) (waiting_of path.old.items) (Node.Split signal))) }
{
    if !fits {
        return Ok(false);
    }
    descend(
        pass,
        path,
        Step {
            signal,
            bit: false,
            waiting: true,
        },
    )?;
    Ok(true)
}

/// A forced decision: whether the label of its other side is closed, where it fits but for that; then its side comes next.
fn force(
    pass: &mut Pass,
    path: &mut Vec<Step>,
    fault: &Fault,
    signal: SignalId,
    bit: bool,
    fits: bool,
) -> Result<bool, AllocError>
    requires line { IsLineOf pass.old.netlist fault.now.line }
    requires stuck { pass.old.fault ≡ Some fault.now }
    requires at { IsAt pass.old path.old.items }
    requires within { signal < length (signals pass.old.netlist) }
    requires free { IsTrue fits → decisions (path_of path.old.items) signal ≡ None }
    ensures at { IsAt pass.new path.new.items }
    ensures same { SameRun pass.old pass.new }
    ensures is { IfOk result (λ b. MatchBool b (IsForcedBy fault.now pass.old fits path.old.items signal bit path.new.items)
        (IsTrue fits → ¬ IsClosedPath fault.now pass.old.netlist pass.old.holds ((signal, not bit) ∷ path_of path.old.items))) }
{
    if !fits {
        return Ok(false);
    }
    let last = path.len();
    descend(
        pass,
        path,
        Step {
            signal,
            bit: !bit,
            waiting: false,
        },
    )?;
    let shut = pass.is_closed(fault);
    pass.standing();
    path[last] = Step {
        signal,
        bit,
        waiting: false,
    };
    pass.decide(signal, Some(bit));
    Ok(shut)
}

/// Whether the node fits where the check stands; then the check goes on to the next one.
pub(crate) fn enter(
    pass: &mut Pass,
    path: &mut Vec<Step>,
    fault: &Fault,
    node: &Node,
) -> Result<bool, AllocError>
    requires line { IsLineOf pass.old.netlist fault.now.line }
    requires stuck { pass.old.fault ≡ Some fault.now }
    requires at { IsAt pass.old path.old.items }
    requires decides { DecidesSignal pass.old.netlist node.now }
    ensures at { IsAt pass.new path.new.items }
    ensures same { SameRun pass.old pass.new }
    ensures fits { IfOk result (λ fits. MatchBool fits
        (NodeFits fault.now pass.old.netlist pass.old.holds (path_of path.old.items) node.now × StandsFor path.new.items (after (path_of path.old.items) (waiting_of path.old.items) node.now))
        (¬ NodeFits fault.now pass.old.netlist pass.old.holds (path_of path.old.items) node.now)) }
{
    pass.core().netlist().sound();
    let closed = pass.is_closed(fault);
    match node {
        Node::Closed => Ok(leave(pass, path, closed)),
        Node::Open => Ok(leave(pass, path, !closed)),
        Node::Split(signal) => {
            let fits = !closed && pass.is_unknown(*signal);
            split(pass, path, *signal, fits)
        }
        Node::Forced(signal, bit) => {
            let fits = !closed && pass.is_unknown(*signal);
            force(pass, path, fault, *signal, *bit, fits)
        }
    }
}
