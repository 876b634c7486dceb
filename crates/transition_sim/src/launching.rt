//! Up to 64 patterns in two frames: which of them launch a transition at a line, and the words behind the launch.
ghost use Rattle.std.specs.Prelude.{◌≡◌, ◌<◌, length, map, IfOk, OnOk};
ghost use Rattle.netlist.specs.Conditions.{IsSound};
ghost use Rattle.netlist.specs.Lines.{IsLineOf};
ghost use Rattle.statement.specs.Netlists.{signals};
ghost use Rattle.observed_points.specs.Points.{ArePoints};
ghost use Rattle.netlist.specs.Settled.{at};
ghost use Rattle.std.specs.List.{All};
ghost use Rattle.transition_sim.specs.inner.Launches.{IsBehind, IsLaunched, state_after};
ghost use Rattle.transition_sim.specs.inner.Tasks.{IsFrame};

use events::{Events, Words};
use netlist::{Core, Fault, Netlist, SignalId};
use observed_points::Points;
use std::alloc::{AllocError, Global};
use transition_frames::source_of;

/// The words of these signals.
fn words_of(alloc: Global, first: &[u64], ids: &[SignalId]) -> Result<Vec<u64>, AllocError>
    requires { All (λ x. x < length first.now) ids.now }
    ensures { IfOk result (λ v. v.items ≡ map (at first.now 0) ids.now) }
{
    let mut words = Vec::with_capacity(alloc, ids.len())?;
    for x in ids {
        words.push(first[x.index()])?;
    }
    Ok(words)
}

/// The words of what the cells take in the first frame.
#[tactic(auto, using(crate::proofs::WordsLaunched::taken_read, crate::proofs::WordsLaunched::taken_slice))]
fn state_words(
    alloc: Global,
    netlist: &Netlist,
    points: &Points,
    first: &[u64],
) -> Result<Vec<u64>, AllocError>
    requires sound { IsSound netlist.now }
    requires points { ArePoints netlist.now points.now.seen.items points.now.first.items points.now.numbers.items }
    requires size { length first.now ≡ length (signals netlist.now) }
    ensures { IfOk result (λ v. v.items ≡ state_after netlist.now first.now) }
{
    words_of(alloc, first, &points.seen[netlist.outputs().len()..])
}

/// The words of the second frame, where the inputs stay and each cell has what it took in the first.
pub(crate) fn next_frame(
    alloc: Global,
    core: &Core,
    points: &Points,
    first: &Events<'_, u64>,
    second: &mut Events<'_, u64>,
) -> Result<(), AllocError>
    requires points { ArePoints core.now points.now.seen.items points.now.first.items points.now.numbers.items }
    requires first { first.now.netlist ≡ core.now }
    requires second { IsFrame core.now second.old }
    ensures second { IsFrame core.now second.new }
    ensures behind { OnOk result (IsBehind core.now first.now.values second.new) }
{
    let netlist = core.netlist();
    netlist.sound();
    let inputs = words_of(alloc, first.values(), netlist.inputs())?;
    let state = state_words(alloc, netlist, points, first.values())?;
    second.drive(&Words { fault: None }, &inputs, &state);
    Ok(())
}

/// The used patterns under which a line has the value that it is slow to leave.
pub(crate) fn launched(netlist: &Netlist, first: &[u64], used: u64, fault: &Fault) -> u64
    requires line { IsLineOf netlist.now fault.now.line }
    requires size { length first.now ≡ length (signals netlist.now) }
    ensures { IsLaunched netlist.now fault.now first.now used result }
{
    netlist.sound();
    let word = first[source_of(netlist, &fault.line).index()];
    let old = if fault.value { u64::MAX } else { 0 };
    used & (word ^ old ^ u64::MAX)
}
