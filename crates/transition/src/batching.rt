//! The searches for a batch of slow lines, all on one netlist.
//!
//! Lines of which no reader is late by two of them share a netlist of two frames, in which each has three gates of its own (`transition_batches`): it is made
//! once, with an engine's room, and serves one search after the other. What is found there is evidence on the two frames in which the line alone is slow,
//! if nothing is decided but signals of these frames; any other answer is dropped, and the line is searched on its own frames. So is a tree that breaks
//! the engine's rule on these frames, if it has one (`places`), and so is every refutation, whose steps read pins: a refuted line is searched twice.
//!
//! The alternative is a netlist for each line. What is made for a search then grows with the netlist, as the number of lines does, so that the time grows
//! with the square of it, and nearly all of it goes into what is made. To rewire one line's frames for the next one saves less: readers, order and room
//! have to be made anew.
ghost use Rattle.std.specs.Prelude.{◌≡◌, ◌+◌, ◌≤◌, ◌<◌, ◌↔◌, ℕ, length, IfOk, IfSome, IsTrue, OnOk, Some};
ghost use Rattle.std.specs.List.{All, slice_get};
ghost use Rattle.netlist.specs.Designs.{IsDesign};
ghost use Rattle.netlist.specs.Holds.{AreHoldsOf};
ghost use Rattle.netlist.specs.Lines.{IsLineOf};
ghost use Rattle.statement.specs.declared.lines.Fault.{Fault as FaultOf};
ghost use Rattle.evidence.specs.declared.engine.Found.{Found as FoundOf};
ghost use Rattle.evidence.specs.Answers.{HasEvidence};
ghost use Rattle.transition_batches.specs.Batches.{AreApart, DecidesFrames, batch_fault, batch_of};
ghost use Rattle.transition.specs.inner.Asked.{AreAnswers, IsAnswer};
ghost use Rattle.transition.specs.inner.Gathered.{AreGathered, AreTogether, IsShare, MayJoin};
ghost use Rattle.transition.specs.inner.Steps.{NoneAnswered, OneMoreAnswered};

use crate::cores::batch_core;
use crate::own_frames::search_one;
use crate::tasks::Task;
use evidence::{Engine, Found};
use netlist::{Core, Fault, Line, Netlist, NoMemory, SignalId};
use std::alloc::AllocError;
use transition_batches::laws::batch_carries;
use transition_batches::{MOST_FAULTS, are_apart, decides_frames};

/// As many lines as make the netlist no more than a tenth larger, but enough to pay for it where it is small.
pub(crate) fn most_together(netlist: &Netlist) -> usize
    ensures some { 0 < result }
    ensures few { result ≤ 1024 }
{
    netlist.sound();
    let signals = netlist.inputs().len() + netlist.definitions().len();
    (signals / 16).clamp(64, MOST_FAULTS)
}

/// Whether a line goes with all that are taken.
fn is_apart(netlist: &Netlist, taken: &[Fault], fault: &Fault) -> bool
    requires taken { All (λ (f : FaultOf). IsLineOf netlist.now f.line) taken.now }
    requires line { IsLineOf netlist.now fault.now.line }
    ensures { IsTrue result ↔ All (λ (f : FaultOf). AreApart netlist.now f fault.now) taken.now }
{
    for other in taken {
        if !are_apart(netlist, other, fault) {
            return false;
        }
    }
    true
}

/// The fault at a place, where it may join those that are taken: it is left, has no answer yet, and goes with all of them.
fn joining_fault<E: Engine>(
    task: &Task<'_, E>,
    taken: &[Fault],
    place: usize,
    slot: &Option<Option<Found>>,
) -> Option<Fault>
    requires taken { All (λ (f : FaultOf). IsLineOf task.now.netlist f.line) taken.now }
    requires place { place < length task.now.faults }
    ensures { IfSome result (MayJoin task.now taken.now place) }
{
    if slot.is_some() || !task.left[place] {
        return None;
    }
    let fault = task.faults.fault(place as u32);
    if is_apart(task.netlist, taken, &fault) {
        Some(fault)
    } else {
        None
    }
}

/// Lines of a batch, with the places of their slots.
#[derive(Drop)]
pub(crate) struct Gathered {
    pub places: Vec<usize>,
    pub slow: Vec<Fault>,
}

/// Takes the line of a slot into a batch, where there is room and it may join.
fn join<E: Engine>(
    task: &Task<'_, E>,
    first: usize,
    k: usize,
    slots: &[Option<Option<Found>>],
    most: usize,
    batch: &mut Gathered,
) -> Result<(), AllocError>
    requires share { IsShare task.now first (length slots.now) }
    requires within { k < length slots.now }
    requires most { most ≤ 1024 }
    requires had { AreGathered task.now first (length slots.now) batch.old.places.items batch.old.slow.items }
    ensures { OnOk result (AreGathered task.now first (length slots.now) batch.new.places.items batch.new.slow.items) }
{
    if batch.slow.len() >= most {
        return Ok(());
    }
    if let Some(fault) = joining_fault(task, &batch.slow, first + k, &slots[k]) {
        batch.places.push(k)?;
        batch.slow.push(fault)?;
    }
    Ok(())
}

/// A batch of the faults from one place to another that are left and have no answer yet.
pub(crate) fn gather<E: Engine>(
    task: &Task<'_, E>,
    first: usize,
    from: usize,
    to: usize,
    slots: &[Option<Option<Found>>],
) -> Result<Gathered, AllocError>
    requires share { IsShare task.now first (length slots.now) }
    requires within { to ≤ length slots.now }
    ensures { IfOk result (λ r. AreGathered task.now first (length slots.now) r.places.items r.slow.items) }
{
    let most = most_together(task.netlist);
    let alloc = task.alloc;
    let mut batch = Gathered {
        places: Vec::new(alloc),
        slow: Vec::new(alloc),
    };
    for k in from..to {
        join(task, first, k, slots, most, &mut batch)?;
    }
    Ok(batch)
}

/// The stuck-at fault of a batch's netlist that makes its line at place j slow.
fn tie_fault(netlist: &Netlist, j: usize, fault: &Fault) -> Fault
    requires design { IsDesign netlist.now }
    requires few { j < 1024 }
    ensures { result ≡ batch_fault netlist.now j fault.now }
{
    netlist.sound();
    let tie = netlist.inputs().len() + 2 * netlist.definitions().len() + 3 * j;
    Fault {
        line: Line::Stem(SignalId(tie as u32)),
        value: fault.value,
    }
}

/// Whether an answer of a batch stands on its line's own frames, where it has to keep the engine's rule too, if the engine has one.
fn stands_alone<E: Engine>(task: &Task<'_, E>, fault: &Fault, found: &Found) -> bool
    requires { IsLineOf task.now.netlist fault.now.line }
    ensures { IsTrue result → DecidesFrames task.now.netlist found.now }
{
    let netlist = task.netlist;
    if !decides_frames(netlist, found) {
        return false;
    }
    match task.rule {
        Some(rule) => rule.keeps(netlist, fault, found),
        None => true,
    }
}

/// What was found of a line in a batch, where that carries over to its own two frames; or else what is found on these.
fn own_answer<E: Engine>(task: &Task<'_, E>, fault: Fault, found: Found) -> Result<Found, NoMemory>
    requires line { IsLineOf task.now.netlist fault.line }
    requires carries { DecidesFrames task.now.netlist found → IsAnswer task.now fault found }
    ensures { IfOk result (IsAnswer task.now fault) }
{
    if stands_alone(task, &fault, &found) {
        return Ok(found);
    }
    search_one(task, fault)
}

/// The answer for a line of a batch, by the stuck-at fault that makes it slow there, and the room back.
fn search_tie<E: Engine>(
    task: &Task<'_, E>,
    core: &Core,
    room: E::Room,
    tie: Fault,
    fault: Fault,
) -> Result<(Found, E::Room), NoMemory>
    requires holds { AreHoldsOf core.now task.now.holds }
    requires room { E.serves core.now task.now.holds room }
    requires tie { IsLineOf core.now tie.line }
    requires line { IsLineOf task.now.netlist fault.line }
    requires carries { (found : FoundOf) → HasEvidence tie core.now task.now.holds task.now.limit found → DecidesFrames task.now.netlist found → IsAnswer task.now fault found }
    ensures answer { IfOk result (λ r. IsAnswer task.now fault r.0) }
    ensures room { IfOk result (λ r. E.serves core.now task.now.holds r.1) }
{
    let (found, kept) = task
        .engine
        .search_in(task.alloc, room, core, tie, task.limit, task.holds)?;
    let answer = own_answer(task, fault, found)?;
    Ok((answer, kept))
}

/// What follows of answers when there is one more: a function that does nothing, whose contract is the law.
fn answers_grow()
    ensures none { NoneAnswered }
    ensures more { OneMoreAnswered }
{}

/// Searches for the lines of a batch on its netlist.
fn search_together<E: Engine>(
    task: &Task<'_, E>,
    core: &Core,
    slow: &[Fault],
) -> Result<Vec<Found>, NoMemory>
    requires together { AreTogether task.now.netlist slow.now }
    requires core { core.now ≡ batch_of task.now.netlist slow.now }
    ensures { IfOk result (λ v. AreAnswers task.now slow.now v.items) }
{
    batch_carries();
    let alloc = task.alloc;
    let netlist = task.netlist;
    netlist.sound();
    core.netlist().sound();
    let mut room = task.engine.room(alloc, core, task.holds)?;
    let mut answers = Vec::with_capacity(alloc, slow.len())?;
    for j in 0..slow.len() {
        let fault = slow[j];
        let tie = tie_fault(netlist, j, &fault);
        let (answer, kept) = search_tie(task, core, room, tie, fault)?;
        room = kept;
        answers.push(answer)?;
    }
    Ok(answers)
}

/// Searches for each of these lines on its own two frames.
fn search_each<E: Engine>(task: &Task<'_, E>, slow: &[Fault]) -> Result<Vec<Found>, NoMemory>
    requires { All (λ (f : FaultOf). IsLineOf task.now.netlist f.line) slow.now }
    ensures { IfOk result (λ v. AreAnswers task.now slow.now v.items) }
{
    answers_grow();
    let mut answers = Vec::with_capacity(task.alloc, slow.len())?;
    for fault in slow {
        answers.push(search_one(task, *fault)?)?;
    }
    Ok(answers)
}

/// One answer for each line of a batch, in order, with its evidence on the two frames in which it alone is slow.
pub(crate) fn search_batch<E: Engine>(
    task: &Task<'_, E>,
    slow: &[Fault],
) -> Result<Vec<Found>, NoMemory>
    requires together { AreTogether task.now.netlist slow.now }
    ensures { IfOk result (λ v. AreAnswers task.now slow.now v.items) }
{
    match batch_core(task.alloc, task.netlist, slow)? {
        Some(core) => search_together(task, &core, slow),
        None => search_each(task, slow),
    }
}
