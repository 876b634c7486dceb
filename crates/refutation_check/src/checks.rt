//! Whether the steps of a refutation hold, one after the other.
ghost use Rattle.std.specs.Prelude.{◌≡◌, ◌↔◌, ◌<◌, length, IfOk, IsTrue, MatchResult, OnOk};
ghost use Rattle.std.specs.Bool.{MatchBool};
ghost use Rattle.refutation.specs.Refutations.{AllHold, EndsEmpty, IsContradicted, IsImplied, Leads, StepHolds, clauses, denied, denying, learned, narrowed};
ghost use Rattle.refutation_check.specs.Refusals.{AreRefused};
ghost use Rattle.refutation_check.specs.inner.Bases.{AreSetsFor, IsBasisOf};
ghost use Rattle.refutation_check.specs.inner.Checks.{IsPlayed, IsTaken};
ghost use Rattle.refutation_check.specs.inner.Reasons.{AreWithin};
ghost use Rattle.refutation_check.specs.inner.Trails.{Grows};

use crate::bases::Basis;
use crate::faults::RefutationFault;
use crate::reasons::is_contradicted;
use crate::sets::Sets;
use crate::sweeps::sweep;
use netlist::{Fault, Netlist};
use refutation::{Implied, Literal, Move, Step};
use std::alloc::AllocError;

/// Whether the opposite of the literal can't be, by its reason.
fn is_opposite_never(
    basis: &Basis<'_>,
    sets: &mut Sets,
    implied: &Implied,
) -> Result<bool, AllocError>
    requires basis { IsBasisOf sets.old basis.now }
    requires within { implied.now.literal.signal < length sets.old.told }
    ensures grows { Grows sets.old sets.new }
    ensures back { OnOk result (sets.new ≡ sets.old) }
    ensures so { IfOk result (λ b. IsTrue b
        ↔ IsContradicted basis.now.netlist.now basis.now.fault.now (clauses basis.now.lemmas.now)
        (narrowed sets.old.told (denied implied.now.literal)) implied.now.reason) }
{
    let depth = sets.depth();
    let denied = implied.literal.denied();
    sets.narrow(&denied)?;
    let never = is_contradicted(basis, sets, &implied.reason)?;
    sets.undo(depth);
    Ok(never)
}

/// Whether the literal is implied; then it is so.
fn imply(basis: &Basis<'_>, sets: &mut Sets, implied: &Implied) -> Result<bool, AllocError>
    requires { IsBasisOf sets.old basis.now }
    ensures grows { Grows sets.old sets.new }
    ensures so { IfOk result (λ b. MatchBool b
        (IsImplied basis.now.netlist.now basis.now.fault.now (clauses basis.now.lemmas.now) sets.old.told implied.now
        × (sets.new.told ≡ narrowed sets.old.told implied.now.literal))
        (¬ IsImplied basis.now.netlist.now basis.now.fault.now (clauses basis.now.lemmas.now) sets.old.told implied.now)) }
{
    if implied.literal.signal.index() >= sets.told().len() {
        return Ok(false);
    }
    let never = is_opposite_never(basis, sets, implied)?;
    if !never {
        return Ok(false);
    }
    sets.narrow(&implied.literal)?;
    Ok(true)
}

/// What comes of a move.
pub(crate) enum Played {
    /// It is so, and what follows is to be seen.
    On,
    /// Gates leave nothing.
    Ends,
    /// It isn't so.
    Fails,
}

/// Puts in what a move says, if it is so.
fn play(basis: &Basis<'_>, sets: &mut Sets, played: &Move) -> Result<Played, AllocError>
    requires { IsBasisOf sets.old basis.now }
    ensures grows { Grows sets.old sets.new }
    ensures so { IfOk result
        (IsPlayed basis.now.netlist.now basis.now.fault.now (clauses basis.now.lemmas.now) sets.old.told played.now sets.new.told) }
{
    match played {
        Move::Imply(implied) => {
            let is = imply(basis, sets, implied)?;
            if is {
                Ok(Played::On)
            } else {
                Ok(Played::Fails)
            }
        }
        Move::Sweep => {
            let some = sweep(basis.netlist, basis.fault, sets, basis.from)?;
            if some {
                Ok(Played::On)
            } else {
                Ok(Played::Ends)
            }
        }
    }
}

/// Whether each move of the step is so, and then its last reason can't be.
fn leads(basis: &Basis<'_>, sets: &mut Sets, step: &Step) -> Result<bool, AllocError>
    requires { IsBasisOf sets.old basis.now }
    ensures grows { Grows sets.old sets.new }
    ensures so { IfOk result (λ b. IsTrue b
        ↔ Leads basis.now.netlist.now basis.now.fault.now (clauses basis.now.lemmas.now) sets.old.told step.now.moves step.now.last) }
{
    let moves = step.moves();
    for k in 0..moves.len() {
        match play(basis, sets, &moves[k])? {
            Played::On => {}
            Played::Ends => return Ok(true),
            Played::Fails => return Ok(false),
        }
    }
    is_contradicted(basis, sets, step.last())
}

/// Whether each literal names a signal; then none of them is so.
fn deny(sets: &mut Sets, clause: &[Literal]) -> Result<bool, AllocError>
    ensures grows { Grows sets.old sets.new }
    ensures so { IfOk result (λ b. MatchBool b
        (AreWithin (length sets.old.told) clause.now × (sets.new.told ≡ denying sets.old.told clause.now))
        (¬ AreWithin (length sets.old.told) clause.now)) }
{
    for k in 0..clause.len() {
        if clause[k].signal.index() >= sets.told().len() {
            return Ok(false);
        }
        let denied = clause[k].denied();
        sets.narrow(&denied)?;
    }
    Ok(true)
}

/// Whether the step holds, where the signals may have these pairs after those before it.
fn follows(basis: &Basis<'_>, sets: &mut Sets, step: &Step) -> Result<bool, AllocError>
    requires { IsBasisOf sets.old basis.now }
    ensures grows { Grows sets.old sets.new }
    ensures so { IfOk result (λ b. IsTrue b
        ↔ StepHolds basis.now.netlist.now basis.now.fault.now (clauses basis.now.lemmas.now) sets.old.told step.now) }
{
    let within = deny(sets, step.clause())?;
    if !within {
        return Ok(false);
    }
    leads(basis, sets, step)
}

/// The same, and the signals may have what they might.
fn step_holds(basis: &Basis<'_>, sets: &mut Sets, step: &Step) -> Result<bool, AllocError>
    requires { IsBasisOf sets.old basis.now }
    ensures grows { Grows sets.old sets.new }
    ensures back { OnOk result (sets.new ≡ sets.old) }
    ensures so { IfOk result (λ b. IsTrue b
        ↔ StepHolds basis.now.netlist.now basis.now.fault.now (clauses basis.now.lemmas.now) sets.old.told step.now) }
{
    let depth = sets.depth();
    let holds = follows(basis, sets, step)?;
    sets.undo(depth);
    Ok(holds)
}

/// A clause of one literal is so for good.
fn learn(sets: &mut Sets, clause: &[Literal]) -> Result<(), AllocError>
    requires { AreWithin (length sets.old.told) clause.now }
    ensures grows { Grows sets.old sets.new }
    ensures so { OnOk result (sets.new.told ≡ learned sets.old.told clause.now) }
{
    if clause.len() == 1 {
        sets.narrow(&clause[0])?;
    }
    Ok(())
}

/// Whether the last clause is empty.
fn ends_empty(steps: &[Step]) -> bool
    ensures { IsTrue result ↔ EndsEmpty steps.now }
{
    let count = steps.len();
    if count == 0 {
        return false;
    }
    steps[count - 1].clause().is_empty()
}

/// Whether the step holds after those before it; then its clause is known.
fn take_step(basis: &Basis<'_>, sets: &mut Sets, step: &Step) -> Result<bool, AllocError>
    requires { IsBasisOf sets.old basis.now }
    ensures grows { Grows sets.old sets.new }
    ensures so { IfOk result (λ b. MatchBool b
        (IsTaken basis.now.netlist.now basis.now.fault.now (clauses basis.now.lemmas.now) step.now sets.old.told sets.new.told)
        (¬ StepHolds basis.now.netlist.now basis.now.fault.now (clauses basis.now.lemmas.now) sets.old.told step.now)) }
{
    let holds = step_holds(basis, sets, step)?;
    if !holds {
        return Ok(false);
    }
    learn(sets, step.clause())?;
    Ok(true)
}

/// Whether each step holds and the last clause is empty; or why not.
pub(crate) fn check_steps(
    netlist: &Netlist,
    fault: &Fault,
    sets: &mut Sets,
    from: usize,
    steps: &[Step],
) -> Result<(), RefutationFault>
    requires { AreSetsFor netlist.now fault.now from sets.old }
    ensures grows { Grows sets.old sets.new }
    ensures answer { MatchResult result (λ _. AllHold netlist.now fault.now sets.old.told steps.now × EndsEmpty steps.now)
        (AreRefused netlist.now fault.now sets.old.told steps.now) }
{
    for k in 0..steps.len() {
        let basis = Basis {
            netlist,
            fault,
            lemmas: &steps[..k],
            from,
        };
        let Ok(holds) = take_step(&basis, sets, &steps[k]) else {
            return Err(RefutationFault::NoMemory);
        };
        if !holds {
            return Err(RefutationFault::BadStep(k as u64));
        }
    }
    if ends_empty(steps) {
        Ok(())
    } else {
        Err(RefutationFault::Unfinished)
    }
}
