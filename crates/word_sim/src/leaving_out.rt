//! Faults that are known never to be detected, as redundant ones are: they are left out of a simulation, and put back into what it tells.
ghost use Rattle.std.specs.Prelude.{◌≡◌, ◌≤◌, ◌∷◌, List, Bool, Option, ℕ, None, drop, length, IfOk};
ghost use Rattle.std.specs.List.{All, AllZip};
ghost use Rattle.netlist.specs.Lines.{IsLineOf};
ghost use Rattle.statement.specs.Netlists.{Netlist as Equations};
ghost use Rattle.statement.specs.declared.lines.Fault.{Fault as FaultOf};
ghost use Rattle.statement.specs.Patterns.{Pattern as Bits};
ghost use Rattle.word_sim.specs.Hits.{LastDetected};
ghost use Rattle.word_sim.specs.Never.{AreNever, unmarked};
ghost use Rattle.word_sim.specs.inner.Leaving.{told_of_all};

use netlist::{Fault, Point};
use std::alloc::{AllocError, Global};

/// The faults that aren't marked, in order.
pub fn unmarked(alloc: Global, faults: &[Fault], marks: &[bool]) -> Result<Vec<Fault>, AllocError>
    requires size { length marks.now ≡ length faults.now }
    ensures exactly { IfOk result (λ v. v.items ≡ unmarked marks.now faults.now) }
    ensures lines { IfOk result (λ v. (n : Equations) → All (λ (f : FaultOf). IsLineOf n f.line) faults.now → All (λ (f : FaultOf). IsLineOf n f.line) v.items) }
{
    let mut left = Vec::new(alloc);
    for k in 0..faults.len() {
        if !marks[k] {
            left.push(faults[k])?;
        }
    }
    Ok(left)
}

/// What is told of a fault, and the place of what is told of the next one that isn't marked.
fn next_told(
    told: &[Option<(u32, Point)>],
    next: usize,
    mark: bool,
) -> (Option<(u32, Point)>, usize)
    requires { next ≤ length told.now }
    ensures within { result.1 ≤ length told.now }
    ensures told { (marks : List Bool) → told_of_all (mark ∷ marks) (drop next told.now) ≡ result.0 ∷ told_of_all marks (drop result.1 told.now) }
{
    if mark || next == told.len() {
        return (None, next);
    }
    (told[next], next + 1)
}

/// Where each fault is last detected, by what is told of those that aren't marked.
pub fn told_of_all(
    alloc: Global,
    marks: &[bool],
    told: &[Option<(u32, Point)>],
) -> Result<Vec<Option<(u32, Point)>>, AllocError>
    ensures { IfOk result (λ v. (n : Equations) (patterns : List Bits) (faults : List FaultOf) → AreNever n patterns faults marks.now
        → AllZip (LastDetected n patterns) (unmarked marks.now faults) told.now → AllZip (LastDetected n patterns) faults v.items) }
{
    let mut all = Vec::with_capacity(alloc, marks.len())?;
    let mut next = 0;
    for k in 0..marks.len() {
        let (one, more) = next_told(told, next, marks[k]);
        all.push(one)?;
        next = more;
    }
    Ok(all)
}
