//! What hits change.
ghost use Rattle.std.specs.Prelude.{◌≡◌, ◌+◌, ◌<◌, ◌≤◌, ◌^◌, ◌++◌, ℕ, map, length, IfOk, vec_len, vec_capacity, Some};
ghost use Rattle.std.specs.List.{All, AllPairs, slice_get};
ghost use Rattle.statement.specs.declared.lines.Fault.{Fault as FaultOf};
ghost use Rattle.list_core.specs.Verdicts.{is_undetected};
ghost use Rattle.list_core.specs.States.{hit_one, entry_of, hit_verdicts, hit_entries, undetected_from};
ghost use Rattle.word_sim.specs.declared.batches.Hit.{Hit as HitOf};

use crate::verdicts::{Entry, Verdict};
use cubes::Pattern;
use netlist::Fault;
use std::alloc::{AllocError, Global};
use word_sim::Hit;

/// Whether a hit makes it Detected.
pub(crate) fn is_undetected_now(verdict: &Verdict) -> bool
    ensures { result ≡ is_undetected verdict.now }
{
    match verdict {
        Verdict::Open | Verdict::Aborted(_) => true,
        Verdict::Detected(_, _) | Verdict::Redundant(_) => false,
    }
}

fn record_hit(verdicts: &mut Vec<Verdict>, journal: &mut Vec<Entry>, old: u32, hit: Hit)
    requires class { hit.class < vec_len verdicts.old }
    requires place { old + hit.pattern < 2 ^ 32 }
    requires room { vec_len journal.old < vec_capacity journal.old }
    ensures verdicts { verdicts.new.items ≡ hit_one old hit verdicts.old.items }
    ensures journal { journal.new.items ≡ journal.old.items ++ entry_of old hit verdicts.old.items }
    ensures len { vec_len journal.new ≤ vec_len journal.old + 1 }
    ensures capacity { vec_capacity journal.new ≡ vec_capacity journal.old }
{
    if is_undetected_now(&verdicts[hit.class as usize]) {
        journal.push_reserved(Entry::Hit(hit.class, old + hit.pattern, hit.point));
        verdicts[hit.class as usize] = Verdict::Detected(old + hit.pattern, hit.point);
    }
}

/// Each hit class that is Open or Aborted becomes Detected, with an entry.
pub(crate) fn record_hits(
    verdicts: &mut Vec<Verdict>,
    journal: &mut Vec<Entry>,
    old: u32,
    hits: &[Hit],
)
    requires within { All (λ (h : HitOf). (h.class < vec_len verdicts.old) × (old + h.pattern < 2 ^ 32)) hits.now }
    requires room { vec_len journal.old + length hits.now ≤ vec_capacity journal.old }
    ensures verdicts { verdicts.new.items ≡ hit_verdicts old hits.now verdicts.old.items }
    ensures journal { journal.new.items ≡ journal.old.items ++ hit_entries old hits.now verdicts.old.items }
    ensures len { vec_len journal.new ≤ vec_len journal.old + length hits.now }
    ensures capacity { vec_capacity journal.new ≡ vec_capacity journal.old }
{
    for hit in hits {
        record_hit(verdicts, journal, old, *hit);
    }
}

/// Moves the patterns behind the others, within the room that is there.
pub(crate) fn append(to: &mut Vec<Pattern>, more: Vec<Pattern>)
    requires { vec_len to.old + vec_len more ≤ vec_capacity to.old }
    ensures items { to.new.items ≡ to.old.items ++ more.items }
    ensures len { vec_len to.new ≡ vec_len to.old + vec_len more }
    ensures capacity { vec_capacity to.new ≡ vec_capacity to.old }
{
    for pattern in more {
        to.push_reserved(pattern);
    }
}

/// The classes that are Open or Aborted, in order, each with its fault.
pub(crate) fn undetected_of(
    alloc: Global,
    verdicts: &[Verdict],
    faults: &[Fault],
) -> Result<Vec<(u32, Fault)>, AllocError>
    requires { (length verdicts.now ≡ length faults.now) × (length verdicts.now < 2 ^ 31) }
    ensures classes { IfOk result (λ v. map (λ (p : ℕ × FaultOf). p.0) v.items ≡ undetected_from 0 verdicts.now) }
    ensures represent { IfOk result (λ v. All (λ (p : ℕ × FaultOf). slice_get faults.now p.0 ≡ Some p.1) v.items) }
    ensures ascend { IfOk result (λ v. AllPairs (λ (p q : ℕ × FaultOf). p.0 < q.0) v.items) }
{
    let mut found = Vec::new(alloc);
    for class in 0..verdicts.len() as u32 {
        if is_undetected_now(&verdicts[class as usize]) {
            found.push((class, faults[class as usize]))?;
        }
    }
    Ok(found)
}
