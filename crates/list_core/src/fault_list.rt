//! The list, whose calls are the events.
ghost use Rattle.std.specs.Prelude.{◌≡◌, ◌↔◌, ◌≢◌, ℕ, ◌+◌, ◌-◌, ◌*◌, ◌^◌, ◌<◌, ◌≤◌, ◌==◌, true, false, List, [], ◌∷◌, ◌++◌, IsTrue, length, map, IfOk, OnOk, OnErr, IfErr, IfSome, IfNone, vec_len, vec_capacity, slice_index, slice_index_or};
ghost use Rattle.std.specs.List.{All, slice_get};
ghost use Rattle.statement.specs.declared.lines.Fault.{Fault as FaultOf};
ghost use Rattle.redundancy_cert.specs.Trees.{open_count};
ghost use Rattle.evidence.specs.Evidence.{open_ends};
ghost use Rattle.list_core.specs.Subjects.{Subject, class_count, RepresentsIn};
ghost use Rattle.list_core.specs.Batches.{IsTrueBatch};
ghost use Rattle.list_core.specs.Verdicts.{verdict_at, is_open};
ghost use Rattle.list_core.specs.Journal.{is_taken};
ghost use Rattle.list_core.specs.States.{State, fresh_list, may_enter, entered, claimed, settled, published, spared, ended_by, verdict_by, MaySettle, undetected_from, IsTrueList};
ghost use Rattle.list_core.specs.Outcomes.{AreTotals};
ghost use Rattle.list_core.specs.Enough.{IsEnough};
ghost use Rattle.list_core.specs.declared.verdicts.Verdict.TheVariants.{Open};

use crate::claims::{Claim, Left, Over};
use crate::goals::{Goal, detected_weight_of};
use crate::hits::{append, record_hits, undetected_of};
use crate::marks::{all_open, none_taken};
use crate::subjects::About;
use crate::verdicts::{Ended, Entry, Totals, Verdict};
use cubes::Pattern;
use evidence::Evidence;
use netlist::{Core, Fault, Holds, NoMemory};
use redundancy_cert::Node;
use std::alloc::Global;
use std::marker::{Model, PhantomData};
use word_sim::Batch;

/// For each class its verdict, with patterns and journal.
#[derive(Drop)]
pub struct FaultList<J: About> {
    verdicts: Vec<Verdict>,
    patterns: Vec<Pattern>,
    journal: Vec<Entry>,
    taken: Vec<bool>,
    faults: Vec<Fault>,
    limit: u32,
    claims: u32,
    spare_patterns: u32,
    spare_entries: u32,
    of: PhantomData<J>,
}

impl<J: About> Model for FaultList<J> {
    ghost use Rattle.std.specs.Prelude.{vec_len, vec_capacity};
    ghost use Rattle.list_core.specs.States.{State, IsKept};

    ghost Value = { State };

    ghost view = { λ a. record { verdicts = a.verdicts.items; patterns = a.patterns.items; journal = a.journal.items; taken = a.taken.items; claims = a.claims; spare_patterns = a.spare_patterns; spare_entries = a.spare_entries } };

    ghost invariant = { λ a.
        IsKept J.subject (record { verdicts = a.verdicts.items; patterns = a.patterns.items; journal = a.journal.items; taken = a.taken.items; claims = a.claims; spare_patterns = a.spare_patterns; spare_entries = a.spare_entries })
        a.faults.items a.limit (vec_len a.journal) (vec_capacity a.journal) (vec_len a.patterns) (vec_capacity a.patterns) };
}

/// What `settle` answers.
#[derive(Drop)]
pub enum Settling<J: About> {
    Settled,
    /// The class had its verdict: the evidence comes back.
    Already(Evidence, Over<J>),
}

impl<J: About> FaultList<J> {
    ghost use Rattle.list_core.specs.Outcomes.{MatchSettling};

    /// A list of a class for each of these faults, all Open, with room for three entries a class.
    pub fn new(
        alloc: Global,
        core: &Core,
        faults: &[Fault],
        limit: u32,
        holds: &Holds,
    ) -> Result<FaultList<J>, NoMemory>
        requires core { core.now ≡ J.subject.netlist }
        requires faults { (faults.now ≡ J.subject.faults) × (class_count J.subject < 2 ^ 31) }
        requires limit { (limit ≡ J.subject.limit) × (1 ≤ limit) }
        requires holds { holds.now ≡ J.subject.holds }
        ensures { IfOk result (λ s. s ≡ fresh_list (class_count J.subject)) }
    {
        let count = faults.len() as u32;
        let verdicts = all_open(alloc, count)?;
        let taken = none_taken(alloc, count)?;
        let faults = Vec::from_slice(alloc, faults)?;
        let mut journal = Vec::new(alloc);
        journal.reserve(3 * count as usize)?;
        Ok(FaultList {
            verdicts,
            patterns: Vec::new(alloc),
            journal,
            taken,
            faults,
            limit,
            claims: 0,
            spare_patterns: 0,
            spare_entries: 0,
            of: PhantomData,
        })
    }

    /// Hands out this class, where it is Open and the journal has no Take of it.
    pub fn enter(&mut self, worker: u32, class: u32) -> Result<Claim<J>, Over<J>>
        requires { class < class_count J.subject }
        ensures claim { IfOk result (λ c. (may_enter self.old class ≡ true) × (c.class ≡ class) × (c.worker ≡ worker) × (self.new ≡ entered self.old worker class)) }
        ensures over { IfErr result (λ o. (may_enter self.old class ≡ false) × (o.class ≡ class) × (o.entered ≡ true) × (self.new ≡ self.old)) }
    {
        if !is_open_now(&self.verdicts[class as usize]) || self.taken[class as usize] {
            return Err(Over {
                class,
                entered: true,
                of: PhantomData,
            });
        }
        self.journal.push_reserved(Entry::Take(worker, class));
        self.taken[class as usize] = true;
        Ok(Claim {
            worker,
            class,
            fault: self.faults[class as usize],
            limit: self.limit,
            of: PhantomData,
        })
    }

    /// Hands out this class, where it is Open.
    pub fn claim(&mut self, worker: u32, class: u32) -> Option<Claim<J>>
        requires class { class < class_count J.subject }
        requires claims { self.old.claims < class_count J.subject }
        ensures some { IfSome result (λ c. (c.class ≡ class) × (c.worker ≡ worker) × (verdict_at self.old.verdicts class ≡ Open) × (self.new ≡ claimed self.old worker class)) }
        ensures none { IfNone result ((is_open (verdict_at self.old.verdicts class) ≡ false) × (self.new ≡ self.old)) }
    {
        if !is_open_now(&self.verdicts[class as usize]) {
            return None;
        }
        self.journal.push_reserved(Entry::Take(worker, class));
        self.taken[class as usize] = true;
        self.claims += 1;
        Some(Claim {
            worker,
            class,
            fault: self.faults[class as usize],
            limit: self.limit,
            of: PhantomData,
        })
    }

    /// Gives the claim's class its verdict, where it is Open.
    pub fn settle(&mut self, claim: Claim<J>, evidence: Evidence) -> Settling<J>
        requires { MaySettle J.subject claim.fault evidence }
        ensures { MatchSettling result
            ((verdict_at self.old.verdicts claim.class ≡ Open) × (self.new ≡ settled self.old claim.worker claim.class evidence))
            (λ e class is_entered. (is_open (verdict_at self.old.verdicts claim.class) ≡ false) × (self.new ≡ self.old) × (e ≡ evidence) × (class ≡ claim.class) × (is_entered ≡ false)) }
    {
        let Claim {
            worker,
            class,
            fault: _,
            limit: _,
            of: _,
        } = claim;
        if !is_open_now(&self.verdicts[class as usize]) {
            return Settling::Already(
                evidence,
                Over {
                    class,
                    entered: false,
                    of: PhantomData,
                },
            );
        }
        let how = ended_of(&evidence);
        self.journal
            .push_reserved(Entry::Settle(worker, class, how));
        self.verdicts[class as usize] = verdict_of(evidence);
        Settling::Settled
    }

    /// Makes spare room for a batch.
    pub fn reserve(&mut self, patterns: u32, entries: u32) -> Result<(), NoMemory>
        ensures ok { OnOk result (self.new ≡ spared self.old patterns entries) }
        ensures err { OnErr result (self.new ≡ self.old) }
    {
        let most = 3 * self.verdicts.len() + entries as usize;
        self.journal.reserve(most)?;
        self.patterns.reserve(patterns as usize)?;
        self.spare_patterns = patterns;
        self.spare_entries = entries;
        Ok(())
    }

    /// Appends the patterns, and each hit class that is Open or Aborted becomes Detected.
    pub fn publish(&mut self, worker: u32, batch: Batch)
        requires true_batch { IsTrueBatch J.subject batch }
        requires room { (length batch.patterns ≤ self.old.spare_patterns) × (length batch.hits + 1 ≤ self.old.spare_entries) }
        requires few { length self.old.patterns + length batch.patterns < 2 ^ 32 }
        ensures { self.new ≡ published self.old worker batch }
    {
        let (patterns, hits) = batch.into_parts();
        let old = self.patterns.len() as u32;
        let more = patterns.len() as u32;
        let entries = hits.len() as u32;
        append(&mut self.patterns, patterns);
        self.journal.push_reserved(Entry::Publish(worker, more));
        record_hits(&mut self.verdicts, &mut self.journal, old, hits.as_slice());
        self.spare_patterns -= more;
        self.spare_entries -= entries + 1;
    }

    /// The classes that are Open or Aborted, in order, with their faults.
    pub fn undetected(&self, alloc: Global) -> Result<Left<J>, NoMemory>
        ensures { IfOk result (λ l. map (λ (p : ℕ × FaultOf). p.0) l ≡ undetected_from 0 self.now.verdicts) }
    {
        let classes = undetected_of(alloc, &self.verdicts, &self.faults)?;
        Ok(Left {
            classes,
            of: PhantomData,
        })
    }

    pub fn count(&self) -> u32
        ensures { result ≡ class_count J.subject }
    {
        self.verdicts.len() as u32
    }

    pub fn verdict(&self, class: u32) -> &Verdict
        requires { class < class_count J.subject }
        ensures { result.now ≡ verdict_at self.now.verdicts class }
    {
        &self.verdicts[class as usize]
    }

    pub fn patterns(&self) -> &[Pattern]
        ensures { result.now ≡ self.now.patterns }
    {
        &self.patterns
    }

    pub fn journal(&self) -> &[Entry]
        ensures { result.now ≡ self.now.journal }
    {
        &self.journal
    }

    /// How many classes are of each kind.
    pub fn totals(&self) -> Totals
        ensures { AreTotals self.now.verdicts result }
    {
        totals_of(&self.verdicts)
    }

    /// Whether enough is detected.
    pub fn is_enough(&self, goal: &Goal) -> bool
        ensures { IsTrue result ↔ IsEnough goal.now self.now.verdicts }
    {
        goal.enough <= detected_weight_of(&goal.weights, &self.verdicts)
    }

    /// What every event keeps, of this list.
    pub fn true_list(&self)
        ensures true_list { IsTrueList J.subject self.now }
        ensures few { class_count J.subject < 2 ^ 31 }
    {
        let _ = &self.limit;
    }

    pub fn into_parts(self) -> (Vec<Pattern>, Vec<Verdict>)
        ensures patterns { result.0.items ≡ self.patterns }
        ensures verdicts { result.1.items ≡ self.verdicts }
        ensures true_list { IsTrueList J.subject self }
    {
        let FaultList {
            verdicts,
            patterns,
            journal: _,
            taken: _,
            faults: _,
            limit: _,
            claims: _,
            spare_patterns: _,
            spare_entries: _,
            of: _,
        } = self;
        (patterns, verdicts)
    }
}

fn is_open_now(verdict: &Verdict) -> bool
    ensures { result ≡ is_open verdict.now }
{
    match verdict {
        Verdict::Open => true,
        Verdict::Detected(_, _) | Verdict::Redundant(_) | Verdict::Aborted(_) => false,
    }
}

fn has_open(nodes: &[Node]) -> bool
    ensures { (result ≡ false) ↔ (open_count nodes.now ≡ 0) }
{
    for node in nodes {
        if let Node::Open = node {
            return true;
        }
    }
    false
}

fn leaves_open(evidence: &Evidence) -> bool
    ensures { (result ≡ false) ↔ (open_ends evidence.now ≡ 0) }
{
    match evidence {
        Evidence::Tree(tree) => has_open(tree.nodes()),
        Evidence::Refutation(_) => false,
    }
}

fn ended_of(evidence: &Evidence) -> Ended
    ensures { result ≡ ended_by evidence.now }
{
    if leaves_open(evidence) {
        Ended::Aborted
    } else {
        Ended::Redundant
    }
}

fn verdict_of(evidence: Evidence) -> Verdict
    ensures { result ≡ verdict_by evidence }
{
    match evidence {
        Evidence::Tree(tree) => {
            if has_open(tree.nodes()) {
                Verdict::Aborted(tree)
            } else {
                Verdict::Redundant(Evidence::Tree(tree))
            }
        }
        Evidence::Refutation(steps) => Verdict::Redundant(Evidence::Refutation(steps)),
    }
}

fn totals_of(verdicts: &[Verdict]) -> Totals
    requires { length verdicts.now < 2 ^ 31 }
    ensures { AreTotals verdicts.now result }
{
    let mut totals = Totals {
        untried: 0,
        detected: 0,
        redundant: 0,
        aborted: 0,
    };
    for verdict in verdicts {
        match verdict {
            Verdict::Open => totals.untried += 1,
            Verdict::Detected(_, _) => totals.detected += 1,
            Verdict::Redundant(_) => totals.redundant += 1,
            Verdict::Aborted(_) => totals.aborted += 1,
        }
    }
    totals
}
