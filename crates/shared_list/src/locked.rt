//! What lies under the lock.
ghost use Rattle.std.specs.Prelude.{◌≡◌, ℕ, ◌+◌, ◌-◌, ◌^◌, ◌<◌, ◌≤◌, true, false, [], length, sum_by, IfOk, OnOk, OnErr, IfErr, vec_len};
ghost use Rattle.list_core.specs.Subjects.{class_count};
ghost use Rattle.list_core.specs.Batches.{IsTrueBatch};
ghost use Rattle.list_core.specs.Verdicts.{verdict_at, is_open};
ghost use Rattle.list_core.specs.Journal.{one_if_take, one_if_settle, one_if_publish};
ghost use Rattle.list_core.specs.States.{IsPublished, State, may_enter, entered, settled, MaySettle, IsTrueList};
ghost use Rattle.list_core.specs.declared.verdicts.Verdict.TheVariants.{Open};
ghost use Rattle.shared_list.specs.Tally.{Tally, took, gave, spent};

use crate::share::{LedgerParts, Share};
use evidence::Evidence;
use list_core::{About, Claim, Entry, FaultList, Over, Settling};
use netlist::NoMemory;
use std::sync::ledger::{Book, Ledger};
use word_sim::Batch;

/// The list, with a book for each kind of event and one for unspent claims.
#[derive(Drop)]
pub(crate) struct Locked<J: About, T: Ledger, S: Ledger, P: Ledger, U: Ledger> {
    pub list: FaultList<J>,
    pub takes: Book<T>,
    pub settles: Book<S>,
    pub publishes: Book<P>,
    pub unspent: Book<U>,
    pub rest: LedgerParts<T, S, P, U>,
    ghost rest_parts: { (rest.takes.parts ≡ 0) × (rest.settles.parts ≡ 0) × (rest.publishes.parts ≡ 0) × (rest.unspent.parts ≡ 0) },
    ghost rest_amounts: { (rest.takes.amount ≡ 0) × (rest.settles.amount ≡ 0) × (rest.publishes.amount ≡ 0) × (rest.unspent.amount ≡ 0) },
    ghost no_claims: { list.claims ≡ 0 },
    ghost taken: { takes.total ≡ sum_by one_if_take list.journal },
    ghost settled: { settles.total ≡ sum_by one_if_settle list.journal },
    ghost published: { publishes.total ≡ sum_by one_if_publish list.journal },
    ghost spent: { length list.patterns + unspent.total ≡ takes.total },
}

impl<J: About, T: Ledger, S: Ledger, P: Ledger, U: Ledger> Locked<J, T, S, P, U> {
    ghost use Rattle.list_core.specs.Outcomes.{MatchSettling};

    /// One hold: the class is entered.
    pub fn enter(&mut self, share: &mut Share<T, S, P, U>, class: u32) -> Result<Claim<J>, Over<J>>
        requires { class < class_count J.subject }
        ensures claim { IfOk result (λ c. (may_enter self.old.list class ≡ true) × (c.class ≡ class) × (c.worker ≡ share.old.worker) × (self.new.list ≡ entered self.old.list share.old.worker class) × (share.new ≡ took share.old)) }
        ensures over { IfErr result (λ o. (may_enter self.old.list class ≡ false) × (o.class ≡ class) × (o.entered ≡ true) × (self.new.list ≡ self.old.list) × (share.new ≡ share.old)) }
    {
        match self.list.enter(share.worker, class) {
            Ok(claim) => {
                self.takes.add(&mut share.takes, 1);
                self.unspent.add(&mut share.unspent, 1);
                Ok(claim)
            }
            Err(over) => Err(over),
        }
    }

    pub fn settle(
        &mut self,
        share: &mut Share<T, S, P, U>,
        claim: Claim<J>,
        evidence: Evidence,
    ) -> Settling<J>
        requires { MaySettle J.subject claim.fault evidence }
        ensures { MatchSettling result
            ((verdict_at self.old.list.verdicts claim.class ≡ Open) × (self.new.list ≡ settled self.old.list claim.worker claim.class evidence) × (share.new ≡ gave share.old))
            (λ e class is_entered. (is_open (verdict_at self.old.list.verdicts claim.class) ≡ false) × (self.new.list ≡ self.old.list) × (e ≡ evidence) × (class ≡ claim.class) × (is_entered ≡ false) × (share.new ≡ share.old)) }
    {
        match self.list.settle(claim, evidence) {
            Settling::Settled => {
                self.settles.add(&mut share.settles, 1);
                Settling::Settled
            }
            Settling::Already(evidence, over) => Settling::Already(evidence, over),
        }
    }

    /// Room is made first, so that where memory is refused nothing is published.
    pub fn publish(
        &mut self,
        share: &mut Share<T, S, P, U>,
        batch: Batch,
    ) -> Result<(), (NoMemory, Batch)>
        requires true_batch { IsTrueBatch J.subject batch }
        requires unspent { length batch.patterns ≤ share.old.unspent }
        ensures ok { OnOk result (IsPublished self.old.list share.old.worker batch self.new.list × (share.new ≡ spent share.old (length batch.patterns))) }
        ensures err { IfErr result (λ e. (e.1 ≡ batch) × (self.new.list ≡ self.old.list) × (share.new ≡ share.old)) }
    {
        self.list.true_list();
        self.unspent.audit(&mut share.unspent);
        let patterns = batch.patterns().len();
        let hits = batch.hits().len();
        match self.list.reserve(patterns as u32, hits as u32 + 1) {
            Ok(()) => {
                self.list.publish(share.worker, batch);
                self.publishes.add(&mut share.publishes, 1);
                self.unspent.sub(&mut share.unspent, patterns as u64);
                Ok(())
            }
            Err(NoMemory) => Err((NoMemory, batch)),
        }
    }

    /// The list, and the numbers of its events, once all shares are back.
    pub fn ended(self, shares: Vec<Share<T, S, P, U>>) -> (FaultList<J>, Events)
        requires all { (vec_len shares ≡ T.parts) × (vec_len shares ≡ S.parts) × (vec_len shares ≡ P.parts) × (vec_len shares ≡ U.parts) }
        ensures list { result.0 ≡ self.list }
        ensures takes { (result.1.takes ≡ sum_by (λ (t : Tally). t.takes) shares.items) × (result.1.takes ≡ sum_by one_if_take result.0.journal) }
        ensures settles { (result.1.settles ≡ sum_by (λ (t : Tally). t.settles) shares.items) × (result.1.settles ≡ sum_by one_if_settle result.0.journal) }
        ensures publishes { (result.1.publishes ≡ sum_by (λ (t : Tally). t.publishes) shares.items) × (result.1.publishes ≡ sum_by one_if_publish result.0.journal) }
        ensures unspent { length result.0.patterns + sum_by (λ (t : Tally). t.unspent) shares.items ≡ result.1.takes }
        ensures no_claims { result.0.claims ≡ 0 }
        ensures true_list { IsTrueList J.subject result.0 }
    {
        let Locked {
            list,
            mut takes,
            mut settles,
            mut publishes,
            mut unspent,
            mut rest,
        } = self;
        list.true_list();
        join_all(&mut rest, shares);
        takes.audit(&mut rest.takes);
        settles.audit(&mut rest.settles);
        publishes.audit(&mut rest.publishes);
        unspent.audit(&mut rest.unspent);
        let events = events_of(list.journal());
        (list, events)
    }
}

/// Counts the entries, kind by kind.
fn events_of(journal: &[Entry]) -> Events
    ensures takes { result.takes ≡ sum_by one_if_take journal.now }
    ensures settles { result.settles ≡ sum_by one_if_settle journal.now }
    ensures publishes { result.publishes ≡ sum_by one_if_publish journal.now }
{
    let mut takes: u64 = 0;
    let mut settles: u64 = 0;
    let mut publishes: u64 = 0;
    for entry in journal {
        match entry {
            Entry::Take(_, _) => takes += 1,
            Entry::Settle(_, _, _) => settles += 1,
            Entry::Publish(_, _) => publishes += 1,
            Entry::Hit(_, _, _) => {}
        }
    }
    Events {
        takes,
        settles,
        publishes,
    }
}

fn join_all<T: Ledger, S: Ledger, P: Ledger, U: Ledger>(
    rest: &mut LedgerParts<T, S, P, U>,
    shares: Vec<Share<T, S, P, U>>,
)
    requires parts { (rest.old.takes.parts ≡ 0) × (rest.old.settles.parts ≡ 0) × (rest.old.publishes.parts ≡ 0) × (rest.old.unspent.parts ≡ 0) }
    requires idle { (rest.old.takes.amount ≡ 0) × (rest.old.settles.amount ≡ 0) × (rest.old.publishes.amount ≡ 0) × (rest.old.unspent.amount ≡ 0) }
    ensures parts { (rest.new.takes.parts ≡ vec_len shares) × (rest.new.settles.parts ≡ vec_len shares) × (rest.new.publishes.parts ≡ vec_len shares) × (rest.new.unspent.parts ≡ vec_len shares) }
    ensures amounts { (rest.new.takes.amount ≡ sum_by (λ (t : Tally). t.takes) shares.items) × (rest.new.settles.amount ≡ sum_by (λ (t : Tally). t.settles) shares.items) × (rest.new.publishes.amount ≡ sum_by (λ (t : Tally). t.publishes) shares.items) × (rest.new.unspent.amount ≡ sum_by (λ (t : Tally). t.unspent) shares.items) }
{
    for share in shares {
        rest.join(share);
    }
}

/// How many events of each kind the journal has: the sums of what the shares counted.
#[derive(Clone, Copy, PartialEq, Eq)]
pub struct Events {
    pub takes: u64,
    pub settles: u64,
    pub publishes: u64,
}
