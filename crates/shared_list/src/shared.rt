//! The list behind one lock.
//!
//! One mutex over the whole list, and a word beside it from which classes are drawn with no lock (`draws`). Each call is one hold, so every run
//! of many workers is a sequence of holds, and the list's invariant is all that one has to keep. A search takes far longer than a hold, and
//! patterns come 64 at a time. A lock for each class, or a list for each worker that is joined at the end, would need a rule for classes that
//! two workers settle.
//!
//! A contract can't say what others did to a locked value meanwhile. Ledgers do: a share counts its holder's events, the books under the lock
//! have the sums, and these are the numbers of the journal's events.
ghost use Rattle.std.specs.Prelude.{◌≡◌, ℕ, ◌+◌, ◌-◌, ◌^◌, ◌<◌, ◌≤◌, true, false, [], length, sum_by, IfOk, OnOk, OnErr, IfErr, vec_len};
ghost use Rattle.plain_text.specs.Limits.{most_workers};
ghost use Rattle.list_core.specs.Subjects.{class_count};
ghost use Rattle.list_core.specs.Batches.{IsTrueBatch};
ghost use Rattle.list_core.specs.Journal.{one_if_take, one_if_settle, one_if_publish};
ghost use Rattle.list_core.specs.States.{State, MaySettle, IsTrueList};
ghost use Rattle.shared_list.specs.Tally.{Tally, idle_from, drew, took, stopped, gave, spent};
ghost use Rattle.shared_list.specs.Outcomes.{IsDraw, IsNone};

use crate::draws::{Drawer, Word, another, open};
use crate::locked::{Events, Locked};
use crate::share::{LedgerParts, Share};
use evidence::Evidence;
use list_core::{About, Claim, FaultList, Goal, Left, Over, Settling, Verdict};
use netlist::NoMemory;
use std::alloc::{AllocError, Global};
use std::sync::ledger::{Blank, Ledger};
use std::sync::{Mutex, Wait};
use word_sim::Batch;

/// What a take answers.
#[derive(Drop)]
pub enum Drawn<J: About> {
    Claim(Claim<J>),
    /// The class that was drawn is taken, or has its verdict.
    Gone(Over<J>),
    /// The share has ended.
    None,
}

/// The list behind its lock, and the word from which workers draw their classes.
#[derive(Drop)]
pub struct Shared<J: About, T: Ledger, S: Ledger, P: Ledger, U: Ledger> {
    lock: Mutex<Locked<J, T, S, P, U>>,
    word: Word,
    classes: u32,
    ghost one_word: { word.shared.table_id.words ≡ 1 },
    ghost classes_are: { classes ≡ class_count J.subject },
}

impl<J: About, T: Ledger, S: Ledger, P: Ledger, U: Ledger> Shared<J, T, S, P, U> {
    ghost use Rattle.shared_list.specs.Outcomes.{MatchSettling, MatchDrawn};

    /// The list goes behind the lock, and each worker gets a share.
    pub fn new(
        alloc: Global,
        list: FaultList<J>,
        workers: u32,
        takes: Blank,
        settles: Blank,
        publishes: Blank,
        unspent: Blank,
    ) -> Result<(Shared<J, T, S, P, U>, Vec<Share<T, S, P, U>>), NoMemory>
        requires empty { list.journal ≡ [] }
        requires workers { (0 < workers) × (workers ≤ most_workers) }
        requires takes { (takes.name ≡ T.name) × (takes.parts ≡ T.parts) × (T.parts ≡ workers) }
        requires settles { (settles.name ≡ S.name) × (settles.parts ≡ S.parts) × (S.parts ≡ workers) }
        requires publishes { (publishes.name ≡ P.name) × (publishes.parts ≡ P.parts) × (P.parts ≡ workers) }
        requires unspent { (unspent.name ≡ U.name) × (unspent.parts ≡ U.parts) × (U.parts ≡ workers) }
        ensures idle { IfOk result (λ r. r.1.items ≡ idle_from r.0.word.shared.table_id 0 workers) }
        ensures len { IfOk result (λ r. vec_len r.1 ≡ workers) }
    {
        list.true_list();
        let classes = list.count();
        let (word, mut seat) = open(alloc)?;
        let (take_book, take_parts) = takes.open::<T>();
        let (settle_book, settle_parts) = settles.open::<S>();
        let (publish_book, publish_parts) = publishes.open::<P>();
        let (unspent_book, unspent_parts) = unspent.open::<U>();
        let mut rest = LedgerParts {
            takes: take_parts,
            settles: settle_parts,
            publishes: publish_parts,
            unspent: unspent_parts,
        };
        let shares = cut_all(alloc, &mut rest, &word, &mut seat, workers)?;
        let locked = Locked {
            list,
            takes: take_book,
            settles: settle_book,
            publishes: publish_book,
            unspent: unspent_book,
            rest,
        };
        Ok((
            Shared {
                lock: Mutex::new(locked),
                word,
                classes,
            },
            shares,
        ))
    }

    /// The list, and the numbers of its events.
    pub fn into_list(self, shares: Vec<Share<T, S, P, U>>) -> (FaultList<J>, Events)
        requires all { (vec_len shares ≡ T.parts) × (vec_len shares ≡ S.parts) × (vec_len shares ≡ P.parts) × (vec_len shares ≡ U.parts) }
        ensures takes { (result.1.takes ≡ sum_by (λ (t : Tally). t.takes) shares.items) × (result.1.takes ≡ sum_by one_if_take result.0.journal) }
        ensures settles { (result.1.settles ≡ sum_by (λ (t : Tally). t.settles) shares.items) × (result.1.settles ≡ sum_by one_if_settle result.0.journal) }
        ensures publishes { (result.1.publishes ≡ sum_by (λ (t : Tally). t.publishes) shares.items) × (result.1.publishes ≡ sum_by one_if_publish result.0.journal) }
        ensures unspent { length result.0.patterns + sum_by (λ (t : Tally). t.unspent) shares.items ≡ result.1.takes }
        ensures few { length result.0.patterns ≤ class_count J.subject }
        ensures no_claims { result.0.claims ≡ 0 }
        ensures true_list { IsTrueList J.subject result.0 }
    {
        let Shared {
            lock,
            word: _,
            classes: _,
        } = self;
        lock.into_inner().ended(shares)
    }

    /// One draw, and for a class drawn one hold of the lock.
    pub fn take(&self, rt: &impl Wait, share: &mut Share<T, S, P, U>) -> Drawn<J>
        requires { share.old.table ≡ self.now.word.shared.table_id }
        ensures { MatchDrawn result
            (λ worker class. IsDraw (class_count J.subject) share.old class × (worker ≡ share.old.worker) × (share.new ≡ took (drew share.old class)))
            (λ class is_entered. IsDraw (class_count J.subject) share.old class × (is_entered ≡ true) × (share.new ≡ drew share.old class))
            (IsNone (class_count J.subject) share.old share.new) }
    {
        if share.ended {
            return Drawn::None;
        }
        let Some(class) = share.draw_class(&self.word, self.classes) else {
            return Drawn::None;
        };
        match self.lock.lock(rt).enter(share, class) {
            Ok(claim) => Drawn::Claim(claim),
            Err(over) => Drawn::Gone(over),
        }
    }

    /// One hold of the lock.
    pub fn settle(
        &self,
        rt: &impl Wait,
        share: &mut Share<T, S, P, U>,
        claim: Claim<J>,
        evidence: Evidence,
    ) -> Settling<J>
        requires table { share.old.table ≡ self.now.word.shared.table_id }
        requires shows { MaySettle J.subject claim.fault evidence }
        ensures { MatchSettling result (share.new ≡ gave share.old) (λ e class is_entered. (e ≡ evidence) × (class ≡ claim.class) × (is_entered ≡ false) × (share.new ≡ share.old)) }
    {
        self.lock.lock(rt).settle(share, claim, evidence)
    }

    /// One hold of the lock.
    pub fn publish(
        &self,
        rt: &impl Wait,
        share: &mut Share<T, S, P, U>,
        batch: Batch,
    ) -> Result<(), (NoMemory, Batch)>
        requires table { share.old.table ≡ self.now.word.shared.table_id }
        requires true_batch { IsTrueBatch J.subject batch }
        requires unspent { length batch.patterns ≤ share.old.unspent }
        ensures ok { OnOk result (share.new ≡ spent share.old (length batch.patterns)) }
        ensures err { IfErr result (λ e. (e.1 ≡ batch) × (share.new ≡ share.old)) }
    {
        self.lock.lock(rt).publish(share, batch)
    }

    /// One hold of the lock.
    pub fn undetected(&self, rt: &impl Wait, alloc: Global) -> Result<Left<J>, NoMemory> {
        self.lock.lock(rt).list.undetected(alloc)
    }

    /// How many classes there are.
    pub fn count(&self) -> u32
        ensures { result ≡ class_count J.subject }
    {
        self.classes
    }

    /// Whether the class has no verdict yet. One hold of the lock.
    pub fn is_open(&self, rt: &impl Wait, class: u32) -> bool
        requires { class < class_count J.subject }
    {
        matches!(self.lock.lock(rt).list.verdict(class), Verdict::Open)
    }

    /// The class behind the next so many that are open, from this one on; the number of classes where there are fewer. One hold of the lock.
    pub fn behind(&self, rt: &impl Wait, from: u32, open: u32) -> u32 {
        behind_open(&self.lock.lock(rt).list, from, open)
    }

    /// Whether enough is detected. One hold of the lock.
    pub fn is_enough(&self, rt: &impl Wait, goal: &Goal) -> bool {
        self.lock.lock(rt).list.is_enough(goal)
    }
}

/// The class behind the next so many that are open, from this one on.
fn behind_open<J: About>(list: &FaultList<J>, from: u32, open: u32) -> u32 {
    let mut found = 0u32;
    for class in from..list.count() {
        if found == open {
            return class;
        }
        let is_open = matches!(list.verdict(class), Verdict::Open);
        found = found.wrapping_add(is_open as u32);
    }
    list.count()
}

/// A share for each worker.
fn cut_all<T: Ledger, S: Ledger, P: Ledger, U: Ledger>(
    alloc: Global,
    rest: &mut LedgerParts<T, S, P, U>,
    word: &Word,
    seat: &mut Drawer,
    workers: u32,
) -> Result<Vec<Share<T, S, P, U>>, AllocError>
    requires seat { (seat.old.table_id ≡ word.now.shared.table_id) × (word.now.shared.table_id.words ≡ 1) }
    requires parts { (rest.old.takes.parts ≡ workers) × (rest.old.settles.parts ≡ workers) × (rest.old.publishes.parts ≡ workers) × (rest.old.unspent.parts ≡ workers) }
    requires idle { (rest.old.takes.amount ≡ 0) × (rest.old.settles.amount ≡ 0) × (rest.old.publishes.amount ≡ 0) × (rest.old.unspent.amount ≡ 0) }
    ensures shares { IfOk result (λ v. v.items ≡ idle_from word.now.shared.table_id 0 workers) }
    ensures len { IfOk result (λ v. vec_len v ≡ workers) }
    ensures parts { OnOk result ((rest.new.takes.parts ≡ 0) × (rest.new.settles.parts ≡ 0) × (rest.new.publishes.parts ≡ 0) × (rest.new.unspent.parts ≡ 0)) }
    ensures idle { OnOk result ((rest.new.takes.amount ≡ 0) × (rest.new.settles.amount ≡ 0) × (rest.new.publishes.amount ≡ 0) × (rest.new.unspent.amount ≡ 0)) }
{
    let mut shares = Vec::new(alloc);
    for w in 0..workers {
        let drawer = another(word, seat);
        shares.push(rest.cut(w, drawer))?;
    }
    Ok(shares)
}
