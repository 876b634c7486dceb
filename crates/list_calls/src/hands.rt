//! Shares that know how many patterns they may publish.
ghost use Rattle.std.specs.Prelude.{◌≡◌, ◌≤◌, IfOk, vec_len};
ghost use Rattle.list_core.specs.Batches.{IsTrueBatch};
ghost use Rattle.list_core.specs.States.{MaySettle};
ghost use Rattle.worker.specs.Working.{MaySearch};

use evidence::{Engine, Evidence};
use list_core::{About, Claim, Goal, Settling};
use outside::Gate;
use shared_list::{Drawn, Share, Shared};
use std::alloc::{AllocError, Global};
use std::marker::Model;
use std::sync::Wait;
use std::sync::ledger::Ledger;
use word_sim::Batch;
use worker::{Errand, work};

/// A share, and how many claims it has taken more than patterns published. Contracts see it as the share.
#[derive(Drop)]
pub struct Hand<T: Ledger, S: Ledger, P: Ledger, U: Ledger> {
    share: Share<T, S, P, U>,
    unspent: u64,
}

impl<T: Ledger, S: Ledger, P: Ledger, U: Ledger> Model for Hand<T, S, P, U> {
    ghost use Rattle.std.specs.Prelude.{◌≤◌};
    ghost use Rattle.shared_list.specs.Tally.{Tally};

    ghost Value = { Tally };

    ghost view = { λ h. h.share };

    ghost invariant = { λ h. h.unspent ≤ h.share.unspent };
}

impl<T: Ledger, S: Ledger, P: Ledger, U: Ledger> Hand<T, S, P, U> {
    fn of(share: Share<T, S, P, U>) -> Hand<T, S, P, U>
        ensures { result ≡ share }
    {
        Hand { share, unspent: 0 }
    }

    fn share(self) -> Share<T, S, P, U>
        ensures { result ≡ self }
    {
        let Hand { share, unspent: _ } = self;
        share
    }

    pub fn ended(&self) -> bool {
        self.share.ended()
    }

    pub fn take<J: About, R: Wait>(&mut self, rt: &R, shared: &Shared<J, T, S, P, U>) -> Drawn<J>
        requires { self.old.table ≡ shared.now.word.shared.table_id }
        ensures { self.new.table ≡ self.old.table }
    {
        let drawn = shared.take(rt, &mut self.share);
        if let Drawn::Claim(_) = &drawn {
            self.unspent = self.unspent.saturating_add(1);
        }
        drawn
    }

    pub fn settle<J: About, R: Wait>(
        &mut self,
        rt: &R,
        shared: &Shared<J, T, S, P, U>,
        claim: Claim<J>,
        evidence: Evidence,
    ) -> Settling<J>
        requires table { self.old.table ≡ shared.now.word.shared.table_id }
        requires shows { MaySettle J.subject claim.fault evidence }
        ensures { self.new.table ≡ self.old.table }
    {
        shared.settle(rt, &mut self.share, claim, evidence)
    }

    /// Works until there is no class, or enough is detected.
    pub fn work<J: About, E: Engine, G: Gate, R: Wait>(
        &mut self,
        errand: &Errand<'_, E, G, R>,
        shared: &Shared<J, T, S, P, U>,
        seed: u64,
        goal: Option<&Goal>,
    ) -> Result<(), AllocError>
        requires table { self.old.table ≡ shared.now.word.shared.table_id }
        requires subject { MaySearch J.subject errand.now.core.now errand.now.holds.now E.refutes }
        ensures { self.new.table ≡ self.old.table }
    {
        self.unspent = 0;
        match work(errand, shared, &mut self.share, seed, goal) {
            Ok(()) => Ok(()),
            Err(_) => Err(AllocError),
        }
    }

    /// Publishes a batch of no more patterns than are unspent. Else the batch is let go.
    pub fn publish<J: About, R: Wait>(
        &mut self,
        rt: &R,
        shared: &Shared<J, T, S, P, U>,
        batch: Batch,
    ) -> Result<bool, AllocError>
        requires table { self.old.table ≡ shared.now.word.shared.table_id }
        requires true_batch { IsTrueBatch J.subject batch }
        ensures { self.new.table ≡ self.old.table }
    {
        let patterns = batch.patterns().len() as u64;
        if patterns > self.unspent {
            return Ok(false);
        }
        self.unspent -= patterns;
        match shared.publish(rt, &mut self.share, batch) {
            Ok(()) => Ok(true),
            Err(_) => Err(AllocError),
        }
    }
}

/// Shares with no claims.
pub fn hands_of<T: Ledger, S: Ledger, P: Ledger, U: Ledger>(
    alloc: Global,
    shares: Vec<Share<T, S, P, U>>,
) -> Result<Vec<Hand<T, S, P, U>>, AllocError>
    ensures hands { IfOk result (λ v. v.items ≡ shares.items) }
    ensures len { IfOk result (λ v. vec_len v ≡ vec_len shares) }
{
    let mut hands = Vec::new(alloc);
    for share in shares {
        hands.push(Hand::of(share))?;
    }
    Ok(hands)
}

pub fn shares_of<T: Ledger, S: Ledger, P: Ledger, U: Ledger>(
    alloc: Global,
    hands: Vec<Hand<T, S, P, U>>,
) -> Result<Vec<Share<T, S, P, U>>, AllocError>
    ensures { IfOk result (λ v. vec_len v ≡ vec_len hands) }
{
    let mut shares = Vec::new(alloc);
    for hand in hands {
        shares.push(hand.share())?;
    }
    Ok(shares)
}
