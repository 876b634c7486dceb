//! Which calls of a shelf or a sink in memory are to fail.
ghost use Rattle.std.specs.Prelude.{◌≡◌, ◌==◌, IfOk, find};

use std::alloc::{AllocError, Global};
use std::marker::Model;

/// A call of a shelf or a sink in memory that a test wants to fail.
#[derive(Clone, Copy, PartialEq, Eq)]
pub struct FailingCall {
    /// Its number. The first call is 1, and reads and writes are counted together.
    pub number: u64,
    /// How many bytes a write does before it fails. A read has no use for it.
    pub kept: usize,
}

/// The calls that are to fail, and how many have been made.
#[derive(Drop)]
pub(crate) struct FailingCalls {
    failing: Vec<FailingCall>,
    made: u64,
}

impl Model for FailingCalls {
    ghost use Rattle.outside.specs.Plan.{Plan};

    ghost Value = { Plan };

    ghost view = { λ a. record { failing = a.failing.items; made = a.made } };
}

/// The first failing call of this number.
fn failure_at(failing: &[FailingCall], number: u64) -> Option<FailingCall>
    ensures { result ≡ find (λ call. call.number == number) failing.now }
{
    failing.iter().find(|call| call.number == number).copied()
}

impl FailingCalls {
    ghost use Rattle.outside.specs.Plan.{begun, after_call, next_failure};

    pub(crate) fn new(alloc: Global, failing: &[FailingCall]) -> Result<FailingCalls, AllocError>
        ensures { IfOk result (λ calls. calls ≡ begun failing.now) }
    {
        Ok(FailingCalls {
            failing: Vec::from_slice(alloc, failing)?,
            made: 0,
        })
    }

    /// Counts a call, and answers how it fails if it is to.
    pub(crate) fn next_call(&mut self) -> Option<FailingCall>
        ensures counted { self.new ≡ after_call self.old }
        ensures failure { result ≡ next_failure self.old }
    {
        self.made = self.made.saturating_add(1);
        failure_at(&self.failing, self.made)
    }

    pub(crate) fn made(&self) -> u64
        ensures { result ≡ self.now.made }
    {
        self.made
    }
}
