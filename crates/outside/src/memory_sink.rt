//! Bytes in memory whose taking fails at given calls.
ghost use Rattle.std.specs.Prelude.{◌≡◌, [], Some, IfOk, true};
ghost use Rattle.outside.specs.Causes.{HasWriteCause};
ghost use Rattle.outside.specs.Memory.{PutsAsPlanned};
ghost use Rattle.outside.specs.Plan.{after_call, begun, next_failure};
ghost use Rattle.outside.specs.Sink.{Gains};

use crate::failing::FailingCalls;
use crate::{FailingCall, Sink, WriteRefusal};
use std::alloc::{AllocError, Global};
use std::marker::Model;

/// Bytes in memory whose taking fails at given calls.
#[derive(Drop)]
pub struct MemorySink {
    bytes: Vec<u8>,
    calls: FailingCalls,
    failures: u64,
}

impl Model for MemorySink {
    ghost use Rattle.outside.specs.Memory.{SinkInMemory};

    ghost Value = { SinkInMemory };

    ghost view = { λ a. record { bytes = a.bytes.items; plan = a.calls; failures = a.failures } };
}

impl MemorySink {
    /// A sink that has taken nothing. The calls in `failing` fail.
    pub fn new(alloc: Global, failing: &[FailingCall]) -> Result<MemorySink, AllocError>
        ensures { IfOk result (λ sink. sink ≡ record { bytes = []; plan = begun failing.now; failures = 0 }) }
    {
        Ok(MemorySink {
            bytes: Vec::new(alloc),
            calls: FailingCalls::new(alloc, failing)?,
            failures: 0,
        })
    }

    /// The bytes that it has taken.
    pub fn bytes(&self) -> &[u8]
        ensures { result.now ≡ self.now.bytes }
    {
        self.bytes.as_slice()
    }

    /// How many times it was given bytes.
    pub fn calls(&self) -> u64
        ensures { result ≡ self.now.plan.made }
    {
        self.calls.made()
    }

    /// How many of these calls have failed.
    pub fn failures(&self) -> u64
        ensures { result ≡ self.now.failures }
    {
        self.failures
    }
}

impl Sink for MemorySink {
    ghost taken = { λ sink. Some sink.bytes };

    ghost failures = { λ sink. sink.failures };

    ghost takes_memory = { true };

    fn put(&mut self, bytes: &[u8]) -> Result<(), WriteRefusal>
        ensures told { Gains self.old.bytes self.new.bytes bytes.now result }
        ensures cause { HasWriteCause self.old.failures self.new.failures result }

        // It fails at the calls of the plan, and at no other, and keeps what the plan says.
        ensures planned { PutsAsPlanned (next_failure self.old.plan) self.old.bytes self.new.bytes bytes.now result }
        ensures counted { self.new.plan ≡ after_call self.old.plan }
    {
        match self.calls.next_call() {
            Some(call) => {
                let part = &bytes[..call.kept.min(bytes.len())];
                if self.bytes.extend_from_slice(part).is_err() {
                    return Err(WriteRefusal::NoMemory);
                }
                self.failures = self.failures.saturating_add(1);
                Err(WriteRefusal::Failed)
            }
            None => match self.bytes.extend_from_slice(bytes) {
                Ok(()) => Ok(()),
                Err(_) => Err(WriteRefusal::NoMemory),
            },
        }
    }
}
