//! A writer of the system, as the standard output.
ghost use Rattle.std.specs.Prelude.{◌≡◌, ◌≢◌, Err, false};
ghost use Rattle.outside.specs.Causes.{HasWriteCause};
ghost use Rattle.outside.specs.Sink.{Puts};

use crate::stream::write_whole;
use crate::{Sink, WriteRefusal};
use std::io::Write;
use std::marker::Model;

/// A writer of the system, as the standard output or the standard error.
///
/// It tells the bytes that its writer tells. The standard output and error tell none, since no
/// contract can say what a system keeps.
#[derive(Drop)]
pub struct OutSink<W: Write> {
    writer: W,
    failures: u64,
}

impl<W: Write> Model for OutSink<W> {
    ghost use Rattle.outside.specs.Out.{OutState};

    ghost Value = { OutState };

    ghost view = { λ a. record { taken = W.contents a.writer; failures = a.failures } };
}

impl<W: Write> OutSink<W> {
    /// A sink that has not failed yet.
    pub fn new(writer: W) -> OutSink<W>
        ensures { result ≡ record { taken = W.contents writer; failures = 0 } }
    {
        OutSink {
            writer,
            failures: 0,
        }
    }

    /// How many times taking bytes has failed.
    pub fn failures(&self) -> u64
        ensures { result ≡ self.now.failures }
    {
        self.failures
    }
}

impl<W: Write> Sink for OutSink<W> {
    ghost taken = { λ sink. sink.taken };

    ghost failures = { λ sink. sink.failures };

    ghost takes_memory = { false };

    fn put(&mut self, bytes: &[u8]) -> Result<(), WriteRefusal>
        ensures told { Puts self.old.taken self.new.taken bytes.now result }
        ensures cause { HasWriteCause self.old.failures self.new.failures result }

        // It takes no memory.
        ensures unrefused { result ≢ Err WriteRefusal.NoMemory }
    {
        if write_whole(&mut self.writer, bytes) {
            return Ok(());
        }
        self.failures = self.failures.saturating_add(1);
        Err(WriteRefusal::Failed)
    }
}
