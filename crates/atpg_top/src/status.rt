//! How a call ends: the statuses and their numbers.
ghost use Rattle.std.specs.Prelude.{◌≡◌};
ghost use Rattle.atpg_top.specs.Lines.{status_code, ending_code, refusal_code};

use command_steps::Refusal;
use commands::{Ending, FileName, Finding};

/// How a call ends.
#[derive(Clone, Copy)]
pub enum Status<'a> {
    /// The words are no command line. The text is for the user.
    BadWords { text: &'a str },
    /// They would be one, but for the list of held inputs.
    BadHold,
    /// They would be one, but the files written would have no names of their own.
    BadPrefix { prefix: &'a str },
    /// They would be one, but this file, which they read, would be written over.
    WritesOver { name: FileName<'a> },
    /// They are, and the command ended so.
    Command(Ending<'a, Refusal>),
}

fn refusal_code(refusal: &Refusal) -> u8
    ensures { result ≡ refusal_code refusal.now }
{
    match refusal {
        Refusal::Netlist(_) => 3,
        Refusal::Order(_) => 4,
        Refusal::NoSuchFault => 2,
        Refusal::NoSuchInput(_) => 2,
        Refusal::NotStil => 4,
        Refusal::NotCertificate => 4,
        Refusal::NotReport => 4,
        Refusal::NotLog => 4,
        Refusal::NoFaultAt(_) => 4,
        Refusal::StilDoesNotFit => 4,
    }
}

fn ending_code(ending: &Ending<'_, Refusal>) -> u8
    ensures { result ≡ ending_code ending.now }
{
    match ending {
        Ending::Ended(Finding::Fine) => 0,
        Ending::Ended(Finding::Differs) => 1,
        Ending::Refused(refusal) => refusal_code(refusal),
        Ending::ReadFailed(_) => 5,
        Ending::WriteFailed(_) => 6,
        Ending::Missing(_) => 7,
        Ending::TooLong(_) => 8,
        Ending::Memory => 9,
    }
}

impl Status<'_> {
    /// The number that the program ends with.
    pub fn code(&self) -> u8
        ensures { result ≡ status_code self.now }
    {
        match self {
            Status::BadWords { .. } => 2,
            Status::BadHold => 2,
            Status::BadPrefix { .. } => 2,
            Status::WritesOver { .. } => 2,
            Status::Command(ending) => ending_code(ending),
        }
    }
}
