//! How the program that only checks ends: the statuses, their numbers and their lines.
ghost use Rattle.std.specs.Prelude.{◌≡◌};
ghost use Rattle.commands.specs.Lines.{IsSaid};
ghost use Rattle.check_command.specs.Top.{CheckErrRow, check_status_code, check_refusal_code, check_refusal_line};

use crate::refusal::CheckRefusal;
use commands::{
    Ending, StatusCode, ending_code, say_failed_write, say_name, say_netlist, say_text,
};
use outside::Sink;

/// How a call ends.
#[derive(Clone, Copy)]
pub enum CheckStatus<'a> {
    /// The words are not the program's name and a prefix.
    BadWords,
    /// They are, and the check ended so.
    Command(Ending<'a, CheckRefusal>),
}

impl StatusCode for CheckRefusal {
    ghost status = { check_refusal_code };

    fn status(&self) -> u8 {
        match self {
            CheckRefusal::Netlist(_) => 3,
            CheckRefusal::NotStil => 4,
            CheckRefusal::NotCertificate => 4,
            CheckRefusal::NotReport => 4,
        }
    }
}

impl CheckStatus<'_> {
    /// The number that the program ends with.
    pub fn code(&self) -> u8
        ensures { result ≡ check_status_code self.now }
    {
        match self {
            CheckStatus::BadWords => 2,
            CheckStatus::Command(ending) => ending_code(ending),
        }
    }
}

fn say_refusal<E: Sink>(err: &mut E, refusal: &CheckRefusal)
    ensures { IsSaid E.takes_memory (check_refusal_line refusal.now) (E.taken err.old) (E.failures err.old) (E.taken err.new) (E.failures err.new) }
{
    match refusal {
        CheckRefusal::Netlist(why) => say_netlist(err, why),
        CheckRefusal::NotStil => say_text(err, b"not a stil file\n"),
        CheckRefusal::NotCertificate => say_text(err, b"not a certificate\n"),
        CheckRefusal::NotReport => say_text(err, b"not a report\n"),
    }
}

/// Says how the call ends; nothing where the files were checked.
pub(crate) fn tell<E: Sink>(err: &mut E, status: &CheckStatus<'_>)
    ensures { CheckErrRow E.takes_memory status.now (E.taken err.old) (E.failures err.old) (E.taken err.new) (E.failures err.new) }
{
    match status {
        CheckStatus::BadWords => say_text(err, b"usage: atpg-check PREFIX\n"),
        CheckStatus::Command(Ending::Ended(_)) => {}
        CheckStatus::Command(Ending::Refused(refusal)) => say_refusal(err, refusal),
        CheckStatus::Command(Ending::ReadFailed(name)) => say_name(err, b"read failed: ", name),
        CheckStatus::Command(Ending::WriteFailed(failure)) => say_failed_write(err, failure),
        CheckStatus::Command(Ending::Missing(name)) => say_name(err, b"no such file: ", name),
        CheckStatus::Command(Ending::TooLong(name)) => say_name(err, b"too long: ", name),
        CheckStatus::Command(Ending::Memory) => say_text(err, b"out of memory\n"),
    }
}
