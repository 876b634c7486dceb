//! The number of the status with which a program ends.
ghost use Rattle.std.specs.Prelude.{◌≡◌, ℕ};
ghost use Rattle.commands.specs.Endings.{ending_code};

use crate::ending::{Ending, Finding};

/// A reason to refuse, which has the number of a status.
pub trait StatusCode {
    /// Its number.
    ghost status: { Self → ℕ };

    fn status(&self) -> u8
        ensures { result ≡ status self.now };
}

/// The number of the status of a command that ends so.
pub fn ending_code<R: StatusCode>(ending: &Ending<'_, R>) -> u8
    ensures { result ≡ ending_code R.status ending.now }
{
    match ending {
        Ending::Ended(Finding::Fine) => 0,
        Ending::Ended(Finding::Differs) => 1,
        Ending::Refused(refusal) => refusal.status(),
        Ending::ReadFailed(_) => 5,
        Ending::WriteFailed(_) => 6,
        Ending::Missing(_) => 7,
        Ending::TooLong(_) => 8,
        Ending::Memory => 9,
    }
}
