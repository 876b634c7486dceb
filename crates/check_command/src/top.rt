//! A program that checks and does nothing else, as one call: the words to a prefix, the check, the status.
ghost use Rattle.std.specs.Prelude.{◌≡◌, map, option_map};
ghost use Rattle.std.specs.String.{string_bytes};
ghost use Rattle.commands.specs.World.{world};
ghost use Rattle.check_command.specs.Top.{CheckErrRow, CheckTopRow, check_status_code, prefix_in};
ghost use Rattle.check_command.specs.declared.status.CheckStatus.{CheckStatus};

use crate::command::check_prefix;
use crate::status::{CheckStatus, tell};
use outside::{Shelf, Sink};
use std::alloc::Global;

/// The prefix, where the words are the program's name and one more.
fn prefix_of(words: &[String]) -> Option<&str>
    ensures { option_map (λ t. t.now) result ≡ prefix_in (map string_bytes words.now) }
{
    if words.len() == 2 {
        Some(words[1].as_str())
    } else {
        None
    }
}

/// Says how the call ends, and answers the status's number.
fn end<E: Sink>(err: &mut E, status: &CheckStatus<'_>) -> u8
    ensures code { result ≡ check_status_code status.now }
    ensures told { CheckErrRow E.takes_memory status.now (E.taken err.old) (E.failures err.old) (E.taken err.new) (E.failures err.new) }
{
    tell(err, status);
    status.code()
}

/// Checks the five files of the prefix that the words give, the first word being the program's name, and answers the status that the
/// program ends with. No line of the error output changes it.
pub fn check_top<S: Shelf, T: Sink, E: Sink>(
    alloc: Global,
    words: &[String],
    shelf: &mut S,
    out: &mut T,
    err: &mut E,
) -> u8
    ensures { (s : CheckStatus) × (result ≡ check_status_code s)
        × CheckTopRow (map string_bytes words.now)
        (world (S.files shelf.old) (S.failures shelf.old) (T.taken out.old) (T.failures out.old))
        (world (S.files shelf.new) (S.failures shelf.new) (T.taken out.new) (T.failures out.new)) s
        × CheckErrRow E.takes_memory s (E.taken err.old) (E.failures err.old) (E.taken err.new) (E.failures err.new) }
{
    match prefix_of(words) {
        Some(prefix) => {
            let ending = check_prefix(alloc, shelf, out, prefix);
            end(err, &CheckStatus::Command(ending))
        }
        None => end(err, &CheckStatus::BadWords),
    }
}
