//! Laws of `top`'s rows: functions that do nothing, whose contracts are the laws.
ghost use Rattle.atpg_top.specs.Checks.{RunsPass, TransitionsPass};
ghost use Rattle.atpg_top.specs.Laws.{DeclinedExactly, EachExclusive, FailedExactly, MissingExactly, NothingElse, RefusedExactly, TooLongExactly};

use check_command::{check_exclusive, good_files_checked, good_slow_files_checked};
use diagnose::one_log;
use stil_read::laws::at_most_one;

/// Words that are no command line end with status 2, for the cause that they have.
pub fn declined_exactly()
    ensures { DeclinedExactly }
{}

/// What a command owes for texts is determined, as far as its status tells.
pub fn each_exclusive()
    ensures { EachExclusive }
{
    at_most_one();
    check_exclusive();
    one_log();
}

/// A missing file ends with status 7.
pub fn missing_exactly()
    ensures { MissingExactly }
{}

/// A file that is too long ends with status 8.
pub fn too_long_exactly()
    ensures { TooLongExactly }
{}

/// Texts that are refused end with the status of their refusal.
pub fn refused_exactly()
    ensures { RefusedExactly }
{
    at_most_one();
    check_exclusive();
    one_log();
}

/// A failed call ends with status 5 or 6.
pub fn failed_exactly()
    ensures { FailedExactly }
{}

/// With nothing in the way a command ends with 0 or 1, or for want of memory with 9.
pub fn nothing_else()
    ensures { NothingElse }
{
    at_most_one();
    check_exclusive();
    one_log();
}

/// The files of a run pass the check: status 0, but for files that can't be had, an output that fails and want of memory.
pub fn runs_pass()
    ensures { RunsPass }
{
    good_files_checked();
}

/// The files of a run for slow lines pass the check likewise.
pub fn transitions_pass()
    ensures { TransitionsPass }
{
    good_slow_files_checked();
}
