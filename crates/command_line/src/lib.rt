//! The command line: what the program's words ask for, exactly by `clap`'s rule over a table of
//! commands.
//!
//! `clap_table` builds the table for `clap`, `values` reads single values, `requests` makes of what
//! `clap` found a request, `files` looks at the names of its files.
//!
//! Gives: `parse`, `Request`, `grade_name`, `scan_reads`, `run_reads`.
//! Proved: `parse`: exactly the request that clap's rule gives over the table, with exactly the list of held inputs, or why there is none: exactly where
//! files would be nameless, and where one that is read would be written over; `nothing_written_over`: no command line writes a file that it reads.
//! Tested: clap's texts.
#![tactic(auto)]

ghost use Rattle.std.specs.Prelude.{◌≡◌, Ok, IfOk, IfErr, map};
ghost use Rattle.std.specs.String.{string_bytes};
ghost use Rattle.clap.specs.Words.{FailsBy, kind_of, subcommand_of, subcommand_rows_of};
ghost use Rattle.clap.specs.Faults.{fault_of};
ghost use Rattle.command_line.specs.Table.{command_table};
ghost use Rattle.command_line.specs.CommandLine.{IsInRange, command_line, command_line_of};
ghost use Rattle.command_line.specs.Refusals.{IsUsageError};
ghost use Rattle.command_line.specs.inner.Errors.{BecomesRefusal, IsBadWords, IsMadeOf};

mod clap_table;
mod files;
mod holds;
mod laws;
mod requests;
mod values;

use clap::error::ErrorKind;
use clap::{ArgMatches, Error};
use clap_table::table;
use commands::FileName;
use files::with_files;
pub use files::{grade_name, run_reads, scan_reads};
pub use holds::Held;
pub use laws::nothing_written_over;
pub use requests::{
    DiagnoseOptions, EngineName, Request, RunNames, RunOptions, SearchNumbers, SlowOptions,
    TreeEngine,
};
use requests::{NoRequest, request_of};
use std::alloc::Global;

/// Why the words are no request.
#[derive(Drop)]
pub enum WordsRefusal<'a> {
    /// They are no command line of the table. The text is for the user, its last line ended: what
    /// is wrong and how to get help, or the help or version that was asked for.
    BadWords(String),
    /// They would be one, but for the list of held inputs.
    BadHold,
    /// They would be one, but the files written would have no names of their own, only this prefix.
    BadPrefix(&'a str),
    /// They would be one, but this file, which they read, would be written over.
    WritesOver(FileName<'a>),
    NoMemory,
}

// Of numbers that `clap` takes and the table doesn't, as `+5` and `05`.
const BAD_NUMBER: &str = "\
error: a number is written in decimal digits, without a sign or a leading zero

For more information, try '--help'.
";

// Of engines that aren't there.
const BAD_ENGINE: &str = "\
error: the engine is podem, fan or clauses, and then, behind podem or fan alone, clauses

For more information, try '--help'.
";

// Of an order that has chains of its own.
const BAD_ORDER: &str = "\
error: --order says how many chains there are, so that --chains can't be given beside it

For more information, try '--help'.
";

fn matches<'a>(alloc: Global, words: &'a [String]) -> Result<ArgMatches<'a>, Error>
    ensures rows { IfOk result (λ m. subcommand_rows_of m
        ≡ subcommand_of command_table (map string_bytes words.entry.now)) }
    ensures kinds { FailsBy (fault_of command_table (map string_bytes words.entry.now)) result }
{
    let table = table(alloc)?;
    table.try_get_matches_from(words)
}

fn refusal<'a>(alloc: Global, error: &Error) -> WordsRefusal<'a>
    ensures { IsMadeOf (kind_of error.now) result }
{
    match format!(in alloc; "{error}") {
        Ok(text) => match error.kind() {
            ErrorKind::OutOfMemory => WordsRefusal::NoMemory,
            _ => WordsRefusal::BadWords(text),
        },
        Err(_) => WordsRefusal::NoMemory,
    }
}

// The words are no command line, and this is the text for the user.
fn bad_words<'a>(alloc: Global, text: &str) -> WordsRefusal<'a>
    ensures { IsBadWords result }
{
    match String::from_str(alloc, text) {
        Ok(text) => WordsRefusal::BadWords(text),
        Err(_) => WordsRefusal::NoMemory,
    }
}

// Why values make no request.
fn refusal_of<'a>(alloc: Global, none: NoRequest) -> WordsRefusal<'a>
    ensures { BecomesRefusal none result }
{
    match none {
        NoRequest::BadNumber => bad_words(alloc, BAD_NUMBER),
        NoRequest::BadEngine => bad_words(alloc, BAD_ENGINE),
        NoRequest::BadOrder => bad_words(alloc, BAD_ORDER),
        NoRequest::BadHold => WordsRefusal::BadHold,
        NoRequest::NoMemory => WordsRefusal::NoMemory,
    }
}

/// What the words ask for. The first word is the program's name.
pub fn parse<'a>(alloc: Global, words: &'a [String]) -> Result<Request<'a>, WordsRefusal<'a>>
    ensures request { IfOk result (λ request.
        command_line (map string_bytes words.entry.now) ≡ Ok (command_line_of request)) }
    ensures in_range { IfOk result IsInRange }
    ensures refusal { IfErr result (IsUsageError (map string_bytes words.entry.now)) }
{
    let found = match matches(alloc, words) {
        Ok(found) => found,
        Err(error) => return Err(refusal(alloc, &error)),
    };
    match request_of(alloc, &found) {
        Ok(request) => with_files(alloc, request),
        Err(none) => Err(refusal_of(alloc, none)),
    }
}
