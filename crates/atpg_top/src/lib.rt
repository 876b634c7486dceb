//! All that the program does, as one call: the words to a request, the reads, the work, the writes,
//! the output.
//!
//! Each status has its cause in the contract of `top`, and says what then stands. What a command
//! line reads, writes and owes is one table (`specs/Commands.antt`); how it can end is the table of
//! `commands`, the same for all.
//!
//! Gives: `top`, the whole program as one call.
//! Proved: `top`: every status has its cause and says what stands. 0 means, of `scan`: the canonical text of the scanned netlist, which behaves as
//! the original with scan off; of `faults`: exactly the list of faults with their classes; of `run`: good files of the netlist that was read, with
//! the run theorem, for the inputs, the faults and the first patterns that the words and the files name, and the line with their numbers; of
//! `transition`: five files of slow lines that tell the truth, for the inputs that the words name; of `chaintest`: each fault of the scan hardware
//! with what the file shows of it; of `grade`: of each stuck line whether the file detects it; of `diagnose`: exactly the faults that explain the
//! log, or those that come nearest to it; of `sweep`: the numbers of good files of the sample netlist, whose test passes. 0 or 1 of `play` and
//! `check` mean exactly what the player and the check answer, and hold on the chip from every power-up state where strobes are known. The laws: what
//! is due of the same texts is alike; statuses exclude each other.
//! Tested: that `run` heeds its options, by `cases`.
#![tactic(auto)]

ghost use Rattle.std.specs.Prelude.{◌≡◌, Ok, map};
ghost use Rattle.std.specs.String.{string_bytes};
ghost use Rattle.command_line.specs.CommandLine.{IsInRange, command_line, command_line_of};
ghost use Rattle.commands.specs.World.{world};
ghost use Rattle.atpg_top.specs.Rows.{ErrRow, LineRow, TopRow, held_names};
ghost use Rattle.atpg_top.specs.inner.Declined.{DeclineRow};
ghost use Rattle.atpg_top.specs.inner.Held.{names_held};
ghost use Rattle.atpg_top.specs.Lines.{status_code};
ghost use Rattle.atpg_top.specs.declared.status.Status.{Status};

mod checking;
mod cores;
mod counts;
mod fault_list;
mod laws;
mod lines;
mod listing;
mod scanning;
mod slow_lines;
mod status;
mod sweeping;

use asked_run::{RunWords, run_netlist};
use checking::check_run;
use command_line::{Held, Request, WordsRefusal, parse};
use command_steps::Refusal;
use commands::Ending;
use diagnose_command::{DiagnoseNames, diagnose_log};
pub use laws::{
    declined_exactly, each_exclusive, failed_exactly, missing_exactly, nothing_else,
    refused_exactly, runs_pass, too_long_exactly, transitions_pass,
};
use lines::tell;
use listing::list_faults;
use outside::{Gate, Shelf, Sink};
use scanning::scan_netlist;
use slow_lines::{SlowAsked, test_slow_lines};
use status::Status;
use std::alloc::Global;
use std::sync::Wait;
use std::thread::Threads;
use sweeping::sweep_sample;
use test_commands::{GradeNames, grade_test, play_test, test_chains};

/// Does what was asked.
fn perform<'a, R: Threads + Wait + Sync, S: Shelf, T: Sink, G: Gate + Sync>(
    rt: &R,
    alloc: Global,
    shelf: &mut S,
    out: &mut T,
    stage: &G,
    request: &Request<'a>,
) -> Ending<'a, Refusal>
    requires { IsInRange request.now }
    ensures { LineRow (command_line_of request.now)
        (world (S.files shelf.old) (S.failures shelf.old) (T.taken out.old) (T.failures out.old))
        (world (S.files shelf.new) (S.failures shelf.new) (T.taken out.new) (T.failures out.new)) result }
{
    match request {
        Request::Scan {
            net,
            out: to,
            chains,
            order,
        } => scan_netlist(alloc, shelf, out, net, to, *order, *chains),
        Request::Faults { net } => list_faults(alloc, shelf, out, net),
        Request::Play { net, stil, fault } => play_test(alloc, shelf, out, net, stil, *fault),
        Request::Run {
            names,
            options,
            holds,
        } => run_netlist(
            rt,
            alloc,
            shelf,
            out,
            stage,
            RunWords {
                names: *names,
                options: *options,
                named: holds.as_slice(),
            },
        ),
        Request::Check { prefix } => check_run(alloc, shelf, out, prefix),
        Request::Sweep { seed, gates } => {
            sweep_sample(rt, alloc, shelf, out, stage, *seed, *gates)
        }
        Request::ChainTest { net, stil, chains } => {
            test_chains(alloc, shelf, out, stage, net, stil, *chains)
        }
        Request::Diagnose {
            net,
            stil,
            log,
            options,
        } => {
            let names = DiagnoseNames {
                net: *net,
                stil: *stil,
                log: *log,
            };
            diagnose_log(rt, alloc, shelf, out, stage, names, *options)
        }
        Request::Transition {
            net,
            prefix,
            options,
            holds,
        } => {
            let asked = SlowAsked {
                net,
                prefix,
                named: holds.as_slice(),
                options: *options,
            };
            test_slow_lines(rt, alloc, shelf, out, stage, &asked)
        }
        Request::Grade {
            net,
            stil,
            prefix,
            chains,
        } => {
            let names = GradeNames {
                net: *net,
                stil: *stil,
                prefix: *prefix,
            };
            grade_test(alloc, shelf, out, stage, names, *chains)
        }
    }
}

/// What becomes of words that are no request.
fn decline<'a>(refusal: &'a WordsRefusal<'_>) -> Status<'a>
    ensures { DeclineRow refusal.entry.now result }
{
    match refusal {
        WordsRefusal::BadWords(text) => Status::BadWords {
            text: text.as_str(),
        },
        WordsRefusal::BadHold => Status::BadHold,
        WordsRefusal::BadPrefix(prefix) => Status::BadPrefix { prefix },
        WordsRefusal::WritesOver(name) => Status::WritesOver { name: *name },
        WordsRefusal::NoMemory => Status::Command(Ending::Memory),
    }
}

/// The inputs that are to be held, which `run` and `transition` alone may name.
fn held_in<'a, 'b>(request: &'b Request<'a>) -> &'b [Held<'a>]
    ensures { names_held result.now ≡ held_names (Ok (command_line_of request.now)) }
{
    match request {
        Request::Run { holds, .. } => holds.as_slice(),
        Request::Transition { holds, .. } => holds.as_slice(),
        _ => &[],
    }
}

/// Says how the call ends, and answers the status's number. The inputs are those that are to be held.
fn end<E: Sink>(err: &mut E, status: &Status<'_>, holds: &[Held<'_>]) -> u8
    ensures code { result ≡ status_code status.now }
    ensures told { ErrRow E.takes_memory (names_held holds.now) status.now (E.taken err.old) (E.failures err.old) (E.taken err.new) (E.failures err.new) }
{
    tell(err, status, holds);
    status.code()
}

/// Does what the words ask for, the first word being the program's name, and answers the status
/// that the program ends with. No line of the error output changes it.
pub fn top<R: Threads + Wait + Sync, S: Shelf, T: Sink, E: Sink, G: Gate + Sync>(
    rt: &R,
    alloc: Global,
    words: &[String],
    shelf: &mut S,
    out: &mut T,
    err: &mut E,
    stage: &G,
) -> u8
    ensures { (s : Status) × (result ≡ status_code s)
        × TopRow (map string_bytes words.now)
        (world (S.files shelf.old) (S.failures shelf.old) (T.taken out.old) (T.failures out.old))
        (world (S.files shelf.new) (S.failures shelf.new) (T.taken out.new) (T.failures out.new)) s
        × ErrRow E.takes_memory (held_names (command_line (map string_bytes words.now))) s (E.taken err.old) (E.failures err.old) (E.taken err.new) (E.failures err.new) }
{
    let parsed = parse(alloc, words);
    match &parsed {
        Ok(request) => {
            let ending = perform(rt, alloc, shelf, out, stage, request);
            end(err, &Status::Command(ending), held_in(request))
        }
        Err(refusal) => {
            let status = decline(refusal);
            end(err, &status, &[])
        }
    }
}
