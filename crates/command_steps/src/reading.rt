//! The steps of what is due: a value, or why there is none.
ghost use Rattle.std.specs.Prelude.{◌≡◌, ◌≤◌, ◌<◌, ◌^◌, IfOk, length, option_map};
ghost use Rattle.bench_text.specs.Reading.{IsReadAs};
ghost use Rattle.netlist.specs.Conditions.{IsSound};
ghost use Rattle.stil_read.specs.Reading.{StandsFor};
ghost use Rattle.stil_vectors.specs.Fitting.{FitsNetlist};
ghost use Rattle.statement.specs.Tests.{vectors_in};
ghost use Rattle.commands.specs.Contents.{most_bytes};
ghost use Rattle.command_steps.specs.Steps.{named_fault, netlist, test, value};
ghost use Rattle.command_steps.specs.Answers.{Answers};

use crate::refusal::Refusal;
use bench_text::{BenchFault, Names, read};
use commands::Stop;
use fault_universe::fault_named;
use netlist::{Fault, Netlist, NoMemory};
use scan_play::Vectors;
use std::alloc::Global;
use stil_read::{StilFault, read_stil};
use stil_vectors::{cycle_count, fits, vectors};
use stil_write::StilFile;

/// The netlist that the text stands for.
pub fn netlist_of(alloc: Global, text: &[u8], reading: Names) -> Result<Netlist, Stop<Refusal>>
    requires { length text.now ≤ most_bytes }
    ensures step { Answers (netlist reading text.now) result }
    ensures design { IfOk result (IsReadAs reading) }
{
    match read(alloc, text, reading) {
        Ok(netlist) => {
            netlist.sound();
            Ok(netlist)
        }
        Err(BenchFault::Refused(refusal)) => Err(Stop::Refused(Refusal::Netlist(refusal))),
        Err(BenchFault::NoMemory) => Err(Stop::NoMemory),
    }
}

/// The fault of the netlist that is written so, if one is asked for.
pub fn fault_of(netlist: &Netlist, text: Option<&str>) -> Result<Option<Fault>, Stop<Refusal>>
    ensures { Answers (named_fault netlist.now (option_map (λ t. t.now) text.entry)) result }
{
    match text {
        None => Ok(None),
        Some(text) => match fault_named(netlist, text.as_bytes()) {
            Some(fault) => Ok(Some(fault)),
            None => Err(Stop::Refused(Refusal::NoSuchFault)),
        },
    }
}

/// The STIL file that the text stands for.
pub fn stil_of(alloc: Global, text: &[u8]) -> Result<StilFile, Stop<Refusal>>
    ensures { Answers (value StandsFor Refusal.NotStil text.now) result }
{
    match read_stil(alloc, text) {
        Ok(file) => Ok(file),
        Err(StilFault::NotStil) => Err(Stop::Refused(Refusal::NotStil)),
        Err(StilFault::NoMemory) => Err(Stop::NoMemory),
    }
}

/// That the file fits the netlist.
pub fn fitting(alloc: Global, file: &StilFile, netlist: &Netlist) -> Result<(), Stop<Refusal>>
    ensures { Answers (test (FitsNetlist file.now netlist.now) Refusal.StilDoesNotFit) result }
{
    match fits(alloc, file, netlist) {
        Ok(true) => Ok(()),
        Ok(false) => Err(Stop::Refused(Refusal::StilDoesNotFit)),
        Err(_) => Err(Stop::NoMemory),
    }
}

/// The cycles of a file, which have to be fewer than 2 to the 64.
pub fn cycles_of(alloc: Global, file: &StilFile) -> Result<Vectors, NoMemory>
    ensures cycles { IfOk result (λ v. v ≡ vectors_in file.now) }
    ensures few { IfOk result (λ v. length v < 2 ^ 64) }
{
    match cycle_count(file) {
        Some(_) => vectors(alloc, file),
        None => Err(NoMemory),
    }
}
