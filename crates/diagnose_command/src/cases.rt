//! What is diagnosed.
ghost use Rattle.std.specs.Prelude.{◌≡◌, ◌≤◌, ◌<◌, ◌^◌, IfOk, length};
ghost use Rattle.std.specs.List.{All};
ghost use Rattle.netlist.specs.Designs.{IsDesign};
ghost use Rattle.statement.specs.Faults.{universe_of};
ghost use Rattle.statement.specs.Tests.{vectors_in};
ghost use Rattle.fault_collapse.specs.Classes.{AreClasses};
ghost use Rattle.scan_play.specs.Cycles.{IsCycleOf};
ghost use Rattle.diagnose.specs.Reading.{IsLogOf};
ghost use Rattle.commands.specs.Contents.{most_bytes};
ghost use Rattle.command_steps.specs.Answers.{Answers};
ghost use Rattle.command_steps.specs.Steps.{value};
ghost use Rattle.command_steps.specs.declared.refusal.Refusal.TheVariants.{NotLog};
ghost use Rattle.diagnose_command.specs.inner.Cases.{IsFitted, ReadsCase};

use bench_text::Names;
use command_steps::{Refusal, core_of, cycles_of, faults_of, netlist_of, stil_of};
use commands::Stop;
use diagnose::{FailLog, LogFault, read_log};
use fault_collapse::{Classes, collapse};
use fault_universe::FaultSet;
use netlist::{Core, Netlist, NoMemory};
use scan_insert::Scanned;
use scan_play::Vectors;
use std::alloc::Global;
use stil_vectors::fitting_cycles;
use stil_write::StilFile;

/// The design, the test, and what failed.
#[derive(Drop)]
pub(crate) struct Case {
    pub netlist: Netlist,
    pub file: StilFile,
    pub log: FailLog,
}

/// A case with its design scanned, in at most so many chains.
#[derive(Drop)]
pub(crate) struct ScannedCase<'a> {
    pub case: &'a Case,
    pub scanned: &'a Scanned,
    pub chains: u32,
}

/// The faults of a design, and their classes.
#[derive(Drop)]
pub(crate) struct Listed {
    pub faults: FaultSet,
    pub classes: Classes,
}

/// What the tester's log says failed.
fn log_of(alloc: Global, text: &[u8]) -> Result<FailLog, Stop<Refusal>>
    ensures { Answers (value IsLogOf NotLog text.now) result }
{
    match read_log(alloc, text) {
        Ok(log) => Ok(log),
        Err(LogFault::NotLog) => Err(Stop::Refused(Refusal::NotLog)),
        Err(LogFault::NoMemory) => Err(Stop::NoMemory),
    }
}

/// Reads the design, the file and the log.
pub(crate) fn case_of(
    alloc: Global,
    net: &[u8],
    stil: &[u8],
    log: &[u8],
) -> Result<Case, Stop<Refusal>>
    requires { length net.now ≤ most_bytes }
    ensures { (chains : _) (rank : _) → ReadsCase chains rank net.now stil.now log.now result }
{
    let netlist = match netlist_of(alloc, net, Names::Design) {
        Ok(netlist) => netlist,
        Err(stop) => return Err(stop),
    };
    let file = match stil_of(alloc, stil) {
        Ok(file) => file,
        Err(stop) => return Err(stop),
    };
    match log_of(alloc, log) {
        Ok(log) => Ok(Case { netlist, file, log }),
        Err(stop) => Err(stop),
    }
}

/// The faults of a design, with their classes.
pub(crate) fn listed_of(alloc: Global, netlist: &Netlist) -> Result<Listed, NoMemory>
    requires { IsDesign netlist.now }
    ensures faults { IfOk result (λ l. l.faults ≡ universe_of netlist.now) }
    ensures classes { IfOk result (λ l. AreClasses netlist.now l.classes) }
{
    let faults = faults_of(alloc, netlist)?;
    let classes = collapse(alloc, netlist, &faults)?;
    Ok(Listed { faults, classes })
}

/// The scanned netlist with an order of evaluation, and the cycles of the file, which fits it.
pub(crate) fn test_of(alloc: Global, scanned: &ScannedCase<'_>) -> Result<(Core, Vectors), NoMemory>
    requires { IsFitted scanned.now }
    ensures core { IfOk result (λ t. t.0 ≡ scanned.now.scanned.now.netlist) }
    ensures cycles { IfOk result (λ t. t.1 ≡ vectors_in scanned.now.case.now.file) }
    ensures fits { IfOk result (λ t. All (IsCycleOf t.0) t.1) }
    ensures few { IfOk result (λ t. length t.1 < 2 ^ 64) }
{
    scanned.case.file.sound();
    fitting_cycles();
    let core = core_of(alloc, scanned.scanned)?;
    let cycles = cycles_of(alloc, &scanned.case.file)?;
    Ok((core, cycles))
}
