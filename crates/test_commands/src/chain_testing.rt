//! `chaintest`: what a STIL file shows of the faults in the scan hardware of a design.
ghost use Rattle.std.specs.Prelude.{◌≡◌, ◌≤◌, ◌<◌, ◌∷◌, [], IfOk, length};
ghost use Rattle.std.specs.List.{All, AllZip};
ghost use Rattle.netlist.specs.Designs.{IsDesign};
ghost use Rattle.netlist.specs.Lines.{signal_of};
ghost use Rattle.statement.specs.Netlists.{signals};
ghost use Rattle.statement.specs.declared.lines.Fault.{Fault as Stuck};
ghost use Rattle.good_files.specs.ScanOff.{design_chains};
ghost use Rattle.statement.specs.Tests.{vectors_in};
ghost use Rattle.stil_vectors.specs.Fitting.{FitsNetlist};
ghost use Rattle.commands.specs.Contents.{most_bytes};
ghost use Rattle.commands.specs.Rows.{CommandRow};
ghost use Rattle.commands.specs.Worked.{IsWorked};
ghost use Rattle.commands.specs.World.{world};
ghost use Rattle.test_commands.specs.ChainTests.{IsTold, chaintest_due};
ghost use Rattle.test_commands.specs.inner.ChainTrials.{IsHardwareOf, IsOutput, IsTestText, IsTextOf, ReadsChainTrial, test_due, text_due};

use crate::cores::core_of;
use crate::told_lines::chain_test_text;
use bench_text::Names;
use chain_test::{chain_faults, first_wrong_fails, first_wrongs, flush_fails};
use command_steps::{Refusal, fitting, netlist_of, scanned_of, stil_of};
use commands::{Ending, FileName, Finding, Product, Stop, Work, run_command};
use fault_universe::{faults_have_signals, few_faults, universe};
use netlist::{Core, Fault, Netlist, NoMemory};
use outside::{Gate, Shelf, Sink};
use scan_insert::Scanned;
use std::alloc::Global;
use stil_vectors::{cycle_count, fitting_cycles, vectors};
use stil_write::StilFile;

/// A design, and the file that is to be played on it with scan cells.
#[derive(Drop)]
pub(crate) struct ChainTrial {
    pub netlist: Netlist,
    pub file: StilFile,
}

/// A design with scan cells, and the faults of the scan hardware.
#[derive(Drop)]
struct Hardware {
    scanned: Scanned,
    faults: Vec<Fault>,
}

/// Reads the design and the file.
pub(crate) fn trial_of(alloc: Global, net: &[u8], stil: &[u8]) -> Result<ChainTrial, Stop<Refusal>>
    requires { length net.now ≤ most_bytes }
    ensures { ReadsChainTrial net.now stil.now result }
{
    let netlist = match netlist_of(alloc, net, Names::Design) {
        Ok(netlist) => netlist,
        Err(stop) => return Err(stop),
    };
    match stil_of(alloc, stil) {
        Ok(file) => Ok(ChainTrial { netlist, file }),
        Err(stop) => {
            drop(netlist);
            Err(stop)
        }
    }
}

/// The scan hardware of a design.
fn hardware_of(alloc: Global, netlist: &Netlist, asked: u32) -> Result<Hardware, NoMemory>
    requires design { IsDesign netlist.now }
    requires some { 1 ≤ asked }
    ensures { IfOk result (λ h. IsHardwareOf netlist.now (design_chains netlist.now asked) h) }
{
    netlist.sound();
    few_faults();
    let all = universe(alloc, netlist)?;
    let scanned = scanned_of(alloc, netlist, asked)?;
    match chain_faults(alloc, &scanned, &all) {
        Ok(faults) => Ok(Hardware { scanned, faults }),
        Err(refusal) => {
            drop(scanned);
            Err(refusal)
        }
    }
}

/// What the file shows of each of these faults.
fn told_of<G: Gate>(
    alloc: Global,
    stage: &G,
    core: &Core,
    faults: &[Fault],
    file: &StilFile,
) -> Result<Vec<Option<(u64, u32)>>, NoMemory>
    requires { FitsNetlist file.now core.now }
    ensures told { IfOk result (λ told. AllZip (IsTold core.now (vectors_in file.now)) faults.now told.items) }
    ensures outputs { IfOk result (λ told. All (IsOutput core.now) told.items) }
{
    core.netlist().sound();
    file.sound();
    fitting_cycles();
    first_wrong_fails();
    match cycle_count(file) {
        Some(_) => {}
        None => return Err(NoMemory),
    }
    let vectors = vectors(alloc, file)?;
    first_wrongs(alloc, stage, core, faults, &vectors)
}

/// The text of what the file shows of these faults.
fn text_of<G: Gate>(
    alloc: Global,
    stage: &G,
    core: &Core,
    faults: &[Fault],
    file: &StilFile,
) -> Result<Vec<u8>, NoMemory>
    requires fits { FitsNetlist file.now core.now }
    requires signals { All (λ (f : Stuck). signal_of f.line < length (signals core.now)) faults.now }
    ensures { IfOk result (λ text. IsTextOf core.now faults.now file.now text.items) }
{
    let told = told_of(alloc, stage, core, faults, file)?;
    chain_test_text(alloc, core.netlist(), faults, &told)
}

/// The text of what the file shows of the scan hardware.
fn test_text<G: Gate>(
    alloc: Global,
    stage: &G,
    hardware: &Hardware,
    file: &StilFile,
) -> Result<Vec<u8>, NoMemory>
    requires fits { FitsNetlist file.now hardware.now.scanned.netlist }
    requires signals { All (λ (f : Stuck). signal_of f.line < length (signals hardware.now.scanned.netlist)) hardware.now.faults.items }
    ensures { IfOk result (λ text. IsTestText hardware.now file.now text.items) }
{
    let core = core_of(alloc, hardware.scanned.netlist())?;
    let text = text_of(alloc, stage, &core, &hardware.faults, file);
    drop(core);
    text
}

/// What the file, which fits, shows of the scan hardware of the design.
fn tested<G: Gate>(
    alloc: Global,
    stage: &G,
    hardware: &Hardware,
    file: &StilFile,
) -> Result<Product, Stop<Refusal>>
    requires fits { FitsNetlist file.now hardware.now.scanned.netlist }
    requires signals { All (λ (f : Stuck). signal_of f.line < length (signals hardware.now.scanned.netlist)) hardware.now.faults.items }
    ensures { IsWorked (text_due hardware.now file.now) 0 result }
{
    match test_text(alloc, stage, hardware, file) {
        Ok(shown) => Ok(Product {
            texts: Vec::new(alloc),
            shown,
            finding: Finding::Fine,
        }),
        Err(_) => Err(Stop::NoMemory),
    }
}

/// Tests the scan hardware of the design, if the file fits.
fn fitted<G: Gate>(
    alloc: Global,
    stage: &G,
    hardware: &Hardware,
    trial: &ChainTrial,
    asked: u32,
) -> Result<Product, Stop<Refusal>>
    requires some { 1 ≤ asked }
    requires hardware { IsHardwareOf trial.now.netlist (design_chains trial.now.netlist asked) hardware.now }
    ensures { IsWorked (test_due asked trial.now.netlist trial.now.file) 0 result }
{
    trial.netlist.sound();
    faults_have_signals();
    flush_fails();
    hardware.scanned.netlist().sound();
    match fitting(alloc, &trial.file, hardware.scanned.netlist()) {
        Ok(()) => tested(alloc, stage, hardware, &trial.file),
        Err(stop) => Err(stop),
    }
}

/// Puts scan cells into the design, and tests them if the file fits.
fn tried<G: Gate>(
    alloc: Global,
    stage: &G,
    trial: &ChainTrial,
    asked: u32,
) -> Result<Product, Stop<Refusal>>
    requires design { IsDesign trial.now.netlist }
    requires some { 1 ≤ asked }
    ensures { IsWorked (test_due asked trial.now.netlist trial.now.file) 0 result }
{
    match hardware_of(alloc, &trial.netlist, asked) {
        Ok(hardware) => {
            let product = fitted(alloc, stage, &hardware, trial, asked);
            drop(hardware);
            product
        }
        Err(_) => Err(Stop::NoMemory),
    }
}

/// Shows what the file `stil` shows of the faults in the scan hardware of the netlist of the file `net`, in at most so many chains.
pub fn test_chains<'a, S: Shelf, T: Sink, G: Gate>(
    alloc: Global,
    shelf: &mut S,
    out: &mut T,
    stage: &G,
    net: &'a str,
    stil: &'a str,
    chains: u32,
) -> Ending<'a, Refusal>
    requires { 1 ≤ chains }
    ensures { CommandRow (net.now ∷ stil.now ∷ []) [] (chaintest_due chains)
        (world (S.files shelf.old) (S.failures shelf.old) (T.taken out.old) (T.failures out.old))
        (world (S.files shelf.new) (S.failures shelf.new) (T.taken out.new) (T.failures out.new)) result }
{
    let reads = [FileName::of(net), FileName::of(stil)];
    run_command(alloc, shelf, out, &reads, &[], &ChainTest { chains, stage })
}

/// The work of `chaintest`, for at most so many chains.
#[derive(Drop)]
struct ChainTest<'a, G: Gate> {
    chains: u32,
    stage: &'a G,
}

impl<G: Gate> Work for ChainTest<'_, G> {
    type Refusal = Refusal;

    ghost can_work = { λ test. 1 ≤ test.chains };

    ghost reads = { λ _. 2 };

    ghost writes = { λ _. 0 };

    ghost due = { λ test. chaintest_due test.chains };

    fn work(&self, alloc: Global, texts: Vec<Vec<u8>>) -> Result<Product, Stop<Refusal>> {
        let net = texts[0].as_slice();
        let stil = texts[1].as_slice();
        match trial_of(alloc, net, stil) {
            Ok(trial) => {
                drop(texts);
                let product = tried(alloc, self.stage, &trial, self.chains);
                drop(trial);
                product
            }
            Err(stop) => Err(stop),
        }
    }
}
