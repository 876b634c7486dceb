//! `grade`: which stuck lines of a design a STIL file detects.
ghost use Rattle.std.specs.Prelude.{◌≡◌, ◌≤◌, ◌∷◌, [], IfOk};
ghost use Rattle.std.specs.List.{All};
ghost use Rattle.netlist.specs.Designs.{IsDesign};
ghost use Rattle.statement.specs.Faults.{universe_of};
ghost use Rattle.good_files.specs.ScanOff.{design_chains};
ghost use Rattle.statement.specs.Tests.{vectors_in};
ghost use Rattle.stil_vectors.specs.Fitting.{FitsNetlist};
ghost use Rattle.commands.specs.Rows.{CommandRow};
ghost use Rattle.commands.specs.Worked.{IsWorked};
ghost use Rattle.commands.specs.World.{world};
ghost use Rattle.command_line.specs.CommandLine.{grade_file};
ghost use Rattle.test_commands.specs.Grades.{AreGradesTold, grade_due, IsGradeProduct};
ghost use Rattle.test_commands.specs.inner.GradeTrials.{IsGradeOutput, IsScannedIn, grade_fit_due, graded_due};

use crate::chain_testing::{ChainTrial, trial_of};
use crate::cores::core_of;
use crate::grade_lines::grade_texts;
use command_line::grade_name;
use command_steps::{OneFile, Refusal, faults_of, fitting, one_file_product, scanned_of};
use commands::{Ending, FileName, Product, Stop, Work, run_command};
use fault_collapse::collapse;
use fault_universe::{FaultSet, faults_have_signals};
use grade::{Grade, GradedDesign, detected_fails, grades, undetected_passes};
use netlist::{Core, Netlist, NoMemory};
use outside::{Gate, Shelf, Sink};
use scan_insert::laws::scanned_is_sound;
use scan_insert::{Chains, Scanned, stitch};
use std::alloc::Global;
use stil_vectors::fitting_cycles;

/// The chains of the design, at most so many.
fn chains_by(alloc: Global, netlist: &Netlist, asked: u32) -> Result<Chains, NoMemory>
    requires design { IsDesign netlist.now }
    requires some { 1 ≤ asked }
    ensures { IfOk result (λ chains. chains ≡ design_chains netlist.now asked) }
{
    netlist.sound();
    stitch(alloc, netlist.cells(), asked)
}

/// What the file of a trial, which fits, tells of each fault of the design in this core.
fn grades_in<G: Gate>(
    alloc: Global,
    stage: &G,
    core: &Core,
    scanned: &Scanned,
    trial: &ChainTrial,
    asked: u32,
    faults: &FaultSet,
) -> Result<Vec<Grade>, NoMemory>
    requires core { core.now ≡ trial.now.netlist }
    requires scanned { IsScannedIn trial.now.netlist asked scanned.now }
    requires fits { FitsNetlist trial.now.file scanned.now.netlist }
    requires faults { faults.now ≡ universe_of trial.now.netlist }
    ensures told { IfOk result (λ grades. AreGradesTold trial.now.netlist (design_chains trial.now.netlist asked) (vectors_in trial.now.file) grades.items) }
    ensures outputs { IfOk result (λ grades. All (IsGradeOutput scanned.now.netlist) grades.items) }
{
    trial.netlist.sound();
    trial.file.sound();
    scanned_is_sound();
    fitting_cycles();
    detected_fails();
    undetected_passes();
    let classes = collapse(alloc, &trial.netlist, faults)?;
    let chains = chains_by(alloc, &trial.netlist, asked)?;
    let design = GradedDesign {
        core,
        chains: &chains,
        scanned,
        faults,
        classes: &classes,
    };
    grades(alloc, stage, &design, &trial.file)
}

/// What the file of a trial, which fits, tells of each fault of the design.
fn grades_by<G: Gate>(
    alloc: Global,
    stage: &G,
    scanned: &Scanned,
    trial: &ChainTrial,
    asked: u32,
    faults: &FaultSet,
) -> Result<Vec<Grade>, NoMemory>
    requires scanned { IsScannedIn trial.now.netlist asked scanned.now }
    requires fits { FitsNetlist trial.now.file scanned.now.netlist }
    requires faults { faults.now ≡ universe_of trial.now.netlist }
    ensures told { IfOk result (λ grades. AreGradesTold trial.now.netlist (design_chains trial.now.netlist asked) (vectors_in trial.now.file) grades.items) }
    ensures outputs { IfOk result (λ grades. All (IsGradeOutput scanned.now.netlist) grades.items) }
{
    let core = core_of(alloc, &trial.netlist)?;
    let grades = grades_in(alloc, stage, &core, scanned, trial, asked, faults);
    drop(core);
    grades
}

/// What is written and printed of a trial whose file fits.
fn texts_of<G: Gate>(
    alloc: Global,
    stage: &G,
    scanned: &Scanned,
    trial: &ChainTrial,
    asked: u32,
) -> Result<OneFile, NoMemory>
    requires scanned { IsScannedIn trial.now.netlist asked scanned.now }
    requires fits { FitsNetlist trial.now.file scanned.now.netlist }
    ensures { IfOk result (λ p. IsGradeProduct trial.now.netlist (design_chains trial.now.netlist asked) (vectors_in trial.now.file) p.text.items p.line.items) }
{
    trial.netlist.sound();
    faults_have_signals();
    let faults = faults_of(alloc, &trial.netlist)?;
    let grades = grades_by(alloc, stage, scanned, trial, asked, &faults)?;
    let made = grade_texts(alloc, &trial.netlist, scanned.netlist(), &faults, &grades)?;
    Ok(made)
}

/// The product of a trial whose file fits.
fn graded<G: Gate>(
    alloc: Global,
    stage: &G,
    scanned: &Scanned,
    trial: &ChainTrial,
    asked: u32,
) -> Result<Product, Stop<Refusal>>
    requires scanned { IsScannedIn trial.now.netlist asked scanned.now }
    requires fits { FitsNetlist trial.now.file scanned.now.netlist }
    ensures { IsWorked (graded_due asked trial.now.netlist trial.now.file) 1 result }
{
    let Ok(made) = texts_of(alloc, stage, scanned, trial, asked) else {
        return Err(Stop::NoMemory);
    };
    match one_file_product(alloc, made) {
        Ok(product) => Ok(product),
        Err(_) => Err(Stop::NoMemory),
    }
}

/// Grades a trial, if its file fits the scanned design.
fn fitted<G: Gate>(
    alloc: Global,
    stage: &G,
    scanned: &Scanned,
    trial: &ChainTrial,
    asked: u32,
) -> Result<Product, Stop<Refusal>>
    requires { IsScannedIn trial.now.netlist asked scanned.now }
    ensures { IsWorked (grade_fit_due asked trial.now.netlist trial.now.file) 1 result }
{
    match fitting(alloc, &trial.file, scanned.netlist()) {
        Ok(()) => graded(alloc, stage, scanned, trial, asked),
        Err(stop) => Err(stop),
    }
}

/// Grades a trial, the design scanned in at most so many chains.
fn tried<G: Gate>(
    alloc: Global,
    stage: &G,
    trial: &ChainTrial,
    asked: u32,
) -> Result<Product, Stop<Refusal>>
    requires design { IsDesign trial.now.netlist }
    requires some { 1 ≤ asked }
    ensures { IsWorked (grade_fit_due asked trial.now.netlist trial.now.file) 1 result }
{
    match scanned_of(alloc, &trial.netlist, asked) {
        Ok(scanned) => {
            let product = fitted(alloc, stage, &scanned, trial, asked);
            drop(scanned);
            product
        }
        Err(_) => Err(Stop::NoMemory),
    }
}

/// The files of `grade`, by the words that name them.
#[derive(Clone, Copy)]
pub struct GradeNames<'a> {
    /// The netlist.
    pub net: &'a str,
    /// The test.
    pub stil: &'a str,
    /// What the name of the file written begins with.
    pub prefix: &'a str,
}

/// Writes which stuck lines of a netlist a STIL file detects, in at most so many chains.
pub fn grade_test<'a, S: Shelf, T: Sink, G: Gate>(
    alloc: Global,
    shelf: &mut S,
    out: &mut T,
    stage: &G,
    names: GradeNames<'a>,
    chains: u32,
) -> Ending<'a, Refusal>
    requires { 1 ≤ chains }
    ensures { CommandRow (names.entry.net.now ∷ names.entry.stil.now ∷ []) (grade_file names.entry.prefix.now ∷ []) (grade_due chains)
        (world (S.files shelf.old) (S.failures shelf.old) (T.taken out.old) (T.failures out.old))
        (world (S.files shelf.new) (S.failures shelf.new) (T.taken out.new) (T.failures out.new)) result }
{
    let reads = [FileName::of(names.net), FileName::of(names.stil)];
    let writes = [grade_name(names.prefix)];
    let work = Grading { chains, stage };
    run_command(alloc, shelf, out, &reads, &writes, &work)
}

/// The work of `grade`, for at most so many chains.
#[derive(Drop)]
struct Grading<'a, G: Gate> {
    chains: u32,
    stage: &'a G,
}

impl<G: Gate> Work for Grading<'_, G> {
    type Refusal = Refusal;

    ghost can_work = { λ grading. 1 ≤ grading.chains };

    ghost reads = { λ _. 2 };

    ghost writes = { λ _. 1 };

    ghost due = { λ grading. grade_due grading.chains };

    fn work(&self, alloc: Global, texts: Vec<Vec<u8>>) -> Result<Product, Stop<Refusal>> {
        let net = texts[0].as_slice();
        let stil = texts[1].as_slice();
        match trial_of(alloc, net, stil) {
            Ok(trial) => {
                drop(texts);
                let product = tried(alloc, self.stage, &trial, self.chains);
                drop(trial);
                product
            }
            Err(stop) => Err(stop),
        }
    }
}
