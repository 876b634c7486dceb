//! The grades of all faults of a design, by one fault of each class.
ghost use Rattle.std.specs.Prelude.{◌≡◌, ◌^◌, ◌<◌, IfOk, length, map};
ghost use Rattle.std.specs.List.{All};
ghost use Rattle.netlist.specs.Lines.{signal_of};
ghost use Rattle.statement.specs.declared.lines.Fault.{Fault as Stuck};
ghost use Rattle.chain_test.specs.Hardware.{at_site};
ghost use Rattle.statement.specs.Tests.{vectors_in};
ghost use Rattle.stil_vectors.specs.Fitting.{FitsNetlist};
ghost use Rattle.grade.specs.Grades.{AreGrades};
ghost use Rattle.grade.specs.Patterns.{IsGradedDesign};
ghost use Rattle.grade.specs.inner.ByPatterns.{AreTestCycles};
ghost use Rattle.grade.specs.inner.Spread.{AreSiteGrades, grade_at};

use crate::by_patterns::pattern_grades;
use crate::grade::Grade;
use crate::grading::{answered, begun, line_grades};
use crate::laws::patterns_grade;
use crate::test_patterns::test_patterns;
use cubes::Pattern;
use diagnose::equivalent_runs;
use fault_collapse::Classes;
use fault_universe::{FaultSet, faults_have_lines, faults_have_signals};
use netlist::{Core, Fault, NoMemory};
use outside::Gate;
use scan_insert::{Chains, Scanned};
use scan_play::Vectors;
use std::alloc::{AllocError, Global};
use stil_vectors::{cycle_count, fitting_cycles, vectors};
use stil_write::StilFile;

/// A design that is graded: its chains, what insertion makes of them, its faults, and their classes.
#[derive(Clone, Copy)]
pub struct GradedDesign<'a> {
    pub core: &'a Core,
    pub chains: &'a Chains,
    pub scanned: &'a Scanned,
    pub faults: &'a FaultSet,
    pub classes: &'a Classes,
}

/// A fault of the design at its site.
fn at_site(scanned: &Scanned, fault: Fault) -> Fault
    requires { signal_of fault.line < length scanned.now.sites }
    ensures { result ≡ at_site scanned.now.sites fault }
{
    let Fault { line, value } = fault;
    Fault {
        line: scanned.site_of(line),
        value,
    }
}

/// These faults of the design at their sites.
fn sites_of(alloc: Global, scanned: &Scanned, faults: &[Fault]) -> Result<Vec<Fault>, AllocError>
    requires { All (λ (f : Stuck). signal_of f.line < length scanned.now.sites) faults.now }
    ensures { IfOk result (λ sites. sites.items ≡ map (at_site scanned.now.sites) faults.now) }
{
    let mut sites = Vec::with_capacity(alloc, faults.len())?;
    for fault in faults {
        sites.push(at_site(scanned, *fault))?;
    }
    Ok(sites)
}

/// The grade of each fault: that of its class.
fn spread(
    alloc: Global,
    count: u32,
    classes: &Classes,
    by_class: &[Grade],
) -> Result<Vec<Grade>, AllocError>
    requires count { count ≡ length classes.now.numbers }
    requires size { length by_class.now ≡ length classes.now.representatives }
    requires within { All (λ class. class < length classes.now.representatives) classes.now.numbers }
    ensures { IfOk result (λ grades. grades.items ≡ map (grade_at by_class.now) classes.now.numbers) }
{
    let mut grades = Vec::with_capacity(alloc, count as usize)?;
    for i in 0..count {
        let class = classes.class_of(i) as usize;
        grades.push(by_class[class])?;
    }
    Ok(grades)
}

/// The grade of each class, by the patterns of the test.
fn grades_by_patterns<G: Gate>(
    alloc: Global,
    stage: &G,
    design: &GradedDesign<'_>,
    file: &StilFile,
    patterns: Vec<Pattern>,
) -> Result<Vec<Grade>, NoMemory>
    requires design { IsGradedDesign design.now }
    requires test { AreTestCycles design.now.core.now design.now.chains.now (vectors_in file.now) patterns.items }
    ensures { IfOk result (λ grades. AreSiteGrades design.now.scanned.now (vectors_in file.now) design.now.classes.now.representatives grades.items) }
{
    design.core.netlist().sound();
    faults_have_lines();
    patterns_grade();
    let representatives = design.classes.representatives();
    stage.at(0, begun(representatives));
    let grades = pattern_grades(alloc, design.core, design.chains, patterns, representatives)?;
    stage.at(0, answered(&grades));
    Ok(grades)
}

/// A core for the scanned netlist.
fn core_of(alloc: Global, scanned: &Scanned) -> Result<Core, NoMemory>
    ensures { IfOk result (λ core. core ≡ scanned.now.netlist) }
{
    let copy = scanned.netlist().copy(alloc)?;
    match Core::of(alloc, copy) {
        Ok(core) => Ok(core),
        Err(refused) => {
            drop(refused);
            Err(NoMemory)
        }
    }
}

/// The cycles of a file, which have to be fewer than 2 to the 64.
fn cycles_of(alloc: Global, file: &StilFile) -> Result<Vectors, NoMemory>
    ensures cycles { IfOk result (λ v. v ≡ vectors_in file.now) }
    ensures few { IfOk result (λ v. length v < 2 ^ 64) }
{
    match cycle_count(file) {
        Some(_) => vectors(alloc, file),
        None => Err(NoMemory),
    }
}

/// The grade of each class, by play of its representative at its site in this core.
fn grades_in<G: Gate>(
    alloc: Global,
    stage: &G,
    core: &Core,
    scanned: &Scanned,
    representatives: &[Fault],
    file: &StilFile,
) -> Result<Vec<Grade>, NoMemory>
    requires core { core.now ≡ scanned.now.netlist }
    requires signals { All (λ (f : Stuck). signal_of f.line < length scanned.now.sites) representatives.now }
    requires fits { FitsNetlist file.now scanned.now.netlist }
    ensures { IfOk result (λ grades. AreSiteGrades scanned.now (vectors_in file.now) representatives.now grades.items) }
{
    file.sound();
    fitting_cycles();
    let cycles = cycles_of(alloc, file)?;
    let sites = sites_of(alloc, scanned, representatives)?;
    line_grades(alloc, stage, core, &sites, &cycles)
}

/// The grade of each class, by play of its representative at its site.
fn grades_by_play<G: Gate>(
    alloc: Global,
    stage: &G,
    scanned: &Scanned,
    representatives: &[Fault],
    file: &StilFile,
) -> Result<Vec<Grade>, NoMemory>
    requires signals { All (λ (f : Stuck). signal_of f.line < length scanned.now.sites) representatives.now }
    requires fits { FitsNetlist file.now scanned.now.netlist }
    ensures { IfOk result (λ grades. AreSiteGrades scanned.now (vectors_in file.now) representatives.now grades.items) }
{
    let core = core_of(alloc, scanned)?;
    let grades = grades_in(alloc, stage, &core, scanned, representatives, file);
    drop(core);
    grades
}

/// The grade of each class: by the patterns of which the file is the test, if it is that of some, or else by play.
fn class_grades<G: Gate>(
    alloc: Global,
    stage: &G,
    design: &GradedDesign<'_>,
    file: &StilFile,
) -> Result<Vec<Grade>, NoMemory>
    requires design { IsGradedDesign design.now }
    requires fits { FitsNetlist file.now design.now.scanned.now.netlist }
    ensures { IfOk result (λ grades. AreSiteGrades design.now.scanned.now (vectors_in file.now) design.now.classes.now.representatives grades.items) }
{
    design.core.netlist().sound();
    faults_have_signals();
    match test_patterns(alloc, design.core, design.chains, file)? {
        Some(patterns) => grades_by_patterns(alloc, stage, design, file, patterns),
        None => grades_by_play(
            alloc,
            stage,
            design.scanned,
            design.classes.representatives(),
            file,
        ),
    }
}

/// What the cycles of a file tell of each fault of the design, in the order of the list of faults. One fault of each class is graded.
pub fn grades<G: Gate>(
    alloc: Global,
    stage: &G,
    design: &GradedDesign<'_>,
    file: &StilFile,
) -> Result<Vec<Grade>, NoMemory>
    requires design { IsGradedDesign design.now }
    requires fits { FitsNetlist file.now design.now.scanned.now.netlist }
    ensures { IfOk result (λ grades. AreGrades design.now.scanned.now design.now.faults.now (vectors_in file.now) grades.items) }
{
    design.core.netlist().sound();
    design.scanned.netlist().sound();
    faults_have_lines();
    equivalent_runs();
    let by_class = class_grades(alloc, stage, design, file)?;
    let grades = spread(alloc, design.faults.len(), design.classes, &by_class)?;
    Ok(grades)
}
