//! From a design to the five files of its transition faults: its tests (`rounds`), and their texts.
ghost use Rattle.std.specs.Prelude.{◌≡◌, ◌<◌, ◌≤◌, ◌^◌, Bool, IfOk, length};
ghost use Rattle.std.specs.List.{All};
ghost use Rattle.plain_text.specs.Limits.{most_limit, most_workers};
ghost use Rattle.netlist.specs.Designs.{IsDesign};
ghost use Rattle.netlist.specs.Holds.{AreHoldsOf};
ghost use Rattle.cubes.specs.Cubes.{IsPatternOf};
ghost use Rattle.scan_insert.specs.Scanned.{AreChainsOf, scanned_of};
ghost use Rattle.statement.specs.Benches.{canonical};
ghost use Rattle.statement.specs.Faults.{universe_of};
ghost use Rattle.statement.specs.declared.lines.Fault.{Fault as FaultOf};
ghost use Rattle.evidence.specs.declared.kinds.Evidence.{Evidence as EvidenceOf};
ghost use Rattle.certificate.specs.Certificates.{HasSmallNumbers};
ghost use Rattle.transition_report.specs.Texts.{IsNamedInFrames, transition_certificate, transition_report_text};
ghost use Rattle.transition_tests.specs.Lines.{leaves_of};
ghost use Rattle.transition_tests.specs.SlowLines.{AreSlowLines};
ghost use Rattle.transition_tests.specs.Verdicts.{AreTests, MayHave};
ghost use Rattle.transition_run.specs.Runs.{IsTransitionRun};
ghost use Rattle.transition_run.specs.inner.Written.{IsLaunchText, IsSaid, IsShown, IsTold, IsWritten};

use crate::rounds::slow_tests;
use crate::truth::written_is_run;
use bench_text::write;
use cubes::Pattern;
use evidence::Engine;
use fault_universe::{faults_have_lines, faults_have_signals, few_faults, universe};
use netlist::{Core, Holds, Netlist, NoMemory};
use outside::Gate;
use run_report::{hold_lines, pin_names};
use scan_insert::{Chains, insert, stitch};
use std::alloc::Global;
use std::thread::Threads;
use stil_write::write_stil;
use transition::SearchPlan;
use transition_files::stil2_of;
use transition_report::{TransitionReport, report_of, write_certificate, write_report};
use transition_tests::{SlowLines, Tests, TransitionVerdict, leaves_of, lines_of};
use worker::Errand;

/// How a run goes: at most so many chains, the seed of the bits that patterns are drawn and cubes are filled with, and how lines are searched.
#[derive(Clone, Copy)]
pub struct TransitionPlan {
    pub chains: u32,
    pub seed: u64,
    pub search: SearchPlan,
}

/// The texts of a run, and its report as a value.
#[derive(Drop)]
pub struct TransitionFiles {
    pub net: Vec<u8>,
    pub scan: Vec<u8>,
    pub stil: Vec<u8>,
    pub certificate: Vec<u8>,
    pub report: Vec<u8>,
    pub said: TransitionReport,
}

/// The texts of the netlist and of the scanned one.
#[derive(Drop)]
struct NetTexts {
    net: Vec<u8>,
    scan: Vec<u8>,
}

/// The report as text and as a value.
#[derive(Drop)]
struct Reported {
    text: Vec<u8>,
    said: TransitionReport,
}

/// The texts of both netlists, and the report.
#[derive(Drop)]
struct Told {
    nets: NetTexts,
    report: Reported,
}

/// The texts of patterns and evidence.
#[derive(Drop)]
struct Shown {
    stil: Vec<u8>,
    certificate: Vec<u8>,
}

/// The test of these patterns as text.
fn stil_text(
    alloc: Global,
    core: &Core,
    chains: &Chains,
    patterns: &[Pattern],
    holds: &Holds,
) -> Result<Vec<u8>, NoMemory>
    requires design { IsDesign core.now }
    requires held { AreHoldsOf core.now holds.now }
    requires chains { AreChainsOf core.now chains.now }
    requires patterns { All (IsPatternOf core.now holds.now) patterns.now }
    ensures { IfOk result (λ text. IsLaunchText core.now holds.now chains.now patterns.now text.items) }
{
    let file = stil2_of(alloc, core, chains, patterns, holds)?;
    file.sound();
    match write_stil(alloc, &file) {
        Ok(text) => Ok(text),
        Err(_) => Err(NoMemory),
    }
}

/// What the report says of these tests.
fn said_of(
    alloc: Global,
    lines: &SlowLines<'_>,
    chains: &Chains,
    scanned: &Netlist,
    tests: &Tests,
) -> Result<TransitionReport, NoMemory>
    requires lines { AreSlowLines lines.now.core.now lines.now.holds.now lines.now.faults.now }
    requires chains { AreChainsOf lines.now.core.now chains.now }
    requires scanned { scanned.now ≡ scanned_of lines.now.core.now chains.now }
    requires tests { AreTests lines.now.core.now lines.now.holds.now lines.now.limit tests.now.patterns.items tests.now.verdicts.items }
    requires few { length tests.now.patterns.items < 2 ^ 32 }
    ensures { IfOk result (IsSaid lines.now.core.now lines.now.holds.now chains.now lines.now.limit tests.now.patterns.items tests.now.verdicts.items) }
{
    let netlist = lines.core.netlist();
    netlist.sound();
    let pins = pin_names(alloc, scanned)?;
    let verdicts = tests.verdicts.as_slice();
    let texts = lines_of(alloc, netlist, chains, &pins, lines.faults, verdicts)?;
    let held = hold_lines(alloc, netlist, lines.holds)?;
    let count = tests.patterns.as_slice().len() as u32;
    Ok(report_of(netlist, chains, count, lines.limit, texts, held))
}

/// The evidence of these verdicts as text.
fn certificate_text(
    alloc: Global,
    lines: &SlowLines<'_>,
    verdicts: Vec<TransitionVerdict>,
) -> Result<Vec<u8>, NoMemory>
    requires lines { AreSlowLines lines.now.core.now lines.now.holds.now lines.now.faults.now }
    requires size { length verdicts.items ≡ length (universe_of lines.now.core.now) }
    requires named { All (IsNamedInFrames lines.now.core.now) (leaves_of (universe_of lines.now.core.now) verdicts.items) }
    ensures text { IfOk result (λ text. text.items ≡ transition_certificate lines.now.core.now (leaves_of (universe_of lines.now.core.now) verdicts.items)) }
    ensures small { IfOk result (λ text. All (λ (p : FaultOf × EvidenceOf). HasSmallNumbers p.1) (leaves_of (universe_of lines.now.core.now) verdicts.items)) }
{
    let netlist = lines.core.netlist();
    netlist.sound();
    let leaves = leaves_of(alloc, lines.faults, verdicts)?;
    write_certificate(alloc, netlist, leaves.as_slice())
}

/// The netlists' texts.
fn net_texts(alloc: Global, core: &Core, scanned: &Netlist) -> Result<NetTexts, NoMemory>
    ensures net { IfOk result (λ t. t.net.items ≡ canonical core.now) }
    ensures scan { IfOk result (λ t. t.scan.items ≡ canonical scanned.now) }
{
    let net = write(alloc, core.netlist())?;
    let scan = write(alloc, scanned)?;
    Ok(NetTexts { net, scan })
}

/// The report of these tests.
fn report_on(
    alloc: Global,
    lines: &SlowLines<'_>,
    chains: &Chains,
    scanned: &Netlist,
    tests: &Tests,
) -> Result<Reported, NoMemory>
    requires lines { AreSlowLines lines.now.core.now lines.now.holds.now lines.now.faults.now }
    requires chains { AreChainsOf lines.now.core.now chains.now }
    requires scanned { scanned.now ≡ scanned_of lines.now.core.now chains.now }
    requires tests { AreTests lines.now.core.now lines.now.holds.now lines.now.limit tests.now.patterns.items tests.now.verdicts.items }
    requires few { length tests.now.patterns.items < 2 ^ 32 }
    ensures text { IfOk result (λ r. r.text.items ≡ transition_report_text r.said) }
    ensures said { IfOk result (λ r. IsSaid lines.now.core.now lines.now.holds.now chains.now lines.now.limit tests.now.patterns.items tests.now.verdicts.items r.said) }
{
    let said = said_of(alloc, lines, chains, scanned, tests)?;
    match write_report(alloc, &said) {
        Ok(text) => Ok(Reported { text, said }),
        Err(_) => Err(NoMemory),
    }
}

/// What is told of these tests beside this scanned netlist.
fn told_beside(
    alloc: Global,
    lines: &SlowLines<'_>,
    chains: &Chains,
    scanned: &Netlist,
    tests: &Tests,
) -> Result<Told, NoMemory>
    requires lines { AreSlowLines lines.now.core.now lines.now.holds.now lines.now.faults.now }
    requires chains { AreChainsOf lines.now.core.now chains.now }
    requires scanned { scanned.now ≡ scanned_of lines.now.core.now chains.now }
    requires tests { AreTests lines.now.core.now lines.now.holds.now lines.now.limit tests.now.patterns.items tests.now.verdicts.items }
    requires few { length tests.now.patterns.items < 2 ^ 32 }
    ensures { IfOk result (λ t. IsTold lines.now.core.now lines.now.holds.now chains.now lines.now.limit tests.now.patterns.items tests.now.verdicts.items t.nets.net.items t.nets.scan.items t.report.text.items t.report.said) }
{
    let nets = net_texts(alloc, lines.core, scanned)?;
    let report = report_on(alloc, lines, chains, scanned, tests)?;
    Ok(Told { nets, report })
}

/// The texts of the netlists and the report of these tests.
fn told_of(
    alloc: Global,
    lines: &SlowLines<'_>,
    chains: &Chains,
    tests: &Tests,
) -> Result<Told, NoMemory>
    requires lines { AreSlowLines lines.now.core.now lines.now.holds.now lines.now.faults.now }
    requires chains { AreChainsOf lines.now.core.now chains.now }
    requires tests { AreTests lines.now.core.now lines.now.holds.now lines.now.limit tests.now.patterns.items tests.now.verdicts.items }
    requires few { length tests.now.patterns.items < 2 ^ 32 }
    ensures { IfOk result (λ t. IsTold lines.now.core.now lines.now.holds.now chains.now lines.now.limit tests.now.patterns.items tests.now.verdicts.items t.nets.net.items t.nets.scan.items t.report.text.items t.report.said) }
{
    let scanned = insert(alloc, lines.core.netlist(), chains)?;
    told_beside(alloc, lines, chains, scanned.netlist(), tests)
}

/// The texts of the patterns and the evidence of these tests.
fn shown_of(
    alloc: Global,
    lines: &SlowLines<'_>,
    chains: &Chains,
    tests: Tests,
) -> Result<Shown, NoMemory>
    requires lines { AreSlowLines lines.now.core.now lines.now.holds.now lines.now.faults.now }
    requires chains { AreChainsOf lines.now.core.now chains.now }
    requires tests { AreTests lines.now.core.now lines.now.holds.now lines.now.limit tests.patterns.items tests.verdicts.items }
    ensures { IfOk result (λ s. IsShown lines.now.core.now lines.now.holds.now chains.now tests.patterns.items tests.verdicts.items s.stil.items s.certificate.items) }
{
    let Tests { patterns, verdicts } = tests;
    let stil = stil_text(alloc, lines.core, chains, patterns.as_slice(), lines.holds)?;
    drop(patterns);
    lines.core.netlist().sound();
    faults_have_lines();
    faults_have_signals();
    let certificate = certificate_text(alloc, lines, verdicts)?;
    Ok(Shown { stil, certificate })
}

/// The texts of these tests.
fn texts_of(
    alloc: Global,
    lines: &SlowLines<'_>,
    chains: &Chains,
    tests: Tests,
) -> Result<TransitionFiles, NoMemory>
    requires lines { AreSlowLines lines.now.core.now lines.now.holds.now lines.now.faults.now }
    requires chains { AreChainsOf lines.now.core.now chains.now }
    requires tests { AreTests lines.now.core.now lines.now.holds.now lines.now.limit tests.patterns.items tests.verdicts.items }
    requires few { length tests.patterns.items < 2 ^ 32 }
    ensures { IfOk result (IsWritten lines.now.core.now lines.now.holds.now chains.now lines.now.limit tests.patterns.items tests.verdicts.items) }
{
    let told = told_of(alloc, lines, chains, &tests)?;
    let shown = shown_of(alloc, lines, chains, tests)?;
    Ok(TransitionFiles {
        net: told.nets.net,
        scan: told.nets.scan,
        stil: shown.stil,
        certificate: shown.certificate,
        report: told.report.text,
        said: told.report.said,
    })
}

/// The files of these tests, for so many chains.
fn files_of(
    alloc: Global,
    lines: &SlowLines<'_>,
    asked: u32,
    tests: Tests,
) -> Result<TransitionFiles, NoMemory>
    ghost refutes: { Bool }
    requires lines { AreSlowLines lines.now.core.now lines.now.holds.now lines.now.faults.now }
    requires some { 1 ≤ asked }
    requires limit { (1 ≤ lines.now.limit) × (lines.now.limit ≤ most_limit) }
    requires tests { AreTests lines.now.core.now lines.now.holds.now lines.now.limit tests.patterns.items tests.verdicts.items }
    requires kinds { All (MayHave refutes) tests.verdicts.items }
    requires few { length tests.patterns.items < 2 ^ 32 }
    ensures { IfOk result (IsTransitionRun lines.now.core.now lines.now.holds.now asked lines.now.limit refutes) }
{
    let netlist = lines.core.netlist();
    netlist.sound();
    let chains = stitch(alloc, netlist.cells(), asked)?;
    let files = texts_of(alloc, lines, &chains, tests)?;
    written_is_run();
    Ok(files)
}

/// Makes the five files of a design's transition faults with these inputs held. Whatever the number of workers, the files are good, and what they
/// say comes true.
pub fn transition_files<R: Threads + Sync, E: Engine + Sync, G: Gate + Sync>(
    errand: &Errand<'_, E, G, R>,
    plan: TransitionPlan,
) -> Result<TransitionFiles, NoMemory>
    requires design { IsDesign errand.now.core.now }
    requires some { 1 ≤ plan.chains }
    requires limit { (1 ≤ plan.search.limit) × (plan.search.limit ≤ most_limit) }
    requires workers { (0 < plan.search.workers) × (plan.search.workers ≤ most_workers) }
    requires held { AreHoldsOf errand.now.core.now errand.now.holds.now }
    ensures { IfOk result (IsTransitionRun errand.now.core.now errand.now.holds.now plan.chains plan.search.limit E.refutes) }
{
    let netlist = errand.core.netlist();
    netlist.sound();
    few_faults();
    let faults = universe(errand.alloc, netlist)?;
    let tests = slow_tests(errand, &faults, plan.seed, plan.search)?;
    let lines = SlowLines {
        core: errand.core,
        faults: &faults,
        holds: errand.holds,
        limit: plan.search.limit,
        seed: plan.seed,
    };
    files_of(errand.alloc, &lines, plan.chains, tests)
}
