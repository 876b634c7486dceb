//! `diagnose`: the faults of a file's netlist that explain what failed on the tester.
ghost use Rattle.std.specs.Prelude.{◌≡◌, ◌≤◌, ◌<◌, ◌++◌, ◌∷◌, [], IfOk, OnOk, Some, length};
ghost use Rattle.std.specs.List.{All};
ghost use Rattle.netlist.specs.Designs.{IsDesign};
ghost use Rattle.netlist.specs.Lines.{signal_of};
ghost use Rattle.statement.specs.Netlists.{signals};
ghost use Rattle.statement.specs.Faults.{universe_of};
ghost use Rattle.good_files.specs.ScanOff.{design_chains};
ghost use Rattle.statement.specs.Tests.{vectors_in};
ghost use Rattle.diagnose.specs.Candidates.{AreCandidates, IsScannedDesign};
ghost use Rattle.diagnose.specs.Explaining.{told_cycles};
ghost use Rattle.commands.specs.Contents.{most_bytes};
ghost use Rattle.commands.specs.Names.{texts_of};
ghost use Rattle.commands.specs.Rows.{CommandRow};
ghost use Rattle.commands.specs.Worked.{IsWorked};
ghost use Rattle.commands.specs.World.{world};
ghost use Rattle.command_line.specs.CommandLine.{AreWithin};
ghost use Rattle.diagnose_command.specs.Diagnoses.{diagnose_due, IsDiagnosis, IsSaidOf, candidates_line, suspect_line, suspect_lines};
ghost use Rattle.diagnose_command.specs.inner.Cases.{IsFitted, IsScannedCase, case_due, diagnosis_due};

use crate::cases::{Case, Listed, ScannedCase, case_of, listed_of, test_of};
use crate::nearest_faults::nearest;
use command_line::DiagnoseOptions;
use command_steps::{Refusal, fitting, scanned_of};
use commands::{Ending, FileName, Finding, Product, Stop, deliver, read_in_order};
use diagnose::{ScannedDesign, Search, candidates, candidates_tell_the_truth};
use fault_universe::{FaultSet, faults_have_signals, push_text};
use itoa::Buffer;
use netlist::{Fault, Netlist, NoMemory};
use outside::{Gate, Shelf, Sink};
use scan_insert::laws::scanned_is_sound;
use std::alloc::{AllocError, Global};
use std::thread::Threads;

/// The files of `diagnose`: the netlist, the test, and the tester's log.
#[derive(Clone, Copy, PartialEq, Eq)]
pub struct DiagnoseNames<'a> {
    pub net: &'a str,
    pub stil: &'a str,
    pub log: &'a str,
}

/// The places of the faults that explain the log of a file that fits.
fn suspects<R: Threads + Sync, G: Gate + Sync>(
    search: &Search<'_, R, G>,
    scanned: &ScannedCase<'_>,
    listed: &Listed,
) -> Result<Vec<u32>, NoMemory>
    requires fitted { IsFitted scanned.now }
    requires design { IsScannedDesign scanned.now.scanned.now listed.now.faults listed.now.classes }
    ensures { IfOk result (λ found. AreCandidates scanned.now.scanned.now listed.now.faults (told_cycles scanned.now.case.now.log.end (vectors_in scanned.now.case.now.file))
        scanned.now.case.now.log.failures found.items) }
{
    let (core, cycles) = test_of(search.alloc, scanned)?;
    let design = ScannedDesign {
        core: &core,
        scanned: scanned.scanned,
        faults: &listed.faults,
        classes: &listed.classes,
    };
    let found = candidates(search, &design, cycles, &scanned.case.log)?;
    Ok(found)
}

/// The line that counts them.
fn begun(alloc: Global, count: usize) -> Result<Vec<u8>, AllocError>
    ensures { IfOk result (λ text. text.items ≡ candidates_line count) }
{
    let mut text = Vec::new(alloc);
    text.extend_from_slice(b"candidates ")?;
    text.extend_from_slice(Buffer::new().format(count).as_bytes())?;
    text.extend_from_slice(b"\n")?;
    Ok(text)
}

/// Adds the line of a fault.
fn push_suspect(text: &mut Vec<u8>, netlist: &Netlist, fault: Fault) -> Result<(), AllocError>
    requires { signal_of fault.line < length (signals netlist.now) }
    ensures { OnOk result (text.new.items ≡ text.old.items ++ suspect_line netlist.now (Some fault)) }
{
    push_text(text, netlist, fault)?;
    text.extend_from_slice(b"\n")?;
    Ok(())
}

/// What is printed of the faults at these places.
fn text_of(
    alloc: Global,
    netlist: &Netlist,
    faults: &FaultSet,
    places: &[u32],
) -> Result<Vec<u8>, AllocError>
    requires universe { faults.now ≡ universe_of netlist.now }
    requires within { All (λ i. i < length (universe_of netlist.now)) places.now }
    ensures { IfOk result (λ text. text.items ≡ candidates_line (length places.now) ++ suspect_lines netlist.now places.now) }
{
    netlist.sound();
    faults_have_signals();
    let mut text = begun(alloc, places.len())?;
    for place in places {
        push_suspect(&mut text, netlist, faults.fault(*place))?;
    }
    Ok(text)
}

/// What is printed of a case whose file fits.
fn diagnosis<R: Threads + Sync, G: Gate + Sync>(
    search: &Search<'_, R, G>,
    scanned: &ScannedCase<'_>,
) -> Result<Vec<u8>, NoMemory>
    requires { IsFitted scanned.now }
    ensures { IfOk result (λ text. IsDiagnosis scanned.now.case.now.netlist (design_chains scanned.now.case.now.netlist scanned.now.chains) (vectors_in scanned.now.case.now.file)
        scanned.now.case.now.log text.items) }
{
    let netlist = &scanned.case.netlist;
    netlist.sound();
    scanned_is_sound();
    candidates_tell_the_truth();
    let listed = listed_of(search.alloc, netlist)?;
    let found = suspects(search, scanned, &listed)?;
    match text_of(search.alloc, netlist, &listed.faults, &found) {
        Ok(text) => Ok(text),
        Err(_) => Err(NoMemory),
    }
}

/// What is printed of a case whose file fits: the faults that explain the log, or those that come nearest to it.
fn said_of<R: Threads + Sync, G: Gate + Sync>(
    search: &Search<'_, R, G>,
    scanned: &ScannedCase<'_>,
    rank: Option<u64>,
) -> Result<Vec<u8>, NoMemory>
    requires { IsFitted scanned.now }
    ensures { IfOk result (λ text. IsSaidOf rank scanned.now.case.now.netlist (design_chains scanned.now.case.now.netlist scanned.now.chains) (vectors_in scanned.now.case.now.file)
        scanned.now.case.now.log text.items) }
{
    match rank {
        None => diagnosis(search, scanned),
        Some(count) => nearest(search.alloc, search.stage, scanned, count),
    }
}

/// The product of a case whose file fits.
fn product_of<R: Threads + Sync, G: Gate + Sync>(
    search: &Search<'_, R, G>,
    scanned: &ScannedCase<'_>,
    rank: Option<u64>,
) -> Result<Product, Stop<Refusal>>
    requires fitted { IsFitted scanned.now }
    ensures { IsWorked (diagnosis_due scanned.now.chains rank scanned.now.case.now.netlist scanned.now.case.now.file scanned.now.case.now.log) 0 result }
{
    match said_of(search, scanned, rank) {
        Ok(shown) => Ok(Product {
            texts: Vec::new(search.alloc),
            shown,
            finding: Finding::Fine,
        }),
        Err(_) => Err(Stop::NoMemory),
    }
}

/// Diagnoses a case, if its file fits the scanned design.
#[tactic(auto, using(crate::proofs::DiagnoseLemmas::fitted_by))]
fn fitted<R: Threads + Sync, G: Gate + Sync>(
    search: &Search<'_, R, G>,
    scanned: &ScannedCase<'_>,
    rank: Option<u64>,
) -> Result<Product, Stop<Refusal>>
    requires scanned { IsScannedCase scanned.now }
    ensures { IsWorked (case_due scanned.now.chains rank scanned.now.case.now.netlist scanned.now.case.now.file scanned.now.case.now.log) 0 result }
{
    match fitting(search.alloc, &scanned.case.file, scanned.scanned.netlist()) {
        Ok(()) => product_of(search, scanned, rank),
        Err(stop) => Err(stop),
    }
}

/// Diagnoses a case, the design scanned as the options say.
fn diagnosed<R: Threads + Sync, G: Gate + Sync>(
    search: &Search<'_, R, G>,
    case: &Case,
    options: DiagnoseOptions,
) -> Result<Product, Stop<Refusal>>
    requires design { IsDesign case.now.netlist }
    requires some { 1 ≤ options.chains }
    ensures { IsWorked (case_due options.chains options.rank case.now.netlist case.now.file case.now.log) 0 result }
{
    let chains = options.chains;
    match scanned_of(search.alloc, &case.netlist, chains) {
        Ok(scanned) => {
            let scanned = ScannedCase {
                case,
                scanned: &scanned,
                chains,
            };
            fitted(search, &scanned, options.rank)
        }
        Err(_) => Err(Stop::NoMemory),
    }
}

fn work<R: Threads + Sync, G: Gate + Sync>(
    rt: &R,
    alloc: Global,
    stage: &G,
    texts: Vec<Vec<u8>>,
    options: DiagnoseOptions,
) -> Result<Product, Stop<Refusal>>
    requires count { length texts.items ≡ 3 }
    requires within { All (λ text. length text ≤ most_bytes) (texts_of texts.items) }
    requires range { AreWithin options }
    ensures { IsWorked (diagnose_due options.chains options.rank (texts_of texts.items)) 0 result }
{
    let net = texts[0].as_slice();
    let stil = texts[1].as_slice();
    let log = texts[2].as_slice();
    match case_of(alloc, net, stil, log) {
        Ok(case) => {
            drop(texts);
            let workers = options.workers;
            let search = Search {
                rt,
                alloc,
                stage,
                workers,
            };
            diagnosed(&search, &case, options)
        }
        Err(stop) => Err(stop),
    }
}

/// Shows the faults of the netlist of the file `net` that explain what failed, by the file `log`, when the file `stil` was played on the chip.
pub fn diagnose_log<'a, R: Threads + Sync, S: Shelf, T: Sink, G: Gate + Sync>(
    rt: &R,
    alloc: Global,
    shelf: &mut S,
    out: &mut T,
    stage: &G,
    names: DiagnoseNames<'a>,
    options: DiagnoseOptions,
) -> Ending<'a, Refusal>
    requires { AreWithin options }
    ensures { CommandRow (names.entry.net.now ∷ names.entry.stil.now ∷ names.entry.log.now ∷ []) [] (diagnose_due options.chains options.rank)
        (world (S.files shelf.old) (S.failures shelf.old) (T.taken out.old) (T.failures out.old))
        (world (S.files shelf.new) (S.failures shelf.new) (T.taken out.new) (T.failures out.new)) result }
{
    let DiagnoseNames { net, stil, log } = names;
    let reads = [FileName::of(net), FileName::of(stil), FileName::of(log)];
    let texts = match read_in_order(alloc, shelf, &reads) {
        Ok(texts) => texts,
        Err(ending) => return ending,
    };
    let worked = work(rt, alloc, stage, texts, options);
    deliver(alloc, shelf, out, &[], worked)
}
