//! `diagnose --rank`: the faults of a file's netlist that come nearest to what failed on the tester.
ghost use Rattle.std.specs.Prelude.{◌≡◌, ◌<◌, ◌++◌, IfOk, OnOk, Some, decimal, length};
ghost use Rattle.std.specs.List.{All};
ghost use Rattle.netlist.specs.Lines.{signal_of};
ghost use Rattle.statement.specs.Netlists.{signals};
ghost use Rattle.statement.specs.Faults.{universe_of};
ghost use Rattle.statement.specs.Tests.{vectors_in};
ghost use Rattle.good_files.specs.ScanOff.{design_chains};
ghost use Rattle.diagnose.specs.Candidates.{IsScannedDesign};
ghost use Rattle.diagnose.specs.Explaining.{told_cycles};
ghost use Rattle.diagnose.specs.Ranking.{IsRanking};
ghost use Rattle.diagnose.specs.declared.ranks.Ranked.{Ranked as Rank};
ghost use Rattle.diagnose_command.specs.Diagnoses.{IsNearest, nearest_line, ranked_line, ranked_lines};
ghost use Rattle.diagnose_command.specs.inner.Cases.{IsFitted};

use crate::cases::{Listed, ScannedCase, listed_of, test_of};
use diagnose::{Ranked, ScannedDesign, ranking};
use fault_universe::{FaultSet, faults_have_signals, push_text};
use itoa::Buffer;
use netlist::{Fault, Netlist, NoMemory};
use outside::Gate;
use std::alloc::{AllocError, Global};

/// The faults that come nearest to the log of a file that fits.
fn ranked<G: Gate>(
    alloc: Global,
    stage: &G,
    scanned: &ScannedCase<'_>,
    listed: &Listed,
    count: u64,
) -> Result<Vec<Ranked>, NoMemory>
    requires fitted { IsFitted scanned.now }
    requires design { IsScannedDesign scanned.now.scanned.now listed.now.faults listed.now.classes }
    ensures { IfOk result (λ r. IsRanking scanned.now.scanned.now listed.now.faults (told_cycles scanned.now.case.now.log.end (vectors_in scanned.now.case.now.file))
        scanned.now.case.now.log.failures count r.items) }
{
    let (core, cycles) = test_of(alloc, scanned)?;
    let design = ScannedDesign {
        core: &core,
        scanned: scanned.scanned,
        faults: &listed.faults,
        classes: &listed.classes,
    };
    let found = ranking(alloc, stage, &design, cycles, &scanned.case.log, count)?;
    Ok(found)
}

/// Adds a number.
fn push_number(text: &mut Vec<u8>, number: u64) -> Result<(), AllocError>
    ensures { OnOk result (text.new.items ≡ text.old.items ++ decimal number) }
{
    text.extend_from_slice(Buffer::new().format(number).as_bytes())
}

/// The line that counts them.
fn begun(alloc: Global, count: usize) -> Result<Vec<u8>, AllocError>
    ensures { IfOk result (λ text. text.items ≡ nearest_line count) }
{
    let mut text = Vec::new(alloc);
    text.extend_from_slice(b"nearest ")?;
    push_number(&mut text, count as u64)?;
    text.extend_from_slice(b"\n")?;
    Ok(text)
}

/// Adds the line of a fault.
fn push_ranked(
    text: &mut Vec<u8>,
    netlist: &Netlist,
    fault: Fault,
    ranked: Ranked,
) -> Result<(), AllocError>
    requires { signal_of fault.line < length (signals netlist.now) }
    ensures { OnOk result (text.new.items ≡ text.old.items ++ ranked_line netlist.now ranked (Some fault)) }
{
    push_text(text, netlist, fault)?;
    text.extend_from_slice(b" missing ")?;
    push_number(text, ranked.missing)?;
    text.extend_from_slice(b" extra ")?;
    push_number(text, ranked.extra)?;
    text.extend_from_slice(b"\n")?;
    Ok(())
}

/// What is printed of these.
fn text_of(
    alloc: Global,
    netlist: &Netlist,
    faults: &FaultSet,
    ranking: &[Ranked],
) -> Result<Vec<u8>, AllocError>
    requires universe { faults.now ≡ universe_of netlist.now }
    requires within { All (λ (r : Rank). r.place < length (universe_of netlist.now)) ranking.now }
    ensures { IfOk result (λ text. text.items ≡ nearest_line (length ranking.now) ++ ranked_lines netlist.now ranking.now) }
{
    netlist.sound();
    faults_have_signals();
    let mut text = begun(alloc, ranking.len())?;
    for ranked in ranking {
        push_ranked(&mut text, netlist, faults.fault(ranked.place), *ranked)?;
    }
    Ok(text)
}

/// What is printed of a case whose file fits, where so many faults are asked for.
pub(crate) fn nearest<G: Gate>(
    alloc: Global,
    stage: &G,
    scanned: &ScannedCase<'_>,
    count: u64,
) -> Result<Vec<u8>, NoMemory>
    requires { IsFitted scanned.now }
    ensures { IfOk result (λ text. IsNearest count scanned.now.case.now.netlist (design_chains scanned.now.case.now.netlist scanned.now.chains) (vectors_in scanned.now.case.now.file)
        scanned.now.case.now.log text.items) }
{
    let netlist = &scanned.case.netlist;
    netlist.sound();
    let listed = listed_of(alloc, netlist)?;
    let found = ranked(alloc, stage, scanned, &listed, count)?;
    match text_of(alloc, netlist, &listed.faults, &found) {
        Ok(text) => Ok(text),
        Err(_) => Err(NoMemory),
    }
}
