//! Certificates of transition faults from their text. The frames are made once: their signals have the same names for every slow line.
ghost use Rattle.std.specs.Prelude.{◌≡◌, ◌≢◌, ◌++◌, ℕ, Bool, List, MatchOption, MatchResult};
ghost use Rattle.statement.specs.declared.lines.Fault.{Fault as FaultOf};
ghost use Rattle.evidence.specs.declared.kinds.Evidence.{Evidence as EvidenceOf};
ghost use Rattle.netlist.specs.Designs.{IsDesign};
ghost use Rattle.certificate.specs.Certificates.{IsCertFault};
ghost use Rattle.certificate.specs.declared.reading.CertFault.TheVariants.{NoMemory};
ghost use Rattle.transition_report.specs.Texts.{transition_first_line};
ghost use Rattle.transition_report.specs.Reading.{IsTransitionCertificate, NoTransitionCertificate};
ghost use Rattle.transition_report.specs.inner.Parts.{AreLinesIn, AreSlowLines, IsFramed, IsSlowLine};

use crate::certificates::{first_line, framed};
use crate::fault_reading::slow_fault_at;
use certificate::{CertFault, evidence_of, has_refutation};
use evidence::Evidence;
use name_index::NameIndex;
use netlist::{Fault, Line, Netlist};
use plain_text::split_at;
use report::behind;
use std::alloc::Global;

/// What the first line says, and what comes behind it.
fn behind_first(bytes: &[u8]) -> Option<(bool, &[u8])>
    ensures { MatchOption result
        ((refutes : Bool) (rest : List ℕ) → bytes.now ≢ transition_first_line refutes ++ rest)
        (λ p. bytes.now ≡ transition_first_line p.0 ++ p.1.now) }
{
    if let Some(trees) = behind(first_line(false), bytes) {
        return Some((false, trees));
    }
    let lines = behind(first_line(true), bytes)?;
    Some((true, lines))
}

/// The fault and the evidence that a line stands for.
fn read_line(
    alloc: Global,
    room: &mut Vec<u8>,
    names: &NameIndex,
    two: &NameIndex,
    line: &[u8],
) -> Result<(Fault, Evidence), CertFault>
    ensures { MatchResult result (IsSlowLine names.now two.now line.now) (IsCertFault ((p : FaultOf × EvidenceOf) → ¬ IsSlowLine names.now two.now line.now p)) }
{
    names.netlist().sound();
    two.netlist().sound();
    let Ok(found) = slow_fault_at(room, names, line) else {
        return Err(CertFault::NoMemory);
    };
    let Some((fault, rest)) = found else {
        return Err(CertFault::NotCertificate);
    };
    let evidence = evidence_of(alloc, two, rest)?;
    Ok((fault, evidence))
}

/// The evidence of lines, by the names of these two frames.
fn read_lines(
    alloc: Global,
    names: &NameIndex,
    two: &NameIndex,
    lines: &[u8],
) -> Result<Vec<(Fault, Evidence)>, CertFault>
    ensures { MatchResult result
        (λ evidence. AreLinesIn names.now two.now lines.now evidence.items)
        (IsCertFault ((evidence : List (FaultOf × EvidenceOf)) → ¬ AreLinesIn names.now two.now lines.now evidence)) }
{
    names.netlist().sound();
    two.netlist().sound();
    let mut room = Vec::new(alloc);
    let mut evidence = Vec::new(alloc);
    let mut rest = lines;
    while !rest.is_empty() {
        let Some(parts) = split_at(rest, b'\n') else {
            return Err(CertFault::NotCertificate);
        };
        let pair = read_line(alloc, &mut room, names, two, parts.0)?;
        let Ok(()) = evidence.push(pair) else {
            return Err(CertFault::NoMemory);
        };
        rest = parts.1;
    }
    Ok(evidence)
}

/// Two frames for the names of their signals: those in which the first input is slow.
fn named_frames(alloc: Global, netlist: &Netlist) -> Result<Netlist, CertFault>
    requires { IsDesign netlist.now }
    ensures { MatchResult result (IsFramed netlist.now) (λ fault. fault ≡ NoMemory) }
{
    netlist.sound();
    let slow = Fault {
        line: Line::Stem(netlist.inputs()[0]),
        value: false,
    };
    match framed(alloc, netlist, slow) {
        Ok(two) => Ok(two),
        Err(_) => Err(CertFault::NoMemory),
    }
}

/// The evidence of lines, by the names of these two frames. What is large is let go by one call.
fn lines_by(
    alloc: Global,
    netlist: &Netlist,
    two: &Netlist,
    lines: &[u8],
) -> Result<Vec<(Fault, Evidence)>, CertFault>
    requires { IsFramed netlist.now two.now }
    ensures { MatchResult result
        (λ evidence. AreSlowLines netlist.now lines.now evidence.items)
        (IsCertFault ((evidence : List (FaultOf × EvidenceOf)) → ¬ AreSlowLines netlist.now lines.now evidence)) }
{
    let Ok(names) = NameIndex::of(alloc, netlist) else {
        return Err(CertFault::NoMemory);
    };
    let Ok(index) = NameIndex::of(alloc, two) else {
        drop(names);
        return Err(CertFault::NoMemory);
    };
    let evidence = read_lines(alloc, &names, &index, lines);
    drop((names, index));
    evidence
}

/// The evidence of lines.
fn lines_of(
    alloc: Global,
    netlist: &Netlist,
    lines: &[u8],
) -> Result<Vec<(Fault, Evidence)>, CertFault>
    requires { IsDesign netlist.now }
    ensures { MatchResult result
        (λ evidence. AreSlowLines netlist.now lines.now evidence.items)
        (IsCertFault ((evidence : List (FaultOf × EvidenceOf)) → ¬ AreSlowLines netlist.now lines.now evidence)) }
{
    let two = named_frames(alloc, netlist)?;
    let evidence = lines_by(alloc, netlist, &two, lines);
    drop(two);
    evidence
}

/// The evidence whose certificate the bytes are, in the order of its lines; `NotCertificate` exactly where they are none.
pub fn read_transition_certificate(
    alloc: Global,
    netlist: &Netlist,
    bytes: &[u8],
) -> Result<Vec<(Fault, Evidence)>, CertFault>
    requires design { IsDesign netlist.now }
    ensures { MatchResult result
        (λ evidence. IsTransitionCertificate netlist.now bytes.now evidence.items)
        (IsCertFault (NoTransitionCertificate netlist.now bytes.now)) }
{
    netlist.sound();
    let Some((refutes, lines)) = behind_first(bytes) else {
        return Err(CertFault::NotCertificate);
    };
    let evidence = lines_of(alloc, netlist, lines)?;
    if has_refutation(&evidence) == refutes {
        Ok(evidence)
    } else {
        Err(CertFault::NotCertificate)
    }
}
