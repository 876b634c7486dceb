//! Certificates of transition faults as text. Signals of the two frames have the same names for every slow line, so the frames of one serve for all.
ghost use Rattle.std.specs.Prelude.{◌≡◌, ◌<◌, ◌++◌, length, IfOk, OnOk};
ghost use Rattle.std.specs.List.{All, flat_map};
ghost use Rattle.statement.specs.declared.lines.Fault.{Fault as FaultOf};
ghost use Rattle.evidence.specs.declared.kinds.Evidence.{Evidence as EvidenceOf};
ghost use Rattle.netlist.specs.Designs.{IsDesign};
ghost use Rattle.netlist.specs.Lines.{IsLineOf, signal_of};
ghost use Rattle.transition_frames.specs.Frames.{frames_of};
ghost use Rattle.statement.specs.Netlists.{signals};
ghost use Rattle.certificate.specs.Certificates.{HasSignals, HasSmallNumbers};
ghost use Rattle.transition_report.specs.Texts.{transition_text, transition_line, transition_first_line, transition_certificate, IsNamedInFrames};

use certificate::{has_refutation, push_evidence};
use evidence::Evidence;
use fault_universe::push_line;
use netlist::{Fault, Netlist, NoMemory};
use std::alloc::{AllocError, Global};
use transition_frames::frames;

/// Adds the text of a transition fault, as `pin z 0 rise`.
pub fn push_fault(text: &mut Vec<u8>, netlist: &Netlist, fault: Fault) -> Result<(), AllocError>
    requires { signal_of fault.line < length (signals netlist.now) }
    ensures { OnOk result (text.new.items ≡ text.old.items ++ transition_text netlist.now fault) }
{
    push_line(text, netlist, &fault.line)?;
    text.extend_from_slice(if fault.value { b" fall" } else { b" rise" })?;
    Ok(())
}

/// Adds the line of a fault and its evidence, by the names of these two frames.
fn push_one(
    text: &mut Vec<u8>,
    netlist: &Netlist,
    two: &Netlist,
    fault: Fault,
    evidence: &Evidence,
) -> Result<(), AllocError>
    requires signal { signal_of fault.line < length (signals netlist.now) }
    requires signals { HasSignals two.now evidence.now }
    ensures text { OnOk result (text.new.items ≡ text.old.items ++ transition_line netlist.now two.now (fault, evidence.now)) }
    ensures within { OnOk result (HasSmallNumbers evidence.now) }
{
    push_fault(text, netlist, fault)?;
    push_evidence(text, two, evidence)?;
    text.extend_from_slice(b"\n")?;
    Ok(())
}

fn push_all(
    text: &mut Vec<u8>,
    netlist: &Netlist,
    two: &Netlist,
    evidence: &[(Fault, Evidence)],
) -> Result<(), AllocError>
    requires { All (λ (p : FaultOf × EvidenceOf). (signal_of p.0.line < length (signals netlist.now)) × HasSignals two.now p.1) evidence.now }
    ensures text { OnOk result (text.new.items ≡ text.old.items ++ flat_map (transition_line netlist.now two.now) evidence.now) }
    ensures within { OnOk result (All (λ (p : FaultOf × EvidenceOf). HasSmallNumbers p.1) evidence.now) }
{
    for pair in evidence {
        push_one(text, netlist, two, pair.0, &pair.1)?;
    }
    Ok(())
}

/// The first line of a certificate with refutations, or of one with trees alone.
pub(crate) fn first_line(refutes: bool) -> &'static [u8]
    ensures { result.now ≡ transition_first_line refutes }
{
    if refutes {
        b"atpg transition certificate 2\n"
    } else {
        b"atpg transition certificate 1\n"
    }
}

/// The two frames in which a line is slow.
pub(crate) fn framed(alloc: Global, netlist: &Netlist, slow: Fault) -> Result<Netlist, NoMemory>
    requires design { IsDesign netlist.now }
    requires line { IsLineOf netlist.now slow.line }
    ensures { IfOk result (λ two. two ≡ frames_of netlist.now slow) }
{
    match frames(alloc, netlist, slow) {
        Ok((two, _)) => Ok(two),
        Err(_) => Err(NoMemory),
    }
}

/// Adds the lines of this evidence, each of which is named in the two frames of its fault.
fn push_lines(
    alloc: Global,
    text: &mut Vec<u8>,
    netlist: &Netlist,
    evidence: &[(Fault, Evidence)],
) -> Result<(), NoMemory>
    requires design { IsDesign netlist.now }
    requires named { All (IsNamedInFrames netlist.now) evidence.now }
    ensures text { OnOk result (text.new.items ≡ text.old.items ++ flat_map (λ (p : FaultOf × EvidenceOf). transition_line netlist.now (frames_of netlist.now p.0) p) evidence.now) }
    ensures within { OnOk result (All (λ (p : FaultOf × EvidenceOf). HasSmallNumbers p.1) evidence.now) }
{
    let Some(first) = evidence.first() else {
        return Ok(());
    };
    let two = framed(alloc, netlist, first.0)?;
    let done = push_all(text, netlist, &two, evidence);
    drop(two);
    match done {
        Ok(()) => Ok(()),
        Err(_) => Err(NoMemory),
    }
}

/// The certificate of this evidence for a design, each with its transition fault, in this order. The numbers of its refutations are below 2^32, so that
/// it is read back.
pub fn write_certificate(
    alloc: Global,
    netlist: &Netlist,
    evidence: &[(Fault, Evidence)],
) -> Result<Vec<u8>, NoMemory>
    requires design { IsDesign netlist.now }
    requires named { All (IsNamedInFrames netlist.now) evidence.now }
    ensures text { IfOk result (λ text. text.items ≡ transition_certificate netlist.now evidence.now) }
    ensures within { IfOk result (λ text. All (λ (p : FaultOf × EvidenceOf). HasSmallNumbers p.1) evidence.now) }
{
    let head = first_line(has_refutation(evidence));
    let Ok(mut text) = Vec::from_slice(alloc, head) else {
        return Err(NoMemory);
    };
    push_lines(alloc, &mut text, netlist, evidence)?;
    Ok(text)
}
