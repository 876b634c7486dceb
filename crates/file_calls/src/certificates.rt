//! Certificates, read for a netlist and written again.
ghost use Rattle.certificate.specs.Certificates.{IsCertificate};

use crate::refutations::push_refutation;
use case_nets::{push_fault, push_tree};
use case_text::{Pushed, Said, push_checksum, show};
use certificate::{CertFault, has_refutation, read_evidence, write_evidence};
use evidence::Evidence;
use netlist::{Core, Fault, Netlist};
use std::alloc::{AllocError, Global};

/// Adds how many trees there are, and how many refutations where there are any.
fn push_counts(to: &mut Said, evidence: &[(Fault, Evidence)]) {
    let mut trees = 0u64;
    let mut refutations = 0u64;
    for pair in evidence {
        match &pair.1 {
            Evidence::Tree(_) => trees = trees.wrapping_add(1),
            Evidence::Refutation(_) => refutations = refutations.wrapping_add(1),
        }
    }
    if has_refutation(evidence) {
        to.push_count("refutations ", refutations);
    }
    to.push_count("trees ", trees);
}

fn lines_of(
    alloc: Global,
    netlist: &Netlist,
    evidence: &[(Fault, Evidence)],
) -> Result<Vec<u8>, AllocError> {
    let mut lines = Said::new(alloc);
    for pair in evidence {
        push_fault(&mut lines, netlist, &pair.0);
        match &pair.1 {
            Evidence::Tree(tree) => {
                let mut line = Vec::new(alloc);
                push_tree(&mut line, netlist, b"", tree)?;
                lines.push_bytes(&line);
            }
            Evidence::Refutation(refutation) => push_refutation(&mut lines, refutation.steps()),
        }
    }
    lines.end()
}

/// Says so where what was read is written otherwise.
fn push_rewritten(
    to: &mut Said,
    core: &Core,
    bytes: &[u8],
    evidence: &[(Fault, Evidence)],
) -> Pushed
    requires { IsCertificate core.now bytes.now evidence.now }
{
    core.netlist().sound();
    let Ok(text) = write_evidence(to.alloc, core, evidence) else {
        return Err(AllocError);
    };
    if text.as_slice() != bytes {
        to.push("written otherwise\n");
    }
    Ok(())
}

fn push_read(
    to: &mut Said,
    core: &Core,
    bytes: &[u8],
    evidence: &[(Fault, Evidence)],
    is_whole: bool,
) -> Pushed
    requires { IsCertificate core.now bytes.now evidence.now }
{
    push_counts(to, evidence);
    let lines = lines_of(to.alloc, core.netlist(), evidence)?;
    if is_whole {
        show(to, &lines);
    } else {
        push_checksum(to, "sum ", &lines);
    }
    push_rewritten(to, core, bytes, evidence)
}

/// `certificate TEXT CERTIFICATE`: the evidence of the certificate, or that it is none. `certificate-sum` has the checksum of its lines.
pub fn push_certificate(to: &mut Said, core: &Core, bytes: &[u8], is_whole: bool) -> Pushed {
    match read_evidence(to.alloc, core, bytes) {
        Ok(evidence) => push_read(to, core, bytes, &evidence, is_whole),
        Err(CertFault::NotCertificate) => {
            to.push("NotCertificate\n");
            Ok(())
        }
        Err(CertFault::NoMemory) => Err(AllocError),
    }
}
