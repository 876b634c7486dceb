//! Certificates from their text.
ghost use Rattle.std.specs.Prelude.{MatchResult};
ghost use Rattle.certificate.specs.Certificates.{IsCertificate, NoCertificate, IsCertFault};
ghost use Rattle.certificate.specs.inner.Parts.{AreLines, NoLines};

use crate::kinds::{behind_first, has_refutation};
use crate::line::read_line;
use evidence::Evidence;
use name_index::NameIndex;
use netlist::{Core, Fault};
use plain_text::split_at;
use std::alloc::Global;

/// Why there is no evidence.
#[derive(Clone, Copy, PartialEq, Eq)]
pub enum CertFault {
    NotCertificate,
    NoMemory,
}

/// The evidence of lines.
fn read_lines(
    alloc: Global,
    names: &NameIndex,
    lines: &[u8],
) -> Result<Vec<(Fault, Evidence)>, CertFault>
    ensures { MatchResult result (λ evidence. AreLines names.now lines.now evidence.items) (IsCertFault (NoLines names.now lines.now)) }
{
    names.netlist().sound();
    let mut evidence = Vec::new(alloc);
    let mut rest = lines;
    while !rest.is_empty() {
        let Some(parts) = split_at(rest, b'\n') else {
            return Err(CertFault::NotCertificate);
        };
        let pair = read_line(alloc, names, parts.0)?;
        let Ok(()) = evidence.push(pair) else {
            return Err(CertFault::NoMemory);
        };
        rest = parts.1;
    }
    Ok(evidence)
}

/// The evidence of lines that name signals of this netlist.
fn lines_of(alloc: Global, core: &Core, lines: &[u8]) -> Result<Vec<(Fault, Evidence)>, CertFault>
    ensures { MatchResult result (λ evidence. AreLines core.now lines.now evidence.items) (IsCertFault (NoLines core.now lines.now)) }
{
    let Ok(names) = NameIndex::of(alloc, core.netlist()) else {
        return Err(CertFault::NoMemory);
    };
    read_lines(alloc, &names, lines)
}

/// The evidence whose certificate the bytes are, in the order of its lines; `NotCertificate` exactly where they are none.
pub fn read_evidence(
    alloc: Global,
    core: &Core,
    bytes: &[u8],
) -> Result<Vec<(Fault, Evidence)>, CertFault>
    ensures { MatchResult result (λ evidence. IsCertificate core.now bytes.now evidence.items) (IsCertFault (NoCertificate core.now bytes.now)) }
{
    core.netlist().sound();
    let Some(first) = behind_first(bytes) else {
        return Err(CertFault::NotCertificate);
    };
    let evidence = lines_of(alloc, core, first.1)?;
    if has_refutation(&evidence) == first.0 {
        Ok(evidence)
    } else {
        Err(CertFault::NotCertificate)
    }
}
