//! The texts of a run beside its report. Each function has one text or two at hand where the next one fails, so that little has to be let go there.
ghost use Rattle.std.specs.Prelude.{◌≡◌, ◌≤◌, IfOk, length};
ghost use Rattle.std.specs.List.{All};
ghost use Rattle.statement.specs.declared.lines.Fault.{Fault};
ghost use Rattle.netlist.specs.Designs.{IsDesign};
ghost use Rattle.cubes.specs.Cubes.{IsPatternOf};
ghost use Rattle.netlist.specs.Holds.{AreHoldsOf};
ghost use Rattle.scan_insert.specs.Scanned.{AreChainsOf};
ghost use Rattle.evidence.specs.declared.kinds.Evidence.{Evidence};
ghost use Rattle.certificate.specs.Certificates.{HasSmallNumbers, IsNamed, certificate_text};
ghost use Rattle.run_files.specs.inner.Cases.{AreFoundOf, IsCase};
ghost use Rattle.run_files.specs.inner.Verdicts.{leaves_of};
ghost use Rattle.run_files.specs.inner.Written.{AreNetlistTexts, AreTestTexts, IsTestText};

use crate::case::Case;
use crate::leaves::leaves_of;
use bench_text::write;
use certificate::write_evidence;
use cubes::Pattern;
use list_core::{Finished, Verdict};
use netlist::{Core, Fault, Holds, Netlist, NoMemory};
use scan_insert::Chains;
use std::alloc::Global;
use stil_patterns::stil_of;
use stil_write::write_stil;

/// A netlist and what scan insertion makes of it, as texts.
#[derive(Drop)]
pub(crate) struct NetlistTexts {
    pub net: Vec<u8>,
    pub scan: Vec<u8>,
}

/// A test and its certificate, as texts.
#[derive(Drop)]
pub(crate) struct TestTexts {
    pub stil: Vec<u8>,
    pub certificate: Vec<u8>,
}

/// The texts of a netlist and of the scanned one.
pub(crate) fn netlist_texts(
    alloc: Global,
    netlist: &Netlist,
    scanned: &Netlist,
) -> Result<NetlistTexts, NoMemory>
    ensures { IfOk result (AreNetlistTexts netlist.now scanned.now) }
{
    let net = write(alloc, netlist)?;
    let scan = write(alloc, scanned)?;
    Ok(NetlistTexts { net, scan })
}

/// The test of these patterns as text.
fn stil_text(
    alloc: Global,
    core: &Core,
    chains: &Chains,
    patterns: &[Pattern],
    holds: &Holds,
) -> Result<Vec<u8>, NoMemory>
    requires design { IsDesign core.now }
    requires holds { AreHoldsOf core.now holds.now }
    requires chains { AreChainsOf core.now chains.now }
    requires patterns { All (IsPatternOf core.now holds.now) patterns.now }
    ensures { IfOk result (λ text. IsTestText core.now holds.now chains.now patterns.now text.items) }
{
    let file = stil_of(alloc, core, chains, patterns, holds)?;
    file.sound();
    write_stil(alloc, &file).map_err(|_| NoMemory)
}

/// The certificate of these verdicts, one for each representative.
fn text_of_leaves(
    alloc: Global,
    core: &Core,
    representatives: &[Fault],
    verdicts: Vec<Verdict>,
) -> Result<Vec<u8>, NoMemory>
    requires size { length verdicts.items ≤ length representatives.now }
    requires named { All (IsNamed core.now) (leaves_of representatives.now verdicts.items) }
    ensures text { IfOk result (λ text. text.items ≡ certificate_text core.now (leaves_of representatives.now verdicts.items)) }
    ensures within { IfOk result (λ text. All (λ (p : Fault × Evidence). HasSmallNumbers p.1) (leaves_of representatives.now verdicts.items)) }
{
    let leaves = leaves_of(alloc, representatives, verdicts)?;
    write_evidence(alloc, core, leaves.as_slice())
}

/// The texts of what was found.
pub(crate) fn test_texts(case: &Case<'_>, found: Finished) -> Result<TestTexts, NoMemory>
    requires case { IsCase case.now }
    requires found { AreFoundOf case.now found }
    requires named { All (IsNamed case.now.netlist.now) (leaves_of case.now.subject.now.classes.representatives found.verdicts.items) }
    ensures { IfOk result (AreTestTexts case.now.netlist.now case.now.holds.now case.now.chains.now case.now.subject.now.classes found.patterns.items found.verdicts.items) }
{
    let alloc = case.alloc;
    let Finished { patterns, verdicts } = found;
    let stil = stil_text(
        alloc,
        case.core,
        case.chains,
        patterns.as_slice(),
        case.holds,
    )?;
    let representatives = case.subject.classes.representatives();
    let certificate = text_of_leaves(alloc, case.core, representatives, verdicts)?;
    Ok(TestTexts { stil, certificate })
}
