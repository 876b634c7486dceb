//! Texts in their grammars, one after the other.
ghost use Rattle.std.specs.Prelude.{◌<◌, ◌^◌, ◌≡◌, MatchResult, length};
ghost use Rattle.bench_text.specs.Bytes.{lines};
ghost use Rattle.netlist.specs.Designs.{IsDesign};
ghost use Rattle.transition_report.specs.Reading.{IsTransitionCertificate, IsTransitionReport};
ghost use Rattle.transition_report.specs.Texts.{transition_report_text};
ghost use Rattle.good_slow_files.specs.Checks.{IsSlowOutside};
ghost use Rattle.check_parts.specs.Texts.{files_of};
ghost use Rattle.slow_check.specs.inner.Reading.{AreSaid, IsCertificateFault, IsReportFault};

use certificate::CertFault;
use check_parts::{FiveTexts, core_of, file_of};
use evidence::Evidence;
use good_files::CheckFault;
use netlist::{Core, Fault, Netlist};
use report::ReportFault;
use std::alloc::Global;
use stil_write::StilFile;
use transition_report::{TransitionReport, read_transition_certificate, read_transition_report};

/// What they stand for, but the scanned netlist's, which is compared as it is.
#[derive(Drop)]
pub(crate) struct Said {
    pub core: Core,
    pub file: StilFile,
    pub evidence: Vec<(Fault, Evidence)>,
    pub report: TransitionReport,
}

fn evidence_of(
    alloc: Global,
    netlist: &Netlist,
    text: &[u8],
) -> Result<Vec<(Fault, Evidence)>, CheckFault>
    requires { IsDesign netlist.now }
    ensures { MatchResult result (λ evidence. IsTransitionCertificate netlist.now text.now evidence.items) (IsCertificateFault netlist.now text.now) }
{
    match read_transition_certificate(alloc, netlist, text) {
        Ok(evidence) => Ok(evidence),
        Err(CertFault::NotCertificate) => Err(CheckFault::NotCertificate),
        Err(CertFault::NoMemory) => Err(CheckFault::NoMemory),
    }
}

fn report_of(alloc: Global, text: &[u8]) -> Result<TransitionReport, CheckFault>
    ensures { MatchResult result (λ said. IsTransitionReport said × (text.now ≡ transition_report_text said)) (IsReportFault text.now) }
{
    match read_transition_report(alloc, text) {
        Ok(said) => Ok(said),
        Err(ReportFault::NotReport) => Err(CheckFault::NotReport),
        Err(ReportFault::NoMemory) => Err(CheckFault::NoMemory),
    }
}

/// What the texts stand for, or the first one that is outside its grammar: the netlist, the STIL file, the certificate, the report.
pub(crate) fn said_of(alloc: Global, texts: &FiveTexts) -> Result<Said, CheckFault>
    requires { length (lines texts.now.net.now) < 2 ^ 32 }
    ensures { MatchResult result (AreSaid (files_of texts.now)) (IsSlowOutside (files_of texts.now)) }
{
    let core = match core_of(alloc, texts.net) {
        Ok(core) => core,
        Err(fault) => return Err(fault),
    };
    let file = match file_of(alloc, texts.stil) {
        Ok(file) => file,
        Err(fault) => {
            drop(core);
            return Err(fault);
        }
    };
    let evidence = match evidence_of(alloc, core.netlist(), texts.certificate) {
        Ok(evidence) => evidence,
        Err(fault) => {
            drop((core, file));
            return Err(fault);
        }
    };
    match report_of(alloc, texts.report) {
        Ok(report) => Ok(Said {
            core,
            file,
            evidence,
            report,
        }),
        Err(fault) => {
            drop((core, file, evidence));
            Err(fault)
        }
    }
}
