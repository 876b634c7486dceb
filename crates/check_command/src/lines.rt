//! The line that a check shows.
ghost use Rattle.std.specs.Prelude.{◌≡◌, ◌++◌, IfOk, OnOk, codes, decimal};
ghost use Rattle.check_command.specs.Checking.{answer_line, checked_line, clause_line, checked_finding};

use commands::Finding;
use good_files::{Checked, Clause};
use itoa::Buffer;
use std::alloc::{AllocError, Global};

/// Adds `fault F`.
fn push_fault(text: &mut Vec<u8>, fault: &[u8]) -> Result<(), AllocError>
    ensures { OnOk result (text.new.items ≡ text.old.items ++ (codes "fault " ++ (fault.now ++ codes "\n"))) }
{
    text.extend_from_slice(b"fault ")?;
    text.extend_from_slice(fault)?;
    text.extend_from_slice(b"\n")?;
    Ok(())
}

/// Adds the line of a clause that is false.
fn push_clause(text: &mut Vec<u8>, clause: &Clause) -> Result<(), AllocError>
    ensures { OnOk result (text.new.items ≡ text.old.items ++ clause_line clause.now) }
{
    match clause {
        Clause::ScanDiffers => text.extend_from_slice(b"scan differs\n"),
        Clause::HoldDiffers => text.extend_from_slice(b"hold differs\n"),
        Clause::StilDiffers => text.extend_from_slice(b"stil differs\n"),
        Clause::Fault(fault) => push_fault(text, fault.as_slice()),
        Clause::TotalsDiffer => text.extend_from_slice(b"totals differ\n"),
    }
}

/// Adds `checked 34 faults`.
fn push_count(text: &mut Vec<u8>, count: u32) -> Result<(), AllocError>
    ensures { OnOk result (text.new.items ≡ text.old.items ++ checked_line count) }
{
    text.extend_from_slice(b"checked ")?;
    text.extend_from_slice(Buffer::new().format(count).as_bytes())?;
    text.extend_from_slice(b" faults\n")?;
    Ok(())
}

/// The line of an answer.
pub(crate) fn line_of(alloc: Global, answer: &Checked) -> Result<Vec<u8>, AllocError>
    ensures { IfOk result (λ text. text.items ≡ answer_line answer.now) }
{
    let mut text = Vec::new(alloc);
    match answer {
        Checked::Faults(count) => push_count(&mut text, *count)?,
        Checked::False(clause) => push_clause(&mut text, clause)?,
    }
    Ok(text)
}

/// What an answer comes to.
pub(crate) fn finding_of(answer: &Checked) -> Finding
    ensures { result ≡ checked_finding answer.now }
{
    match answer {
        Checked::Faults(_) => Finding::Fine,
        Checked::False(_) => Finding::Differs,
    }
}
