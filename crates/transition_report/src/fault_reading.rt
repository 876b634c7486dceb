//! Transition faults from their texts, as `pin z 0 rise`.
ghost use Rattle.std.specs.Prelude.{◌≡◌, ◌≢◌, ◌++◌, ℕ, Bool, List, codes, IfOk, OnOk, MatchOption};
ghost use Rattle.certificate.specs.Words.{IsEnd};
ghost use Rattle.report.specs.Reports.{slow_text};
ghost use Rattle.report.specs.inner.Faults.{slow_word};
ghost use Rattle.transition_report.specs.inner.Parts.{IsSlowFaultAt, NoSlowFaultAt, IsLineFound};

use certificate::{cut_fault, next_word};
use fault_universe::fault_named;
use name_index::NameIndex;
use netlist::{Fault, Line};
use std::alloc::AllocError;

/// Makes the text of a line's fault at 0.
fn spell(room: &mut Vec<u8>, text: &[u8]) -> Result<(), AllocError>
    ensures { OnOk result (room.new.items ≡ text.now ++ codes "/0") }
{
    room.clear();
    room.extend_from_slice(text)?;
    room.extend_from_slice(b"/0")
}

/// The line of a fault that is written so. It is found by the text of its fault at 0.
fn line_named(
    room: &mut Vec<u8>,
    names: &NameIndex,
    text: &[u8],
) -> Result<Option<Line>, AllocError>
    ensures { IfOk result (λ line. IsLineFound names.now text.now line) }
{
    spell(room, text)?;
    match fault_named(names, room.as_slice()) {
        Some(fault) => Ok(Some(fault.line)),
        None => Ok(None),
    }
}

/// The value that a line is slow to leave.
fn value_of(word: &[u8]) -> Option<bool>
    ensures { MatchOption result ((value : Bool) → word.now ≢ slow_word value) (λ value. word.now ≡ slow_word value) }
{
    match word {
        b"rise" => Some(false),
        b"fall" => Some(true),
        _ => None,
    }
}

/// That value at the front, and what stands behind it.
fn slow_at(text: &[u8]) -> Option<(bool, &[u8])>
    ensures { MatchOption result
        ((value : Bool) (rest : List ℕ) → IsEnd rest → text.now ≢ slow_text value ++ rest)
        (λ p. IsEnd p.1.now × (text.now ≡ slow_text p.0 ++ p.1.now)) }
{
    let Some(parts) = next_word(text) else {
        return None;
    };
    let Some(value) = value_of(parts.0) else {
        return None;
    };
    Some((value, parts.1))
}

/// The fault that a line begins with, and the text behind it.
pub(crate) fn slow_fault_at<'a>(
    room: &mut Vec<u8>,
    names: &NameIndex,
    line: &'a [u8],
) -> Result<Option<(Fault, &'a [u8])>, AllocError>
    ensures { IfOk result (λ o. MatchOption o (NoSlowFaultAt names.now line.now) (λ p. IsSlowFaultAt names.now line.now p.0 p.1.now)) }
{
    names.netlist().sound();
    let Some(parts) = cut_fault(line) else {
        return Ok(None);
    };
    let Some((value, rest)) = slow_at(parts.1) else {
        return Ok(None);
    };
    let Some(line) = line_named(room, names, parts.0)? else {
        return Ok(None);
    };
    Ok(Some((Fault { line, value }, rest)))
}
