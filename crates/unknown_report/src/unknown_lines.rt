//! The lines of unknown inputs, both ways.
ghost use Rattle.std.specs.Prelude.{◌≡◌, ◌++◌, MatchOption, IfOk, OnOk};
ghost use Rattle.std.specs.List.{flat_map};
ghost use Rattle.report.specs.Beginnings.{Begins, NoneBegins};
ghost use Rattle.report.specs.Reports.{IsBenchWord};
ghost use Rattle.unknown_report.specs.Reports.{unknown_line};
ghost use Rattle.unknown_report.specs.inner.Parts.{AreRead};

use netlist::NameTable;
use plain_text::split_at;
use report::{behind, is_word};
use std::alloc::{AllocError, Global};

/// Adds `unknown G0`.
fn push_unknown(out: &mut Vec<u8>, name: &[u8]) -> Result<(), AllocError>
    ensures { OnOk result (out.new.items ≡ out.old.items ++ unknown_line name.now) }
{
    out.extend_from_slice(b"unknown ")?;
    out.extend_from_slice(name)?;
    out.extend_from_slice(b"\n")
}

/// Adds the lines of unknown inputs.
pub(crate) fn push_unknowns(out: &mut Vec<u8>, unknown: &NameTable) -> Result<(), AllocError>
    ensures { OnOk result (out.new.items ≡ out.old.items ++ flat_map unknown_line unknown.now) }
{
    for k in 0..unknown.len() {
        push_unknown(out, unknown.get(k))?;
    }
    Ok(())
}

/// The name of the unknown input in the line at the front, and what stands behind it.
fn unknown_in(text: &[u8]) -> Option<(&[u8], &[u8])>
    ensures { MatchOption result
        (NoneBegins IsBenchWord unknown_line text.now)
        (λ p. Begins IsBenchWord unknown_line text.now p.0.now p.1.now) }
{
    let Some(after) = behind(b"unknown ", text) else {
        return None;
    };
    let Some(parts) = split_at(after, b'\n') else {
        return None;
    };
    if is_word(parts.0) { Some(parts) } else { None }
}

/// All unknown inputs, and what stands behind their lines.
pub(crate) fn unknowns_in<'a>(
    alloc: Global,
    text: &'a [u8],
) -> Result<(NameTable, &'a [u8]), AllocError>
    ensures { IfOk result (λ p. AreRead IsBenchWord unknown_line text.now p.0 p.1.now) }
{
    let mut unknown = NameTable::new(alloc);
    let mut rest = text;
    'unknown: while let Some((name, after)) = unknown_in(rest) {
        unknown.push(name)?;
        rest = after;
    }
    Ok((unknown, rest))
}
