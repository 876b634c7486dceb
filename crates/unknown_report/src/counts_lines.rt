//! The line of counts, both ways.
ghost use Rattle.std.specs.Prelude.{◌≡◌, ◌++◌, MatchOption, OnOk};
ghost use Rattle.report.specs.Beginnings.{Begins, NoneBegins};
ghost use Rattle.unknown_report.specs.Reports.{AreSmallClaims, counts_line};

use crate::claims::ClaimCounts;
use crate::numbers::{numbered_in, push_numbered};
use std::alloc::AllocError;

/// Adds `faults 34 detected 30 redundant 1 undetected 2 unknown 1`.
pub(crate) fn push_counts(out: &mut Vec<u8>, counts: ClaimCounts) -> Result<(), AllocError>
    ensures { OnOk result (out.new.items ≡ out.old.items ++ counts_line counts) }
{
    push_numbered(out, b"faults ", b' ', counts.faults)?;
    push_numbered(out, b"detected ", b' ', counts.detected)?;
    push_numbered(out, b"redundant ", b' ', counts.redundant)?;
    push_numbered(out, b"undetected ", b' ', counts.undetected)?;
    push_numbered(out, b"unknown ", b'\n', counts.unknown)?;
    Ok(())
}

/// The counts in the line at the front, and what stands behind it.
pub(crate) fn counts_in(text: &[u8]) -> Option<(ClaimCounts, &[u8])>
    ensures { MatchOption result
        (NoneBegins AreSmallClaims counts_line text.now)
        (λ p. Begins AreSmallClaims counts_line text.now p.0 p.1.now) }
{
    let Some((faults, behind_faults)) = numbered_in(b"faults ", b' ', text) else {
        return None;
    };
    let Some((detected, behind_detected)) = numbered_in(b"detected ", b' ', behind_faults) else {
        return None;
    };
    let Some((redundant, behind_redundant)) = numbered_in(b"redundant ", b' ', behind_detected)
    else {
        return None;
    };
    let Some((undetected, behind_undetected)) = numbered_in(b"undetected ", b' ', behind_redundant)
    else {
        return None;
    };
    let Some((unknown, rest)) = numbered_in(b"unknown ", b'\n', behind_undetected) else {
        return None;
    };
    let counts = ClaimCounts {
        faults,
        detected,
        redundant,
        undetected,
        unknown,
    };
    Some((counts, rest))
}
