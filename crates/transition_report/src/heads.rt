//! The first line of a report, which says whether inputs are held.
ghost use Rattle.std.specs.Prelude.{◌≡◌, ◌≢◌, ◌++◌, ℕ, Bool, List, MatchOption};
ghost use Rattle.transition_report.specs.inner.Tables.{any_held, head_line};

use report::{HoldLines, behind};

/// Whether inputs are held.
pub(crate) fn is_any_held(holds: &HoldLines) -> bool
    ensures { result ≡ any_held holds.now }
{
    holds.len() > 0
}

/// The first line of a report where inputs are held, or where none is.
pub(crate) fn head_line(held: bool) -> &'static [u8]
    ensures { result.now ≡ head_line held }
{
    if held {
        b"atpg transition 2\n"
    } else {
        b"atpg transition 1\n"
    }
}

/// Whether the first line says that inputs are held, and what stands behind that line.
pub(crate) fn head_in(bytes: &[u8]) -> Option<(bool, &[u8])>
    ensures { MatchOption result
        ((held : Bool) (rest : List ℕ) → bytes.now ≢ head_line held ++ rest)
        (λ p. bytes.now ≡ head_line p.0 ++ p.1.now) }
{
    if let Some(rest) = behind(head_line(false), bytes) {
        return Some((false, rest));
    }
    let rest = behind(head_line(true), bytes)?;
    Some((true, rest))
}
