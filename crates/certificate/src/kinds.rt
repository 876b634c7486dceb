//! The first line, which says whether there are refutations.
ghost use Rattle.std.specs.Prelude.{◌≡◌, ◌≢◌, ◌++◌, ℕ, Bool, List, MatchOption};
ghost use Rattle.certificate.specs.Certificates.{first_line, has_refutation, is_refutation};

use evidence::Evidence;
use netlist::Fault;

fn is_refutation(evidence: &Evidence) -> bool
    ensures { result ≡ is_refutation evidence.now }
{
    match evidence {
        Evidence::Tree(_) => false,
        Evidence::Refutation(_) => true,
    }
}

/// Whether any of it is a refutation.
pub fn has_refutation(evidence: &[(Fault, Evidence)]) -> bool
    ensures { result ≡ has_refutation evidence.now }
{
    evidence.iter().any(|pair| is_refutation(&pair.1))
}

/// The first line of a certificate with refutations, or of one with trees alone.
pub(crate) fn first_line(refutes: bool) -> &'static [u8]
    ensures { result.now ≡ first_line refutes }
{
    if refutes {
        b"atpg certificate 2\n"
    } else {
        b"atpg certificate 1\n"
    }
}

/// What the first line says, and what comes behind it.
pub(crate) fn behind_first(bytes: &[u8]) -> Option<(bool, &[u8])>
    ensures { MatchOption result ((refutes : Bool) (rest : List ℕ) → bytes.now ≢ first_line refutes ++ rest) (λ p. bytes.now ≡ first_line p.0 ++ p.1.now) }
{
    if let Some(trees) = bytes.strip_prefix(b"atpg certificate 1\n") {
        return Some((false, trees));
    }
    match bytes.strip_prefix(b"atpg certificate 2\n") {
        Some(lines) => Some((true, lines)),
        None => None,
    }
}
