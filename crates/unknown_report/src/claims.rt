//! What is claimed of a fault, and how many claims there are of each kind.
ghost use Rattle.std.specs.Prelude.{◌≡◌, count_by};
ghost use Rattle.unknown_report.specs.Claims.{counts_of, is_detected, is_redundant, is_undetected, is_unknown};

/// What a test whose inputs the tester can't all set shows of a stuck line, whatever these have and from every power-up state.
#[derive(Clone, Copy, PartialEq, Eq)]
pub enum Claim {
    /// The cycle and the output of a strobe at which the other bit is shown.
    Detected(u64, u32),
    /// No test of known bits under the held inputs tells it.
    Redundant,
    /// Each strobe of a bit is met.
    Undetected,
    /// Nothing is claimed.
    Unknown,
}

/// How many claims there are of each kind.
#[derive(Clone, Copy, PartialEq, Eq)]
pub struct ClaimCounts {
    pub faults: u64,
    pub detected: u64,
    pub redundant: u64,
    pub undetected: u64,
    pub unknown: u64,
}

fn is_detected(claim: Claim) -> bool
    ensures { result ≡ is_detected claim }
{
    matches!(claim, Claim::Detected(_, _))
}

fn is_redundant(claim: Claim) -> bool
    ensures { result ≡ is_redundant claim }
{
    matches!(claim, Claim::Redundant)
}

fn is_undetected(claim: Claim) -> bool
    ensures { result ≡ is_undetected claim }
{
    matches!(claim, Claim::Undetected)
}

fn is_unknown(claim: Claim) -> bool
    ensures { result ≡ is_unknown claim }
{
    matches!(claim, Claim::Unknown)
}

fn detected_count(claims: &[Claim]) -> usize
    ensures { result ≡ count_by is_detected claims.now }
{
    claims.iter().filter(|claim| is_detected(**claim)).count()
}

fn redundant_count(claims: &[Claim]) -> usize
    ensures { result ≡ count_by is_redundant claims.now }
{
    claims.iter().filter(|claim| is_redundant(**claim)).count()
}

fn undetected_count(claims: &[Claim]) -> usize
    ensures { result ≡ count_by is_undetected claims.now }
{
    claims.iter().filter(|claim| is_undetected(**claim)).count()
}

fn unknown_count(claims: &[Claim]) -> usize
    ensures { result ≡ count_by is_unknown claims.now }
{
    claims.iter().filter(|claim| is_unknown(**claim)).count()
}

/// How many of these claims there are of each kind.
pub fn counts_of(claims: &[Claim]) -> ClaimCounts
    ensures { result ≡ counts_of claims.now }
{
    ClaimCounts {
        faults: claims.len() as u64,
        detected: detected_count(claims) as u64,
        redundant: redundant_count(claims) as u64,
        undetected: undetected_count(claims) as u64,
        unknown: unknown_count(claims) as u64,
    }
}
