//! The versions of a report's text, and the first line of each.
ghost use Rattle.std.specs.Prelude.{◌≡◌, ◌≢◌, ◌++◌, ◌↔◌, ℕ, List, IsTrue, MatchOption};
ghost use Rattle.report.specs.declared.versions.Version.{Version as Kept};
ghost use Rattle.report.specs.inner.Versions.{version_line, version_of};

use crate::hold_lines::HoldLines;
use crate::pieces::behind;

/// The fourth is written where detections are counted, else the third where some fault wasn't asked for, else the second where an input is held.
#[derive(Clone, Copy, PartialEq, Eq)]
pub(crate) enum Version {
    First,
    Second,
    Third,
    Fourth,
}

impl Version {
    /// The first line.
    pub(crate) fn line(self) -> &'static [u8]
        ensures { result.now ≡ version_line self }
    {
        match self {
            Version::First => b"atpg report 1\n",
            Version::Second => b"atpg report 2\n",
            Version::Third => b"atpg report 3\n",
            Version::Fourth => b"atpg report 4\n",
        }
    }

    /// Whether it is the version of such a report.
    pub(crate) fn is_of(self, most: u64, unasked: u64, holds: &HoldLines) -> bool
        ensures { IsTrue result ↔ self ≡ version_of most unasked holds.now }
    {
        self == version_of(most, unasked, holds)
    }
}

/// The version of a report where detections are counted to this most, so many faults weren't asked for and these inputs are held.
pub(crate) fn version_of(most: u64, unasked: u64, holds: &HoldLines) -> Version
    ensures { result ≡ version_of most unasked holds.now }
{
    if most > 0 {
        Version::Fourth
    } else if unasked > 0 {
        Version::Third
    } else if holds.len() > 0 {
        Version::Second
    } else {
        Version::First
    }
}

/// The version that the first line tells, and what stands behind that line.
pub(crate) fn version_in(text: &[u8]) -> Option<(Version, &[u8])>
    ensures { MatchOption result ((version : Kept) (rest : List ℕ) → text.now ≢ version_line version ++ rest) (λ p. text.now ≡ version_line p.0 ++ p.1.now) }
{
    if let Some(rest) = behind(Version::First.line(), text) {
        return Some((Version::First, rest));
    }
    if let Some(rest) = behind(Version::Second.line(), text) {
        return Some((Version::Second, rest));
    }
    if let Some(rest) = behind(Version::Third.line(), text) {
        return Some((Version::Third, rest));
    }
    let rest = behind(Version::Fourth.line(), text)?;
    Some((Version::Fourth, rest))
}
