//! Pieces of a line.
ghost use Rattle.std.specs.Prelude.{◌≡◌, ◌≢◌, ◌<◌, ◌+◌, ◌^◌, ◌++◌, ◌∷◌, ◌↔◌, ℕ, Bool, List, IsTrue, MatchOption};
ghost use Rattle.std.specs.List.{list_all};
ghost use Rattle.statement.specs.Netlists.{is_name_byte};
ghost use Rattle.statement.specs.Faults.{value_text};
ghost use Rattle.report.specs.Reports.{IsBenchWord};
ghost use Rattle.report.specs.inner.Faults.{slow_word};
ghost use Rattle.report.specs.inner.Lines.{bit_text};

/// What stands behind a word at the front.
pub fn behind<'a>(word: &[u8], text: &'a [u8]) -> Option<&'a [u8]>
    ensures { MatchOption result ((rest : List ℕ) → text.now ≢ word.now ++ rest) (λ rest. text.now ≡ word.now ++ rest.now) }
{
    text.strip_prefix(word)
}

/// What stands before a word at the end.
pub(crate) fn before<'a>(word: &[u8], text: &'a [u8]) -> Option<&'a [u8]>
    ensures { MatchOption result ((front : List ℕ) → text.now ≢ front ++ word.now) (λ front. text.now ≡ front.now ++ word.now) }
{
    text.strip_suffix(word)
}

fn is_name_byte(byte: u8) -> bool
    ensures { result ≡ is_name_byte byte }
{
    33 <= byte
        && byte <= 126
        && !(byte == b'"'
            || byte == b'\''
            || byte == b'#'
            || byte == b'('
            || byte == b')'
            || byte == b','
            || byte == b'=')
}

fn are_name_bytes(text: &[u8]) -> bool
    ensures { result ≡ list_all is_name_byte text.now }
{
    text.iter().all(|byte| is_name_byte(*byte))
}

/// Whether the text is a name, however long.
pub fn is_word(text: &[u8]) -> bool
    ensures { IsTrue result ↔ IsBenchWord text.now }
{
    if text.is_empty() {
        return false;
    }
    are_name_bytes(text)
}

/// What stands before the value that a line is stuck at.
pub(crate) fn before_value(text: &[u8]) -> Option<&[u8]>
    ensures { MatchOption result ((front : List ℕ) (value : Bool) → text.now ≢ front ++ value_text value) (λ front. (value : Bool) × (text.now ≡ front.now ++ value_text value)) }
{
    if let Some(front) = before(b"/0", text) {
        return Some(front);
    }
    before(b"/1", text)
}

/// What stands behind the word of a slow line at the front, and a blank.
pub(crate) fn behind_slow(text: &[u8]) -> Option<&[u8]>
    ensures { MatchOption result ((value : Bool) (rest : List ℕ) → text.now ≢ slow_word value ++ 32 ∷ rest) (λ rest. (value : Bool) × (text.now ≡ slow_word value ++ 32 ∷ rest.now)) }
{
    if let Some(rest) = behind(b"rise ", text) {
        return Some(rest);
    }
    behind(b"fall ", text)
}

/// What stands before the bit of a held input, and the bit.
pub(crate) fn before_bit(text: &[u8]) -> Option<(&[u8], bool)>
    ensures { MatchOption result ((front : List ℕ) (bit : Bool) → text.now ≢ front ++ bit_text bit) (λ p. text.now ≡ p.0.now ++ bit_text p.1) }
{
    if let Some(front) = before(b" 0", text) {
        return Some((front, false));
    }
    if let Some(front) = before(b" 1", text) {
        return Some((front, true));
    }
    None
}
