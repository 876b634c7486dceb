//! Words of a line.
ghost use Rattle.std.specs.Prelude.{◌≡◌, ◌≢◌, ◌==◌, ◌∷◌, ℕ, List, MatchOption, slice_index_or};
ghost use Rattle.certificate.specs.Words.{IsWord, IsCut};

use plain_text::split_at;

/// The first word of a text, and what comes behind it.
fn word(text: &[u8]) -> (&[u8], &[u8])
    ensures { IsWord text.now result.0.now result.1.now }
{
    match split_at(text, b' ') {
        Some(parts) => text.split_at(parts.0.len()),
        None => text.split_at(text.len()),
    }
}

/// The word behind a blank, and what comes behind it.
pub fn next_word(text: &[u8]) -> Option<(&[u8], &[u8])>
    ensures { MatchOption result ((r : List ℕ) → text.now ≢ 32 ∷ r) (λ p. (r : List ℕ) × (text.now ≡ 32 ∷ r) × IsWord r p.0.now p.1.now) }
{
    match text.strip_prefix(b" ") {
        Some(behind) => Some(word(behind)),
        None => None,
    }
}

/// Whether a line begins as the fault of a pin does.
fn is_pin(line: &[u8]) -> bool
    ensures { result ≡ (slice_index_or line.now 0 0 == 112) }
{
    match line.first() {
        Some(byte) => *byte == b'p',
        None => false,
    }
}

/// What comes behind the words that a fault's text would have.
fn behind_fault(line: &[u8]) -> Option<&[u8]>
    ensures { MatchOption result ((text rest : List ℕ) → ¬ IsCut line.now text rest) (λ rest. (text : List ℕ) × IsCut line.now text rest.now) }
{
    let first = word(line);
    let Some(second) = next_word(first.1) else {
        return None;
    };
    if is_pin(line) {
        match next_word(second.1) {
            Some(third) => Some(third.1),
            None => None,
        }
    } else {
        Some(second.1)
    }
}

/// What would be a fault's text, and what comes behind it.
pub fn cut_fault(line: &[u8]) -> Option<(&[u8], &[u8])>
    ensures { MatchOption result ((text rest : List ℕ) → ¬ IsCut line.now text rest) (λ p. IsCut line.now p.0.now p.1.now) }
{
    match behind_fault(line) {
        Some(rest) => Some(line.split_at(line.len() - rest.len())),
        None => None,
    }
}
