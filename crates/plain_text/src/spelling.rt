//! Pieces of texts that are spelled byte for byte: what stands before a byte and behind it, and numbers.
ghost use Rattle.std.specs.Prelude.{◌≡◌, ◌≢◌, ◌^◌, ◌<◌, ◌++◌, ◌∷◌, ℕ, IfSome, MatchOption, decimal};
ghost use Rattle.std.specs.List.{All};

use itoa::Buffer;

/// What stands before the first such byte, and behind it.
pub fn split_at(text: &[u8], mark: u8) -> Option<(&[u8], &[u8])>
    ensures { MatchOption result (All (λ b. b ≢ mark) text.now) (λ p. All (λ b. b ≢ mark) p.0.now × (text.now ≡ p.0.now ++ mark ∷ p.1.now)) }
{
    for (i, byte) in text.iter().enumerate() {
        if *byte == mark {
            return Some((&text[..i], &text[i + 1..]));
        }
    }
    None
}

/// The number that is written so, in decimal without leading zeros.
pub fn number(digits: &[u8]) -> Option<u64>
    ensures within { IfSome result (λ k. k < 2 ^ 64) }
    ensures cases { MatchOption result ((k : ℕ) → k < 2 ^ 64 → digits.now ≢ decimal k) (λ k. digits.now ≡ decimal k) }
{
    let Ok(text) = std::str::from_utf8(digits) else {
        return None;
    };
    let Ok(number) = text.parse::<u64>() else {
        return None;
    };
    if Buffer::new().format(number).as_bytes() == digits {
        Some(number)
    } else {
        None
    }
}
