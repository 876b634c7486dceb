//! The lines of a report, each at the front of a text.
ghost use Rattle.std.specs.Prelude.{◌≡◌, ◌≢◌, ◌<◌, ◌+◌, ◌/◌, ◌^◌, ◌++◌, ◌∷◌, [], ◌%◌, ℕ, List, MatchOption};
ghost use Rattle.report.specs.Reports.{IsLineBy, Hold};
ghost use Rattle.report.specs.Texts.{count_line, hundredths, share_line, hold_line};
ghost use Rattle.statement.specs.Reports.{fault_line};
ghost use Rattle.report.specs.Beginnings.{Begins, NoneBegins, IsCount, IsShare};
ghost use Rattle.report.specs.inner.Lines.{SomeBegins, IsHold, count_end, share_end, hold_words};

use crate::fault_lines::FaultLine;
use crate::fault_words::fault_in;
use crate::hold_lines::HoldLine;
use crate::models::FaultModel;
use crate::pieces::{before_bit, behind, is_word};
use plain_text::{number, split_at};

/// A number up to the end of its line, and what stands behind.
fn count_end(text: &[u8]) -> Option<(u64, &[u8])>
    ensures { MatchOption result (NoneBegins IsCount count_end text.now) (λ p. Begins IsCount count_end text.now p.0 p.1.now) }
{
    let (digits, rest) = split_at(text, b'\n')?;
    let count = number(digits)?;
    Some((count, rest))
}

/// The count behind this word, `inputs 5`, and what stands behind its line.
pub(crate) fn count<'a>(word: &[u8], text: &'a [u8]) -> Option<(u64, &'a [u8])>
    ensures { MatchOption result (NoneBegins IsCount (count_line word.now) text.now) (λ p. Begins IsCount (count_line word.now) text.now p.0 p.1.now) }
{
    let after = behind(word, text)?;
    let (count, rest) = count_end(after)?;
    Some((count, rest))
}

/// The count behind this word, 0 where no line of it stands here that says another one, and what stands behind the line.
pub(crate) fn some_count<'a>(word: &[u8], text: &'a [u8]) -> (u64, &'a [u8])
    ensures { SomeBegins word.now text.now result.0 result.1.now }
{
    let Some((number, rest)) = count(word, text) else {
        return (0, text);
    };
    if number == 0 {
        return (0, text);
    }
    (number, rest)
}

fn digit(byte: u8) -> Option<u8>
    ensures { MatchOption result ((digit : ℕ) → digit < 10 → byte ≢ 48 + digit) (λ digit. (digit < 10) × (byte ≡ 48 + digit)) }
{
    if b'0' <= byte && byte <= b'9' {
        Some(byte - b'0')
    } else {
        None
    }
}

fn two_digits(digits: &[u8]) -> Option<u8>
    ensures { MatchOption result
        ((tens ones : ℕ) → tens < 10 → ones < 10 → digits.now ≢ (48 + tens) ∷ (48 + ones) ∷ [])
        (λ n. (n < 100) × (digits.now ≡ (48 + n / 10) ∷ (48 + n % 10) ∷ [])) }
{
    if digits.len() != 2 {
        return None;
    }
    let tens = digit(digits[0])?;
    let ones = digit(digits[1])?;
    Some(tens * 10 + ones)
}

/// `83.05`
fn hundredths_in(text: &[u8]) -> Option<u128>
    ensures { MatchOption result ((share : ℕ) → IsShare share → text.now ≢ hundredths share) (λ share. IsShare share × (text.now ≡ hundredths share)) }
{
    let (front, digits) = split_at(text, b'.')?;
    let whole = number(front)?;
    let part = two_digits(digits)?;
    Some(u128::from(whole) * 100 + u128::from(part))
}

/// A share up to the end of its line, and what stands behind.
fn share_end(text: &[u8]) -> Option<(u128, &[u8])>
    ensures { MatchOption result (NoneBegins IsShare share_end text.now) (λ p. Begins IsShare share_end text.now p.0 p.1.now) }
{
    let (line, rest) = split_at(text, b'\n')?;
    let share = hundredths_in(line)?;
    Some((share, rest))
}

/// The share behind this word, `coverage 83.05`, and what stands behind its line.
pub fn share<'a>(word: &[u8], text: &'a [u8]) -> Option<(u128, &'a [u8])>
    ensures { MatchOption result (NoneBegins IsShare (share_line word.now) text.now) (λ p. Begins IsShare (share_line word.now) text.now p.0 p.1.now) }
{
    let after = behind(word, text)?;
    let (share, rest) = share_end(after)?;
    Some((share, rest))
}

/// `hold a 1`
fn hold_in(line: &[u8]) -> Option<HoldLine<'_>>
    ensures { MatchOption result
        ((h : Hold) → IsHold h → line.now ≢ hold_words h)
        (λ h. IsHold (record { name = h.name.now; bit = h.bit }) × (line.now ≡ hold_words (record { name = h.name.now; bit = h.bit }))) }
{
    let words = behind(b"hold ", line)?;
    let (name, bit) = before_bit(words)?;
    if is_word(name) {
        Some(HoldLine { name, bit })
    } else {
        None
    }
}

/// The input that is held, and what stands behind its line.
pub(crate) fn hold(text: &[u8]) -> Option<(HoldLine<'_>, &[u8])>
    ensures { MatchOption result
        (NoneBegins IsHold hold_line text.now)
        (λ p. Begins IsHold hold_line text.now (record { name = p.0.name.now; bit = p.0.bit }) p.1.now) }
{
    let (line, rest) = split_at(text, b'\n')?;
    let hold = hold_in(line)?;
    Some((hold, rest))
}

/// The fault's line, and what stands behind it.
pub(crate) fn fault(model: FaultModel, text: &[u8]) -> Option<(FaultLine<'_>, &[u8])>
    ensures { MatchOption result
        (NoneBegins (IsLineBy model) fault_line text.now)
        (λ p. Begins (IsLineBy model) fault_line text.now (record { fault = p.0.fault.now; outcome = p.0.outcome; pin = p.0.pin.now }) p.1.now) }
{
    let (line, rest) = split_at(text, b'\n')?;
    let fault = fault_in(model, line)?;
    Some((fault, rest))
}
