//! A line of a log.
ghost use Rattle.std.specs.Prelude.{◌≡◌, ◌≢◌, ◌<◌, ◌^◌, ℕ, Option, Some, MatchOption};
ghost use Rattle.report.specs.Beginnings.{Begins, NoneBegins};
ghost use Rattle.diagnose.specs.Failures.{Failing, IsEnd, IsFailing};
ghost use Rattle.diagnose.specs.Texts.{end_line, failing_line};
ghost use Rattle.diagnose.specs.inner.Words.{failure_words};

use crate::failures::Failure;
use plain_text::{number, split_at};
use report::{behind, is_word};

/// `5 SC__so0`
fn failure_in(line: &[u8]) -> Option<Failure<'_>>
    ensures { MatchOption result
        ((f : Failing) → IsFailing f → line.now ≢ failure_words f)
        (λ f. IsFailing (record { cycle = f.cycle; signal = f.signal.now }) × (line.now ≡ failure_words (record { cycle = f.cycle; signal = f.signal.now }))) }
{
    let (digits, signal) = split_at(line, b' ')?;
    let cycle = number(digits)?;
    if is_word(signal) {
        Some(Failure { cycle, signal })
    } else {
        None
    }
}

/// The failure that the first line tells, and what stands behind the line.
pub(crate) fn failure(text: &[u8]) -> Option<(Failure<'_>, &[u8])>
    ensures { MatchOption result
        (NoneBegins IsFailing failing_line text.now)
        (λ p. Begins IsFailing failing_line text.now (record { cycle = p.0.cycle; signal = p.0.signal.now }) p.1.now) }
{
    let (line, rest) = split_at(text, b'\n')?;
    let failure = failure_in(line)?;
    Some((failure, rest))
}

/// `end 120`, behind which nothing stands.
fn last_line(text: &[u8]) -> Option<u64>
    ensures { MatchOption result
        ((end : ℕ) → end < 2 ^ 64 → text.now ≢ end_line (Some end))
        (λ end. (end < 2 ^ 64) × (text.now ≡ end_line (Some end))) }
{
    let words = behind(b"end ", text)?;
    let (digits, rest) = split_at(words, b'\n')?;
    let end = number(digits)?;
    if rest.is_empty() { Some(end) } else { None }
}

/// The end of a log, which it may not have.
pub(crate) fn end(text: &[u8]) -> Option<Option<u64>>
    ensures { MatchOption result
        ((end : Option ℕ) → IsEnd end → text.now ≢ end_line end)
        (λ end. IsEnd end × (text.now ≡ end_line end)) }
{
    if text.is_empty() {
        return Some(None);
    }
    match last_line(text) {
        Some(end) => Some(Some(end)),
        None => None,
    }
}
