//! The line of a fault, word by word.
ghost use Rattle.std.specs.Prelude.{◌≡◌, ◌≢◌, ◌<◌, ◌^◌, ◌++◌, ◌∷◌, ◌↔◌, ℕ, List, IsTrue, MatchOption, codes, decimal};
ghost use Rattle.statement.specs.Reports.{Line, outcome_text};
ghost use Rattle.report.specs.declared.models.FaultModel.TheVariants.{StuckAt, Transition};
ghost use Rattle.report.specs.Reports.{IsLineBy, IsOutcome, IsBenchWord};
ghost use Rattle.statement.specs.declared.outcomes.Outcome.{Outcome};
ghost use Rattle.report.specs.inner.Faults.{EndsAt, NamedBegins, PinBegins, FaultBegins};
ghost use Rattle.report.specs.inner.Lines.{fault_words};

use crate::fault_lines::FaultLine;
use crate::models::FaultModel;
use crate::pieces::{before_value, behind, behind_slow, is_word};
use plain_text::{number, split_at};
use statement::Outcome;

/// Of `x/0 rest` what stands before the value, `x`, and behind it.
fn before_stuck(text: &[u8]) -> Option<(&[u8], &[u8])>
    ensures { MatchOption result ((front rest : List ℕ) → EndsAt StuckAt text.now front rest → ⊥) (λ p. EndsAt StuckAt text.now p.0.now p.1.now) }
{
    let (word, rest) = split_at(text, b' ')?;
    let front = before_value(word)?;
    Some((front, rest))
}

/// Of `x rise rest` what stands before the word, `x`, and behind it.
fn before_slow(text: &[u8]) -> Option<(&[u8], &[u8])>
    ensures { MatchOption result ((front rest : List ℕ) → EndsAt Transition text.now front rest → ⊥) (λ p. EndsAt Transition text.now p.0.now p.1.now) }
{
    let (front, after) = split_at(text, b' ')?;
    let rest = behind_slow(after)?;
    Some((front, rest))
}

/// What stands before the end of a fault's text, and behind it.
fn before_end(model: FaultModel, text: &[u8]) -> Option<(&[u8], &[u8])>
    ensures { MatchOption result ((front rest : List ℕ) → EndsAt model text.now front rest → ⊥) (λ p. EndsAt model text.now p.0.now p.1.now) }
{
    match model {
        FaultModel::StuckAt => before_stuck(text),
        FaultModel::Transition => before_slow(text),
    }
}

/// What stands behind a name and the end of a fault's text.
fn behind_named(model: FaultModel, text: &[u8]) -> Option<&[u8]>
    ensures { MatchOption result ((rest : List ℕ) → NamedBegins model text.now rest → ⊥) (λ rest. NamedBegins model text.now rest.now) }
{
    let (name, rest) = before_end(model, text)?;
    if is_word(name) { Some(rest) } else { None }
}

/// What stands behind a name, a place and the end of a fault's text.
fn behind_pin(model: FaultModel, text: &[u8]) -> Option<&[u8]>
    ensures { MatchOption result ((rest : List ℕ) → PinBegins model text.now rest → ⊥) (λ rest. PinBegins model text.now rest.now) }
{
    let (name, after) = split_at(text, b' ')?;
    if !is_word(name) {
        return None;
    }
    let (digits, rest) = before_end(model, after)?;
    let _place = number(digits)?;
    Some(rest)
}

/// What stands behind a fault's text, which is passed over and not looked up.
fn behind_fault(model: FaultModel, line: &[u8]) -> Option<&[u8]>
    ensures { MatchOption result ((rest : List ℕ) → FaultBegins model line.now rest → ⊥) (λ rest. FaultBegins model line.now rest.now) }
{
    if let Some(text) = behind(b"stem ", line) {
        return behind_named(model, text);
    }
    if let Some(text) = behind(b"out ", line) {
        return behind_named(model, text);
    }
    if let Some(text) = behind(b"pin ", line) {
        return behind_pin(model, text);
    }
    None
}

/// `1 1 y`
fn place_in(text: &[u8]) -> Option<(u64, u64, &[u8])>
    ensures { MatchOption result
        ((pattern cycle : ℕ) (pin : List ℕ) → pattern < 2 ^ 64 → cycle < 2 ^ 64 → IsBenchWord pin → text.now ≢ decimal pattern ++ 32 ∷ (decimal cycle ++ 32 ∷ pin))
        (λ p. (p.0 < 2 ^ 64) × (p.1 < 2 ^ 64) × IsBenchWord p.2.now × (text.now ≡ decimal p.0 ++ 32 ∷ (decimal p.1 ++ 32 ∷ p.2.now))) }
{
    let (first, after) = split_at(text, b' ')?;
    let (second, pin) = split_at(after, b' ')?;
    let pattern = number(first)?;
    let cycle = number(second)?;
    if is_word(pin) {
        Some((pattern, cycle, pin))
    } else {
        None
    }
}

/// What came of a fault, and the pin, behind the blank.
fn outcome_in(text: &[u8]) -> Option<(Outcome, &[u8])>
    ensures { MatchOption result
        ((outcome : Outcome) (pin : List ℕ) → IsOutcome outcome pin → 32 ∷ text.now ≢ outcome_text outcome pin)
        (λ p. IsOutcome p.0 p.1.now × (32 ∷ text.now ≡ outcome_text p.0 p.1.now)) }
{
    if text == b"redundant".as_slice() {
        return Some((Outcome::Redundant, b""));
    }
    if text == b"aborted".as_slice() {
        return Some((Outcome::Aborted, b""));
    }
    if text == b"unasked".as_slice() {
        return Some((Outcome::Unasked, b""));
    }
    let place = behind(b"detected ", text)?;
    let (pattern, cycle, pin) = place_in(place)?;
    Some((Outcome::Detected(pattern, cycle), pin))
}

/// A line's fault, what came of it and the pin.
pub(crate) fn fault_in(model: FaultModel, line: &[u8]) -> Option<FaultLine<'_>>
    ensures { MatchOption result
        ((l : Line) → IsLineBy model l → line.now ≢ fault_words l)
        (λ f. IsLineBy model (record { fault = f.fault.now; outcome = f.outcome; pin = f.pin.now }) × (line.now ≡ fault_words (record { fault = f.fault.now; outcome = f.outcome; pin = f.pin.now }))) }
{
    let rest = behind_fault(model, line)?;
    let (outcome, pin) = outcome_in(rest)?;
    Some(FaultLine {
        fault: &line[..line.len() - rest.len() - 1],
        outcome,
        pin,
    })
}
