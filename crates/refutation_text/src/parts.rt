//! What a text begins with.
ghost use Rattle.std.specs.Prelude.{◌≡◌, ◌≢◌, ◌∷◌, ◌++◌, ℕ, Bool, List, MatchOption};
ghost use Rattle.refutation_text.specs.Texts.{bit_byte, implied_text, literal_text, move_text, pairs_text, reason_text, IsImplied, IsLiteral, IsMove, IsReason};
ghost use Rattle.refutation_text.specs.inner.Parts.{last_text, numbered, IsAt, IsMark, IsSmall, NoneAt};
ghost use Rattle.refutation.specs.declared.pairs.Pairs.{Pairs};

use netlist::SignalId;
use plain_text::{number, split_at};
use refutation::{Implied, Literal, Move, Pairs, Reason};

/// The number that stands before the first mark, and what comes behind the mark.
fn number_at(text: &[u8], mark: u8) -> Option<(u32, &[u8])>
    requires { IsMark mark }
    ensures { MatchOption result (NoneAt (numbered mark) IsSmall text.now) (λ p. IsAt (numbered mark) IsSmall text.now p.0 p.1.now) }
{
    let Some(parts) = split_at(text, mark) else {
        return None;
    };
    let Some(k) = number(parts.0) else {
        return None;
    };
    if k < 4294967296 {
        Some((k as u32, parts.1))
    } else {
        None
    }
}

fn bit_at(text: &[u8]) -> Option<(bool, &[u8])>
    ensures { MatchOption result ((b : Bool) (r : List ℕ) → text.now ≢ bit_byte b ∷ r) (λ p. text.now ≡ bit_byte p.0 ∷ p.1.now) }
{
    match text.strip_prefix(b"0") {
        Some(rest) => Some((false, rest)),
        None => match text.strip_prefix(b"1") {
            Some(behind) => Some((true, behind)),
            None => None,
        },
    }
}

fn pairs_at(text: &[u8]) -> Option<(Pairs, &[u8])>
    ensures { MatchOption result ((p : Pairs) (r : List ℕ) → text.now ≢ pairs_text p ++ r) (λ p. text.now ≡ pairs_text p.0 ++ p.1.now) }
{
    let Some(zero) = bit_at(text) else {
        return None;
    };
    let Some(rises) = bit_at(zero.1) else {
        return None;
    };
    let Some(falls) = bit_at(rises.1) else {
        return None;
    };
    let Some(one) = bit_at(falls.1) else {
        return None;
    };
    let Some(rest) = one.1.strip_prefix(b" ") else {
        return None;
    };
    let pairs = Pairs {
        zero: zero.0,
        rises: rises.0,
        falls: falls.0,
        one: one.0,
    };
    Some((pairs, rest))
}

pub(crate) fn literal_at(text: &[u8]) -> Option<(Literal, &[u8])>
    ensures { MatchOption result (NoneAt literal_text IsLiteral text.now) (λ p. IsAt literal_text IsLiteral text.now p.0 p.1.now) }
{
    let Some(signal) = number_at(text, b':') else {
        return None;
    };
    let Some(pairs) = pairs_at(signal.1) else {
        return None;
    };
    let literal = Literal {
        signal: SignalId(signal.0),
        pairs: pairs.0,
    };
    Some((literal, pairs.1))
}

/// The reason behind `=`.
fn gate_at(text: &[u8]) -> Option<(Reason, &[u8])>
    ensures { MatchOption result (NoneAt reason_text IsReason (61 ∷ text.now)) (λ p. IsAt reason_text IsReason (61 ∷ text.now) p.0 p.1.now) }
{
    match number_at(text, b' ') {
        Some(gate) => Some((Reason::Gate(SignalId(gate.0)), gate.1)),
        None => None,
    }
}

/// The reason behind `*`.
fn lemma_at(text: &[u8]) -> Option<(Reason, &[u8])>
    ensures { MatchOption result (NoneAt reason_text IsReason (42 ∷ text.now)) (λ p. IsAt reason_text IsReason (42 ∷ text.now) p.0 p.1.now) }
{
    match number_at(text, b' ') {
        Some(lemma) => Some((Reason::Lemma(lemma.0), lemma.1)),
        None => None,
    }
}

fn reason_at(text: &[u8]) -> Option<(Reason, &[u8])>
    ensures { MatchOption result (NoneAt reason_text IsReason text.now) (λ p. IsAt reason_text IsReason text.now p.0 p.1.now) }
{
    if let Some(rest) = text.strip_prefix(b"! ") {
        return Some((Reason::Way, rest));
    }
    if let Some(rest) = text.strip_prefix(b"~ ") {
        return Some((Reason::Gates, rest));
    }
    if let Some(gate) = text.strip_prefix(b"=") {
        return gate_at(gate);
    }
    match text.strip_prefix(b"*") {
        Some(lemma) => lemma_at(lemma),
        None => None,
    }
}

fn implied_at(text: &[u8]) -> Option<(Implied, &[u8])>
    ensures { MatchOption result (NoneAt implied_text IsImplied text.now) (λ p. IsAt implied_text IsImplied text.now p.0 p.1.now) }
{
    let Some(literal) = literal_at(text) else {
        return None;
    };
    let Some(reason) = reason_at(literal.1) else {
        return None;
    };
    let implied = Implied {
        literal: literal.0,
        reason: reason.0,
    };
    Some((implied, reason.1))
}

pub(crate) fn move_at(text: &[u8]) -> Option<(Move, &[u8])>
    ensures { MatchOption result (NoneAt move_text IsMove text.now) (λ p. IsAt move_text IsMove text.now p.0 p.1.now) }
{
    if let Some(rest) = text.strip_prefix(b"~ ") {
        return Some((Move::Sweep, rest));
    }
    match implied_at(text) {
        Some(implied) => Some((Move::Imply(implied.0), implied.1)),
        None => None,
    }
}

pub(crate) fn last_at(text: &[u8]) -> Option<(Reason, &[u8])>
    ensures { MatchOption result (NoneAt last_text IsReason text.now) (λ p. IsAt last_text IsReason text.now p.0 p.1.now) }
{
    let Some(reason) = reason_at(text) else {
        return None;
    };
    match reason.1.strip_prefix(b")") {
        Some(rest) => Some((reason.0, rest)),
        None => None,
    }
}
