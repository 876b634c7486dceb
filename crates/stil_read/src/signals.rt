//! Signals of one kind, line by line.
ghost use Rattle.std.specs.Prelude.{◌≡◌, ◌≢◌, ◌<◌, ◌++◌, ◌∷◌, List, length, IfOk, IfSome, MatchOption};
ghost use Rattle.statement.specs.Benches.{Text};
ghost use Rattle.statement.specs.Stils.{quoted};
ghost use Rattle.stil_read.specs.Tokens.{Token as Piece, Spelled, tokens};
ghost use Rattle.stil_read.specs.inner.Signals.{AreSignals, NoSignal};

use crate::expected::expect;
use crate::token::{Token, next_token};
use std::alloc::{AllocError, Global};
use stil_write::Texts;

/// What stands between the quotes, where the text is quoted so.
fn unquoted(text: &[u8]) -> Option<&[u8]>
    ensures { MatchOption result ((name : Text) → text.now ≢ quoted name) (λ name. text.now ≡ quoted name.now) }
{
    let (first, rest) = text.split_first()?;
    let (last, name) = rest.split_last()?;
    if *first == b'"' && *last == b'"' {
        Some(name)
    } else {
        None
    }
}

/// The name in quotes that comes next, and the bytes after it.
fn name_at(bytes: &[u8]) -> Option<(&[u8], &[u8])>
    ensures next { MatchOption result ((name : Text) (ts : List Piece) → tokens bytes.now ≢ Spelled (quoted name) ∷ ts) (λ p. tokens bytes.now ≡ Spelled (quoted p.0.now) ∷ tokens p.1.now) }
    ensures shorter { IfSome result (λ p. length p.1.now < length bytes.now) }
{
    let (token, rest) = next_token(bytes)?;
    match token {
        Token::Spelled(text) => match unquoted(text) {
            Some(name) => Some((name, rest)),
            None => None,
        },
        Token::Stray => None,
    }
}

/// The name of a signal of this kind, if one comes next, and the bytes after its line.
fn signal_at<'a>(kind: &[u8], bytes: &'a [u8]) -> Option<(&'a [u8], &'a [u8])>
    ensures next { MatchOption result (NoSignal kind.now (tokens bytes.now)) (λ p. tokens bytes.now ≡ Spelled (quoted p.0.now) ∷ (tokens kind.now ++ tokens p.1.now)) }
    ensures shorter { IfSome result (λ p. length p.1.now < length bytes.now) }
{
    let (name, after) = name_at(bytes)?;
    match expect(kind, after) {
        Some(rest) => Some((name, rest)),
        None => None,
    }
}

/// The names of the signals of this kind that come next, and the bytes after their lines.
pub(crate) fn signals<'a>(
    alloc: Global,
    kind: &[u8],
    bytes: &'a [u8],
) -> Result<(Texts, &'a [u8]), AllocError>
    ensures { IfOk result (λ p. AreSignals kind.now (tokens bytes.now) p.0 (tokens p.1.now)) }
{
    let mut names = Texts::new(alloc);
    let mut rest = bytes;
    'names: while let Some((name, after)) = signal_at(kind, rest) {
        names.push(name)?;
        rest = after;
    }
    Ok((names, rest))
}
