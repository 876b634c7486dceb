//! Words that are assigned to signals, as in a call or a vector.
ghost use Rattle.std.specs.Prelude.{◌≡◌, ◌≢◌, ◌<◌, ◌++◌, ◌∷◌, List, length, map, IfOk, IfSome, MatchOption};
ghost use Rattle.statement.specs.Benches.{Text};
ghost use Rattle.statement.specs.Stils.{quoted};
ghost use Rattle.stil_read.specs.Tokens.{Token as Piece, Spelled, tokens};
ghost use Rattle.stil_read.specs.inner.Assigned.{AreAssigned, NoneAssigned, assignment_tokens};

use crate::token::{Token, next_token};
use std::alloc::{AllocError, Global};
use stil_write::Texts;

/// The token that comes next as it is spelled, and the bytes after it.
pub(crate) fn spelled_at(bytes: &[u8]) -> Option<(&[u8], &[u8])>
    ensures next { MatchOption result ((text : Text) (ts : List Piece) → tokens bytes.now ≢ Spelled text ∷ ts) (λ p. tokens bytes.now ≡ Spelled p.0.now ∷ tokens p.1.now) }
    ensures shorter { IfSome result (λ p. length p.1.now < length bytes.now) }
{
    let (token, rest) = next_token(bytes)?;
    match token {
        Token::Spelled(text) => Some((text, rest)),
        Token::Stray => None,
    }
}

/// The bytes behind this token, if it comes next.
fn this_at<'a>(text: &[u8], bytes: &'a [u8]) -> Option<&'a [u8]>
    ensures next { MatchOption result ((ts : List Piece) → tokens bytes.now ≢ Spelled text.now ∷ ts) (λ rest. tokens bytes.now ≡ Spelled text.now ∷ tokens rest.now) }
    ensures shorter { IfSome result (λ rest. length rest.now < length bytes.now) }
{
    let (found, rest) = spelled_at(bytes)?;
    if found == text { Some(rest) } else { None }
}

/// The word that is assigned to a signal, if that comes next, and the bytes after it. The signal is given in its quotes.
fn word_for<'a>(label: &[u8], bytes: &'a [u8]) -> Option<(&'a [u8], &'a [u8])>
    ensures next { MatchOption result ((word : Text) (ts : List Piece) → tokens bytes.now ≢ assignment_tokens label.now word ++ ts)
        (λ p. tokens bytes.now ≡ assignment_tokens label.now p.0.now ++ tokens p.1.now) }
    ensures shorter { IfSome result (λ p. length p.1.now < length bytes.now) }
{
    let after = this_at(label, bytes)?;
    let after = this_at(b"=", after)?;
    let (word, after) = spelled_at(after)?;
    let after = this_at(b";", after)?;
    Some((word, after))
}

/// The words that are assigned to these signals, one after the other, in place of other words, and the bytes after them.
pub(crate) fn words<'a>(
    labels: &Texts,
    bytes: &'a [u8],
    words: &mut Texts,
) -> Result<Option<&'a [u8]>, AllocError>
    ensures { IfOk result (λ o. MatchOption o (NoneAssigned labels.now (tokens bytes.now)) (λ rest. AreAssigned labels.now (tokens bytes.now) words.new (tokens rest.now))) }
{
    words.clear();
    let mut rest = bytes;
    for place in 0..labels.len() {
        let Some((word, after)) = word_for(labels.get(place), rest) else {
            return Ok(None);
        };
        words.push(word)?;
        rest = after;
    }
    Ok(Some(rest))
}

/// Names in their quotes.
pub(crate) fn in_quotes(alloc: Global, names: &Texts) -> Result<Texts, AllocError>
    ensures { IfOk result (λ labels. labels ≡ map quoted names.now) }
{
    let mut labels = Texts::new(alloc);
    let mut label = Vec::new(alloc);
    for place in 0..names.len() {
        label.clear();
        label.push(b'"')?;
        label.extend_from_slice(names.get(place))?;
        label.push(b'"')?;
        labels.push(&label)?;
    }
    Ok(labels)
}
