//! The vector of a shift, and the pattern.
ghost use Rattle.std.specs.Prelude.{List, IfOk, MatchOption};
ghost use Rattle.statement.specs.Benches.{Text};
ghost use Rattle.statement.specs.Stils.{Item};
ghost use Rattle.stil_read.specs.Tokens.{Token as Piece, tokens};
ghost use Rattle.stil_read.specs.inner.Grammar.{ArePattern, IsShifted};

use crate::assigned::{in_quotes, spelled_at};
use crate::expected::expect;
use crate::items::items;
use crate::skipping::behind_first;
use std::alloc::{AllocError, Global};
use stil_write::{Items, assigned, called};

/// What the inputs have while so many chains shift, if that is said, and the bytes after it.
pub(crate) fn shift_word<'a>(
    alloc: Global,
    chains: usize,
    bytes: &'a [u8],
) -> Result<Option<(Vec<u8>, &'a [u8])>, AllocError>
    ensures { IfOk result (λ o. MatchOption o ((word : Text) (rest : List Piece) → IsShifted chains (tokens bytes.now) word rest → ⊥) (λ p. IsShifted chains (tokens bytes.now) p.0.items (tokens p.1.now))) }
{
    if chains == 0 {
        return Ok(Some((Vec::new(alloc), bytes)));
    }
    let Some(inner) = behind_first(b"V", bytes) else {
        return Ok(None);
    };
    let Some(after) = expect(b"{ \"SC__pi\" =", inner) else {
        return Ok(None);
    };
    let Some((word, rest)) = spelled_at(after) else {
        return Ok(None);
    };
    Ok(Some((Vec::from_slice(alloc, word)?, rest)))
}

/// The items of a pattern with so many chains, if there is one, and the bytes after them.
pub(crate) fn pattern<'a>(
    alloc: Global,
    chains: usize,
    bytes: &'a [u8],
) -> Result<Option<(Items, &'a [u8])>, AllocError>
    ensures { IfOk result (λ o. MatchOption o ((items : List Item) (rest : List Piece) → ArePattern chains (tokens bytes.now) items rest → ⊥) (λ p. ArePattern chains (tokens bytes.now) p.0 (tokens p.1.now))) }
{
    let Some(inner) = behind_first(b"Pattern", bytes) else {
        return Ok(None);
    };
    let Some(behind) = expect(b"\"pattern\" { W \"wft\";", inner) else {
        return Ok(None);
    };
    let calls = called(alloc, chains)?;
    let calls = in_quotes(alloc, &calls)?;
    let vectors = assigned(alloc, chains)?;
    let vectors = in_quotes(alloc, &vectors)?;
    let (items, rest) = items(alloc, &calls, &vectors, behind)?;
    Ok(Some((items, rest)))
}
