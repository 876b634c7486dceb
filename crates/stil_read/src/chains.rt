//! The names of the chains' cells.
ghost use Rattle.std.specs.Prelude.{List, IfOk, MatchOption};
ghost use Rattle.statement.specs.Benches.{Text};
ghost use Rattle.stil_read.specs.Tokens.{Token as Piece, tokens};
ghost use Rattle.stil_read.specs.inner.Grammar.{AreChains, IsChain};

use crate::signals::signals;
use crate::skipping::behind_first;
use std::alloc::{AllocError, Global};
use stil_write::Texts;

/// The names of the next chain's cells, if there is one, and the bytes after them.
fn chain_at<'a>(alloc: Global, bytes: &'a [u8]) -> Result<Option<(Texts, &'a [u8])>, AllocError>
    ensures { IfOk result (λ o. MatchOption o ((cells : List Text) (rest : List Piece) → IsChain (tokens bytes.now) cells rest → ⊥) (λ p. IsChain (tokens bytes.now) p.0 (tokens p.1.now))) }
{
    let Some(inner) = behind_first(b"ScanCells", bytes) else {
        return Ok(None);
    };
    let (cells, rest) = signals(alloc, b"", inner)?;
    Ok(Some((cells, rest)))
}

/// The names of the cells of so many chains, if there are as many, and the bytes after them.
pub(crate) fn chains<'a>(
    alloc: Global,
    count: usize,
    bytes: &'a [u8],
) -> Result<Option<(Vec<Texts>, &'a [u8])>, AllocError>
    ensures { IfOk result (λ o. MatchOption o ((chains : List (List Text)) (rest : List Piece) → AreChains count (tokens bytes.now) chains rest → ⊥) (λ p. AreChains count (tokens bytes.now) p.0.items (tokens p.1.now))) }
{
    let mut chains = Vec::new(alloc);
    let mut rest = bytes;
    'chains: for _ in 0..count {
        let Some((cells, after)) = chain_at(alloc, rest)? else {
            return Ok(None);
        };
        chains.push(cells)?;
        rest = after;
    }
    Ok(Some((chains, rest)))
}
