//! The parts that a text can stand for.
ghost use Rattle.std.specs.Prelude.{IfOk, MatchOption};
ghost use Rattle.stil_write.specs.Parts.{file_of};
ghost use Rattle.statement.specs.Stils.{StilFile};
ghost use Rattle.stil_read.specs.Tokens.{tokens};
ghost use Rattle.stil_read.specs.inner.Grammar.{IsSpelt};

use crate::chains::chains;
use crate::pattern::{pattern, shift_word};
use crate::signal_block::signal_block;
use std::alloc::{AllocError, Global};
use stil_write::StilParts;

/// The parts that stand where those of a file stand. The rest of the text isn't looked at.
pub(crate) fn find(alloc: Global, bytes: &[u8]) -> Result<Option<StilParts>, AllocError>
    ensures { IfOk result (λ o. MatchOption o ((f : StilFile) → IsSpelt f (tokens bytes.now) → ⊥) (λ parts. IsSpelt (file_of parts) (tokens bytes.now))) }
{
    let Some((found, one)) = signal_block(alloc, bytes)? else {
        return Ok(None);
    };
    let Some((chains, two)) = chains(alloc, found.chains, one)? else {
        return Ok(None);
    };
    let Some((shift_word, three)) = shift_word(alloc, found.chains, two)? else {
        return Ok(None);
    };
    let Some((items, _)) = pattern(alloc, found.chains, three)? else {
        return Ok(None);
    };
    Ok(Some(StilParts {
        pi: found.pi,
        po: found.po,
        chains,
        shift_word,
        items,
    }))
}
