//! Parts of a text that are passed over.
ghost use Rattle.std.specs.Prelude.{◌≡◌, None, Some, MatchOption};
ghost use Rattle.stil_read.specs.Tokens.{tokens};
ghost use Rattle.stil_read.specs.inner.Shown.{shown};
ghost use Rattle.stil_read.specs.inner.Skips.{behind_first, is_spelled};

use crate::token::{Token, next_token};

/// Whether a token is spelled so.
fn is_spelled(word: &[u8], token: Token<'_>) -> bool
    ensures { result ≡ is_spelled word.now (shown token.entry) }
{
    match token {
        Token::Spelled(text) => text == word,
        Token::Stray => false,
    }
}

/// The bytes behind the first token that is spelled so, if there is one.
pub(crate) fn behind_first<'a>(word: &[u8], bytes: &'a [u8]) -> Option<&'a [u8]>
    ensures { MatchOption result (behind_first word.now (tokens bytes.now) ≡ None) (λ rest. behind_first word.now (tokens bytes.now) ≡ Some (tokens rest.now)) }
{
    let mut rest = bytes;
    'skip: while let Some((token, after)) = next_token(rest) {
        rest = after;
        if is_spelled(word, token) {
            return Some(rest);
        }
    }
    None
}
