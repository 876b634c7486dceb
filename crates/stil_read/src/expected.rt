//! Texts that the reader expects, up to what parts their tokens.
ghost use Rattle.std.specs.Prelude.{◌≡◌, ◌≢◌, ◌≤◌, ◌++◌, ℕ, List, [], length, MatchBool, MatchOption, IfSome};
ghost use Rattle.stil_read.specs.Tokens.{Token as Piece, tokens};
ghost use Rattle.stil_read.specs.inner.Shown.{shown};

use crate::token::{Token, next_token};

/// Whether two tokens are spelled alike.
fn is_same(a: Token<'_>, b: Token<'_>) -> bool
    ensures { MatchBool result (shown a.entry ≡ shown b.entry) (shown a.entry ≢ shown b.entry) }
{
    match a {
        Token::Spelled(left) => match b {
            Token::Spelled(right) => left == right,
            Token::Stray => false,
        },
        Token::Stray => match b {
            Token::Spelled(_) => false,
            Token::Stray => true,
        },
    }
}

/// The bytes behind the tokens of a text, if these come next.
pub fn expect<'a>(text: &[u8], bytes: &'a [u8]) -> Option<&'a [u8]>
    ensures found { MatchOption result ((ts : List Piece) → tokens bytes.now ≢ tokens text.now ++ ts) (λ rest. tokens bytes.now ≡ tokens text.now ++ tokens rest.now) }
    ensures only { IfSome result (λ rest. (ts : List Piece) → tokens bytes.now ≡ tokens text.now ++ ts → tokens rest.now ≡ ts) }
    ensures shorter { IfSome result (λ rest. length rest.now ≤ length bytes.now) }
{
    let mut pattern = text;
    let mut rest = bytes;
    'tokens: while let Some((token, after)) = next_token(pattern) {
        let Some((other, behind)) = next_token(rest) else {
            return None;
        };
        if !is_same(token, other) {
            return None;
        }
        pattern = after;
        rest = behind;
    }
    Some(rest)
}

/// Whether two texts have the same tokens.
pub fn same_tokens(text: &[u8], bytes: &[u8]) -> bool
    ensures { MatchBool result (tokens bytes.now ≡ tokens text.now) (tokens bytes.now ≢ tokens text.now) }
{
    let Some(rest) = expect(text, bytes) else {
        return false;
    };
    match next_token(rest) {
        Some(_) => false,
        None => true,
    }
}
