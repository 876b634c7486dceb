//! The tokens of a STIL text.
ghost use Rattle.std.specs.Prelude.{◌≡◌, ◌<◌, ◌≤◌, ◌∷◌, [], ◌+◌, ◌==◌, not, true, false, length, MatchOption, IfSome};
ghost use Rattle.std.specs.List.{prefix_len};
ghost use Rattle.stil_read.specs.Tokens.{tokens, tokens_from, BehindSlash, Spelled, Stray};
ghost use Rattle.stil_read.specs.inner.Shown.{IsFirst, begins_gap, goes_on, opens_comment, shown, word_len};

use crate::bytes::{Class, class_of};
use crate::comment::{behind_block, behind_line};

/// A token as it is spelled, or what stands in place of one.
#[derive(Clone, Copy)]
pub enum Token<'a> {
    Spelled(&'a [u8]),
    Stray,
}

/// Whether the next byte makes a comment of the slash before it.
fn opens_comment(bytes: &[u8]) -> bool
    ensures { result ≡ opens_comment bytes.now }
{
    match bytes.split_first() {
        Some((first, _)) => match class_of(*first) {
            Class::Slash | Class::Star => true,
            _ => false,
        },
        None => false,
    }
}

/// Whether a byte of a word comes next, and no comment.
fn goes_on(bytes: &[u8]) -> bool
    ensures { result ≡ goes_on bytes.now }
{
    let Some((first, rest)) = bytes.split_first() else {
        return false;
    };
    match class_of(*first) {
        Class::Slash => !opens_comment(rest),
        Class::Letter => true,
        _ => false,
    }
}

/// Whether what parts tokens comes next.
fn begins_gap(bytes: &[u8]) -> bool
    ensures { result ≡ begins_gap bytes.now }
{
    let Some((first, rest)) = bytes.split_first() else {
        return false;
    };
    match class_of(*first) {
        Class::Gap => true,
        Class::Slash => opens_comment(rest),
        _ => false,
    }
}

/// How many bytes of a word stand at the front.
fn word_len(bytes: &[u8]) -> usize
    ensures within { result ≤ length bytes.now }
    ensures run { result ≡ word_len bytes.now }
{
    let mut rest = bytes;
    let mut len = 0;
    'word: while let Some((_, after)) = rest.split_first() {
        if !goes_on(rest) {
            return len;
        }
        rest = after;
        len += 1;
    }
    len
}

/// How many bytes stand before the next quote of this kind.
fn quoted_len(quote: u8, bytes: &[u8]) -> usize
    ensures within { result ≤ length bytes.now }
    ensures run { result ≡ prefix_len (λ b. not (b == quote)) bytes.now }
{
    for (i, b) in bytes.iter().enumerate() {
        if *b == quote {
            return i;
        }
    }
    bytes.len()
}

/// The bytes behind a comment, of which its first slash was read, if the comment ends.
fn behind_comment(bytes: &[u8]) -> Option<&[u8]>
    requires { opens_comment bytes.now ≡ true }
    ensures rest { MatchOption result (tokens_from (BehindSlash []) bytes.now ≡ Stray ∷ []) (λ rest. tokens_from (BehindSlash []) bytes.now ≡ tokens rest.now) }
    ensures shorter { IfSome result (λ rest. length rest.now < length bytes.now) }
{
    let (second, rest) = bytes.split_first()?;
    match class_of(*second) {
        Class::Slash => Some(behind_line(rest)),
        _ => behind_block(rest),
    }
}

/// The bytes behind a gap or a comment, if the comment ends.
fn behind_gap(bytes: &[u8]) -> Option<&[u8]>
    requires { begins_gap bytes.now ≡ true }
    ensures rest { MatchOption result (tokens bytes.now ≡ Stray ∷ []) (λ rest. tokens bytes.now ≡ tokens rest.now) }
    ensures shorter { IfSome result (λ rest. length rest.now < length bytes.now) }
{
    let (first, rest) = bytes.split_first()?;
    match class_of(*first) {
        Class::Gap => Some(rest),
        _ => behind_comment(rest),
    }
}

/// A quoted text at the front and the bytes after it, if the quote is closed.
fn quoted_at(bytes: &[u8]) -> Option<(&[u8], &[u8])>
    requires { IsFirst Class.Quote bytes.now }
    ensures next { MatchOption result (tokens bytes.now ≡ Stray ∷ []) (λ p. tokens bytes.now ≡ Spelled p.0.now ∷ tokens p.1.now) }
    ensures shorter { IfSome result (λ p. length p.1.now < length bytes.now) }
{
    let (quote, rest) = bytes.split_first()?;
    let len = quoted_len(*quote, rest);
    if len == rest.len() {
        return None;
    }
    Some(bytes.split_at(len + 2))
}

/// The word at the front, and the bytes after it.
fn word_at(bytes: &[u8]) -> (Token<'_>, &[u8])
    requires { goes_on bytes.now ≡ true }
    ensures next { tokens bytes.now ≡ shown result.0 ∷ tokens result.1.now }
    ensures shorter { length result.1.now < length bytes.now }
{
    let (word, after) = bytes.split_at(word_len(bytes));
    (Token::Spelled(word), after)
}

/// The token at the front, where no gap and no comment stands, and the bytes after it.
fn token_at(bytes: &[u8]) -> Option<(Token<'_>, &[u8])>
    requires { begins_gap bytes.now ≡ false }
    ensures next { MatchOption result (tokens bytes.now ≡ []) (λ p. tokens bytes.now ≡ shown p.0 ∷ tokens p.1.now) }
    ensures shorter { IfSome result (λ p. length p.1.now < length bytes.now) }
{
    let (first, rest) = bytes.split_first()?;
    match class_of(*first) {
        Class::Mark => {
            let (mark, after) = bytes.split_at(1);
            Some((Token::Spelled(mark), after))
        }
        Class::Quote => match quoted_at(bytes) {
            Some((text, after)) => Some((Token::Spelled(text), after)),
            None => Some((Token::Stray, bytes.split_at(bytes.len()).1)),
        },
        Class::Slash => Some(word_at(bytes)),
        Class::Letter => Some(word_at(bytes)),
        Class::Gap => Some((Token::Stray, rest)),
        Class::Star => Some((Token::Stray, rest)),
        Class::Other => Some((Token::Stray, rest)),
    }
}

/// The next token, and the bytes after it.
pub fn next_token(bytes: &[u8]) -> Option<(Token<'_>, &[u8])>
    ensures next { MatchOption result (tokens bytes.now ≡ []) (λ p. tokens bytes.now ≡ shown p.0 ∷ tokens p.1.now) }
    ensures shorter { IfSome result (λ p. length p.1.now < length bytes.now) }
{
    let mut rest = bytes;
    'gaps: while begins_gap(rest) {
        let Some(after) = behind_gap(rest) else {
            return Some((Token::Stray, rest.split_at(rest.len()).1));
        };
        rest = after;
    }
    token_at(rest)
}
