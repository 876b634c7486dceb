//! Comments of a STIL text.
ghost use Rattle.std.specs.Prelude.{◌≡◌, ◌<◌, ◌≤◌, ◌∷◌, [], length, MatchOption, IfSome};
ghost use Rattle.stil_read.specs.inner.Shown.{ends_block};
ghost use Rattle.stil_read.specs.Tokens.{tokens_from, tokens, InLine, InBlock, Stray};

use crate::bytes::{Class, class_of};

/// The bytes behind the end of the line.
pub fn behind_line(bytes: &[u8]) -> &[u8]
    ensures rest { tokens_from InLine bytes.now ≡ tokens result.now }
    ensures shorter { length result.now ≤ length bytes.now }
{
    let mut rest = bytes;
    'line: while let Some((first, after)) = rest.split_first() {
        if *first == b'\n' {
            return after;
        }
        rest = after;
    }
    rest
}

/// Whether a comment ends with a byte of the second class behind one of the first.
fn ends_block(before: Class, class: Class) -> bool
    ensures { result ≡ ends_block before class }
{
    match (before, class) {
        (Class::Star, Class::Slash) => true,
        _ => false,
    }
}

/// The bytes behind the next star and slash, if there are.
pub fn behind_block(bytes: &[u8]) -> Option<&[u8]>
    ensures rest { MatchOption result (tokens_from InBlock bytes.now ≡ Stray ∷ []) (λ rest. tokens_from InBlock bytes.now ≡ tokens rest.now) }
    ensures shorter { IfSome result (λ rest. length rest.now ≤ length bytes.now) }
{
    let mut rest = bytes;
    let mut before = Class::Other;
    'block: while let Some((first, after)) = rest.split_first() {
        let class = class_of(*first);
        if ends_block(before, class) {
            return Some(after);
        }
        before = class;
        rest = after;
    }
    None
}
