//! The items of a pattern: calls and vectors.
ghost use Rattle.std.specs.Prelude.{IfOk, MatchOption};
ghost use Rattle.stil_read.specs.Tokens.{tokens};
ghost use Rattle.stil_read.specs.inner.Items.{AreAllItems, AreBegun, IsItemAt, NoneBegun};

use crate::assigned::words;
use crate::expected::expect;
use std::alloc::{AllocError, Global};
use stil_write::{ItemKind, Items, Texts};

/// The words for these signals, between what begins them and `}`, if these come next, and the bytes after them.
fn begun_words<'a>(
    begins: &[u8],
    labels: &Texts,
    bytes: &'a [u8],
    given: &mut Texts,
) -> Result<Option<&'a [u8]>, AllocError>
    ensures { IfOk result (λ o. MatchOption o (NoneBegun begins.now labels.now (tokens bytes.now)) (λ rest. AreBegun begins.now labels.now (tokens bytes.now) given.new (tokens rest.now))) }
{
    let Some(inner) = expect(begins, bytes) else {
        return Ok(None);
    };
    let Some(after) = words(labels, inner, given)? else {
        return Ok(None);
    };
    let Some(rest) = expect(b"}", after) else {
        return Ok(None);
    };
    Ok(Some(rest))
}

/// What the item that comes next does, if one comes, and the bytes after it. The signals of calls and of vectors are given in their quotes.
fn item_at<'a>(
    called: &Texts,
    assigned: &Texts,
    bytes: &'a [u8],
    words: &mut Texts,
) -> Result<Option<(ItemKind, &'a [u8])>, AllocError>
    ensures { IfOk result (λ o. IsItemAt called.now assigned.now (tokens bytes.now) words.new o) }
{
    let call = begun_words(b"Call \"load_unload\" {", called, bytes, words)?;
    if let Some(rest) = call {
        return Ok(Some((ItemKind::Call, rest)));
    }
    let vector = begun_words(b"V {", assigned, bytes, words)?;
    if let Some(rest) = vector {
        return Ok(Some((ItemKind::Vector, rest)));
    }
    Ok(None)
}

/// The items that come next, and the bytes after them.
pub(crate) fn items<'a>(
    alloc: Global,
    called: &Texts,
    assigned: &Texts,
    bytes: &'a [u8],
) -> Result<(Items, &'a [u8]), AllocError>
    ensures { IfOk result (λ p. AreAllItems called.now assigned.now (tokens bytes.now) p.0 (tokens p.1.now)) }
{
    let mut items = Items::new(alloc);
    let mut words = Texts::new(alloc);
    let mut rest = bytes;
    'items: loop {
        let next = item_at(called, assigned, rest, &mut words)?;
        let Some((kind, after)) = next else {
            return Ok((items, rest));
        };
        items.push(kind, &words)?;
        rest = after;
    }
}
