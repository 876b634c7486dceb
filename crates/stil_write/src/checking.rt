//! Whether parts are those of a file.
ghost use Rattle.std.specs.Prelude.{◌≡◌, ◌≢◌, ◌≤◌, ◌<◌, length, IfOk, MatchBool};
ghost use Rattle.std.specs.List.{All, AllPairs};
ghost use Rattle.stil_write.specs.Parts.{file_of};
ghost use Rattle.stil_write.specs.StilFiles.{IsStilCall, IsItem, IsItemBy, IsStilName, IsShiftWord, IsStilFile, is_stil_name_byte, item_at, declared_signals, words_of};

use crate::forms::{CharKind, Form, are_words, is_word, set_call_forms, vector_forms};
use crate::items::{ItemKind, Items};
use crate::parts::StilParts;
use crate::signals::signals;
use indexmap::IndexSet;
use plain_text::Texts;
use std::alloc::{AllocError, Global};

/// The most bytes that a name has.
const LONGEST_NAME: usize = 261;

/// Whether a byte may stand in a name.
fn is_name_byte(b: u8) -> bool
    ensures { result ≡ is_stil_name_byte b }
{
    b >= 33 && b <= 126 && !(b == b'"' || b == b'\'')
}

fn is_name(text: &[u8]) -> bool
    ensures { MatchBool result (IsStilName text.now) (IsStilName text.now → ⊥) }
{
    if text.is_empty() || text.len() > LONGEST_NAME {
        return false;
    }
    for b in text {
        if !is_name_byte(*b) {
            return false;
        }
    }
    true
}

fn are_names(texts: &Texts) -> bool
    ensures { MatchBool result (All IsStilName texts.now) (All IsStilName texts.now → ⊥) }
{
    for place in 0..texts.len() {
        if !is_name(texts.get(place)) {
            return false;
        }
    }
    true
}

/// Whether no text stands twice.
fn are_distinct(alloc: Global, texts: &Texts) -> Result<bool, AllocError>
    ensures { IfOk result (λ yes. MatchBool yes (AllPairs (λ x y. x ≢ y) texts.now) (AllPairs (λ x y. x ≢ y) texts.now → ⊥)) }
{
    let mut seen = IndexSet::with_capacity(alloc, texts.len())?;
    for place in 0..texts.len() {
        let (_, added) = seen.insert_full(texts.get(place))?;
        if !added {
            return Ok(false);
        }
    }
    Ok(true)
}

/// Whether each chain has cells, and all of them names.
fn are_chains(chains: &[Texts]) -> bool
    ensures { MatchBool result (All (λ chain. 1 ≤ length chain) chains.now × All (All IsStilName) chains.now) (All (λ chain. 1 ≤ length chain) chains.now × All (All IsStilName) chains.now → ⊥) }
{
    for chain in chains {
        if chain.is_empty() || !are_names(chain) {
            return false;
        }
    }
    true
}

/// Whether the words of an item are those of a call of so many chains. The forms are room to work in.
fn is_call(
    forms: &mut Vec<Form>,
    chains: usize,
    items: &Items,
    place: usize,
) -> Result<bool, AllocError>
    requires { place < length items.now }
    ensures { IfOk result (λ yes. MatchBool yes (IsStilCall chains (words_of (item_at items.now place))) (IsStilCall chains (words_of (item_at items.now place)) → ⊥)) }
{
    if chains == 0 || items.word_count(place) == 0 {
        return Ok(false);
    }
    let size = items.word(place, 0).len();
    if size == 0 {
        return Ok(false);
    }
    set_call_forms(forms, chains, size)?;
    Ok(are_words(forms, items, place))
}

/// Whether an item is one of a file with so many chains and these forms of a vector.
fn is_item(
    room: &mut Vec<Form>,
    chains: usize,
    vectors: &[Form],
    items: &Items,
    place: usize,
) -> Result<bool, AllocError>
    requires { place < length items.now }
    ensures { IfOk result (λ yes. MatchBool yes (IsItemBy chains vectors.now (item_at items.now place)) (IsItemBy chains vectors.now (item_at items.now place) → ⊥)) }
{
    match items.kind(place) {
        ItemKind::Call => is_call(room, chains, items, place),
        ItemKind::Vector => Ok(are_words(vectors, items, place)),
    }
}

/// Whether all items are those of the file.
fn are_items(alloc: Global, parts: &StilParts) -> Result<bool, AllocError>
    ensures { IfOk result (λ yes. MatchBool yes (All (IsItem (file_of parts.now)) parts.now.items) (All (IsItem (file_of parts.now)) parts.now.items → ⊥)) }
{
    let vectors = vector_forms(alloc, parts)?;
    let mut room = Vec::new(alloc);
    for place in 0..parts.items.len() {
        if !is_item(&mut room, parts.chains.len(), &vectors, &parts.items, place)? {
            return Ok(false);
        }
    }
    Ok(true)
}

/// Whether the word for the inputs while the chains shift is one.
fn is_shift_word(parts: &StilParts) -> bool
    ensures { MatchBool result (IsShiftWord (file_of parts.now)) (IsShiftWord (file_of parts.now) → ⊥) }
{
    let size = if parts.chains.is_empty() {
        0
    } else {
        parts.pi.len()
    };
    is_word(
        Form {
            values: CharKind::Bits,
            size,
        },
        &parts.shift_word,
    )
}

impl StilParts {
    /// Whether these are the parts of a file.
    pub fn is_file(&self, alloc: Global) -> Result<bool, AllocError>
        ensures { IfOk result (λ yes. MatchBool yes (IsStilFile (file_of self.now)) (IsStilFile (file_of self.now) → ⊥)) }
    {
        if self.pi.is_empty() || self.po.is_empty() || !are_chains(&self.chains) {
            return Ok(false);
        }
        let signals = signals(alloc, self)?;
        if !are_names(&signals) || !is_shift_word(self) {
            return Ok(false);
        }
        if !are_distinct(alloc, &signals)? {
            return Ok(false);
        }
        are_items(alloc, self)
    }
}
