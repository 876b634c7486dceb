//! The items of a pattern in three buffers.
ghost use Rattle.std.specs.Prelude.{◌≡◌, ◌<◌, ◌==◌, ◌∷◌, [], ◌++◌, length, OnOk, slice_get, Some};
ghost use Rattle.stil_write.specs.StilFiles.{item_at, item_of, item_kind, words_of};

use plain_text::{Texts, span};
use std::alloc::{AllocError, Global};
use std::marker::Model;

/// What a word takes beside its characters, and an item beside its words.
const WORD_ROOM: usize = 18;

const LINE_ROOM: usize = 30;

/// What an item does: it calls the procedure that shifts the chains, or is one cycle.
#[derive(Clone, Copy, PartialEq, Eq)]
pub enum ItemKind {
    Call,
    Vector,
}

/// Calls and vectors in order, each with its words.
#[derive(Drop)]
pub struct Items {
    kinds: Vec<ItemKind>,
    words: Texts,
    ends: Vec<usize>,
}

impl Model for Items {
    ghost use Rattle.std.specs.Prelude.{ℕ, List, length, ◌≡◌};
    ghost use Rattle.statement.specs.Stils.{Item};

    ghost Value = { List Item };

    ghost use Rattle.plain_text.specs.Rows.{rows, AreEnds};
    ghost use Rattle.stil_write.specs.inner.Listed.{listed, AreListed};

    ghost view = { λ t. listed t.kinds.items (rows 0 t.words t.ends.items) };

    ghost invariant = { λ t. AreListed t.kinds.items t.words t.ends.items };
}

impl Items {
    /// No items, and no memory yet.
    pub fn new(alloc: Global) -> Items
        ensures { result ≡ [] }
    {
        Items {
            kinds: Vec::new(alloc),
            words: Texts::new(alloc),
            ends: Vec::new(alloc),
        }
    }

    /// How many items there are.
    pub fn len(&self) -> usize
        ensures { result ≡ length self.now }
    {
        self.ends.len()
    }

    /// Whether there is no item.
    pub fn is_empty(&self) -> bool
        ensures { result ≡ (length self.now == 0) }
    {
        self.ends.is_empty()
    }

    /// Room that the items' lines will do with, mostly.
    pub(crate) fn text_room(&self) -> usize {
        self.words
            .byte_count()
            .saturating_add(self.words.len().saturating_mul(WORD_ROOM))
            .saturating_add(self.ends.len().saturating_mul(LINE_ROOM))
    }

    /// What the item at a place does.
    pub fn kind(&self, place: usize) -> ItemKind
        requires { place < length self.now }
        ensures { result ≡ item_kind (item_at self.now place) }
    {
        self.kinds[place]
    }

    /// How many words the item at a place has.
    pub fn word_count(&self, place: usize) -> usize
        requires { place < length self.now }
        ensures { result ≡ length (words_of (item_at self.now place)) }
    {
        let (start, end) = span(&self.ends, place);
        end - start
    }

    /// A word of the item at a place.
    pub fn word(&self, place: usize, word: usize) -> &[u8]
        requires item { place < length self.now }
        requires word { word < length (words_of (item_at self.now place)) }
        ensures { slice_get (words_of (item_at self.now place)) word ≡ Some result.now }
    {
        let (start, _) = span(&self.ends, place);
        self.words.get(start + word)
    }

    /// Makes room for so many more items with so many words and bytes in all.
    pub fn reserve(&mut self, items: usize, words: usize, bytes: usize) -> Result<(), AllocError>
        ensures { self.new ≡ self.old }
    {
        self.kinds.reserve(items)?;
        self.ends.reserve(items)?;
        self.words.reserve(words, bytes)?;
        Ok(())
    }

    /// Drops all items and keeps the room.
    pub fn clear(&mut self)
        ensures { self.new ≡ [] }
    {
        self.kinds.clear();
        self.words.clear();
        self.ends.clear();
    }

    /// Adds an item with these words behind the others.
    pub fn push(&mut self, kind: ItemKind, words: &Texts) -> Result<(), AllocError>
        ensures { OnOk result (self.new ≡ self.old ++ item_of kind words.now ∷ []) }
    {
        self.kinds.reserve(1)?;
        self.ends.reserve(1)?;
        match self.words.append(words) {
            Ok(()) => {}
            Err(e) => {
                self.kinds.clear();
                self.words.clear();
                self.ends.clear();
                return Err(e);
            }
        }
        self.ends.push(self.words.len())?;
        self.kinds.push(kind)?;
        Ok(())
    }
}
