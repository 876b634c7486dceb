//! Texts in one buffer.
ghost use Rattle.std.specs.Prelude.{◌≡◌, ◌<◌, ◌==◌, ◌∷◌, [], ◌++◌, length, IfOk, OnOk, OnErr, slice_get, Some};
ghost use Rattle.std.specs.List.{sum_by};

use crate::spans::row;
use std::alloc::{AllocError, Global};
use std::marker::Model;

/// Texts, one behind the other in one buffer.
#[derive(Drop)]
pub struct Texts {
    bytes: Vec<u8>,
    ends: Vec<usize>,
}

impl Model for Texts {
    ghost use Rattle.std.specs.Prelude.{ℕ, List};
    ghost use Rattle.plain_text.specs.Rows.{rows, AreEnds};

    ghost Value = { List (List ℕ) };

    ghost view = { λ t. rows 0 t.bytes.items t.ends.items };

    ghost invariant = { λ t. AreEnds 0 t.bytes.items t.ends.items };
}

impl Texts {
    /// No texts, and no memory yet.
    pub fn new(alloc: Global) -> Texts
        ensures { result ≡ [] }
    {
        Texts {
            bytes: Vec::new(alloc),
            ends: Vec::new(alloc),
        }
    }

    /// How many texts there are.
    pub fn len(&self) -> usize
        ensures { result ≡ length self.now }
    {
        self.ends.len()
    }

    /// Whether there is no text.
    pub fn is_empty(&self) -> bool
        ensures { result ≡ (length self.now == 0) }
    {
        self.ends.is_empty()
    }

    /// How many bytes the texts have in all.
    pub fn byte_count(&self) -> usize
        ensures { result ≡ sum_by length self.now }
    {
        self.bytes.len()
    }

    /// The text at a place.
    #[inline(always)]
    pub fn get(&self, place: usize) -> &[u8]
        requires { place < length self.now }
        ensures { slice_get self.now place ≡ Some result.now }
    {
        row(&self.bytes, &self.ends, place)
    }

    /// Makes room for so many more texts with so many bytes in all.
    pub fn reserve(&mut self, texts: usize, bytes: usize) -> Result<(), AllocError>
        ensures { self.new ≡ self.old }
    {
        self.ends.reserve(texts)?;
        self.bytes.reserve(bytes)?;
        Ok(())
    }

    /// Adds a text behind the others.
    pub fn push(&mut self, text: &[u8]) -> Result<(), AllocError>
        ensures ok { OnOk result (self.new ≡ self.old ++ text.now ∷ []) }
        ensures err { OnErr result (self.new ≡ self.old) }
    {
        self.ends.reserve(1)?;
        self.bytes.extend_from_slice(text)?;
        self.ends.push(self.bytes.len())?;
        Ok(())
    }

    /// Adds texts behind the others.
    pub fn append(&mut self, more: &Texts) -> Result<(), AllocError>
        ensures { OnOk result (self.new ≡ self.old ++ more.now) }
    {
        for place in 0..more.len() {
            self.push(more.get(place))?;
        }
        Ok(())
    }

    /// The same texts in memory of their own.
    pub fn copy(&self, alloc: Global) -> Result<Texts, AllocError>
        ensures { IfOk result (λ t. t ≡ self.now) }
    {
        Ok(Texts {
            bytes: Vec::from_slice(alloc, &self.bytes)?,
            ends: Vec::from_slice(alloc, &self.ends)?,
        })
    }

    /// Drops all texts and keeps the room.
    pub fn clear(&mut self)
        ensures { self.new ≡ [] }
    {
        self.ends.clear();
        self.bytes.clear();
    }
}
