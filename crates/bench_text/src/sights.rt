//! Names, numbered in the order of first sight.

ghost use Rattle.std.specs.Prelude.{◌≡◌, ◌<◌, [], length, IfOk, OnOk, OnErr, slice_get, Some};
ghost use Rattle.bench_text.specs.inner.Stated.{names};
ghost use Rattle.bench_text.specs.inner.NewNames.{AreDistinct, IsNumber};

use indexmap::IndexSet;
use std::alloc::{AllocError, Global};

/// The names of a text, each with a number: its place in the order of first sight.
#[derive(Drop)]
pub struct Sights<'a> {
    pub(crate) names: IndexSet<&'a [u8]>,
}

impl<'a> Sights<'a> {
    /// No names, and room for so many.
    pub fn with_room(alloc: Global, names: usize) -> Result<Sights<'a>, AllocError>
        ensures { IfOk result (λ s. s.names.keys ≡ []) }
    {
        Ok(Sights {
            names: IndexSet::with_capacity(alloc, names)?,
        })
    }

    /// The number of a name, which is a new one at first sight.
    pub fn number(&mut self, name: &'a [u8]) -> Result<usize, AllocError>
        ensures number { IfOk result (IsNumber (names self.old.names.keys) (names self.new.names.keys) name.now) }
        ensures same { OnErr result (self.new.names.keys ≡ self.old.names.keys) }
        ensures distinct { OnOk result (AreDistinct (names self.new.names.keys)) }
    {
        let (number, _) = self.names.insert_full(name)?;
        Ok(number)
    }

    pub fn name(&self, number: usize) -> &'a [u8]
        requires { number < length self.now.names.keys }
        ensures { slice_get (names self.now.names.keys) number ≡ Some result.now }
    {
        self.names.as_slice()[number]
    }
}
