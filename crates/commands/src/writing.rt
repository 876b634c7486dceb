//! Several files, written in order.
ghost use Rattle.std.specs.Prelude.{◌≡◌, length};
ghost use Rattle.commands.specs.Names.{file_name_of, file_names_of, texts_of};
ghost use Rattle.commands.specs.inner.Steps.{WriteRow, WrittenRow};

use crate::ending::{Ending, WriteFailure};
use crate::names::FileName;
use outside::{Shelf, WriteRefusal};
use std::alloc::Global;

/// Writes a text under a name.
fn write_file<'a, S: Shelf, R>(
    alloc: Global,
    shelf: &mut S,
    name: &FileName<'a>,
    text: &[u8],
) -> Result<(), Ending<'a, R>>
    ensures { WrittenRow (file_name_of name.now) text.now (S.files shelf.old) (S.failures shelf.old) (S.files shelf.new) (S.failures shelf.new) result }
{
    let Ok(whole) = name.whole(alloc) else {
        return Err(Ending::Memory);
    };
    match shelf.write(alloc, whole.as_str(), text) {
        Ok(()) => Ok(()),
        Err(WriteRefusal::Failed) => Err(Ending::WriteFailed(WriteFailure::File(*name))),
        Err(WriteRefusal::NoMemory) => Err(Ending::Memory),
    }
}

/// Writes each text under its name, in order, up to the first write that fails.
pub(crate) fn write_in_order<'a, S: Shelf, R>(
    alloc: Global,
    shelf: &mut S,
    names: &[FileName<'a>],
    texts: &[Vec<u8>],
) -> Result<(), Ending<'a, R>>
    requires { length texts.now ≡ length names.now }
    ensures { WriteRow (file_names_of names.now) (texts_of texts.now) (S.files shelf.old) (S.failures shelf.old) (S.files shelf.new) (S.failures shelf.new) result }
{
    for (i, name) in names.iter().enumerate() {
        match write_file(alloc, shelf, name, texts[i].as_slice()) {
            Ok(()) => {}
            Err(ending) => return Err(ending),
        }
    }
    Ok(())
}
