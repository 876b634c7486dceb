//! Several files, read in order.
ghost use Rattle.commands.specs.Names.{file_name_of, file_names_of};
ghost use Rattle.commands.specs.Reads.{ReadRow};
ghost use Rattle.commands.specs.inner.Steps.{FileRow};

use crate::ending::Ending;
use crate::names::FileName;
use outside::{ReadRefusal, Shelf};
use std::alloc::Global;

/// The most bytes of a file that is read.
const MOST_BYTES: u64 = 67_108_864;

/// The text of a file, or how the call ends without it.
fn read_file<'a, S: Shelf, R>(
    alloc: Global,
    shelf: &mut S,
    name: &FileName<'a>,
) -> Result<Vec<u8>, Ending<'a, R>>
    ensures { FileRow (file_name_of name.now) (S.files shelf.old) (S.failures shelf.old) (S.files shelf.new) (S.failures shelf.new) result }
{
    let Ok(whole) = name.whole(alloc) else {
        return Err(Ending::Memory);
    };
    match shelf.read(alloc, whole.as_str(), MOST_BYTES) {
        Ok(bytes) => Ok(bytes),
        Err(ReadRefusal::Failed) => Err(Ending::ReadFailed(*name)),
        Err(ReadRefusal::TooLong(_)) => Err(Ending::TooLong(*name)),
        Err(ReadRefusal::Missing) => Err(Ending::Missing(*name)),
        Err(ReadRefusal::NoMemory) => Err(Ending::Memory),
    }
}

/// The texts of the files of these names, or how the call ends without them.
pub fn read_in_order<'a, S: Shelf, R>(
    alloc: Global,
    shelf: &mut S,
    names: &[FileName<'a>],
) -> Result<Vec<Vec<u8>>, Ending<'a, R>>
    ensures { ReadRow (file_names_of names.now) (S.files shelf.old) (S.failures shelf.old) (S.files shelf.new) (S.failures shelf.new) result }
{
    let mut texts = Vec::new(alloc);
    for name in names {
        let text = match read_file(alloc, shelf, name) {
            Ok(text) => text,
            Err(ending) => return Err(ending),
        };
        match texts.push(text) {
            Ok(()) => {}
            Err(_) => return Err(Ending::Memory),
        }
    }
    Ok(texts)
}
