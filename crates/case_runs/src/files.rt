//! Files of a case, and those of a prefix.
use case_text::{Named, Pushed};
use outside::MemoryShelf;
use std::alloc::{AllocError, Global};

/// How the names of a run's files end.
pub(crate) const ENDINGS: [&str; 5] = ["net", "scan", "stil", "cert", "rep"];

pub(crate) fn name_of(alloc: Global, prefix: &str, ending: &str) -> Result<String, AllocError> {
    format!(in alloc; "{prefix}.{ending}")
}

pub(crate) fn is_named(texts: &[Named], name: &str) -> bool {
    for text in texts {
        if text.name.as_str() == name {
            return true;
        }
    }
    false
}

/// Adds a file.
pub(crate) fn push_file(
    files: &mut Vec<Named>,
    alloc: Global,
    name: String,
    text: &[u8],
) -> Pushed {
    let text = Vec::from_slice(alloc, text)?;
    files.push(Named { name, text })?;
    Ok(())
}

/// Puts a file that stands on the shelf among those of the case.
fn keep_file(files: &mut Vec<Named>, alloc: Global, shelf: &MemoryShelf, name: String) -> Pushed {
    match shelf.file(name.as_str()) {
        Some(text) => push_file(files, alloc, name, text),
        None => Ok(()),
    }
}

/// Puts the files of a prefix that stand on the shelf among those of the case.
pub(crate) fn keep_files(
    files: &mut Vec<Named>,
    alloc: Global,
    shelf: &MemoryShelf,
    prefix: &str,
) -> Pushed {
    for ending in ENDINGS {
        keep_file(files, alloc, shelf, name_of(alloc, prefix, ending)?)?;
    }
    Ok(())
}

/// Puts a text in place of a file's.
pub(crate) fn put_text(files: &mut Vec<Named>, name: &str, text: &[u8]) -> Pushed {
    for file in files.iter_mut() {
        if file.name.as_str() == name {
            file.text.clear();
            file.text.extend_from_slice(text)?;
        }
    }
    Ok(())
}

/// The names and bytes of files.
pub(crate) fn parts_of<'a>(
    alloc: Global,
    files: &'a [Named],
) -> Result<Vec<(&'a str, &'a [u8])>, AllocError> {
    let mut parts = Vec::new(alloc);
    for file in files {
        parts.push((file.name.as_str(), file.text.as_slice()))?;
    }
    Ok(parts)
}
