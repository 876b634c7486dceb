//! The check of five files by the program that does nothing else, the files being those of the prefix `p`.
use crate::case::Case;
use crate::files::{ENDINGS, name_of, push_file, put_text};
use case_text::{Named, Pushed, Said, changed, cut, text_of};
use std::alloc::Global;

/// Takes a text as a file: `NAME.END` as `p.END`.
fn add_text(
    files: &mut Vec<Named>,
    alloc: Global,
    texts: &[Named],
    name: &str,
    ending: &str,
) -> Pushed {
    let told = name_of(alloc, name, ending)?;
    let name = name_of(alloc, "p", ending)?;
    push_file(files, alloc, name, text_of(texts, told.as_str()))
}

/// Takes no file, and then five texts as files: those of this name and the endings.
fn begin(case: &mut Case, alloc: Global, texts: &[Named], name: &str) -> Pushed {
    *case = Case::new(alloc);
    for ending in ENDINGS {
        add_text(&mut case.files, alloc, texts, name, ending)?;
    }
    Ok(())
}

/// Changes a file: `END OLD|NEW`.
fn change(files: &mut Vec<Named>, alloc: Global, line: &str) -> Pushed {
    let (ending, change) = cut(line);
    let name = name_of(alloc, "p", ending)?;
    let text = changed(alloc, text_of(files.as_slice(), name.as_str()), change)?;
    put_text(files, name.as_str(), &text)
}

/// Takes a file away.
fn lose(files: &mut Vec<Named>, alloc: Global, ending: &str) -> Pushed {
    let name = name_of(alloc, "p", ending)?;
    for place in 0..files.len() {
        if files[place].name == name {
            files.remove(place);
            return Ok(());
        }
    }
    Ok(())
}

/// Takes a line on the five files.
pub(crate) fn take(to: &mut Said, texts: &[Named], case: &mut Case, line: &str) -> Pushed {
    let (verb, rest) = cut(line);
    match verb {
        "files" => begin(case, to.alloc, texts, rest),
        "missing" => lose(&mut case.files, to.alloc, rest),
        "change" => change(&mut case.files, to.alloc, rest),
        _ => {
            to.push("no such line: ");
            to.push_line(line);
            Ok(())
        }
    }
}
