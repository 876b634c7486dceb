//! Texts under names, and the lines of an input that tell them.
use crate::lines::{push_line, push_numbered, push_repeated};
use crate::words::{Pushed, cut, small};
use std::alloc::{AllocError, Global};

/// A text under its name.
#[derive(Drop)]
pub struct Named {
    pub name: String,
    pub text: Vec<u8>,
}

/// The text of a name. A `.` is the one told last, and a name that is not there has no bytes.
pub fn text_of<'a>(texts: &'a [Named], name: &str) -> &'a [u8] {
    if name == "." {
        return match texts.last() {
            Some(last) => last.text.as_slice(),
            None => &[],
        };
    }
    for text in texts {
        if text.name.as_str() == name {
            return text.text.as_slice();
        }
    }
    &[]
}

/// Begins a text.
fn begin(texts: &mut Vec<Named>, alloc: Global, name: &str) -> Pushed {
    let name = String::from_str(alloc, name)?;
    texts.push(Named {
        name,
        text: Vec::new(alloc),
    })?;
    Ok(())
}

/// Adds what a line tells to the text that was begun last.
fn add_line(texts: &mut Vec<Named>, verb: &str, rest: &str) -> Pushed {
    let Some(last) = texts.last_mut() else {
        return Ok(());
    };
    let (first, more) = cut(rest);
    let (second, form) = cut(more);
    match verb {
        "repeat" => push_repeated(&mut last.text, small(first), more),
        "numbered" => push_numbered(&mut last.text, small(first), small(second), form),
        _ => push_line(&mut last.text, rest),
    }
}

/// Takes a line that tells of texts, or is a remark; none where it is another.
pub(crate) fn tell(texts: &mut Vec<Named>, alloc: Global, line: &str) -> Option<Pushed> {
    if line.is_empty() || line.starts_with('#') {
        return Some(Ok(()));
    }
    if let Some(rest) = line.strip_prefix('|') {
        return Some(add_line(texts, "", rest));
    }
    let (verb, rest) = cut(line);
    match verb {
        "text" => Some(begin(texts, alloc, rest)),
        "repeat" | "numbered" => Some(add_line(texts, verb, rest)),
        _ => None,
    }
}
