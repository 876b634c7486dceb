//! Texts in which a part is another.
use crate::lines::push_line;
use crate::said::Said;
use crate::words::cut_at;
use std::alloc::{AllocError, Global};

/// What stands before the first such part of a text, and behind it.
fn split_at_part<'a>(text: &'a [u8], part: &[u8]) -> Option<(&'a [u8], &'a [u8])> {
    for place in 0..text.len() {
        if let Some(behind) = text[place..].strip_prefix(part) {
            return Some((&text[..place], behind));
        }
    }
    None
}

/// The bytes of a part, told as a line is.
fn part_of(alloc: Global, told: &str) -> Result<Vec<u8>, AllocError> {
    let mut part = Vec::new(alloc);
    push_line(&mut part, told)?;
    part.pop();
    Ok(part)
}

/// The text with another part in the place of the first of a kind: `OLD|NEW`. It has no bytes where there is none.
pub fn changed(alloc: Global, text: &[u8], change: &str) -> Result<Vec<u8>, AllocError> {
    let (old, new) = cut_at(change, "|");
    let old = part_of(alloc, old)?;
    let new = part_of(alloc, new)?;
    let mut made = Said::new(alloc);
    if let Some((front, behind)) = split_at_part(text, old.as_slice()) {
        made.push_bytes(front);
        made.push_bytes(new.as_slice());
        made.push_bytes(behind);
    }
    made.end()
}
