//! Words and numbers of a line.
use itoa::Buffer;
use std::alloc::AllocError;

/// What a call answers that adds to a buffer: memory may be refused to it.
pub type Pushed = Result<(), AllocError>;

/// What stands before the first such mark of a text, and behind it; all and nothing where there is none.
pub fn cut_at<'a>(text: &'a str, mark: &str) -> (&'a str, &'a str) {
    text.split_once(mark).unwrap_or((text, ""))
}

/// The first word of a text, and what stands behind its blank.
pub fn cut(text: &str) -> (&str, &str) {
    cut_at(text, " ")
}

/// What a call is told: all of it, the first two words, and what stands behind each of these.
#[derive(Clone, Copy)]
pub struct Args<'a> {
    pub all: &'a str,
    pub first: &'a str,
    pub behind: &'a str,
    pub second: &'a str,
    pub last: &'a str,
}

impl<'a> Args<'a> {
    pub fn of(all: &'a str) -> Args<'a> {
        let (first, behind) = cut(all);
        let (second, last) = cut(behind);
        Args {
            all,
            first,
            behind,
            second,
            last,
        }
    }
}

/// A number; 0 where there is none.
pub fn number(word: &str) -> u64 {
    word.parse().unwrap_or(0)
}

/// A number of 32 bits; 0 where there is none.
pub fn small(word: &str) -> u32 {
    word.parse().unwrap_or(0)
}

/// Adds a number in decimal digits.
pub fn push_number(to: &mut Vec<u8>, number: u32) -> Pushed {
    to.extend_from_slice(Buffer::new().format(number).as_bytes())
}

/// Adds a word and numbers, a blank before each, and ends the line.
pub fn push_numbers(to: &mut Vec<u8>, word: &[u8], numbers: &[u32]) -> Pushed {
    to.extend_from_slice(word)?;
    for number in numbers {
        to.push(b' ')?;
        push_number(to, *number)?;
    }
    to.push(b'\n')?;
    Ok(())
}
