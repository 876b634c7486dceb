//! A text as lines that a person can read. A line stands behind a `|`; a byte that isn't printable is `\x` with two digits, a `\` is `\\`, and
//! a `\` at the end of a line says that no line feed follows.
use crate::said::Said;
use crate::words::{Pushed, push_number};

/// The value of a hexadecimal digit; 0 for another byte.
fn digit(byte: u8) -> u8 {
    match byte {
        b'0'..=b'9' => byte - b'0',
        b'a'..=b'f' => byte - b'a' + 10,
        _ => 0,
    }
}

fn digit_of(value: u8) -> u8 {
    if value < 10 {
        b'0' + value
    } else {
        b'a' + value % 16 - 10
    }
}

/// Adds the bytes that a line stands for.
pub fn push_line(text: &mut Vec<u8>, line: &str) -> Pushed {
    let mut rest = line.as_bytes();
    for _ in 0..line.len() {
        let (byte, more) = match rest {
            [] => break,
            [b'\\'] => return Ok(()),
            [b'\\', b'\\', more @ ..] => (b'\\', more),
            [b'\\', b'x', high, low, more @ ..] => (digit(*high) << 4 | digit(*low), more),
            [byte, more @ ..] => (*byte, more),
        };
        text.push(byte)?;
        rest = more;
    }
    text.push(b'\n')?;
    Ok(())
}

/// Adds bytes so many times.
pub fn push_repeated(text: &mut Vec<u8>, count: u32, bytes: &str) -> Pushed {
    for _ in 0..count {
        text.extend_from_slice(bytes.as_bytes())?;
    }
    Ok(())
}

/// Adds a byte of a form for a number.
fn push_formed(text: &mut Vec<u8>, number: u32, byte: u8) -> Pushed {
    match byte {
        b'%' => push_number(text, number),
        b'@' => push_number(text, number.saturating_sub(1)),
        _ => text.extend_from_slice(&[byte]),
    }
}

/// Adds a line for each number. A `%` of the form stands for the number, an `@` for the number before it.
pub fn push_numbered(text: &mut Vec<u8>, from: u32, to: u32, form: &str) -> Pushed {
    for number in from..to {
        for byte in form.bytes() {
            push_formed(text, number, byte)?;
        }
        text.push(b'\n')?;
    }
    Ok(())
}

/// Adds a byte of a text as it is shown.
fn show_byte(to: &mut Said, byte: u8) {
    match byte {
        b'\\' => to.push("\\\\"),
        b'\n' | b' '..=b'~' => to.push_bytes(&[byte]),
        _ => to.push_bytes(&[b'\\', b'x', digit_of(byte >> 4), digit_of(byte & 15)]),
    }
}

/// Adds a text as it is shown.
pub fn show(to: &mut Said, text: &[u8]) {
    let mut is_inside = false;
    for byte in text {
        if !is_inside {
            to.push("|");
        }
        is_inside = *byte != b'\n';
        show_byte(to, *byte);
    }
    if is_inside {
        to.push("\\\n");
    }
}

/// The checksum of Fowler, Noll and Vo (FNV-1a, 32 bits).
pub fn checksum(text: &[u8]) -> u32 {
    let mut sum = 0x811c_9dc5u32;
    for byte in text {
        sum = (sum ^ u32::from(*byte)).wrapping_mul(0x0100_0193);
    }
    sum
}

/// Adds a word and the checksum of a text, and ends the line.
pub fn push_checksum(to: &mut Said, word: &str, text: &[u8]) {
    to.push_count(word, u64::from(checksum(text)));
}
