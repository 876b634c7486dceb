//! The grammar of orders: lines of words.
ghost use Rattle.std.specs.Prelude.{◌≡◌, ◌<◌, ◌∷◌, length};
ghost use Rattle.std.specs.List.{list_all};
ghost use Rattle.statement.specs.Netlists.{is_name_byte};
ghost use Rattle.bench_text.specs.Bytes.{lines};
ghost use Rattle.cell_order.specs.Orders.{is_order_text, is_word, words_of};

use plain_text::split_at;

fn is_name_byte(byte: u8) -> bool
    ensures { result ≡ is_name_byte byte }
{
    matches!(byte, 33..=126) && !matches!(byte, b'"' | b'\'' | b'#' | b'(' | b')' | b',' | b'=')
}

fn has_name_bytes(word: &[u8]) -> bool
    ensures { result ≡ list_all is_name_byte word.now }
{
    word.iter().all(|byte| is_name_byte(*byte))
}

fn is_word(word: &[u8]) -> bool
    ensures { result ≡ is_word word.now }
{
    if word.is_empty() {
        return false;
    }
    has_name_bytes(word)
}

/// Whether a line is words, parted by one blank.
fn has_words(line: &[u8]) -> bool
    ensures { result ≡ list_all is_word (words_of line.now) }
{
    let mut rest = line;
    'words: while let Some((word, more)) = split_at(rest, b' ') {
        if !is_word(word) {
            return false;
        }
        rest = more;
    }
    is_word(rest)
}

/// The first line, and what stands behind it.
pub(crate) fn first_line(text: &[u8]) -> (&[u8], &[u8])
    requires { 0 < length text.now }
    ensures line { lines text.now ≡ result.0.now ∷ lines result.1.now }
    ensures shorter { length result.1.now < length text.now }
{
    match split_at(text, b'\n') {
        Some(parts) => parts,
        None => (text, b""),
    }
}

fn have_words(text: &[u8]) -> bool
    ensures { result ≡ list_all (λ line. list_all is_word (words_of line)) (lines text.now) }
{
    let mut rest = text;
    'lines: while !rest.is_empty() {
        let (line, after) = first_line(rest);
        if !has_words(line) {
            return false;
        }
        rest = after;
    }
    true
}

/// Whether the text is in its grammar.
pub(crate) fn is_order_text(text: &[u8]) -> bool
    ensures { result ≡ is_order_text text.now }
{
    (text.is_empty() || text.ends_with(b"\n")) && have_words(text)
}
