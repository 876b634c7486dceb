//! A word, a number and the byte behind it, both ways.
ghost use Rattle.std.specs.Prelude.{◌≡◌, ◌<◌, ◌++◌, ◌∷◌, [], MatchOption, OnOk};
ghost use Rattle.report.specs.Beginnings.{Begins, IsCount, NoneBegins};
ghost use Rattle.unknown_report.specs.Reports.{numbered};

use itoa::Buffer;
use plain_text::{number, split_at};
use report::behind;
use std::alloc::AllocError;

/// Adds a word, a number and a byte.
pub(crate) fn push_numbered(
    out: &mut Vec<u8>,
    word: &[u8],
    mark: u8,
    number: u64,
) -> Result<(), AllocError>
    ensures { OnOk result (out.new.items ≡ out.old.items ++ numbered word.now mark number) }
{
    out.extend_from_slice(word)?;
    out.extend_from_slice(Buffer::new().format(number).as_bytes())?;
    out.push(mark)?;
    Ok(())
}

/// The number between a word and a byte at the front, and what stands behind them.
pub(crate) fn numbered_in<'a>(word: &[u8], mark: u8, text: &'a [u8]) -> Option<(u64, &'a [u8])>
    requires { mark < 48 }
    ensures { MatchOption result
        (NoneBegins IsCount (numbered word.now mark) text.now)
        (λ p. Begins IsCount (numbered word.now mark) text.now p.0 p.1.now) }
{
    let Some(after) = behind(word, text) else {
        return None;
    };
    let Some(parts) = split_at(after, mark) else {
        return None;
    };
    let Some(count) = number(parts.0) else {
        return None;
    };
    Some((count, parts.1))
}
