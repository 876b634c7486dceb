//! The lines of held inputs, both ways: they are those of a report of stuck lines.
ghost use Rattle.std.specs.Prelude.{◌≡◌, ◌≢◌, ◌++◌, ℕ, Bool, List, IfOk, OnOk, MatchOption};
ghost use Rattle.std.specs.List.{flat_map};
ghost use Rattle.report.specs.Beginnings.{Begins, NoneBegins};
ghost use Rattle.report.specs.Reports.{Hold};
ghost use Rattle.report.specs.Texts.{hold_line};
ghost use Rattle.report.specs.inner.Lines.{IsHold, bit_text, hold_words};
ghost use Rattle.unknown_report.specs.inner.Parts.{AreRead};

use plain_text::split_at;
use report::{HoldLines, behind, is_word};
use std::alloc::{AllocError, Global};

/// Adds `hold a 1`.
fn push_hold(out: &mut Vec<u8>, name: &[u8], bit: bool) -> Result<(), AllocError>
    ensures { OnOk result (out.new.items ≡ out.old.items ++ hold_line (record { name = name.now; bit = bit })) }
{
    out.extend_from_slice(b"hold ")?;
    out.extend_from_slice(name)?;
    if bit {
        out.extend_from_slice(b" 1\n")
    } else {
        out.extend_from_slice(b" 0\n")
    }
}

/// Adds the lines of held inputs.
pub(crate) fn push_holds(out: &mut Vec<u8>, holds: &HoldLines) -> Result<(), AllocError>
    ensures { OnOk result (out.new.items ≡ out.old.items ++ flat_map hold_line holds.now) }
{
    for k in 0..holds.len() {
        let line = holds.get(k);
        push_hold(out, line.name, line.bit)?;
    }
    Ok(())
}

/// What stands before a word at the end.
fn before<'a>(word: &[u8], text: &'a [u8]) -> Option<&'a [u8]>
    ensures { MatchOption result ((front : List ℕ) → text.now ≢ front ++ word.now) (λ front. text.now ≡ front.now ++ word.now) }
{
    text.strip_suffix(word)
}

/// What stands before the bit of a held input, and the bit.
fn before_bit(text: &[u8]) -> Option<(&[u8], bool)>
    ensures { MatchOption result ((front : List ℕ) (bit : Bool) → text.now ≢ front ++ bit_text bit) (λ p. text.now ≡ p.0.now ++ bit_text p.1) }
{
    if let Some(front) = before(b" 0", text) {
        return Some((front, false));
    }
    if let Some(front) = before(b" 1", text) {
        return Some((front, true));
    }
    None
}

/// The name and the bit of `hold a 1`.
fn hold_in(line: &[u8]) -> Option<(&[u8], bool)>
    ensures { MatchOption result
        ((h : Hold) → IsHold h → line.now ≢ hold_words h)
        (λ p. IsHold (record { name = p.0.now; bit = p.1 }) × (line.now ≡ hold_words (record { name = p.0.now; bit = p.1 }))) }
{
    let words = behind(b"hold ", line)?;
    let (name, bit) = before_bit(words)?;
    if is_word(name) {
        Some((name, bit))
    } else {
        None
    }
}

/// The name and the bit of the input that is held, and what stands behind its line.
fn hold(text: &[u8]) -> Option<(&[u8], bool, &[u8])>
    ensures { MatchOption result
        (NoneBegins IsHold hold_line text.now)
        (λ p. Begins IsHold hold_line text.now (record { name = p.0.now; bit = p.1 }) p.2.now) }
{
    let (line, rest) = split_at(text, b'\n')?;
    let (name, bit) = hold_in(line)?;
    Some((name, bit, rest))
}

/// All inputs that are held, and what stands behind their lines.
pub(crate) fn holds_in<'a>(
    alloc: Global,
    text: &'a [u8],
) -> Result<(HoldLines, &'a [u8]), AllocError>
    ensures { IfOk result (λ p. AreRead IsHold hold_line text.now p.0 p.1.now) }
{
    let mut holds = HoldLines::new(alloc);
    let mut rest = text;
    'holds: while let Some((name, bit, after)) = hold(rest) {
        holds = holds.push(name, bit)?;
        rest = after;
    }
    Ok((holds, rest))
}
