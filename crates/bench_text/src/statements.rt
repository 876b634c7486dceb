//! What a line says.

ghost use Rattle.std.specs.Prelude.{◌≡◌, ℕ, ◌+◌, ◌<◌, ◌≤◌, List, [], ◌∷◌, length, map, option_map, IfOk};
ghost use Rattle.bench_text.specs.Tokens.{tokens};
ghost use Rattle.bench_text.specs.Forms.{closed_name, port, pins, more_pins, definition, statement};
ghost use Rattle.bench_text.specs.inner.Stated.{names, statement_of};

use crate::keywords::{is_keyword, kind_of};
use crate::token::{Mark, closes, is_done, mark_at, word_at};
use netlist::Kind;
use smallvec::SmallVec;
use std::alloc::{AllocError, Global};

/// The names on a gate's pins. Few have more than four.
pub type Pins<'a> = SmallVec<&'a [u8], 4>;

/// A statement. The gate of a definition is `None` where its word is none of a gate.
#[derive(Drop)]
pub enum Statement<'a> {
    Nothing,
    Input(&'a [u8]),
    Output(&'a [u8]),
    Definition(&'a [u8], Option<Kind>, Pins<'a>),
}

/// A name and the `)` that ends the line.
fn closed_name(bytes: &[u8]) -> Option<&[u8]>
    ensures { option_map (λ x. x.now) result ≡ closed_name (tokens bytes.now) }
{
    let (name, bytes) = word_at(bytes)?;
    if !closes(bytes) {
        return None;
    }
    Some(name)
}

/// `INPUT ( x )` or `OUTPUT ( x )`, behind its `(`.
fn port<'a>(keyword: &[u8], bytes: &'a [u8]) -> Option<Statement<'a>>
    ensures { option_map statement_of result ≡ port keyword.now (tokens bytes.now) }
{
    let name = closed_name(bytes)?;
    if is_keyword(keyword, b"INPUT") {
        Some(Statement::Input(name))
    } else if is_keyword(keyword, b"OUTPUT") {
        Some(Statement::Output(name))
    } else {
        None
    }
}

/// No or more pins, up to the `)` that ends the line.
fn pins<'a>(alloc: Global, bytes: &'a [u8]) -> Result<Option<Pins<'a>>, AllocError>
    ensures { IfOk result (λ o. option_map (λ v. names v.items) o ≡ pins (tokens bytes.now)) }
{
    let mut pins = SmallVec::new(alloc);
    let Some((first, mut rest)) = word_at(bytes) else {
        if !closes(bytes) {
            return Ok(None);
        }
        return Ok(Some(pins));
    };
    pins.push(first)?;
    'pins: while let Some(after) = mark_at(Mark::Comma, rest) {
        let Some((pin, after)) = word_at(after) else {
            return Ok(None);
        };
        pins.push(pin)?;
        rest = after;
    }
    if !closes(rest) {
        return Ok(None);
    }
    Ok(Some(pins))
}

/// `z = GATE ( a , b , .. )`, behind its `=`.
fn definition<'a>(
    alloc: Global,
    name: &'a [u8],
    bytes: &'a [u8],
) -> Result<Option<Statement<'a>>, AllocError>
    ensures { IfOk result (λ o. option_map statement_of o ≡ definition name.now (tokens bytes.now)) }
{
    let Some((gate, bytes)) = word_at(bytes) else {
        return Ok(None);
    };
    let Some(bytes) = mark_at(Mark::Open, bytes) else {
        return Ok(None);
    };
    match pins(alloc, bytes)? {
        Some(pins) => Ok(Some(Statement::Definition(name, kind_of(gate), pins))),
        None => Ok(None),
    }
}

/// What the bytes of a line say, its comment left out. `None`: they have none of the forms.
pub fn read_statement<'a>(
    alloc: Global,
    bytes: &'a [u8],
) -> Result<Option<Statement<'a>>, AllocError>
    ensures { IfOk result (λ o. option_map statement_of o ≡ statement (tokens bytes.now)) }
{
    let Some((word, rest)) = word_at(bytes) else {
        if !is_done(bytes) {
            return Ok(None);
        }
        return Ok(Some(Statement::Nothing));
    };
    if let Some(rest) = mark_at(Mark::Open, rest) {
        return Ok(port(word, rest));
    }
    if let Some(rest) = mark_at(Mark::Equals, rest) {
        return definition(alloc, word, rest);
    }
    Ok(None)
}
