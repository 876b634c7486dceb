//! The list of held inputs.
ghost use Rattle.std.specs.Prelude.{◌≡◌, ◌==◌, [], IfOk, map, option_map};
ghost use Rattle.std.specs.List.{list_all, slice_split};
ghost use Rattle.command_line.specs.CommandLine.{hold_of};
ghost use Rattle.command_line.specs.HoldLists.{are_new, bit_in, hold_in, holds_in, holds_of, is_name};
ghost use Rattle.command_line.specs.inner.Held.{AreHeld};
ghost use Rattle.statement.specs.Netlists.{is_name_byte};

use crate::requests::NoRequest;
use indexmap::IndexSet;
use std::alloc::{AllocError, Global};

/// An input that is held, by its name, and its bit.
#[derive(Clone, Copy, PartialEq, Eq)]
pub struct Held<'a> {
    pub name: &'a str,
    pub bit: bool,
}

fn is_name_byte(byte: u8) -> bool
    ensures { result ≡ is_name_byte byte }
{
    matches!(byte, 33..=126) && !matches!(byte, b'"' | b'\'' | b'#' | b'(' | b')' | b',' | b'=')
}

fn has_name_bytes(text: &str) -> bool
    ensures { result ≡ list_all is_name_byte text.now }
{
    text.as_bytes().iter().all(|byte| is_name_byte(*byte))
}

fn is_name(text: &str) -> bool
    ensures { result ≡ is_name text.now }
{
    if text.is_empty() {
        return false;
    }
    has_name_bytes(text)
}

fn bit_in(text: &str) -> Option<bool>
    ensures { result ≡ bit_in text.now }
{
    match text {
        "0" => Some(false),
        "1" => Some(true),
        _ => None,
    }
}

// What one item holds.
fn hold_in<'a>(item: &'a str) -> Option<Held<'a>>
    ensures { option_map hold_of result ≡ hold_in item.now }
{
    let (name, value) = item.split_once('=')?;
    let bit = bit_in(value)?;
    if is_name(name) {
        Some(Held { name, bit })
    } else {
        None
    }
}

// What each item holds.
fn items_of<'a>(alloc: Global, list: &'a str) -> Result<Vec<Held<'a>>, NoRequest>
    ensures { AreHeld (holds_of (slice_split (λ b. b == 44) list.now)) result }
{
    let mut holds = Vec::new(alloc);
    for item in list.split(',') {
        let Some(hold) = hold_in(item) else {
            return Err(NoRequest::BadHold);
        };
        match holds.push(hold) {
            Ok(()) => {}
            Err(_) => return Err(NoRequest::NoMemory),
        }
    }
    Ok(holds)
}

// Whether no name stands twice, or among those seen, which take it. The set is lent: where it is
// let go, each of its lists is.
fn are_new<'a>(seen: &mut IndexSet<&'a str>, holds: &[Held<'a>]) -> Result<bool, AllocError>
    ensures { IfOk result (λ yes. yes ≡ are_new (map (λ t. t.now) seen.old.keys) (map (λ h. h.0) (map hold_of holds.now))) }
{
    for hold in holds {
        let (_, added) = seen.insert_full(hold.name)?;
        if !added {
            return Ok(false);
        }
    }
    Ok(true)
}

fn are_distinct(alloc: Global, holds: &[Held<'_>]) -> Result<bool, AllocError>
    ensures { IfOk result (λ yes. yes ≡ are_new [] (map (λ h. h.0) (map hold_of holds.now))) }
{
    let mut seen = IndexSet::with_capacity(alloc, holds.len())?;
    are_new(&mut seen, holds)
}

pub(crate) fn holds_in<'a>(alloc: Global, list: &'a str) -> Result<Vec<Held<'a>>, NoRequest>
    ensures { AreHeld (holds_in list.now) result }
{
    let holds = match items_of(alloc, list) {
        Ok(holds) => holds,
        Err(none) => return Err(none),
    };
    match are_distinct(alloc, holds.as_slice()) {
        Ok(true) => Ok(holds),
        Ok(false) => Err(NoRequest::BadHold),
        Err(_) => Err(NoRequest::NoMemory),
    }
}
