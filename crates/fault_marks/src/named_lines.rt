//! The lines of a text, each of which names a fault.
ghost use Rattle.std.specs.Prelude.{◌≡◌, ◌<◌, ◌∷◌, length, MatchBool, MatchResult};
ghost use Rattle.std.specs.List.{All};
ghost use Rattle.bench_text.specs.Bytes.{lines};
ghost use Rattle.fault_marks.specs.Marks.{AreRefused, NamesFault};
ghost use Rattle.fault_marks.specs.inner.Kept.{AreKept};

use crate::refusal::{MarksRefusal, Stranger};
use fault_universe::fault_named;
use indexmap::IndexSet;
use name_index::NameIndex;
use plain_text::split_at;
use std::alloc::Global;

/// The first line, and what stands behind it.
fn first_line(text: &[u8]) -> (&[u8], &[u8])
    requires { 0 < length text.now }
    ensures line { lines text.now ≡ result.0.now ∷ lines result.1.now }
    ensures shorter { length result.1.now < length text.now }
{
    match split_at(text, b'\n') {
        Some(parts) => parts,
        None => (text, b""),
    }
}

fn names_fault(names: &NameIndex, line: &[u8]) -> bool
    ensures { MatchBool result (NamesFault names.now line.now) (¬ (NamesFault names.now line.now)) }
{
    fault_named(names, line).is_some()
}

/// The lines of the text, each once, where each names a fault.
pub(crate) fn named_lines<'a>(
    alloc: Global,
    names: &NameIndex,
    text: &'a [u8],
) -> Result<IndexSet<&'a [u8]>, MarksRefusal<'a>>
    ensures { MatchResult result (λ kept. All (NamesFault names.now) (lines text.now) × AreKept kept.keys (lines text.now)) (AreRefused names.now (lines text.now)) }
{
    let mut found = IndexSet::new(alloc);
    let mut rest = text;
    let mut number = 0;
    'lines: while !rest.is_empty() {
        let (line, after) = first_line(rest);
        number += 1;
        if !names_fault(names, line) {
            return Err(MarksRefusal::NotFault(Stranger { number, line }));
        }
        let Ok(_) = found.insert(line) else {
            return Err(MarksRefusal::NoMemory);
        };
        rest = after;
    }
    Ok(found)
}
