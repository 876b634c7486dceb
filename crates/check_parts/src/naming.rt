//! The fault that is named where a line is false.
ghost use Rattle.std.specs.Prelude.{◌≡◌, IfOk};
ghost use Rattle.good_files.specs.Clauses.{named_at};

use report::FaultLines;
use std::alloc::{AllocError, Global};

/// The text of the fault that a report names at a place, or this one where it has ended.
pub fn named_at(
    alloc: Global,
    lines: &FaultLines,
    place: u32,
    text: Vec<u8>,
) -> Result<Vec<u8>, AllocError>
    ensures { IfOk result (λ named. named.items ≡ named_at lines.now place text.items) }
{
    if place as usize >= lines.len() {
        return Ok(text);
    }
    Vec::from_slice(alloc, lines.get(place as usize).fault)
}
