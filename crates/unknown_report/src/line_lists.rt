//! Lines one below the other, both ways.
ghost use Rattle.std.specs.Prelude.{◌≡◌, ◌≢◌, ◌++◌, ℕ, List, MatchOption, IfOk, OnOk};
ghost use Rattle.std.specs.List.{All, flat_map};
ghost use Rattle.unknown_report.specs.Reports.{IsLine, ended};

use netlist::NameTable;
use plain_text::split_at;
use std::alloc::{AllocError, Global};

/// Adds a line and its end.
fn push_ended(out: &mut Vec<u8>, line: &[u8]) -> Result<(), AllocError>
    ensures { OnOk result (out.new.items ≡ out.old.items ++ ended line.now) }
{
    out.extend_from_slice(line)?;
    out.extend_from_slice(b"\n")
}

/// Adds lines, each with its end.
pub(crate) fn push_lines(out: &mut Vec<u8>, lines: &NameTable) -> Result<(), AllocError>
    ensures { OnOk result (out.new.items ≡ out.old.items ++ flat_map ended lines.now) }
{
    for k in 0..lines.len() {
        push_ended(out, lines.get(k))?;
    }
    Ok(())
}

/// The lines of which a whole text is made; `None` exactly where its last one has no end.
pub(crate) fn lines_in(alloc: Global, text: &[u8]) -> Result<Option<NameTable>, AllocError>
    ensures { IfOk result (λ o. MatchOption o
        ((lines : List (List ℕ)) → All IsLine lines → text.now ≢ flat_map ended lines)
        (λ lines. All IsLine lines × (text.now ≡ flat_map ended lines))) }
{
    let mut lines = NameTable::new(alloc);
    let mut rest = text;
    'lines: while !rest.is_empty() {
        let Some(parts) = split_at(rest, b'\n') else {
            return Ok(None);
        };
        lines.push(parts.0)?;
        rest = parts.1;
    }
    Ok(Some(lines))
}
