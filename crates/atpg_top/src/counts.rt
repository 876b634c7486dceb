//! A line of two counts.
ghost use Rattle.std.specs.Prelude.{◌≡◌, ◌++◌, OnOk};
ghost use Rattle.atpg_top.specs.inner.Counted.{two_counts};

use command_steps::push_count;
use std::alloc::AllocError;

/// Adds a line of two counts, each behind its words.
pub(crate) fn push_counts(
    text: &mut Vec<u8>,
    first: &[u8],
    many: u64,
    second: &[u8],
    more: u64,
) -> Result<(), AllocError>
    ensures { OnOk result (text.new.items ≡ text.old.items ++ two_counts first.now many second.now more) }
{
    push_count(text, first, many)?;
    push_count(text, second, more)?;
    text.extend_from_slice(b"\n")?;
    Ok(())
}
