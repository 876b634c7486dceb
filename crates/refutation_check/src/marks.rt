//! Signals that are marked, with the list of them, by which the marks are taken away.
ghost use Rattle.std.specs.Prelude.{◌≡◌, ◌<◌, length, OnOk, IsTrue};
ghost use Rattle.refutation_check.specs.inner.Marks.{AreListed, Is, IsClear, Spreads, is_marked, marked};

use netlist::SignalId;
use std::alloc::AllocError;

/// Marks a signal.
pub(crate) fn mark(
    marks: &mut Vec<bool>,
    list: &mut Vec<SignalId>,
    id: SignalId,
) -> Result<(), AllocError>
    requires { id < length marks.old.items }
    ensures here { OnOk result (IsTrue (is_marked marks.new.items id)) }
    ensures spreads { Spreads (Is id) (marked marks.old.items list.old.items) (marked marks.new.items list.new.items) }
{
    if !marks[id.index()] {
        list.push(id)?;
        marks[id.index()] = true;
    }
    Ok(())
}

/// Takes all marks away.
pub(crate) fn clear(marks: &mut Vec<bool>, list: &mut Vec<SignalId>)
    requires { AreListed (marked marks.old.items list.old.items) }
    ensures clear { IsClear (marked marks.new.items list.new.items) }
    ensures size { length marks.new.items ≡ length marks.old.items }
{
    for k in 0..list.len() {
        marks[list[k].index()] = false;
    }
    list.clear();
}
