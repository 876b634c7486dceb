//! Held inputs by their texts.
ghost use Rattle.std.specs.Prelude.{IfOk};
ghost use Rattle.netlist.specs.Holds.{AreHoldsOf};

use crate::names::signal;
use case_text::cut_at;
use netlist::{Core, Holds};
use std::alloc::{AllocError, Global};

/// `a=1` holds an input at a bit; any other text holds none.
pub fn holds_of(alloc: Global, core: &Core, text: &str) -> Result<Holds, AllocError>
    ensures { IfOk result (AreHoldsOf core.now) }
{
    let Ok(mut holds) = Holds::none(alloc, core) else {
        return Err(AllocError);
    };
    let netlist = core.netlist();
    let (name, bit) = cut_at(text, "=");
    if bit.is_empty() {
        return Ok(holds);
    }
    let Some(id) = signal(netlist, name) else {
        return Ok(holds);
    };
    if id.index() < netlist.inputs().len() {
        holds.set(id.0, bit == "1");
    }
    Ok(holds)
}
