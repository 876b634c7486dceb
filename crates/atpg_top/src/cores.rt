//! Cores of netlists that are handed over.
ghost use Rattle.std.specs.Prelude.{◌≡◌, IfOk};

use netlist::{Core, Netlist, NoMemory};
use std::alloc::Global;

/// A core of the netlist. Where memory is refused, the netlist is let go as a whole.
pub(crate) fn core_with(alloc: Global, netlist: Netlist) -> Result<Core, NoMemory>
    ensures { IfOk result (λ core. core ≡ netlist) }
{
    match Core::of(alloc, netlist) {
        Ok(core) => Ok(core),
        Err((error, netlist)) => {
            drop(netlist);
            Err(error)
        }
    }
}
