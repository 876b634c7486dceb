//! Netlists that are evaluated.
ghost use Rattle.std.specs.Prelude.{◌≡◌, IfOk};

use netlist::{Core, Netlist, NoMemory};
use std::alloc::Global;

/// A core for a netlist.
pub(crate) fn core_of(alloc: Global, netlist: &Netlist) -> Result<Core, NoMemory>
    ensures { IfOk result (λ core. core ≡ netlist.now) }
{
    let copy = netlist.copy(alloc)?;
    match Core::of(alloc, copy) {
        Ok(core) => Ok(core),
        Err(refused) => {
            drop(refused);
            Err(NoMemory)
        }
    }
}
