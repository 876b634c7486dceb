//! Netlists that searches go over, with their orders: that of a batch, and the two frames of one slow line.
ghost use Rattle.std.specs.Prelude.{◌≡◌, IfOk, IfSome};
ghost use Rattle.netlist.specs.Designs.{IsDesign};
ghost use Rattle.netlist.specs.Lines.{IsLineOf};
ghost use Rattle.transition_batches.specs.Batches.{batch_of};
ghost use Rattle.transition_frames.specs.Frames.{frame_names};
ghost use Rattle.transition.specs.inner.Frames.{CarriesOver, KeepsHolds};
ghost use Rattle.transition.specs.inner.Gathered.{AreTogether};

use netlist::{Core, Fault, NameTable, Netlist, NoMemory};
use std::alloc::Global;
use transition_batches::batch;
use transition_frames::frames_named;

/// A netlist with its order.
fn core_of(alloc: Global, netlist: Netlist) -> Result<Core, NoMemory>
    ensures { IfOk result (λ core. core ≡ netlist) }
{
    match Core::of(alloc, netlist) {
        Ok(core) => Ok(core),
        Err(_) => Err(NoMemory),
    }
}

/// The netlist of a batch; none where it can't be made.
pub(crate) fn batch_core(
    alloc: Global,
    netlist: &Netlist,
    slow: &[Fault],
) -> Result<Option<Core>, NoMemory>
    requires design { IsDesign netlist.now }
    requires together { AreTogether netlist.now slow.now }
    ensures { IfOk result (λ made. IfSome made (λ core. core ≡ batch_of netlist.now slow.now)) }
{
    match batch(alloc, netlist, slow)? {
        Some(made) => Ok(Some(core_of(alloc, made)?)),
        None => Ok(None),
    }
}

/// The two frames in which a line alone is slow, and the stuck-at fault that makes it so.
pub(crate) fn frames_core(
    alloc: Global,
    netlist: &Netlist,
    names: &NameTable,
    fault: Fault,
) -> Result<(Core, Fault), NoMemory>
    requires design { IsDesign netlist.now }
    requires names { names.now ≡ frame_names netlist.now }
    requires line { IsLineOf netlist.now fault.line }
    ensures line { IfOk result (λ r. IsLineOf r.0 r.1.line) }
    ensures held { IfOk result (λ r. KeepsHolds netlist.now r.0) }
    ensures carries { IfOk result (λ r. CarriesOver netlist.now fault r.0 r.1) }
{
    let (two, slow) = frames_named(alloc, netlist, names, fault)?;
    let core = core_of(alloc, two)?;
    core.netlist().sound();
    Ok((core, slow))
}
