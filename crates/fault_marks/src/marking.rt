//! A mark for each fault that is named.
ghost use Rattle.std.specs.Prelude.{◌≡◌, ◌<◌, ◌↔◌, length, slice_get, Some, IfOk, IsTrue, ℕ, List, Bool};
ghost use Rattle.std.specs.List.{Contains};
ghost use Rattle.statement.specs.declared.lines.Fault.{Fault as Line};
ghost use Rattle.statement.specs.Faults.{fault_text, universe_of};
ghost use Rattle.fault_marks.specs.inner.Kept.{AreKept, AreMarked};

use fault_universe::{FaultSet, faults_have_signals, push_text};
use indexmap::IndexSet;
use netlist::{Fault, Netlist};
use std::alloc::{AllocError, Global};

/// Whether one of the lines names the fault. `text` is room for its text.
fn is_named(
    text: &mut Vec<u8>,
    netlist: &Netlist,
    fault: Fault,
    kept: &IndexSet<&[u8]>,
) -> Result<bool, AllocError>
    requires { Contains (universe_of netlist.now) fault }
    ensures { IfOk result (λ named. (lines : List (List ℕ)) → AreKept kept.now.keys lines → IsTrue named ↔ Contains lines (fault_text netlist.now fault)) }
{
    netlist.sound();
    faults_have_signals();
    text.clear();
    push_text(text, netlist, fault)?;
    Ok(kept.contains(text.as_slice()))
}

/// For each fault whether one of the lines names it.
pub(crate) fn marks_of(
    alloc: Global,
    netlist: &Netlist,
    faults: &FaultSet,
    kept: &IndexSet<&[u8]>,
) -> Result<Vec<bool>, AllocError>
    requires { faults.now ≡ universe_of netlist.now }
    ensures { IfOk result (λ marks. (lines : List (List ℕ)) → AreKept kept.now.keys lines → AreMarked netlist.now lines (universe_of netlist.now) marks.items) }
{
    let mut text = Vec::new(alloc);
    let mut marks = Vec::with_capacity(alloc, faults.len() as usize)?;
    for place in 0..faults.len() {
        marks.push(is_named(&mut text, netlist, faults.fault(place), kept)?)?;
    }
    Ok(marks)
}
