//! The held inputs by name.
ghost use Rattle.std.specs.Prelude.{◌≡◌, ◌<◌, ◌++◌, length, slice_get, Some, IfOk};
ghost use Rattle.statement.specs.Netlists.{signals};
ghost use Rattle.netlist.specs.Holds.{AreHoldsOf};
ghost use Rattle.run_report.specs.Heads.{hold_at, holds_named};

use netlist::{Holds, Netlist, NoMemory, SignalId};
use report::HoldLines;
use std::alloc::{AllocError, Global};

/// Adds a line for an input, where it is held.
fn add_hold(
    lines: HoldLines,
    netlist: &Netlist,
    input: SignalId,
    held: Option<bool>,
) -> Result<HoldLines, AllocError>
    requires { input < length (signals netlist.now) }
    ensures { IfOk result (λ more. more ≡ lines ++ hold_at netlist.now (input, held)) }
{
    match held {
        None => Ok(lines),
        Some(bit) => lines.push(netlist.name(input), bit),
    }
}

fn hold_lines_of(alloc: Global, netlist: &Netlist, holds: &Holds) -> Result<HoldLines, AllocError>
    requires { AreHoldsOf netlist.now holds.now }
    ensures { IfOk result (λ lines. lines ≡ holds_named netlist.now holds.now) }
{
    netlist.sound();
    let mut lines = HoldLines::new(alloc);
    for (k, input) in netlist.inputs().iter().enumerate() {
        lines = add_hold(lines, netlist, *input, holds.held(k as u32))?;
    }
    Ok(lines)
}

/// The inputs that are held, by name and in the order of inputs.
pub fn hold_lines(alloc: Global, netlist: &Netlist, holds: &Holds) -> Result<HoldLines, NoMemory>
    requires { AreHoldsOf netlist.now holds.now }
    ensures { IfOk result (λ lines. lines ≡ holds_named netlist.now holds.now) }
{
    hold_lines_of(alloc, netlist, holds).map_err(|_| NoMemory)
}
