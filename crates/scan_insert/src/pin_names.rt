//! The names of the pins at a tester.
ghost use Rattle.std.specs.Prelude.{◌≡◌, ◌==◌, ◌<◌, ◌++◌, length, IfOk};
ghost use Rattle.std.specs.List.{list_any};
ghost use Rattle.netlist.specs.Conditions.{IsSound};
ghost use Rattle.statement.specs.Netlists.{signals};
ghost use Rattle.statement.specs.Runs.{output_name};
ghost use Rattle.scan_insert.specs.Names.{pin_name_of};

use netlist::{Netlist, NoMemory, SignalId};
use std::alloc::{AllocError, Global};

/// One text behind another.
fn joined(alloc: Global, prefix: &[u8], name: &[u8]) -> Result<Vec<u8>, AllocError>
    ensures { IfOk result (λ v. v.items ≡ prefix.now ++ name.now) }
{
    let mut text = Vec::with_capacity(alloc, prefix.len().saturating_add(name.len()))?;
    text.extend_from_slice(prefix)?;
    text.extend_from_slice(name)?;
    Ok(text)
}

fn is_input(netlist: &Netlist, signal: SignalId) -> bool
    requires { IsSound netlist.now }
    ensures { result ≡ list_any (λ x. x == signal) netlist.now.inputs }
{
    signal.index() < netlist.inputs().len()
}

/// The name of an output's pin with this signal.
fn name_at_output(alloc: Global, netlist: &Netlist, signal: SignalId) -> Result<Vec<u8>, AllocError>
    requires sound { IsSound netlist.now }
    requires within { signal < length (signals netlist.now) }
    ensures { IfOk result (λ name. name.items ≡ output_name netlist.now signal) }
{
    let name = netlist.name(signal);
    if is_input(netlist, signal) {
        return joined(alloc, b"SC__o_", name);
    }
    joined(alloc, b"", name)
}

/// The name of an output's pin: the output's, or `SC__o_` and the output's where the signal is an input too.
pub fn pin_name(alloc: Global, netlist: &Netlist, output: u32) -> Result<Vec<u8>, NoMemory>
    requires { output < length netlist.now.outputs }
    ensures { IfOk result (λ name. name.items ≡ pin_name_of netlist.now output) }
{
    netlist.sound();
    let signal = netlist.outputs()[output as usize];
    name_at_output(alloc, netlist, signal).map_err(|_| NoMemory)
}
