//! Faults as text.
ghost use Rattle.std.specs.Prelude.{◌≡◌, ◌<◌, ◌++◌, IfOk, OnOk, length};
ghost use Rattle.statement.specs.Netlists.{signals, name_of};
ghost use Rattle.statement.specs.Faults.{fault_text, line_text, value_text};
ghost use Rattle.netlist.specs.Lines.{signal_of};

use itoa::Buffer;
use netlist::{Fault, Line, Netlist, NoMemory, SignalId};
use std::alloc::{AllocError, Global};

/// Adds a signal's name to a text.
fn push_name(text: &mut Vec<u8>, netlist: &Netlist, signal: SignalId) -> Result<(), AllocError>
    requires { signal < length (signals netlist.now) }
    ensures { OnOk result (text.new.items ≡ text.old.items ++ name_of netlist.now signal) }
{
    text.extend_from_slice(netlist.name(signal))?;
    Ok(())
}

/// Adds a line's text to a text, as `pin z 0`.
pub fn push_line(text: &mut Vec<u8>, netlist: &Netlist, line: &Line) -> Result<(), AllocError>
    requires { signal_of line.now < length (signals netlist.now) }
    ensures { OnOk result (text.new.items ≡ text.old.items ++ line_text netlist.now line.now) }
{
    match line {
        Line::Stem(x) => {
            text.extend_from_slice(b"stem ")?;
            push_name(text, netlist, *x)
        }
        Line::Pin(z, k) => {
            text.extend_from_slice(b"pin ")?;
            push_name(text, netlist, *z)?;
            text.extend_from_slice(b" ")?;
            text.extend_from_slice(Buffer::new().format(*k).as_bytes())?;
            Ok(())
        }
        Line::Out(y) => {
            text.extend_from_slice(b"out ")?;
            push_name(text, netlist, *y)
        }
    }
}

/// Adds a fault's text to a text, so that one buffer serves for many.
/// Where memory is refused, a part of it may have been added.
pub fn push_text(text: &mut Vec<u8>, netlist: &Netlist, fault: Fault) -> Result<(), AllocError>
    requires { signal_of fault.line < length (signals netlist.now) }
    ensures { OnOk result (text.new.items ≡ text.old.items ++ fault_text netlist.now fault) }
{
    push_line(text, netlist, &fault.line)?;
    text.extend_from_slice(if fault.value { b"/1" } else { b"/0" })?;
    Ok(())
}

/// The text of a fault, as `pin z 0/1`.
pub fn text_of(alloc: Global, netlist: &Netlist, fault: Fault) -> Result<Vec<u8>, NoMemory>
    requires { signal_of fault.line < length (signals netlist.now) }
    ensures { IfOk result (λ text. text.items ≡ fault_text netlist.now fault) }
{
    let mut text = Vec::new(alloc);
    match push_text(&mut text, netlist, fault) {
        Ok(()) => Ok(text),
        Err(_) => Err(NoMemory),
    }
}
