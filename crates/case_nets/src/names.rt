//! Signals, lines and faults by their names.
ghost use Rattle.std.specs.Prelude.{◌<◌, length, IfSome};
ghost use Rattle.statement.specs.Netlists.{signals};

use case_text::Said;
use fault_universe::signal_count;
use netlist::{Fault, Line, Netlist, SignalId};
use std::alloc::AllocError;

/// None where no signal has the name.
pub fn signal(netlist: &Netlist, name: &str) -> Option<SignalId>
    ensures { IfSome result (λ x. x < length (signals netlist.now)) }
{
    for place in 0..signal_count(netlist) {
        if netlist.name(SignalId(place)) == name.as_bytes() {
            return Some(SignalId(place));
        }
    }
    None
}

/// The name of a signal; `?` where there is none.
pub fn name_of(netlist: &Netlist, id: SignalId) -> &[u8] {
    if id.index() >= signal_count(netlist) as usize {
        return b"?";
    }
    netlist.name(id)
}

/// Adds the names of signals, a blank before each.
pub fn push_names(to: &mut Vec<u8>, netlist: &Netlist, ids: &[SignalId]) -> Result<(), AllocError> {
    for id in ids {
        to.push(b' ')?;
        to.extend_from_slice(name_of(netlist, *id))?;
    }
    Ok(())
}

/// Adds a line as a fault's text has it.
pub fn push_line_text(to: &mut Said, netlist: &Netlist, line: &Line) {
    match line {
        Line::Stem(x) => {
            to.push("stem ");
            to.push_bytes(name_of(netlist, *x));
        }
        Line::Pin(z, k) => {
            to.push("pin ");
            to.push_bytes(name_of(netlist, *z));
            to.push(" ");
            to.push_number(u64::from(*k));
        }
        Line::Out(x) => {
            to.push("out ");
            to.push_bytes(name_of(netlist, *x));
        }
    }
}

/// Adds a fault as its text is.
pub fn push_fault(to: &mut Said, netlist: &Netlist, fault: &Fault) {
    push_line_text(to, netlist, &fault.line);
    to.push(if fault.value { "/1" } else { "/0" });
}
