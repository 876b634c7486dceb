//! The opened netlist.
ghost use Rattle.std.specs.Prelude.{◌≡◌, ◌<◌, length, IfOk};
ghost use Rattle.netlist.specs.Conditions.{IsSound, whole};
ghost use Rattle.unknown_inputs.specs.Unknowns.{known_part};
ghost use Rattle.unknown_inputs.specs.Opened.{number_by, line_by, fault_by, input_numbers as input_numbers_of, opened, opening_of};

use crate::inputs::{input_numbers, known_inputs, number, unknown_inputs};
use crate::parts::opened_parts;
use netlist::{Fault, Line, Netlist, NoMemory, Parts, SignalId};
use scan_insert::netlist_of;
use std::alloc::Global;
use std::marker::Model;

/// An opened netlist, and the new numbers of the inputs.
#[derive(Drop)]
pub struct Opened {
    netlist: Netlist,
    numbers: Vec<SignalId>,
}

impl Model for Opened {
    ghost use Rattle.unknown_inputs.specs.Opened.{Opening};

    ghost Value = { Opening };

    ghost view = { λ o. record { netlist = o.netlist; numbers = o.numbers.items } };
}

impl Opened {
    pub fn netlist(&self) -> &Netlist
        ensures { result.now ≡ self.now.netlist }
    {
        &self.netlist
    }

    /// The number of a signal of the netlist.
    pub fn number_of(&self, signal: SignalId) -> SignalId
        ensures { result ≡ number_by self.now.numbers signal }
    {
        number(&self.numbers, signal)
    }

    /// A line of the netlist.
    pub fn line_of(&self, line: Line) -> Line
        ensures { result ≡ line_by (number_by self.now.numbers) line }
    {
        match line {
            Line::Stem(x) => Line::Stem(self.number_of(x)),
            Line::Pin(z, k) => Line::Pin(self.number_of(z), k),
            Line::Out(x) => Line::Out(self.number_of(x)),
        }
    }

    /// A fault of the netlist.
    pub fn fault_of(&self, fault: Fault) -> Fault
        ensures { result ≡ fault_by (number_by self.now.numbers) fault }
    {
        Fault {
            line: self.line_of(fault.line),
            value: fault.value,
        }
    }
}

/// The parts of the opened netlist, and the new numbers.
fn opened_with_numbers(
    alloc: Global,
    netlist: &Netlist,
    unknown: &[bool],
) -> Result<(Parts, Vec<SignalId>), NoMemory>
    requires { IsSound netlist.now }
    ensures parts { IfOk result (λ r. whole r.0 ≡ opened netlist.now unknown.now) }
    ensures numbers { IfOk result (λ r. r.1.items ≡ input_numbers_of netlist.now unknown.now) }
{
    let inputs = netlist.inputs();
    let known = known_inputs(alloc, inputs, unknown)?;
    let others = unknown_inputs(alloc, inputs, unknown)?;
    let numbers = input_numbers(alloc, inputs, unknown, known.len() as u32)?;
    let parts = opened_parts(alloc, netlist, unknown, &known, &others, &numbers)?;
    Ok((parts, numbers))
}

/// The opened netlist, where an input is known. It is refused for want of memory alone.
pub fn open(alloc: Global, netlist: &Netlist, unknown: &[bool]) -> Result<Opened, NoMemory>
    requires { 0 < length (known_part unknown.now netlist.now.inputs) }
    ensures { IfOk result (λ o. o ≡ opening_of netlist.now unknown.now) }
{
    netlist.sound();
    let (parts, numbers) = opened_with_numbers(alloc, netlist, unknown)?;
    let netlist = netlist_of(alloc, parts)?;
    Ok(Opened { netlist, numbers })
}
