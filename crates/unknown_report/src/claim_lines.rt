//! The line of a claim.
ghost use Rattle.std.specs.Prelude.{◌≡◌, ◌<◌, ◌++◌, OnOk, codes, decimal, length, map};
ghost use Rattle.netlist.specs.Lines.{signal_of};
ghost use Rattle.statement.specs.Netlists.{signals};
ghost use Rattle.statement.specs.Runs.{output_name};
ghost use Rattle.unknown_report.specs.Claims.{IsClaimOutput, claim_line, claim_text};

use crate::claims::Claim;
use fault_universe::push_text;
use itoa::Buffer;
use netlist::{Fault, NameTable, Netlist};
use std::alloc::AllocError;

/// Adds a cycle and the pin at which the other bit is shown.
fn push_strobe(text: &mut Vec<u8>, cycle: u64, pin: &[u8]) -> Result<(), AllocError>
    ensures { OnOk result (text.new.items ≡ text.old.items ++ (codes " detected " ++ (decimal cycle ++ (codes " " ++ pin.now)))) }
{
    text.extend_from_slice(b" detected ")?;
    text.extend_from_slice(Buffer::new().format(cycle).as_bytes())?;
    text.extend_from_slice(b" ")?;
    text.extend_from_slice(pin)
}

/// Adds what is claimed, by the names of the scanned netlist's pins.
fn push_claim(
    text: &mut Vec<u8>,
    scanned: &Netlist,
    pins: &NameTable,
    claim: Claim,
) -> Result<(), AllocError>
    requires pins { pins.now ≡ map (output_name scanned.now) scanned.now.outputs }
    requires output { IsClaimOutput scanned.now claim }
    ensures { OnOk result (text.new.items ≡ text.old.items ++ claim_text scanned.now claim) }
{
    match claim {
        Claim::Detected(cycle, output) => push_strobe(text, cycle, pins.get(output as usize)),
        Claim::Redundant => text.extend_from_slice(b" redundant"),
        Claim::Undetected => text.extend_from_slice(b" undetected"),
        Claim::Unknown => text.extend_from_slice(b" unknown"),
    }
}

/// Adds the line of a fault of the design, without its end. `pins` has the names of the pins at the scanned netlist's outputs.
pub fn push_claim_line(
    text: &mut Vec<u8>,
    design: &Netlist,
    scanned: &Netlist,
    pins: &NameTable,
    fault: Fault,
    claim: Claim,
) -> Result<(), AllocError>
    requires signal { signal_of fault.line < length (signals design.now) }
    requires pins { pins.now ≡ map (output_name scanned.now) scanned.now.outputs }
    requires output { IsClaimOutput scanned.now claim }
    ensures { OnOk result (text.new.items ≡ text.old.items ++ claim_line design.now scanned.now fault claim) }
{
    push_text(text, design, fault)?;
    push_claim(text, scanned, pins, claim)
}
