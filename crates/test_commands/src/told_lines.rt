//! The text of a chain test: how many faults of the scan hardware fail, and then each fault, and where it first does.
ghost use Rattle.std.specs.Prelude.{◌≡◌, ◌≤◌, ◌<◌, ◌++◌, IfOk, OnOk, codes, decimal, is_some, length};
ghost use Rattle.std.specs.List.{All, filter};
ghost use Rattle.netlist.specs.Lines.{signal_of};
ghost use Rattle.statement.specs.Netlists.{signals};
ghost use Rattle.statement.specs.declared.lines.Fault.{Fault as Stuck};
ghost use Rattle.test_commands.specs.ChainTests.{chain_test_text, told_counts, told_line, told_lines, told_text};
ghost use Rattle.test_commands.specs.inner.ChainTrials.{IsOutput, counts_text};

use fault_universe::push_text;
use itoa::Buffer;
use netlist::{Fault, Netlist, NoMemory};
use scan_insert::pin_name;
use std::alloc::{AllocError, Global};

fn fail_count(told: &[Option<(u64, u32)>]) -> usize
    ensures value { result ≡ length (filter is_some told.now) }
    ensures within { result ≤ length told.now }
{
    let mut count = 0;
    for place in told {
        count += place.is_some() as usize;
    }
    count
}

/// Adds the line of counts.
fn push_counts(
    text: &mut Vec<u8>,
    faults: usize,
    fails: usize,
    untold: usize,
) -> Result<(), AllocError>
    ensures { OnOk result (text.new.items ≡ text.old.items ++ counts_text faults fails untold) }
{
    text.extend_from_slice(b"faults ")?;
    text.extend_from_slice(Buffer::new().format(faults).as_bytes())?;
    text.extend_from_slice(b" fails ")?;
    text.extend_from_slice(Buffer::new().format(fails).as_bytes())?;
    text.extend_from_slice(b" untold ")?;
    text.extend_from_slice(Buffer::new().format(untold).as_bytes())?;
    text.extend_from_slice(b"\n")?;
    Ok(())
}

/// Adds a cycle and the signal that is wrong there.
fn push_place(text: &mut Vec<u8>, cycle: u64, signal: &[u8]) -> Result<(), AllocError>
    ensures { OnOk result (text.new.items ≡ text.old.items ++ (codes " fails " ++ (decimal cycle ++ (codes " " ++ (signal.now ++ codes "\n"))))) }
{
    text.extend_from_slice(b" fails ")?;
    text.extend_from_slice(Buffer::new().format(cycle).as_bytes())?;
    text.extend_from_slice(b" ")?;
    text.extend_from_slice(signal)?;
    text.extend_from_slice(b"\n")?;
    Ok(())
}

/// Adds what is told of a fault.
fn push_told(
    alloc: Global,
    text: &mut Vec<u8>,
    netlist: &Netlist,
    told: Option<(u64, u32)>,
) -> Result<(), NoMemory>
    requires { IsOutput netlist.now told }
    ensures { OnOk result (text.new.items ≡ text.old.items ++ told_text netlist.now told) }
{
    match told {
        Some((cycle, output)) => {
            let signal = pin_name(alloc, netlist, output)?;
            push_place(text, cycle, signal.as_slice()).map_err(|_| NoMemory)
        }
        None => text.extend_from_slice(b" untold\n").map_err(|_| NoMemory),
    }
}

/// Adds the line of a fault.
fn push_line(
    alloc: Global,
    text: &mut Vec<u8>,
    netlist: &Netlist,
    fault: Fault,
    told: Option<(u64, u32)>,
) -> Result<(), NoMemory>
    requires signal { signal_of fault.line < length (signals netlist.now) }
    requires output { IsOutput netlist.now told }
    ensures { OnOk result (text.new.items ≡ text.old.items ++ told_line netlist.now fault told) }
{
    push_text(text, netlist, fault).map_err(|_| NoMemory)?;
    push_told(alloc, text, netlist, told)
}

/// Adds a line for each of these faults.
fn push_lines(
    alloc: Global,
    text: &mut Vec<u8>,
    netlist: &Netlist,
    faults: &[Fault],
    told: &[Option<(u64, u32)>],
) -> Result<(), NoMemory>
    requires size { length told.now ≡ length faults.now }
    requires signals { All (λ (f : Stuck). signal_of f.line < length (signals netlist.now)) faults.now }
    requires outputs { All (IsOutput netlist.now) told.now }
    ensures { OnOk result (text.new.items ≡ text.old.items ++ told_lines netlist.now faults.now told.now) }
{
    for i in 0..faults.len() {
        push_line(alloc, text, netlist, faults[i], told[i])?;
    }
    Ok(())
}

/// The line of counts.
fn begun(alloc: Global, told: &[Option<(u64, u32)>]) -> Result<Vec<u8>, AllocError>
    ensures { IfOk result (λ text. text.items ≡ told_counts told.now) }
{
    let mut text = Vec::new(alloc);
    let fails = fail_count(told);
    push_counts(&mut text, told.len(), fails, told.len() - fails)?;
    Ok(text)
}

/// The text of what is told of these faults.
pub fn chain_test_text(
    alloc: Global,
    netlist: &Netlist,
    faults: &[Fault],
    told: &[Option<(u64, u32)>],
) -> Result<Vec<u8>, NoMemory>
    requires size { length told.now ≡ length faults.now }
    requires signals { All (λ (f : Stuck). signal_of f.line < length (signals netlist.now)) faults.now }
    requires outputs { All (IsOutput netlist.now) told.now }
    ensures { IfOk result (λ text. text.items ≡ chain_test_text netlist.now faults.now told.now) }
{
    let mut text = begun(alloc, told).map_err(|_| NoMemory)?;
    push_lines(alloc, &mut text, netlist, faults, told)?;
    Ok(text)
}
