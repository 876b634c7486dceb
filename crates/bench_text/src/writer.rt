//! Netlists as canonical text.

ghost use Rattle.std.specs.Prelude.{◌≡◌, ◌<◌, ◌++◌, ◌∷◌, [], length, map, IfOk, OnOk};
ghost use Rattle.std.specs.List.{All};
ghost use Rattle.statement.specs.Netlists.{Definition as Equation, signals};
ghost use Rattle.statement.specs.Benches.{name_at, pin_list, port_line, definition_line, canonical};
ghost use Rattle.bench_text.specs.Canonical.{further, equation_line, ended};
ghost use Rattle.bench_text.specs.Written.{AreSignals, IsWritable};

use crate::keywords::word_of;
use netlist::{Definition, Netlist, NoMemory, SignalId};
use std::alloc::{AllocError, Global};

/// Writes `keyword(name)` and LF.
#[tactic(auto, unfolding(statement::specs::Benches::port_line))]
fn push_port(out: &mut Vec<u8>, keyword: &[u8], name: &[u8]) -> Result<(), AllocError>
    ensures { OnOk result (out.new.items ≡ out.old.items ++ port_line keyword.now name.now ++ 10 ∷ []) }
{
    out.extend_from_slice(keyword)?;
    out.extend_from_slice(b"(")?;
    out.extend_from_slice(name)?;
    out.extend_from_slice(b")\n")?;
    Ok(())
}

/// Writes `keyword(name)` and LF for each of these inputs or outputs. After want of memory nothing is said of what was written.
pub fn push_ports(
    out: &mut Vec<u8>,
    netlist: &Netlist,
    keyword: &[u8],
    ids: &[SignalId],
) -> Result<(), AllocError>
    requires { AreSignals netlist.now ids.now }
    ensures { OnOk result (out.new.items ≡ out.old.items ++ ended (map (λ x. port_line keyword.now (name_at netlist.now.names x)) ids.now)) }
{
    for id in ids {
        push_port(out, keyword, netlist.name(*id))?;
    }
    Ok(())
}

/// Writes the pins behind the first.
fn push_further(out: &mut Vec<u8>, netlist: &Netlist, pins: &[SignalId]) -> Result<(), AllocError>
    requires { AreSignals netlist.now pins.now }
    ensures { OnOk result (out.new.items ≡ out.old.items ++ further (map (name_at netlist.now.names) pins.now)) }
{
    for pin in pins {
        out.extend_from_slice(b", ")?;
        out.extend_from_slice(netlist.name(*pin))?;
    }
    Ok(())
}

/// Writes the pins, parted by commas.
fn push_pins(out: &mut Vec<u8>, netlist: &Netlist, pins: &[SignalId]) -> Result<(), AllocError>
    requires { AreSignals netlist.now pins.now }
    ensures { OnOk result (out.new.items ≡ out.old.items ++ pin_list (map (name_at netlist.now.names) pins.now)) }
{
    let Some((first, others)) = pins.split_first() else {
        return Ok(());
    };
    out.extend_from_slice(netlist.name(*first))?;
    push_further(out, netlist, others)?;
    Ok(())
}

/// Writes `name = KIND(a, b)` and LF. After want of memory nothing is said of what was written.
#[tactic(auto, unfolding(statement::specs::Benches::definition_line))]
pub fn push_equation(
    out: &mut Vec<u8>,
    netlist: &Netlist,
    equation: &Definition,
) -> Result<(), AllocError>
    requires { IsWritable netlist.now equation.now }
    ensures { OnOk result (out.new.items ≡ out.old.items ++ equation_line netlist.now.names equation.now ++ 10 ∷ []) }
{
    out.extend_from_slice(netlist.name(equation.id()))?;
    out.extend_from_slice(b" = ")?;
    out.extend_from_slice(word_of(equation.kind()))?;
    out.extend_from_slice(b"(")?;
    push_pins(out, netlist, equation.pins())?;
    out.extend_from_slice(b")\n")?;
    Ok(())
}

/// Writes a line for each definition.
fn push_equations(
    out: &mut Vec<u8>,
    netlist: &Netlist,
    equations: &[Definition],
) -> Result<(), AllocError>
    requires { All (IsWritable netlist.now) equations.now }
    ensures { OnOk result (out.new.items ≡ out.old.items ++ ended (map (equation_line netlist.now.names) equations.now)) }
{
    for equation in equations {
        push_equation(out, netlist, equation)?;
    }
    Ok(())
}

fn text_of(alloc: Global, netlist: &Netlist) -> Result<Vec<u8>, AllocError>
    ensures { IfOk result (λ v. v.items ≡ canonical netlist.now) }
{
    netlist.sound();
    let mut out = Vec::new(alloc);
    push_ports(&mut out, netlist, b"INPUT", netlist.inputs())?;
    push_ports(&mut out, netlist, b"OUTPUT", netlist.outputs())?;
    push_equations(&mut out, netlist, netlist.definitions())?;
    Ok(out)
}

/// The canonical text of a netlist: inputs, outputs, then definitions, each in the netlist's order.
pub fn write(alloc: Global, netlist: &Netlist) -> Result<Vec<u8>, NoMemory>
    ensures { IfOk result (λ v. v.items ≡ canonical netlist.now) }
{
    match text_of(alloc, netlist) {
        Ok(text) => Ok(text),
        Err(_) => Err(NoMemory),
    }
}
