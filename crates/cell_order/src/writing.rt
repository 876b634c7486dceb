//! A netlist whose cells are put in an order, as text.
//!
//! What is written is the canonical text of `bench_text`, but for the places of cells, line by line as it writes them: no sound netlist that it could
//! write whole has its signals in the old places under the old numbers.

ghost use Rattle.std.specs.Prelude.{◌≡◌, ◌++◌, map, IfOk, OnOk};
ghost use Rattle.std.specs.List.{All, Contains};
ghost use Rattle.scan_insert.specs.Scanned.{cell_ids};
ghost use Rattle.bench_text.specs.Canonical.{ended, equation_line};
ghost use Rattle.cell_order.specs.Ordered.{definitions_at, in_places, ordered_text};
ghost use Rattle.cell_order.specs.inner.Placing.{IsNextOf};

use bench_text::{push_equation, push_ports};
use netlist::{Definition, Netlist, NoMemory, SignalId};
use std::alloc::{AllocError, Global};

/// What stands in the place of a definition, and the cells that are left: the next cell where it is one, else itself.
fn next_of<'a, 'b>(
    netlist: &'a Netlist,
    equation: &'a Definition,
    next: &'b [SignalId],
) -> (&'a Definition, &'b [SignalId])
    requires member { Contains netlist.now.definitions equation.now }
    requires cells { All (Contains (cell_ids netlist.now)) next.now }
    ensures { IsNextOf netlist.entry.now equation.entry.now next.entry.now result.0.now result.1.now }
{
    netlist.sound();
    let Some((cell, others)) = next.split_first() else {
        return (equation, next);
    };
    if !equation.kind().is_flip_flop() {
        return (equation, next);
    }
    (netlist.definition(*cell), others)
}

/// Writes a line for each definition, where a cell stands for the next of these.
fn push_in_order(out: &mut Vec<u8>, netlist: &Netlist, order: &[SignalId]) -> Result<(), AllocError>
    requires { All (Contains (cell_ids netlist.now)) order.now }
    ensures { OnOk result (out.new.items ≡ out.old.items ++ ended (map (equation_line netlist.now.names) (in_places netlist.now.definitions (definitions_at netlist.now order.now)))) }
{
    let mut next = order;
    for equation in netlist.definitions() {
        let (here, others) = next_of(netlist, equation, next);
        push_equation(out, netlist, here)?;
        next = others;
    }
    Ok(())
}

fn text_of(alloc: Global, netlist: &Netlist, order: &[SignalId]) -> Result<Vec<u8>, AllocError>
    requires { All (Contains (cell_ids netlist.now)) order.now }
    ensures { IfOk result (λ v. v.items ≡ ordered_text netlist.now order.now) }
{
    netlist.sound();
    let mut out = Vec::new(alloc);
    push_ports(&mut out, netlist, b"INPUT", netlist.inputs())?;
    push_ports(&mut out, netlist, b"OUTPUT", netlist.outputs())?;
    push_in_order(&mut out, netlist, order)?;
    Ok(out)
}

/// The text of a netlist whose cells are put in this order.
pub fn write_ordered(
    alloc: Global,
    netlist: &Netlist,
    order: &[SignalId],
) -> Result<Vec<u8>, NoMemory>
    requires { All (Contains (cell_ids netlist.now)) order.now }
    ensures { IfOk result (λ v. v.items ≡ ordered_text netlist.now order.now) }
{
    match text_of(alloc, netlist, order) {
        Ok(text) => Ok(text),
        Err(_) => Err(NoMemory),
    }
}
