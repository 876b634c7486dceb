//! Where the signals of a netlist stand in its scanned netlist.
ghost use Rattle.std.specs.Prelude.{◌≡◌, ◌++◌, ◌+◌, ◌*◌, ◌<◌, ◌≤◌, length, map, IfOk, OnOk};
ghost use Rattle.statement.specs.Netlists.{Definition as Equation, signals};
ghost use Rattle.netlist.specs.Conditions.{IsSound};
ghost use Rattle.netlist.specs.Designs.{most_design_signals};
ghost use Rattle.scan_insert.specs.Scanned.{own_site, sites_from, first_definition};

use netlist::{Definition, Netlist, SignalId};
use std::alloc::{AllocError, Global};

/// Where a signal of the original stands in the scanned netlist: what has its stem, and what has its pins.
#[derive(Clone, Copy, PartialEq, Eq)]
pub struct Site {
    pub stem: SignalId,
    pub pins: SignalId,
}

/// The signal so many numbers on.
pub(crate) fn after(id: SignalId, count: u32) -> SignalId
    requires { id + count < 4294967296 }
    ensures { result ≡ id + count }
{
    SignalId(id.0 + count)
}

/// Each of so many signals where it was.
pub(crate) fn own_sites(
    alloc: Global,
    netlist: &Netlist,
    count: usize,
) -> Result<Vec<Site>, AllocError>
    requires sound { IsSound netlist.now }
    requires small { length (signals netlist.now) ≤ most_design_signals }
    requires all { count ≡ length (signals netlist.now) }
    ensures { IfOk result (λ v. v.items ≡ map own_site (signals netlist.now)) }
{
    let mut sites = Vec::with_capacity(alloc, count)?;
    for x in 0..count {
        let signal = SignalId(x as u32);
        sites.push(Site {
            stem: signal,
            pins: signal,
        })?;
    }
    Ok(sites)
}

/// The inputs stay where they were.
fn push_inputs(inputs: &[SignalId], sites: &mut Vec<Site>) -> Result<(), AllocError>
    ensures { OnOk result (sites.new.items ≡ sites.old.items ++ map own_site inputs.now) }
{
    for x in inputs {
        sites.push(Site { stem: *x, pins: *x })?;
    }
    Ok(())
}

/// Each definition takes the next number, and a cell five.
fn push_definitions(
    first: u32,
    definitions: &[Definition],
    sites: &mut Vec<Site>,
) -> Result<(), AllocError>
    requires { first + 5 * length definitions.now ≤ 7000000 }
    ensures { OnOk result (sites.new.items ≡ sites.old.items ++ sites_from first definitions.now) }
{
    let mut next = first;
    for definition in definitions {
        if definition.kind().is_flip_flop() {
            sites.push(Site {
                stem: SignalId(next + 4),
                pins: SignalId(next),
            })?;
            next += 5;
        } else {
            sites.push(Site {
                stem: SignalId(next),
                pins: SignalId(next),
            })?;
            next += 1;
        }
    }
    Ok(())
}

/// Where the signals stand with so many chains.
pub(crate) fn moved_sites(
    alloc: Global,
    netlist: &Netlist,
    chains: u32,
) -> Result<Vec<Site>, AllocError>
    requires small { length (signals netlist.now) ≤ most_design_signals }
    requires few { chains ≤ 1000000 }
    ensures { IfOk result (λ v. v.items ≡ map own_site netlist.now.inputs ++ sites_from (first_definition netlist.now chains) netlist.now.definitions) }
{
    let inputs = netlist.inputs();
    let definitions = netlist.definitions();
    let mut sites = Vec::with_capacity(alloc, inputs.len() + definitions.len())?;
    push_inputs(inputs, &mut sites)?;
    push_definitions(inputs.len() as u32 + chains + 2, definitions, &mut sites)?;
    Ok(sites)
}
