//! The first strobe of a file that is known to be wrong with a line stuck.
ghost use Rattle.stil_vectors.specs.Fitting.{FitsNetlist};

use case_nets::name_of;
use case_text::{Pushed, Said};
use chain_test::first_wrong;
use fault_universe::fault_named;
use netlist::{Core, Fault, Netlist, NoMemory};
use std::alloc::{AllocError, Global};
use stil_read::{StilFault, read_stil};
use stil_vectors::{cycle_count, fits, fitting_cycles, vectors};
use stil_write::StilFile;

/// What the file, which fits, first shows of the fault, by cycle and output.
fn told_of(
    alloc: Global,
    core: &Core,
    fault: Fault,
    file: &StilFile,
) -> Result<Option<(u64, u32)>, NoMemory>
    requires { FitsNetlist file.now core.now }
{
    file.sound();
    fitting_cycles();
    match cycle_count(file) {
        Some(_) => {}
        None => return Err(NoMemory),
    }
    let vectors = vectors(alloc, file)?;
    first_wrong(alloc, core, fault, &vectors)
}

/// Adds the cycle and the output, by its name.
fn push_told(to: &mut Said, netlist: &Netlist, told: Option<(u64, u32)>) {
    let Some((cycle, output)) = told else {
        return to.push("untold\n");
    };
    to.push("fails ");
    to.push_number(cycle.min(1_000_000));
    to.push(" ");
    match netlist.outputs().get(output as usize) {
        Some(id) => to.push_bytes(name_of(netlist, *id)),
        None => to.push("?"),
    }
    to.push("\n");
}

fn push_fitting(to: &mut Said, core: &Core, fault: Fault, file: &StilFile) -> Pushed {
    match fits(to.alloc, file, core.netlist()) {
        Ok(true) => match told_of(to.alloc, core, fault, file) {
            Ok(told) => push_told(to, core.netlist(), told),
            Err(_) => return Err(AllocError),
        },
        Ok(false) => to.push("does not fit\n"),
        Err(_) => return Err(AllocError),
    }
    Ok(())
}

/// `first-wrong NET STIL FAULT`: the first strobe of the file that is known to be wrong where the netlist, with scan or without, has this fault.
pub fn push_wrong(to: &mut Said, core: &Core, stil: &[u8], fault: &str) -> Pushed {
    core.netlist().sound();
    let Some(fault) = fault_named(core.netlist(), fault.as_bytes()) else {
        to.push("no fault\n");
        return Ok(());
    };
    match read_stil(to.alloc, stil) {
        Ok(file) => push_fitting(to, core, fault, &file),
        Err(StilFault::NotStil) => {
            to.push("not stil\n");
            Ok(())
        }
        Err(StilFault::NoMemory) => Err(AllocError),
    }
}
