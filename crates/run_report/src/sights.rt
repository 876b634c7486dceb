//! What the tester sees of a point.
ghost use Rattle.std.specs.Prelude.{◌≡◌, map};
ghost use Rattle.std.specs.List.{Contains};
ghost use Rattle.statement.specs.Runs.{output_name};
ghost use Rattle.scan_insert.specs.Scanned.{AreChainsOf, scanned_of};
ghost use Rattle.run_report.specs.Outcomes.{IsSeenAt};
ghost use Rattle.run_report.specs.Strobes.{IsPointOf};

use crate::strobes::strobe_of;
use netlist::{NameTable, Netlist, Point};
use scan_insert::Chains;

/// A cycle of the test, and the pin at which the tester then looks.
#[derive(Clone, Copy)]
pub struct Sight<'a> {
    pub cycle: u64,
    pub pin: &'a [u8],
}

/// Where the tester sees a point for the pattern at a place. `pins` has the names of the pins at the scanned netlist's outputs.
pub fn sight_of<'a>(
    netlist: &Netlist,
    chains: &Chains,
    pins: &'a NameTable,
    place: u32,
    point: Point,
) -> Sight<'a>
    requires chains { AreChainsOf netlist.now chains.now }
    requires pins { pins.now ≡ map (output_name (scanned_of netlist.now chains.now)) (scanned_of netlist.now chains.now).outputs }
    requires point { IsPointOf netlist.now point }
    ensures seen { IsSeenAt netlist.now chains.now place point result.cycle result.pin.now }
    ensures named { Contains pins.now result.pin.now }
{
    netlist.sound();
    let strobe = strobe_of(netlist, chains, place, point);
    Sight {
        cycle: strobe.cycle,
        pin: pins.get(strobe.output as usize),
    }
}
