//! What the tester sees of a point by launch on capture. A launch is a cycle more for each pattern up to this one, and all else is as for stuck
//! lines: so a point is seen where it would be seen there, and so many cycles later.
ghost use Rattle.std.specs.Prelude.{◌≡◌, map};
ghost use Rattle.std.specs.List.{Contains};
ghost use Rattle.statement.specs.Runs.{output_name};
ghost use Rattle.scan_insert.specs.Scanned.{AreChainsOf, scanned_of};
ghost use Rattle.run_report.specs.Strobes.{IsPointOf};
ghost use Rattle.transition_report.specs.Strobes.{IsLaunchSeenAt};

use netlist::{NameTable, Netlist, Point};
use run_report::{Sight, sight_of};
use scan_insert::Chains;

/// Where the tester sees a point for the pattern at a place. `pins` has the names of the pins at the scanned netlist's outputs.
pub fn sight_behind<'a>(
    netlist: &Netlist,
    chains: &Chains,
    pins: &'a NameTable,
    place: u32,
    point: Point,
) -> Sight<'a>
    requires chains { AreChainsOf netlist.now chains.now }
    requires pins { pins.now ≡ map (output_name (scanned_of netlist.now chains.now)) (scanned_of netlist.now chains.now).outputs }
    requires point { IsPointOf netlist.now point }
    ensures seen { IsLaunchSeenAt netlist.now chains.now place point result.cycle result.pin.now }
    ensures named { Contains pins.now result.pin.now }
{
    netlist.sound();
    let sight = sight_of(netlist, chains, pins, place, point);
    Sight {
        cycle: sight.cycle + place as u64 + 1,
        pin: sight.pin,
    }
}
