//! Where a point is strobed.
ghost use Rattle.std.specs.Prelude.{◌≡◌, ◌+◌, ◌-◌, ◌*◌, ◌<◌, ◌≤◌, ◌^◌};
ghost use Rattle.statement.specs.Tests.{longest_of, IsStrobedAt};
ghost use Rattle.scan_insert.specs.Scanned.{AreChainsOf};
ghost use Rattle.scan_play.specs.Vectors.{capture_cycle, unload_cycle};
ghost use Rattle.run_report.specs.Strobes.{IsPointOf};

use netlist::{Netlist, Point};
use scan_insert::Chains;

/// A cycle of the test, and an output of the scanned netlist by its place.
#[derive(Clone, Copy, PartialEq, Eq)]
pub struct Strobe {
    pub cycle: u64,
    pub output: u32,
}

/// The cycle in which the pattern at a place is captured.
#[tactic(auto, using(crate::proofs::CycleLemmas::small_product))]
fn captured_in(longest: u64, place: u64) -> u64
    requires longest { longest ≤ 8000000 }
    requires place { place < 2 ^ 32 }
    ensures { result ≡ capture_cycle longest place }
{
    3 * longest + place * (longest + 1) + longest
}

/// The cycle in which a cell of a chain shows what the pattern at a place captured.
#[tactic(auto, using(crate::proofs::CycleLemmas::small_product))]
fn unloaded_in(longest: u64, place: u64, count: u64, cell: u64) -> u64
    requires longest { longest ≤ 8000000 }
    requires place { place < 2 ^ 32 }
    requires count { count ≤ 8000000 }
    requires cell { cell < count }
    ensures { result ≡ unload_cycle longest place count cell }
{
    3 * longest + (place + 1) * (longest + 1) + (count - 1 - cell)
}

/// Where a point is strobed for the pattern at a place.
pub fn strobe_of(netlist: &Netlist, chains: &Chains, place: u32, point: Point) -> Strobe
    requires chains { AreChainsOf netlist.now chains.now }
    requires point { IsPointOf netlist.now point }
    ensures { IsStrobedAt netlist.now chains.now place point result.cycle result.output }
{
    netlist.sound();
    let longest = chains.longest() as u64;
    match point {
        Point::Output(output) => Strobe {
            cycle: captured_in(longest, place as u64),
            output,
        },
        Point::Cell(cell) => {
            let (chain, k) = chains.place(netlist.cells()[cell as usize]);
            let count = chains.chain(chain).len() as u64;
            Strobe {
                cycle: unloaded_in(longest, place as u64, count, k as u64),
                output: netlist.outputs().len() as u32 + chain,
            }
        }
    }
}
