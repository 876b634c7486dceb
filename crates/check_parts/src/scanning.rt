//! The scanned netlist's text.
ghost use Rattle.std.specs.Prelude.{◌≡◌, ◌<◌, ◌≤◌, ◌^◌, length, IfOk, MatchBool, MatchOption};
ghost use Rattle.netlist.specs.Designs.{IsDesign};
ghost use Rattle.scan_insert.specs.Scanned.{insertion_of};
ghost use Rattle.good_files.specs.ScanOff.{design_chains};
ghost use Rattle.good_files.specs.GoodFiles.{IsChainCount, IsScanText};
ghost use Rattle.check_parts.specs.Scanning.{IsStitched};

use bench_text::write;
use netlist::{Netlist, NoMemory};
use scan_insert::{Chains, Scanned, insert, stitch};
use std::alloc::Global;

/// Chains, and the netlist scanned with them.
#[derive(Drop)]
pub struct Stitched {
    pub chains: Chains,
    pub scanned: Scanned,
}

/// Whether there may be so many chains.
fn is_chain_count(netlist: &Netlist, count: u64) -> bool
    ensures { MatchBool result (IsChainCount netlist.now count) (¬ IsChainCount netlist.now count) }
{
    count <= u32::MAX as u64 && (count > 0 || netlist.cells().is_empty())
}

/// The netlist's cells in so many chains, and the netlist scanned with them.
fn scan_with(alloc: Global, netlist: &Netlist, count: u32) -> Result<Stitched, NoMemory>
    requires design { IsDesign netlist.now }
    requires count { IsChainCount netlist.now count }
    ensures { IfOk result (IsStitched netlist.now (design_chains netlist.now count)) }
{
    netlist.sound();
    let chains = stitch(alloc, netlist.cells(), count.max(1))?;
    let scanned = insert(alloc, netlist, &chains)?;
    Ok(Stitched { chains, scanned })
}

/// The same, where there may be so many chains and this is the scanned netlist's text.
pub fn scanned_as(
    alloc: Global,
    netlist: &Netlist,
    count: u64,
    scan: &[u8],
) -> Result<Option<Stitched>, NoMemory>
    requires { IsDesign netlist.now }
    ensures { IfOk result (λ o. MatchOption o
        (¬ IsScanText netlist.now count scan.now)
        (λ s. IsScanText netlist.now count scan.now × IsStitched netlist.now (design_chains netlist.now count) s)) }
{
    if !is_chain_count(netlist, count) {
        return Ok(None);
    }
    let made = scan_with(alloc, netlist, count as u32)?;
    let Ok(text) = write(alloc, made.scanned.netlist()) else {
        drop(made);
        return Err(NoMemory);
    };
    if text.as_slice() == scan {
        Ok(Some(made))
    } else {
        drop(made);
        Ok(None)
    }
}
