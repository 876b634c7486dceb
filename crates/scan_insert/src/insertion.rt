//! Scan insertion.
ghost use Rattle.std.specs.Prelude.{◌≡◌, ◌<◌, ◌≤◌, [], length, IfOk};
ghost use Rattle.netlist.specs.Conditions.{IsSound, whole};
ghost use Rattle.netlist.specs.Designs.{IsDesign, most_design_signals};
ghost use Rattle.statement.specs.Netlists.{signals};
ghost use Rattle.scan_insert.specs.Scanned.{AreChainsOf, insertion_of, line_at};
ghost use Rattle.netlist.specs.Lines.{signal_of};

use crate::chains::Chains;
use crate::parts::scanned_parts;
use crate::sites::{Site, moved_sites, own_sites};
use netlist::{Line, NetRefusal, Netlist, NoMemory, Parts};
use std::alloc::Global;
use std::marker::Model;

/// A scanned netlist, and where it has the lines of the original.
#[derive(Drop)]
pub struct Scanned {
    netlist: Netlist,
    sites: Vec<Site>,
}

impl Model for Scanned {
    ghost use Rattle.scan_insert.specs.Scanned.{Insertion};

    ghost Value = { Insertion };

    ghost view = { λ s. record { netlist = s.netlist; sites = s.sites.items } };
}

impl Scanned {
    pub fn netlist(&self) -> &Netlist
        ensures { result.now ≡ self.now.netlist }
    {
        &self.netlist
    }

    /// The line that stands for a line of the original. It takes no memory.
    pub fn site_of(&self, line: Line) -> Line
        requires { signal_of line < length self.now.sites }
        ensures { result ≡ line_at self.now.sites line }
    {
        match line {
            Line::Stem(x) => Line::Stem(self.sites[x.index()].stem),
            Line::Pin(z, k) => Line::Pin(self.sites[z.index()].pins, k),
            Line::Out(x) => Line::Out(self.sites[x.index()].stem),
        }
    }
}

/// A netlist of parts in which nothing is to be refused. It is refused for want of memory alone.
pub fn netlist_of(alloc: Global, parts: Parts) -> Result<Netlist, NoMemory>
    requires { IsSound (whole parts) }
    ensures { IfOk result (λ n. n ≡ whole parts) }
{
    match Netlist::new(alloc, parts) {
        Ok(netlist) => Ok(netlist),
        Err(refusal) => {
            prove!(matches!(&refusal, NetRefusal::NoMemory));
            Err(NoMemory)
        }
    }
}

/// The scanned netlist, where there are cells.
fn scan(alloc: Global, netlist: &Netlist, chains: &Chains) -> Result<Scanned, NoMemory>
    requires sound { IsSound netlist.now }
    requires design { IsDesign netlist.now }
    requires chains { AreChainsOf netlist.now chains.now }
    requires some { 0 < length chains.now }
    ensures { IfOk result (λ s. s ≡ insertion_of netlist.now chains.now) }
{
    let sites = moved_sites(alloc, netlist, chains.count())?;
    let parts = scanned_parts(alloc, netlist, chains, &sites)?;
    let netlist = netlist_of(alloc, parts)?;
    Ok(Scanned { netlist, sites })
}

/// A netlist without cells, which stays as it is.
fn unchanged(alloc: Global, netlist: &Netlist) -> Result<Scanned, NoMemory>
    requires sound { IsSound netlist.now }
    requires small { length (signals netlist.now) ≤ most_design_signals }
    ensures { IfOk result (λ s. s ≡ insertion_of netlist.now []) }
{
    let count = netlist.inputs().len() + netlist.definitions().len();
    let sites = own_sites(alloc, netlist, count)?;
    let netlist = netlist.copy(alloc)?;
    Ok(Scanned { netlist, sites })
}

/// The scanned netlist of a design and the chains of its cells. It is refused for want of memory alone.
pub fn insert(alloc: Global, netlist: &Netlist, chains: &Chains) -> Result<Scanned, NoMemory>
    requires design { IsDesign netlist.now }
    requires chains { AreChainsOf netlist.now chains.now }
    ensures { IfOk result (λ s. s ≡ insertion_of netlist.now chains.now) }
{
    netlist.sound();
    if chains.count() == 0 {
        return unchanged(alloc, netlist);
    }
    scan(alloc, netlist, chains)
}
