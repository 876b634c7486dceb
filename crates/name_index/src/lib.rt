//! The names of a netlist, looked up: for readers of texts with many names.
//!
//! Gives: `NameIndex`.
//! Proved: `get`: exactly the signal of a name, or that no signal has it; `netlist`: whose names they are.
//! Neither: that a name is found in the same time however many there are.
#![tactic(auto)]

ghost use Rattle.std.specs.Prelude.{◌≡◌, ◌≢◌, ◌<◌, ℕ, IfOk, MatchOption};
ghost use Rattle.statement.specs.Netlists.{name_of};
ghost use Rattle.netlist.specs.Netlist.{signal_count};
ghost use Rattle.name_index.specs.inner.Keys.{AreNames};

use indexmap::IndexSet;
use netlist::{Netlist, NoMemory, SignalId};
use std::alloc::{AllocError, Global};
use std::marker::Model;

/// The names of a netlist, hashed once. A look-up takes the same time however many signals there are.
#[derive(Drop)]
pub struct NameIndex<'a> {
    netlist: &'a Netlist,
    names: IndexSet<&'a [u8]>,
}

impl<'a> Model for NameIndex<'a> {
    ghost use Rattle.statement.specs.Netlists.{Netlist};
    ghost use Rattle.name_index.specs.inner.Keys.{AreNames};

    ghost Value = { Netlist };

    ghost view = { λ i. i.netlist.now };

    ghost invariant = { λ i. AreNames i.names.keys i.netlist.now };
}

/// The names in the order of their signals.
fn names_of<'a>(alloc: Global, netlist: &'a Netlist) -> Result<IndexSet<&'a [u8]>, AllocError>
    ensures { IfOk result (λ names. AreNames names.keys netlist.now) }
{
    netlist.sound();
    let count = netlist.inputs().len() + netlist.definitions().len();
    let mut names = IndexSet::with_capacity(alloc, count)?;
    for x in 0..count {
        names.insert_full(netlist.name(SignalId(x as u32)))?;
    }
    Ok(names)
}

impl<'a> NameIndex<'a> {
    pub fn of(alloc: Global, netlist: &'a Netlist) -> Result<NameIndex<'a>, NoMemory>
        ensures { IfOk result (λ index. index ≡ netlist.now) }
    {
        let names = names_of(alloc, netlist)?;
        Ok(NameIndex { netlist, names })
    }

    /// Whose names they are.
    pub fn netlist(&self) -> &Netlist
        ensures { result.now ≡ self.now }
    {
        self.netlist
    }

    /// The signal of a name, by one look-up in the table of hashes.
    pub fn get(&self, name: &[u8]) -> Option<SignalId>
        ensures { MatchOption result ((x : ℕ) → x < signal_count self.now → name_of self.now x ≢ name.now) (λ x. (x < signal_count self.now) × (name_of self.now x ≡ name.now)) }
    {
        self.netlist.sound();
        match self.names.get_index_of(name) {
            Some(place) => Some(SignalId(place as u32)),
            None => None,
        }
    }
}
