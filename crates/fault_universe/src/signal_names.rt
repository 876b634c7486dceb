//! Where signals are looked up by their names.
ghost use Rattle.std.specs.Prelude.{◌≡◌, ◌≢◌, ◌<◌, ℕ, MatchOption};
ghost use Rattle.statement.specs.Netlists.{name_of};
ghost use Rattle.netlist.specs.Netlist.{signal_count};

use crate::fault_sets::signal_count;
use name_index::NameIndex;
use netlist::{Netlist, SignalId};

/// Whoever can find a signal by its name: a netlist goes over its names, an index looks them up.
pub trait SignalNames {
    ghost use Rattle.statement.specs.Netlists.{Netlist, name_of};
    ghost use Rattle.netlist.specs.Netlist.{signal_count};

    /// Whose names they are.
    ghost named: { Self → Netlist };

    fn netlist(&self) -> &Netlist
        ensures { result.now ≡ named self.now };

    fn signal(&self, name: &[u8]) -> Option<SignalId>
        ensures { MatchOption result ((x : ℕ) → x < signal_count (named self.now) → name_of (named self.now) x ≢ name.now) (λ x. (x < signal_count (named self.now)) × (name_of (named self.now) x ≡ name.now)) };
}

/// The signal of a name, looked for one after another.
fn signal_named(netlist: &Netlist, name: &[u8]) -> Option<SignalId>
    ensures { MatchOption result ((x : ℕ) → x < signal_count netlist.now → name_of netlist.now x ≢ name.now) (λ x. (x < signal_count netlist.now) × (name_of netlist.now x ≡ name.now)) }
{
    netlist.sound();
    for x in 0..signal_count(netlist) {
        if netlist.name(SignalId(x)) == name {
            return Some(SignalId(x));
        }
    }
    None
}

impl SignalNames for Netlist {
    ghost named = { λ n. n };

    fn netlist(&self) -> &Netlist {
        self
    }

    fn signal(&self, name: &[u8]) -> Option<SignalId> {
        signal_named(self, name)
    }
}

impl<'a> SignalNames for NameIndex<'a> {
    ghost named = { λ index. index };

    fn netlist(&self) -> &Netlist {
        NameIndex::netlist(self)
    }

    fn signal(&self, name: &[u8]) -> Option<SignalId> {
        self.get(name)
    }
}
