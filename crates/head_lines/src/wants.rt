//! Bits that are wanted of signals, in room that is kept from test to test. A queue names the signals of which one is wanted, each once: it says
//! where to go on, and what to take back at last, so that a test costs the cones of its head lines and not the netlist.
ghost use Rattle.std.specs.Prelude.{◌≡◌, ◌<◌, ℕ, [], None, slice_index, length, IfOk, OnOk};
ghost use Rattle.std.specs.List.{All};
ghost use Rattle.statement.specs.Netlists.{signals};
ghost use Rattle.head_lines.specs.Rooms.{IsReusableWantRoom};
ghost use Rattle.head_lines.specs.Justified.{chosen};
ghost use Rattle.head_lines.specs.inner.Wanting.{want_at, AreDistinct, IsQueue, IsLonger, IsWantPut, AreWanted, AreWantedIn};

use crate::justify::chosen;
use netlist::{Core, Kind, SignalId};
use std::alloc::{AllocError, Global};

/// What is wanted of each signal, by number, and the queue.
#[derive(Drop)]
pub struct WantRoom {
    pub(crate) wants: Vec<Option<bool>>,
    pub(crate) queue: Vec<SignalId>,
}

impl WantRoom {
    /// For a netlist.
    pub fn of(alloc: Global, core: &Core) -> Result<WantRoom, AllocError>
        ensures { IfOk result (IsReusableWantRoom core.now) }
    {
        let netlist = core.netlist();
        netlist.sound();
        let count = netlist.inputs().len() + netlist.definitions().len();
        Ok(WantRoom {
            wants: vec![in alloc; None; count]?,
            queue: Vec::new(alloc),
        })
    }
}

/// The bit that is wanted of a signal, if any.
pub(crate) fn wanted(wants: &[Option<bool>], id: SignalId) -> Option<bool>
    ensures { result ≡ want_at wants.now id }
{
    match wants.get(id.index()) {
        None => None,
        Some(bit) => *bit,
    }
}

/// A bit is wanted of a signal from here on, or none.
pub(crate) fn want(
    wants: &mut Vec<Option<bool>>,
    queue: &mut Vec<SignalId>,
    id: SignalId,
    bit: Option<bool>,
) -> Result<(), AllocError>
    requires below { id < length wants.old.items }
    requires none { want_at wants.old.items id ≡ None }
    requires queue { IsQueue wants.old.items queue.old.items }
    ensures put { OnOk result (IsWantPut wants.old.items wants.new.items id bit) }
    ensures queue { OnOk result (IsQueue wants.new.items queue.new.items) }
    ensures longer { OnOk result (IsLonger queue.old.items queue.new.items) }
{
    match bit {
        None => Ok(()),
        Some(bit) => {
            queue.push(id)?;
            wants[id.index()] = Some(bit);
            Ok(())
        }
    }
}

/// Bits are wanted of the pins of a gate, so that it has this one.
pub(crate) fn want_pins(
    kind: Kind,
    pins: &[SignalId],
    bit: bool,
    wants: &mut Vec<Option<bool>>,
    queue: &mut Vec<SignalId>,
) -> Result<(), AllocError>
    requires below { All (λ x. x < length wants.old.items) pins.now }
    requires distinct { AreDistinct pins.now }
    requires none { (k : ℕ) → k < length pins.now → want_at wants.old.items (slice_index pins.now k) ≡ None }
    requires queue { IsQueue wants.old.items queue.old.items }
    ensures wanted { OnOk result (AreWanted kind bit pins.now wants.old.items wants.new.items) }
    ensures queue { OnOk result (IsQueue wants.new.items queue.new.items) }
    ensures longer { OnOk result (IsLonger queue.old.items queue.new.items) }
{
    for k in 0..pins.len() {
        want(wants, queue, pins[k], chosen(kind, bit, k))?;
    }
    Ok(())
}

/// Nothing is wanted any more.
pub(crate) fn forget(wants: &mut Vec<Option<bool>>, queue: &mut Vec<SignalId>)
    requires { IsQueue wants.old.items queue.old.items }
    ensures size { length wants.new.items ≡ length wants.old.items }
    ensures only { AreWantedIn wants.new.items [] }
    ensures empty { queue.new.items ≡ [] }
{
    while let Some(id) = queue.pop() {
        if id.index() < wants.len() {
            wants[id.index()] = None;
        }
    }
}
