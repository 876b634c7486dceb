//! An order of evaluation with the place of each signal in it.
ghost use Rattle.std.specs.Prelude.{◌≡◌, IfOk};
ghost use Rattle.netlist.specs.Orders.{IsOrder, ArePlaces};

use crate::netlists::Netlist;
use statement::SignalId;
use std::alloc::{AllocError, Global};

/// The gates, each after the gates that it reads, and the place of each signal among them.
#[derive(Clone, Copy)]
pub struct Schedule<'a> {
    pub order: &'a [SignalId],
    /// An input or a cell has the place behind the last.
    pub places: &'a [u32],
}

/// The place of each signal in an order.
pub(crate) fn places_of(
    alloc: Global,
    netlist: &Netlist,
    order: &[SignalId],
) -> Result<Vec<u32>, AllocError>
    requires { IsOrder netlist.now order.now }
    ensures { IfOk result (λ v. ArePlaces netlist.now order.now v.items) }
{
    netlist.sound();
    let count = netlist.inputs().len() + netlist.definitions().len();
    let mut places = vec![in alloc; order.len() as u32; count]?;
    for k in 0..order.len() {
        places[order[k].index()] = k as u32;
    }
    Ok(places)
}
