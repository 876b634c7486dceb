//! A command's texts, where one is an order of the netlist's cells: the netlist is put in that order.
ghost use Rattle.std.specs.Prelude.{◌≡◌, ◌≤◌, IfOk, IfSome, length, option_map};
ghost use Rattle.std.specs.List.{All};
ghost use Rattle.plain_text.specs.Limits.{most_chains};
ghost use Rattle.commands.specs.Contents.{most_bytes};
ghost use Rattle.commands.specs.Names.{texts_of};
ghost use Rattle.command_steps.specs.Ordering.{IsOrdered, IsPutInOrder};
ghost use Rattle.command_steps.specs.inner.Placed.{OrdersNetlist, OrdersText, ReadsOrder};

use crate::reading::netlist_of;
use crate::refusal::Refusal;
use bench_text::Names;
use cell_order::{Order, OrderFault, read_order, write_ordered};
use commands::Stop;
use netlist::Netlist;
use std::alloc::Global;

/// The most bytes of a netlist that is read.
const MOST_BYTES: usize = 67_108_864;

/// The texts of a command, the netlist's first, and how many chains are asked for.
#[derive(Drop)]
pub struct Ordered {
    pub texts: Vec<Vec<u8>>,
    pub chains: u32,
}

/// The text of a netlist that is put in order, and how many chains the order asks for.
#[derive(Drop)]
struct OrderedNet {
    text: Vec<u8>,
    chains: u32,
}

/// The order that the text says.
fn order_of(alloc: Global, netlist: &Netlist, text: &[u8]) -> Result<Order, Stop<Refusal>>
    ensures { ReadsOrder netlist.now text.now result }
{
    match read_order(alloc, netlist, text) {
        Ok(order) => Ok(order),
        Err(OrderFault::Refused(refusal)) => Err(Stop::Refused(Refusal::Order(refusal))),
        Err(OrderFault::NoMemory) => Err(Stop::NoMemory),
    }
}

/// The netlist in the order that the text says, where it isn't longer than a file may be.
fn netlist_in_order(
    alloc: Global,
    netlist: &Netlist,
    text: &[u8],
) -> Result<OrderedNet, Stop<Refusal>>
    ensures ordered { OrdersNetlist netlist.now text.now result }
    ensures within { IfOk result (λ o. length o.text.items ≤ most_bytes) }
    ensures range { IfOk result (λ o. (1 ≤ o.chains) × (o.chains ≤ most_chains)) }
{
    let order = match order_of(alloc, netlist, text) {
        Ok(order) => order,
        Err(stop) => return Err(stop),
    };
    let Ok(text) = write_ordered(alloc, netlist, order.cells.as_slice()) else {
        return Err(Stop::NoMemory);
    };
    if text.len() > MOST_BYTES {
        return Err(Stop::NoMemory);
    }
    Ok(OrderedNet {
        text,
        chains: order.chains.max(1) as u32,
    })
}

/// The netlist of the first text, in the order that the second says.
fn text_in_order(alloc: Global, net: &[u8], text: &[u8]) -> Result<OrderedNet, Stop<Refusal>>
    requires { length net.now ≤ most_bytes }
    ensures ordered { OrdersText net.now text.now result }
    ensures within { IfOk result (λ o. length o.text.items ≤ most_bytes) }
    ensures range { IfOk result (λ o. (1 ≤ o.chains) × (o.chains ≤ most_chains)) }
{
    match netlist_of(alloc, net, Names::Design) {
        Ok(netlist) => netlist_in_order(alloc, &netlist, text),
        Err(stop) => Err(stop),
    }
}

/// The texts with the netlist in the order that the second says, which is left out.
fn put_in_order(alloc: Global, texts: Vec<Vec<u8>>) -> Result<Ordered, Stop<Refusal>>
    requires count { 2 ≤ length texts.items }
    requires within { All (λ text. length text ≤ most_bytes) (texts_of texts.items) }
    ensures ordered { IsPutInOrder (texts_of texts.items) result }
    ensures within { IfOk result (λ o. All (λ text. length text ≤ most_bytes) (texts_of o.texts.items)) }
    ensures range { IfOk result (λ o. (1 ≤ o.chains) × (o.chains ≤ most_chains)) }
{
    let mut texts = texts;
    match text_in_order(alloc, texts[0].as_slice(), texts[1].as_slice()) {
        Ok(net) => {
            texts[1] = net.text;
            let _ = texts.remove(0);
            Ok(Ordered {
                texts,
                chains: net.chains,
            })
        }
        Err(stop) => Err(stop),
    }
}

/// The texts of a command that may be given an order, as the one behind the netlist's: then the netlist is put in it, and it says how many chains
/// there are.
pub fn in_order(
    alloc: Global,
    texts: Vec<Vec<u8>>,
    order: Option<&str>,
    chains: u32,
) -> Result<Ordered, Stop<Refusal>>
    requires count { IfSome order (λ _. 2 ≤ length texts.items) }
    requires within { All (λ text. length text ≤ most_bytes) (texts_of texts.items) }
    requires range { (1 ≤ chains) × (chains ≤ most_chains) }
    ensures ordered { IsOrdered (option_map (λ t. t.now) order.entry) chains (texts_of texts.items) result }
    ensures within { IfOk result (λ o. All (λ text. length text ≤ most_bytes) (texts_of o.texts.items)) }
    ensures range { IfOk result (λ o. (1 ≤ o.chains) × (o.chains ≤ most_chains)) }
{
    match order {
        Some(_) => put_in_order(alloc, texts),
        None => Ok(Ordered { texts, chains }),
    }
}
