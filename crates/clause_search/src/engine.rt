//! Searches, one after the other in one room.
ghost use Rattle.netlist.specs.Holds.{AreHoldsOf};

use crate::searching::{End, Search};
use crate::writing::{no_way, nothing_left, refutation_of};
use flat_netlist::Shape;
use implications::UNSET;
use netlist::{Core, Fault, Holds, NoMemory, SignalId};
use refutation::Step;
use std::alloc::{AllocError, Global};

/// What a search found of a fault. Whoever takes it verifies it: bits by simulation, steps by a checker.
#[derive(Drop)]
pub enum Settled {
    /// Bits of inputs that aren't held and of cells under which the fault should be detected, whatever the others have: first those on which a difference
    /// at an observed signal rests.
    Found(Vec<(SignalId, bool)>),
    /// Steps that should show that no pattern which obeys the held inputs detects the fault.
    Refuted(Vec<Step>),
    /// The limit was reached.
    GaveUp,
}

/// What is kept from one search to the next. Any room serves any search.
#[derive(Drop)]
pub struct Room {
    search: Search,
}

impl Room {
    pub fn new(alloc: Global) -> Room {
        Room {
            search: Search::new(alloc),
        }
    }

    /// The next search comes to what it would come to in a new room. Without this it begins with what was hard for the last ones, and mostly ends
    /// sooner.
    pub fn forget(&mut self) {
        self.search.forget();
    }

    /// How many contradictions taught something so far.
    pub fn conflicts(&self) -> u64 {
        self.search.conflicts
    }

    /// Looks for a test of the fault, or a refutation, until so many contradictions.
    pub fn search(
        &mut self,
        alloc: Global,
        core: &Core,
        fault: &Fault,
        limit: u32,
        holds: &Holds,
    ) -> Result<Settled, NoMemory>
        requires { AreHoldsOf core.now holds.now }
    {
        match self.search.run(alloc, core, fault, limit, holds)? {
            End::Full => {
                let found = test_of(alloc, &mut self.search, core, holds)?;
                Ok(Settled::Found(found))
            }
            End::NoWay => Ok(Settled::Refuted(no_way(alloc)?)),
            End::Nothing => {
                let found = nothing_left(alloc, &mut self.search)?;
                Ok(Settled::Refuted(found))
            }
            End::Contradiction(reason) => {
                let found = refutation_of(alloc, &self.search, reason)?;
                Ok(Settled::Refuted(found))
            }
            End::GaveUp => Ok(Settled::GaveUp),
        }
    }
}

/// Whether an input is held.
fn is_held(core: &Core, holds: &Holds, signal: SignalId) -> bool
    requires { AreHoldsOf core.now holds.now }
{
    signal.index() < core.netlist().inputs().len() && holds.held(signal.0).is_some()
}

/// The bit that the search gave an input or a cell that isn't held.
fn source_bit(search: &Search, core: &Core, holds: &Holds, number: u32) -> Option<(SignalId, bool)>
    requires { AreHoldsOf core.now holds.now }
{
    let value = search.trail.value(number);
    let signal = search.cone.signal(number);
    if !matches!(search.cone.shape(number), Shape::Source)
        || value == UNSET
        || is_held(core, holds, signal)
    {
        return None;
    }
    Some((signal, value == 1))
}

/// The bits that the point rests on, or the others.
fn push_bits(
    bits: &mut Vec<(SignalId, bool)>,
    search: &Search,
    core: &Core,
    holds: &Holds,
    rests: bool,
) -> Result<(), AllocError>
    requires { AreHoldsOf core.now holds.now }
{
    for number in 0..search.cone.count() {
        if search.rests_on(number) == rests {
            if let Some(bit) = source_bit(search, core, holds, number) {
                bits.push(bit)?;
            }
        }
    }
    Ok(())
}

/// The bits of a test. Where it isn't known on which the point rests, they come as they are met.
fn test_of(
    alloc: Global,
    search: &mut Search,
    core: &Core,
    holds: &Holds,
) -> Result<Vec<(SignalId, bool)>, AllocError>
    requires { AreHoldsOf core.now holds.now }
{
    search.justify()?;
    let mut bits = Vec::new(alloc);
    push_bits(&mut bits, search, core, holds, true)?;
    push_bits(&mut bits, search, core, holds, false)?;
    Ok(bits)
}
