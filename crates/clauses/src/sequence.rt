//! Two engines, one after the other.
ghost use Rattle.std.specs.Prelude.{◌≡◌, ◌≤◌, IfSome};
ghost use Rattle.clauses.specs.inner.Answered.{IsSettled};

use evidence::{Engine, Found};
use netlist::{Core, Fault, Holds, NoMemory};
use std::alloc::Global;

/// A short search, and another one where that gives up.
#[derive(Drop)]
pub struct Then<E, F> {
    pub first: E,
    /// The first one's backtrack limit, where the limit of both isn't lower; at least 1.
    pub few: u32,
    pub second: F,
}

/// The rooms of both.
#[derive(Drop)]
pub struct ThenRoom<R, S> {
    first: R,
    second: S,
}

/// What was found, unless it is that the search gave up.
pub(crate) fn settled(found: Found) -> Option<Found>
    ensures { IfSome result (λ f. (f ≡ found) × IsSettled f) }
{
    match found {
        Found::Test(cube, point) => Some(Found::Test(cube, point)),
        Found::Closed(tree) => Some(Found::Closed(tree)),
        Found::Refuted(steps) => Some(Found::Refuted(steps)),
        Found::Partial(_) => None,
    }
}

impl<E, F> Then<E, F> {
    /// The backtrack limit of the first one.
    fn few_of(&self, limit: u32) -> u32
        requires { 1 ≤ limit }
        ensures { (1 ≤ result) × (result ≤ limit) }
    {
        limit.min(self.few.max(1))
    }
}

impl<E: Engine, F: Engine> Engine for Then<E, F> {
    ghost use Rattle.std.specs.Prelude.{ℕ, ◌≤◌, ◌||◌, ◌⊎◌};

    type Room = ThenRoom<E::Room, F::Room>;

    ghost serves = { λ n holds r. E.serves n holds r.first × F.serves n holds r.second };

    // The rule of the first one at a limit that isn't higher, or that of the second.
    ghost keeps_rule = { λ f n holds limit found. ((few : ℕ) × (few ≤ limit) × E.keeps_rule f n holds few found) ⊎ F.keeps_rule f n holds limit found };

    ghost refutes = { E.refutes || F.refutes };

    fn search(
        &self,
        alloc: Global,
        core: &Core,
        fault: Fault,
        limit: u32,
        holds: &Holds,
    ) -> Result<Found, NoMemory> {
        let room = self.room(alloc, core, holds)?;
        let (found, _) = self.search_in(alloc, room, core, fault, limit, holds)?;
        Ok(found)
    }

    fn room(
        &self,
        alloc: Global,
        core: &Core,
        holds: &Holds,
    ) -> Result<ThenRoom<E::Room, F::Room>, NoMemory> {
        let first = self.first.room(alloc, core, holds)?;
        let second = self.second.room(alloc, core, holds)?;
        Ok(ThenRoom { first, second })
    }

    fn search_in(
        &self,
        alloc: Global,
        room: ThenRoom<E::Room, F::Room>,
        core: &Core,
        fault: Fault,
        limit: u32,
        holds: &Holds,
    ) -> Result<(Found, ThenRoom<E::Room, F::Room>), NoMemory> {
        let few = self.few_of(limit);
        let same = fault;
        let ThenRoom { first, second } = room;
        let (found, first) = self.first.search_in(alloc, first, core, same, few, holds)?;
        if let Some(found) = settled(found) {
            return Ok((found, ThenRoom { first, second }));
        }
        let (found, second) = self
            .second
            .search_in(alloc, second, core, fault, limit, holds)?;
        Ok((found, ThenRoom { first, second }))
    }
}
