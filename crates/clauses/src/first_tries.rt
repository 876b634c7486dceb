//! Whether a short search by a tree of decisions is worth its time, before clauses are learned.
//!
//! Where faults are easy (multipliers, datapaths) PODEM with a single closed end settles nearly all, at a fraction of what a search for clauses costs
//! to begin; where they are hard (near wires) it settles few, and its time is lost. So it goes first while it settles three of four. No evidence rests
//! on this.

/// How often a short search was tried, and how often it settled the fault.
#[derive(Clone, Copy)]
pub(crate) struct FirstTries {
    searches: u32,
    tried: u32,
    settled: u32,
}

/// So many are tried before it is judged.
const BEGIN: u32 = 16;

/// Once in so many searches it is tried all the same.
const AGAIN: u32 = 64;

/// So many tries are remembered at most: at that count both numbers are halved.
const MEMORY: u32 = 256;

impl FirstTries {
    pub(crate) fn none() -> FirstTries {
        FirstTries {
            searches: 0,
            tried: 0,
            settled: 0,
        }
    }

    /// Whether the next search begins with a short one.
    pub(crate) fn are_worth(&self) -> bool {
        let most = 4 * self.settled as u64 >= 3 * self.tried as u64;
        self.tried < BEGIN || most || self.searches.is_multiple_of(AGAIN)
    }

    /// After a search that didn't begin with a short one.
    pub(crate) fn passed(&self) -> FirstTries {
        FirstTries {
            searches: self.searches.wrapping_add(1),
            ..*self
        }
    }

    /// After a short one, which settled the fault or didn't.
    pub(crate) fn after(&self, settled: bool) -> FirstTries {
        let tried = self.tried.wrapping_add(1);
        let settled = self.settled.wrapping_add(settled as u32);
        let by = if tried < MEMORY { 1 } else { 2 };
        FirstTries {
            searches: self.searches.wrapping_add(1),
            tried: tried / by,
            settled: settled / by,
        }
    }
}
