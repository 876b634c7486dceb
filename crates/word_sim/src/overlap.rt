//! How much heads change in common, by four of each 64 that are turned over one by one. Nothing that is found rests on it.
use events::Change;
use std::alloc::{AllocError, Global};

/// How many heads one after another have one sample.
const BLOCK: usize = 64;
/// The heads of a sample: so many go side by side.
const SAMPLE: usize = 4;
/// Heads go side by side where the signals that four of them change are fewer than 11 of 20 of their changes.
const MOST_LEFT: u64 = 11;

const OF_CHANGES: u64 = 20;

/// The changes of the samples so far.
#[derive(Drop)]
pub(crate) struct Overlap {
    /// For each signal the sample in which it changed last.
    latest: Vec<u32>,
    sample: u32,
    /// All changes, and those of a signal that hadn't changed before in its sample.
    changes: u64,
    distinct: u64,
}

impl Overlap {
    pub fn new(alloc: Global, signals: usize) -> Result<Overlap, AllocError> {
        Ok(Overlap {
            latest: vec![in alloc; 0u32; signals]?,
            sample: 0,
            changes: 0,
            distinct: 0,
        })
    }

    /// Whether the head at this place of the list is in a sample.
    pub fn is_sampled(at: usize) -> bool {
        at % BLOCK < SAMPLE
    }

    /// The head at this place is next.
    pub fn begin(&mut self, at: usize) {
        if at % SAMPLE == 0 {
            self.sample = self.sample.wrapping_add(1);
        }
    }

    /// A head has changed this.
    pub fn count(&mut self, trail: &[Change<u64>]) {
        for change in trail {
            let x = change.signal.index();
            if x < self.latest.len() && self.latest[x] != self.sample {
                self.latest[x] = self.sample;
                self.distinct = self.distinct.wrapping_add(1);
            }
        }
        self.changes = self.changes.wrapping_add(trail.len() as u64);
    }

    /// Whether four heads side by side change so many fewer signals than one by one that it pays.
    pub fn is_large(&self) -> bool {
        self.distinct.wrapping_mul(OF_CHANGES) < self.changes.wrapping_mul(MOST_LEFT)
    }
}
