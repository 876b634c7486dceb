//! A stage at which two workers of a run meet.
use outside::{Gate, Stage};
use std::sync::atomic::{AtomicU64, Ordering};
use std::thread;

/// So many turns one of the two waits.
const TURNS: u32 = 1_000_000;

/// A stage at which workers 0 and 1 wait for each other, each when it has claimed its first class.
#[derive(Drop)]
pub struct Meeting {
    zero: AtomicU64,
    one: AtomicU64,
    late: AtomicU64,
}

impl Meeting {
    pub fn new() -> Meeting {
        Meeting {
            zero: AtomicU64::new(0),
            one: AtomicU64::new(0),
            late: AtomicU64::new(0),
        }
    }

    /// Whether both have come, and none has waited in vain.
    pub fn went_well(&self) -> bool {
        self.zero.load(Ordering::SeqCst) == 1
            && self.one.load(Ordering::SeqCst) == 1
            && self.late.load(Ordering::SeqCst) == 0
    }

    /// Waits until the other one has come, for so many turns that yield the processor.
    fn wait_for(&self, other: &AtomicU64) {
        for _turn in 0..TURNS {
            if other.load(Ordering::SeqCst) == 1 {
                return;
            }
            thread::yield_now();
        }
        self.late.fetch_add(1, Ordering::SeqCst);
    }

    /// Comes, and waits for the other one where it is the first time.
    fn meet(&self, own: &AtomicU64, other: &AtomicU64) {
        if own.swap(1, Ordering::SeqCst) == 0 {
            self.wait_for(other);
        }
    }
}

impl Gate for Meeting {
    fn at(&self, worker: u32, stage: Stage) {
        match (worker, stage) {
            (0, Stage::Claimed) => self.meet(&self.zero, &self.one),
            (1, Stage::Claimed) => self.meet(&self.one, &self.zero),
            _ => {}
        }
    }
}
