//! Two that wait for each other.
use evidence::{Engine, Found};
use netlist::{Core, Fault, Holds, NoMemory};
use outside::{Gate, Stage};
use podem::{Podem, PodemRoom};
use std::alloc::Global;
use std::sync::atomic::{AtomicU64, Ordering};
use std::thread;

/// So many turns one of the two waits.
const TURNS: u32 = 1_000_000;

/// A place at which number 0 and number 1 wait for each other, each at its first arrival.
#[derive(Drop)]
pub struct Meeting {
    zero: AtomicU64,
    one: AtomicU64,
    late: AtomicU64,
}

impl Meeting {
    pub fn new() -> Meeting {
        Meeting {
            zero: AtomicU64::new(0),
            one: AtomicU64::new(0),
            late: AtomicU64::new(0),
        }
    }

    /// Whether both have come, and none has waited in vain.
    pub fn went_well(&self) -> bool {
        self.zero.load(Ordering::SeqCst) == 1
            && self.one.load(Ordering::SeqCst) == 1
            && self.late.load(Ordering::SeqCst) == 0
    }

    /// Waits until the other one has come, for so many turns that yield the processor.
    fn wait_for(&self, other: &AtomicU64) {
        for _turn in 0..TURNS {
            if other.load(Ordering::SeqCst) == 1 {
                return;
            }
            thread::yield_now();
        }
        self.late.fetch_add(1, Ordering::SeqCst);
    }

    /// Comes, and waits for the other one. Only the first arrival of 0 and that of 1 count.
    pub fn meet(&self, number: u64) {
        if number == 0 && self.zero.swap(1, Ordering::SeqCst) == 0 {
            self.wait_for(&self.one);
        }
        if number == 1 && self.one.swap(1, Ordering::SeqCst) == 0 {
            self.wait_for(&self.zero);
        }
    }
}

/// Workers 0 and 1 meet when they have claimed their first class.
impl Gate for Meeting {
    fn at(&self, worker: u32, stage: Stage) {
        if stage == Stage::Claimed {
            self.meet(u64::from(worker));
        }
    }
}

/// An engine that answers as PODEM does, and whose first two searches meet.
#[derive(Drop)]
pub struct MeetingEngine {
    podem: Podem,
    begun: AtomicU64,
    meeting: Meeting,
}

impl MeetingEngine {
    pub fn of(alloc: Global, core: &Core) -> Result<MeetingEngine, NoMemory> {
        Ok(MeetingEngine {
            podem: Podem::of(alloc, core)?,
            begun: AtomicU64::new(0),
            meeting: Meeting::new(),
        })
    }

    pub fn went_well(&self) -> bool {
        self.meeting.went_well()
    }
}

impl Engine for MeetingEngine {
    ghost use Rattle.std.specs.Prelude.{false};
    ghost use Rattle.podem.specs.Rooms.{IsReusablePodemRoom};
    ghost use Rattle.podem.specs.Sources.{HasSourceEvidence};

    type Room = PodemRoom;

    ghost serves = { IsReusablePodemRoom };

    ghost keeps_rule = { HasSourceEvidence };

    ghost refutes = { false };

    fn search(
        &self,
        alloc: Global,
        core: &Core,
        fault: Fault,
        limit: u32,
        holds: &Holds,
    ) -> Result<Found, NoMemory> {
        self.meeting.meet(self.begun.fetch_add(1, Ordering::SeqCst));
        self.podem.search(alloc, core, fault, limit, holds)
    }

    fn room(&self, alloc: Global, core: &Core, holds: &Holds) -> Result<PodemRoom, NoMemory> {
        self.podem.room(alloc, core, holds)
    }

    fn search_in(
        &self,
        alloc: Global,
        room: PodemRoom,
        core: &Core,
        fault: Fault,
        limit: u32,
        holds: &Holds,
    ) -> Result<(Found, PodemRoom), NoMemory> {
        self.meeting.meet(self.begun.fetch_add(1, Ordering::SeqCst));
        self.podem.search_in(alloc, room, core, fault, limit, holds)
    }
}
