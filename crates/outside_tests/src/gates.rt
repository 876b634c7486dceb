//! A stage may hold a worker: one at which two of them meet.

use outside::{Gate, OpenGate, Stage};
use std::sync::atomic::{AtomicU64, Ordering};
use std::sync::{Barrier, Wait};
use std::test::Fail;
use std::thread;

/// A stage at which workers meet.
#[derive(Drop)]
struct Meeting<'a, R: Wait> {
    rt: &'a R,
    arrived: AtomicU64,
    all: Barrier,
}

impl<R: Wait> Gate for Meeting<'_, R> {
    fn at(&self, _worker: u32, _stage: Stage) {
        self.arrived.fetch_add(1, Ordering::SeqCst);
        self.all.wait(self.rt);
    }
}

// As a worker calls it: with no handle.
fn pass<G: Gate>(stage: &G, worker: u32) {
    stage.at(worker, Stage::Claimed);
    stage.at(worker, Stage::Published { undetected: 0 });
}

#[test]
fn a_gate_may_hold_a_worker(rt: HostRuntime) -> Result<(), Fail> {
    pass(&OpenGate, 0);
    let stage = Meeting {
        rt: &rt,
        arrived: AtomicU64::new(0),
        all: Barrier::new(2),
    };
    let (first, second) = thread::join(
        &rt,
        || {
            pass(&stage, 0);
            stage.arrived.load(Ordering::SeqCst)
        },
        || {
            pass(&stage, 1);
            stage.arrived.load(Ordering::SeqCst)
        },
    );
    assert_eq!(rt; (first, second), (4, 4));
    Ok(())
}
