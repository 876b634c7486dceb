//! Where a worker passes between its steps.

/// Which step a worker has done. `run`, `diagnose` and `grade` speak of fault classes, `transition` and `chaintest` of faults.
#[derive(Clone, Copy, PartialEq, Eq)]
pub enum Stage {
    /// So many are there in all. It comes before all other steps.
    Begun { count: u64 },
    /// It has claimed a class, and searches next.
    Claimed,
    /// Its search has shown the class redundant.
    Redundant,
    /// Its search has given up: the class is aborted, unless a pattern detects it yet.
    Aborted,
    /// It has published the patterns that it found. At most so many classes are open or aborted now.
    Published { undetected: u64 },
    /// So many more are answered, of which so many are detected; in a diagnosis, explain the log.
    Answered { count: u64, detected: u64 },
}

/// Where a worker passes between its steps.
///
/// A stage sees nothing of the product and changes nothing in it. It may hold the worker: a type
/// whose parameter is bound by `Wait` may block in `at`, so that a test can bring workers together.
/// The trait asks for no handle, and who calls a stage needs none.
pub trait Gate {
    /// Worker number `worker` is here, and holds no lock.
    fn at(&self, worker: u32, stage: Stage);
}

/// A stage that lets each worker pass at once.
#[derive(Clone, Copy, Default, PartialEq, Eq)]
pub struct OpenGate;

impl Gate for OpenGate {
    fn at(&self, _worker: u32, _stage: Stage) {}
}
