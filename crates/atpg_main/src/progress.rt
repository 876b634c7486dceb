//! How far a command is: one line on the standard error that is written over while it works.
//!
//! It stands below the place where the cursor is, and the cursor goes back there each time, so that
//! what the program itself says is not mixed with it, and who ends the program takes the line away
//! by clearing what is below the cursor. It is cut where the terminal is narrower, since the cursor
//! goes back by one line alone.

use outside::{Gate, Stage};
use std::rt::Runtime;
use std::sync::atomic::{AtomicU64, Ordering};
use std::time::Instant;
use std::{env, fs};

/// The line is written over after so many milliseconds.
const EVERY: u64 = 200;

/// The line stands below, and isn't broken.
const BEFORE: &str = "\n\x1b[?7l";

/// The rest of the line goes, and the cursor goes back.
const AFTER: &str = "\x1b[?7h\x1b[K\r\x1b[1A";

/// All below the cursor goes.
const GONE: &str = "\x1b[J";

/// What the line speaks of.
#[derive(Clone, Copy, PartialEq, Eq)]
enum Counted {
    /// The classes of a run.
    Classes,
    /// The faults that a test is to detect.
    Faults,
    /// The classes that may explain a log.
    Suspects,
    /// The classes that are graded.
    Graded,
}

/// How far a run is: of so many classes those that are settled, and those that a pattern detects.
#[derive(Clone, Copy)]
struct Standing {
    settled: u64,
    detected: u64,
    classes: u64,
}

/// A stage that counts what is done, and shows it where it was asked to.
///
/// A class of a run is settled once a pattern detects it, or its search has shown it redundant or
/// given up. With several workers a batch may detect what another does at the same time, so what is
/// detected is known by the batch that left the fewest, and exactly once the workers have ended.
#[derive(Drop)]
pub struct Progress<'a, R: Runtime> {
    rt: &'a R,
    began: Option<Instant>,
    counted: Counted,
    count: AtomicU64,
    searches: AtomicU64,
    redundant: AtomicU64,
    aborted: AtomicU64,
    undetected: AtomicU64,
    batches: AtomicU64,
    answered: AtomicU64,
    detected: AtomicU64,
    shown: AtomicU64,
}

fn is_terminal<R: Runtime>(rt: &R) -> bool {
    let Ok(path) = fs::read_link(rt, "/proc/self/fd/2") else {
        return false;
    };
    let path = path.as_str();
    path.starts_with("/dev/pts/") || path.starts_with("/dev/tty")
}

/// `ATPG_PROGRESS` says whether it is shown; without it, that the standard error is a terminal.
fn is_asked_for<R: Runtime>(rt: &R) -> bool {
    match env::var(rt, "ATPG_PROGRESS") {
        Ok(word) => word.as_str() == "1",
        Err(_) => is_terminal(rt),
    }
}

/// What the command of these words counts.
fn counted_by(words: &[String]) -> Counted {
    match words.get(1).map(|word| word.as_str()) {
        Some("run" | "sweep") => Counted::Classes,
        Some("diagnose") => Counted::Suspects,
        Some("grade") => Counted::Graded,
        _ => Counted::Faults,
    }
}

impl<'a, R: Runtime> Progress<'a, R> {
    /// Begun now, for the command of these words.
    pub fn new(rt: &'a R, words: &[String]) -> Progress<'a, R> {
        let began = if is_asked_for(rt) {
            Instant::now(rt).ok()
        } else {
            None
        };
        Progress {
            rt,
            began,
            counted: counted_by(words),
            count: AtomicU64::new(0),
            searches: AtomicU64::new(0),
            redundant: AtomicU64::new(0),
            aborted: AtomicU64::new(0),
            undetected: AtomicU64::new(u64::MAX),
            batches: AtomicU64::new(0),
            answered: AtomicU64::new(0),
            detected: AtomicU64::new(0),
            shown: AtomicU64::new(0),
        }
    }

    /// What is known of the classes of a run. One that was given up and is detected after all counts twice until the workers have ended, so the sum is cut.
    fn standing(&self) -> Standing {
        let classes = self.count.load(Ordering::SeqCst);
        let undetected = self.undetected.load(Ordering::SeqCst);
        let detected = self.detected.load(Ordering::SeqCst);
        let detected = detected.max(classes.saturating_sub(undetected));
        let settled = detected
            .saturating_add(self.redundant.load(Ordering::SeqCst))
            .saturating_add(self.aborted.load(Ordering::SeqCst))
            .min(classes)
            .max(self.answered.load(Ordering::SeqCst));
        Standing {
            settled,
            detected,
            classes,
        }
    }

    /// The line of a run.
    fn say_run(&self, seconds: u64) {
        let Standing {
            settled,
            detected,
            classes,
        } = self.standing();
        let percent = detected
            .saturating_mul(100)
            .checked_div(classes)
            .unwrap_or(100);
        let searches = self.searches.load(Ordering::SeqCst);
        let batches = self.batches.load(Ordering::SeqCst);
        let _ = eprint!(self.rt;
            "{BEFORE}{settled} of {classes} classes settled, {percent}% detected, {searches} searches, {batches} batches, {seconds} s{AFTER}"
        );
    }

    /// The line of a command that answers fault by fault, or class by class.
    fn say_answered(&self, seconds: u64, what: &str, found: &str) {
        let count = self.count.load(Ordering::SeqCst);
        let answered = self.answered.load(Ordering::SeqCst);
        let detected = self.detected.load(Ordering::SeqCst);
        let _ = eprint!(self.rt;
            "{BEFORE}{answered} of {count} {what} answered, {detected} {found}, {seconds} s{AFTER}"
        );
    }

    fn say(&self, seconds: u64) {
        match self.counted {
            Counted::Classes => self.say_run(seconds),
            Counted::Faults => self.say_answered(seconds, "faults", "detected"),
            Counted::Suspects => self.say_answered(seconds, "classes", "explain the log"),
            Counted::Graded => self.say_answered(seconds, "classes", "detected"),
        }
    }

    /// Whether all are answered, which is worth a line at once.
    fn is_done(&self) -> bool {
        let answered = self.answered.load(Ordering::SeqCst);
        answered > 0 && answered >= self.count.load(Ordering::SeqCst)
    }

    /// Writes the line over, unless that was just done, or no search has begun: patterns are drawn before.
    fn show(&self, began: &Instant) {
        if self.count.load(Ordering::SeqCst) == 0 {
            return;
        }
        let Ok(time) = began.elapsed(self.rt) else {
            return;
        };
        let seconds = time.as_secs();
        let part = u64::from(time.subsec_millis()) / EVERY;
        let now = seconds.saturating_mul(1000 / EVERY).saturating_add(part);
        let before = self.shown.fetch_max(now, Ordering::SeqCst);
        if before < now || (now > 0 && self.is_done()) {
            self.say(seconds);
        }
    }

    /// The patterns of a batch leave at most so many classes open or aborted, beside those that are redundant.
    fn published(&self, undetected: u64) {
        let redundant = self.redundant.load(Ordering::SeqCst);
        let left = undetected.saturating_add(redundant);
        self.undetected.fetch_min(left, Ordering::SeqCst);
        self.batches.fetch_add(1, Ordering::SeqCst);
    }

    fn answered(&self, count: u64, detected: u64) {
        self.detected.fetch_add(detected, Ordering::SeqCst);
        self.answered.fetch_add(count, Ordering::SeqCst);
    }

    /// A search begins of so many. A run has further ones of what too few patterns detect, and each is counted from nothing.
    fn begun(&self, count: u64) {
        self.redundant.store(0, Ordering::SeqCst);
        self.aborted.store(0, Ordering::SeqCst);
        self.undetected.store(u64::MAX, Ordering::SeqCst);
        self.answered.store(0, Ordering::SeqCst);
        self.detected.store(0, Ordering::SeqCst);
        self.count.store(count, Ordering::SeqCst);
    }

    fn take(&self, stage: Stage) {
        match stage {
            Stage::Begun { count } => self.begun(count),
            Stage::Claimed => {
                self.searches.fetch_add(1, Ordering::SeqCst);
            }
            Stage::Redundant => {
                self.redundant.fetch_add(1, Ordering::SeqCst);
            }
            Stage::Aborted => {
                self.aborted.fetch_add(1, Ordering::SeqCst);
            }
            Stage::Published { undetected } => self.published(undetected),
            Stage::Answered { count, detected } => self.answered(count, detected),
        }
    }

    /// Takes the line away, if there was one.
    pub fn end(&self) {
        if self.shown.load(Ordering::SeqCst) > 0 {
            let _ = eprint!(self.rt; "{GONE}");
        }
    }
}

impl<R: Runtime> Gate for Progress<'_, R> {
    fn at(&self, _worker: u32, stage: Stage) {
        if let Some(began) = &self.began {
            self.take(stage);
            self.show(began);
        }
    }
}
