//! The list of fault classes, with the evidence for each verdict and a journal of all events.
//!
//! Once it is settled, compaction in reverse order keeps only the patterns that are the last to detect some class.
//!
//! Gives: `FaultList`, `Claim`, `Over`, `Left`, `Settling`, `Goal`, `compact`, `Finished`, `needed`, `new_places`, `kept`.
//! Proved: each event of the fault list exactly; whatever events come, every verdict holds, the journal is legal and its replay is the list;
//! whether enough is detected for a goal; `compact`: exactly the patterns that are the last to detect some class, as each of them still is among
//! those that are kept, each class that some pattern detects at its new place, with its first point there; `needed`, `new_places`, `kept`: marks at
//! the places where some fault is last detected, the new places of marked elements, and these elements.
//! Tested: that it comes to these answers, by rows of `list_calls`; compaction is run by `run`.
#![tactic(auto)]

mod claims;
mod compaction;
mod fault_list;
mod goals;
mod hits;
mod keeping;
mod laws;
mod marks;
mod subjects;
mod verdicts;

pub use claims::{Claim, Left, Over};
pub use compaction::{Finished, compact, needed};
pub use fault_list::{FaultList, Settling};
pub use goals::Goal;
pub use keeping::{kept, new_places};
pub use laws::{every_interleaving, fresh_is_true, no_hit_is_redundant};
pub use subjects::About;
pub use verdicts::{Ended, Entry, Totals, Verdict};
