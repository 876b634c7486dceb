//! The report of a run: what becomes of verdicts, patterns and points on the tester, and the numbers that follow.
//!
//! Gives: `subject_of`, `strobe_of`, `sight_of`, `counts_of`, `share_of`, `hold_lines`, `left_of`.
//! Proved: `subject_of`: all faults and their classes; `strobe_of`, `sight_of`: where a point is strobed for a pattern, and at which pin, exactly;
//! `counts_of`, `share_of`, `hold_lines`: a report's numbers and held inputs as they follow from the rest, exactly;
//! `left_of`: the faults whose evidence a certificate has, in order, exactly.
//! Tested: run by `run`.
#![tactic(auto)]

mod heads;
mod held;
mod left;
mod pins;
mod sights;
mod strobes;
mod subjects;

pub use heads::{Tally, counts_of, counts_with, share_of, tally_of};
pub use held::hold_lines;
pub use left::left_of;
pub use pins::pin_names;
pub use sights::{Sight, sight_of};
pub use strobes::{Strobe, strobe_of};
pub use subjects::{Subject, subject_of};
