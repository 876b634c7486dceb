//! Test patterns, and cubes: patterns some of whose bits are left open, which are merged into fewer and then filled.
//!
//! Gives: `Pattern`, `Cube`, `open_cube`, `merge`, `fill`, `fill_all`.
//! Proved: `merge`: each cube joins the first result that it doesn't contradict; `fill`: agrees with its cube, and takes its bits in order; `fill_all`:
//! so does each pattern, from the words that those before it leave.
#![tactic(auto)]

mod filling;
mod merging;
mod opening;
mod patterns;

pub use filling::{fill, fill_all};
pub use merging::merge;
pub use opening::open_cube;
pub use patterns::{Cube, Pattern};
