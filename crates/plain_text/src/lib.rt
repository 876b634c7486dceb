//! Texts of bytes: how pieces of them are spelled, many of them in one buffer, and how far the numbers go that they give a command.
//!
//! Lists in one buffer stand one behind the other, by the place where each ends: two allocations, however many lists there are.
//!
//! Gives: `number`, `split_at`, `Texts`, `row`, `span`, `MOST_CHAINS`, `MOST_WORKERS`, `MOST_LIMIT`, `FEWEST_GATES`, `MOST_GATES`.
//! Proved: `number`, `split_at` exactly: the number of digits, the parts of a text at a mark; `row`, `span`: the list at a place, and where it begins and
//! ends; `Texts` exactly, as a list of texts; a limit is a number, and its word in `specs/` is the same number.
#![tactic(auto)]

mod limits;
mod spans;
mod spelling;
mod texts;

pub use limits::{FEWEST_GATES, MOST_CHAINS, MOST_GATES, MOST_LIMIT, MOST_WORKERS};
pub use spans::{row, span};
pub use spelling::{number, split_at};
pub use texts::Texts;
