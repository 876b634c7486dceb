//! Sample netlists, drawn from a seed.
//!
//! Gives: `generate`, `add_names`.
//! Proved: `generate` is the rule of docs/SAMPLE_NETLISTS.md; its netlists are sound and may be scanned; `add_names`: a letter before each number below a count.
//! Tested: the generator's published words.
#![tactic(auto)]

mod draws;
mod names;
mod samples;

pub use names::add_names;
pub use samples::{generate, samples_are_designs, samples_are_sound};
