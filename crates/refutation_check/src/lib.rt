//! The independent check of refutations: whoever made the steps, by whatever search, each reason is looked at.
//!
//! Gives: `Checker`, which serves many faults of a netlist, `CheckRoom`, which it may stand in, and `check_refutation`; `RefutationFault`.
//! Proved: exactly whether the steps refute a fault under held inputs (`Refutes` of crate `refutation`), and the first one that doesn't hold; the law:
//! what is refused for a cause other than memory doesn't refute the fault.
//! Neither: time.
#![tactic(auto)]

mod bases;
mod checking;
mod checks;
mod cones;
mod faults;
mod gates;
mod images;
mod laws;
mod marks;
mod pair_sets;
mod reasons;
mod rooms;
mod sets;
mod starting;
mod sweeps;
mod ways;

pub use checking::{Checker, check_refutation};
pub use faults::RefutationFault;
pub use laws::refused_refutes_nothing;
pub use rooms::CheckRoom;
