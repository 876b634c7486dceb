//! What all commands do alike: they read files in order, work, write files in order, and show a
//! text.
//!
//! A command says which names it reads and writes and what is due of the texts that it has read;
//! how it can end, and what it then leaves, is one table for all commands (`CommandRow`).
//!
//! What a program tells its user of how a command ends is a line each: a netlist that is refused, a file that can't be had or written.
//!
//! Gives: `Work`, `run_command`, `read_in_order`, `deliver`, `put_pieces`, `file_names`, `is_among`, `say`, `say_text`, `say_netlist`, `say_name`,
//! `say_failed_write`, `ending_code`.
//! Proved: `run_command`: reads in order, work, writes in order, output, each ending with its cause and what then stands, want of memory too; `deliver`:
//! the same for a command whose work may wait; the laws that each ending comes exactly where it should; `say` and those like it: the line on the error
//! output, or a prefix of it where that failed or was refused memory; `ending_code`: the number of a status.
#![tactic(auto)]

mod codes;
mod command;
mod delivering;
mod ending;
mod laws;
mod lines;
mod names;
mod pieces;
mod product;
mod reading;
mod writing;

pub use codes::{StatusCode, ending_code};
pub use command::{Work, run_command};
pub use delivering::deliver;
pub use ending::{Ending, Finding, WriteFailure};
pub use laws::{failed_exactly, missing_exactly, nothing_else, refused_exactly, too_long_exactly};
pub use lines::{say, say_failed_write, say_name, say_netlist, say_text};
pub use names::{FileName, file_names, is_among};
pub use pieces::put_pieces;
pub use product::{Product, Stop};
pub use reading::read_in_order;
