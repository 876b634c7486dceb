//! The outside: all that the program reads, writes and waits for goes through the traits of this
//! crate.
//!
//! - [`Shelf`]: files by their names.
//! - [`Sink`]: where bytes go, as the standard output.
//! - [`Gate`]: where a worker passes between its steps. A test holds workers there.
//!
//! Each shelf and sink has a count of failures. It rises by one where a read or a write fails and
//! nowhere else, so that no caller can make up a failure, try a failed call again or keep one to
//! itself: what answers `Failed` shows a count that rose, and all else one that stands. Some tell
//! their content too, and then a contract names the bytes.
//!
//! | | files | bytes | content |
//! |---|---|---|---|
//! | the real outside | [`FolderShelf`] | [`OutSink`] | files: not told; bytes: what the writer tells |
//! | in memory, fails at given calls | [`MemoryShelf`] | [`MemorySink`] | told |
//! | in memory, never fails | [`SureShelf`] | [`SureSink`] | told |
//!
//! Gives: `Shelf`, `Sink`, `Gate`, over memory, files and standard output.
//! Proved: each answer of a shelf or a sink has its cause: a content that is told, or a count of failures that rose by one; files and sinks in memory
//! exactly.
//! Tested: that real files and standard output hold what was written, by `outside_tests`.
#![tactic(auto)]

mod failing;
mod folder;
mod gate;
mod memory_shelf;
mod memory_sink;
mod out;
mod refusal;
mod shelf;
mod sink;
mod stored;
mod stream;
mod sure;

pub use failing::FailingCall;
pub use folder::FolderShelf;
pub use gate::{Gate, OpenGate, Stage};
pub use memory_shelf::MemoryShelf;
pub use memory_sink::MemorySink;
pub use out::OutSink;
pub use refusal::{ReadRefusal, WriteRefusal};
pub use shelf::Shelf;
pub use sink::Sink;
pub use sure::{SureShelf, SureSink};
