//! The program: the real words, files and outputs, handed to `top`.
//!
//! Proved: it is safe; it has no contract of its own, so no wrong body of it can be refused.
//! Tested: that it hands the real words, files and outputs to `top`, by one stored run, `play` of s27 with a fault, and by the runs of
//! `tools/program_tests.py`.
//! Neither: what it says where the words can't be had; the line that shows how far a command is.
#![tactic(auto)]

mod progress;

use atpg_top::top;
use outside::{FolderShelf, OutSink, Sink};
use progress::Progress;
use std::process::ExitCode;
use std::{env, io};

/// The status and the line where the words can't be had: memory was refused, or one isn't UTF-8.
fn refusal(error: &io::Error) -> (u8, &'static str) {
    match error.kind() {
        io::ErrorKind::OutOfMemory => (9, "out of memory\n"),
        _ => (
            2,
            "error: a word is not UTF-8\n\nFor more information, try '--help'.\n",
        ),
    }
}

fn main(rt: HostRuntime) -> ExitCode {
    let alloc = rt.alloc();
    let mut err = OutSink::new(rt.stderr());
    let given = env::args(&rt).and_then(|given| Ok(given.collect(alloc)?));
    let words: Vec<String> = match given {
        Ok(words) => words,
        Err(error) => {
            let (status, line) = refusal(&error);
            let _ = err.put(line.as_bytes());
            return ExitCode::from(status);
        }
    };
    let mut shelf = FolderShelf::new(&rt);
    let mut out = OutSink::new(rt.stdout());
    let progress = Progress::new(&rt, words.as_slice());
    let status = top(
        &rt,
        alloc,
        words.as_slice(),
        &mut shelf,
        &mut out,
        &mut err,
        &progress,
    );
    progress.end();
    ExitCode::from(status)
}
