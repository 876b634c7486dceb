//! What is told of a run.
use crate::case::Case;
use crate::files::{is_named, keep_files};
use crate::runs::{Program, Ran};
use crate::showing::{push_given, push_made, push_output};
use case_text::{Pushed, Said, cut, show};

/// What a line asks to be run: words, and whose files are kept for the runs that follow.
#[derive(Clone, Copy)]
pub(crate) struct Asked<'a> {
    pub line: &'a str,
    pub program: Program,
    pub words: &'a str,
    prefix: Option<&'a str>,
}

/// `run WORDS`, `keep PREFIX WORDS`, `meet WORDS` or `check WHAT`.
pub(crate) fn asked_of(line: &str) -> Asked<'_> {
    let (verb, rest) = cut(line);
    let (first, behind) = cut(rest);
    let (program, words) = match verb {
        "check" => (Program::Check, "atpg-check p"),
        "meet" => (Program::Meeting, rest),
        "keep" => (Program::Whole, behind),
        _ => (Program::Whole, rest),
    };
    Asked {
        line,
        program,
        words,
        prefix: if verb == "keep" { Some(first) } else { None },
    }
}

/// Adds the status and the outputs.
pub(crate) fn push_answer(to: &mut Said, case: &Case, ran: &Ran) {
    to.push_count("status ", u64::from(ran.status));
    push_output(to, "out", &ran.out, &case.out_as);
    push_output(to, "err", &ran.err, &case.err_as);
}

/// Adds the further files that the words of a line name.
fn push_all_made(to: &mut Said, case: &Case, ran: &Ran, words: &str) {
    for word in words.split(' ') {
        if !is_named(&case.files, word) {
            push_made(to, &ran.shelf, word);
        }
    }
}

/// Adds the words of a run and what it has left.
fn push_left(to: &mut Said, case: &Case, ran: &Ran, words: &str) {
    to.push("run ");
    to.push_line(words);
    push_answer(to, case, ran);
    for file in &case.files {
        push_given(to, &ran.shelf, file);
    }
    push_all_made(to, case, ran, words);
    to.push_count("files ", ran.shelf.file_count() as u64);
}

/// Adds the line, the status and the line that the check ends with.
fn push_checked(to: &mut Said, ran: &Ran, line: &str) {
    to.push_line(line);
    to.push_count("status ", u64::from(ran.status));
    show(to, ran.out.bytes());
    show(to, ran.err.bytes());
}

/// Adds what came of a run, and keeps the files that are to be kept.
pub(crate) fn tell(to: &mut Said, case: &mut Case, ran: &Ran, asked: &Asked<'_>) -> Pushed {
    match asked.program {
        Program::Check => push_checked(to, ran, asked.line),
        Program::Meeting => {
            push_left(to, case, ran, asked.words);
            to.push_line(if ran.has_met { "met" } else { "not met" });
        }
        Program::Whole => push_left(to, case, ran, asked.words),
    }
    match asked.prefix {
        Some(prefix) => keep_files(&mut case.files, to.alloc, &ran.shelf, prefix),
        None => Ok(()),
    }
}
