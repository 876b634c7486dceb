//! A case as it is told: its files, the calls that fail, and how its outputs are shown.
use crate::showing::{Cycles, Showing};
use case_text::{Args, Named, Pushed, Said, cut, number, small, text_of};
use outside::FailingCall;
use std::alloc::Global;

/// What runs are over.
#[derive(Drop)]
pub(crate) struct Case {
    pub files: Vec<Named>,
    pub shelf: Vec<FailingCall>,
    pub out: Vec<FailingCall>,
    pub err: Vec<FailingCall>,
    pub out_as: Showing,
    pub err_as: Showing,
}

impl Case {
    pub(crate) fn new(alloc: Global) -> Case {
        Case {
            files: Vec::new(alloc),
            shelf: Vec::new(alloc),
            out: Vec::new(alloc),
            err: Vec::new(alloc),
            out_as: Showing::Whole,
            err_as: Showing::Whole,
        }
    }
}

/// Adds a call that fails: its number, and how many bytes it has taken before.
pub(crate) fn push_failing(to: &mut Vec<FailingCall>, line: &str) -> Pushed {
    let (call, kept) = cut(line);
    to.push(FailingCall {
        number: number(call),
        kept: small(kept) as usize,
    })?;
    Ok(())
}

/// How an output is to be shown.
pub(crate) fn showing_of(line: &str) -> Showing {
    let args = Args::of(line);
    let cycles = Cycles {
        each: number(args.second),
        more: number(args.last),
    };
    match args.first {
        "sum" => Showing::Sum,
        "hidden" => Showing::Hidden,
        "totals" => Showing::Totals,
        "cycles" => Showing::Cycles(cycles),
        "sweep" => Showing::Sweep(cycles),
        _ => Showing::Whole,
    }
}

/// Puts texts on the shelf, one behind the other, as a file: `NAME TEXT..`.
pub(crate) fn add_file(
    files: &mut Vec<Named>,
    alloc: Global,
    texts: &[Named],
    line: &str,
) -> Pushed {
    let (name, parts) = cut(line);
    let mut text = Said::new(alloc);
    for part in parts.split(' ') {
        text.push_bytes(text_of(texts, part));
    }
    let name = String::from_str(alloc, name)?;
    let text = text.end()?;
    files.push(Named { name, text })?;
    Ok(())
}
