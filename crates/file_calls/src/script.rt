//! The calls of the input, by their first words.
ghost use Rattle.netlist.specs.Designs.{IsDesign};

use crate::certificates::push_certificate;
use crate::reports::{push_changed, push_report};
use crate::stil_files::{push_applied, push_drawn_file, push_stil};
use crate::wrong::push_wrong;
use bench_text::BenchFault;
use case_nets::{design_core, scanned_core};
use case_text::{Args, Named, Pushed, Said, Script, cut, text_of};
use netlist::Core;
use std::alloc::{AllocError, Global};

/// A call on files for a design.
fn on_core(to: &mut Said, texts: &[Named], core: &Core, verb: &str, rest: &str) -> Pushed
    requires { IsDesign core.now }
{
    let args = Args::of(rest);
    let text = text_of(texts, args.first);
    match verb {
        "certificate" => push_certificate(to, core, text, true),
        "certificate-sum" => push_certificate(to, core, text, false),
        "applied" => push_applied(to, core, &args, text),
        "drawn-stil" => push_drawn_file(to, core, &args),
        _ => push_stil(to, core, verb, rest),
    }
}

/// Adds that a text is no netlist.
fn push_refusal(to: &mut Said, fault: &BenchFault) -> Pushed {
    match fault {
        BenchFault::Refused(_) => {
            to.push("no netlist\n");
            Ok(())
        }
        BenchFault::NoMemory => Err(AllocError),
    }
}

fn on_design(to: &mut Said, texts: &[Named], verb: &str, args: &Args<'_>) -> Pushed {
    match design_core(to.alloc, text_of(texts, args.first)) {
        Ok(core) => on_core(to, texts, &core, verb, args.behind),
        Err(fault) => push_refusal(to, &fault),
    }
}

/// `first-wrong`: a call for a netlist with any names, a file and a fault.
fn on_tested(to: &mut Said, texts: &[Named], args: &Args<'_>) -> Pushed {
    match scanned_core(to.alloc, text_of(texts, args.first)) {
        Ok(core) => push_wrong(to, &core, text_of(texts, args.second), args.last),
        Err(fault) => push_refusal(to, &fault),
    }
}

/// Each line is a call.
#[derive(Drop)]
pub struct FileCalls;

impl Script for FileCalls {
    fn take(&mut self, alloc: Global, texts: &[Named], line: &str) -> Result<Vec<u8>, AllocError> {
        let mut to = Said::new(alloc);
        to.push_line(line);
        let (verb, rest) = cut(line);
        let args = Args::of(rest);
        let done = match verb {
            "report" => push_report(&mut to, text_of(texts, args.first)),
            "report-with" => push_changed(&mut to, text_of(texts, args.first), args.behind),
            "first-wrong" => on_tested(&mut to, texts, &args),
            _ => on_design(&mut to, texts, verb, &args),
        };
        done?;
        to.end()
    }
}
