//! The calls of the input, by their first words.
ghost use Rattle.netlist.specs.Designs.{IsDesign};

use crate::by_events::push_changes;
use crate::cubes_of::{push_filled, push_merged};
use crate::detection::{Told, push_detected, push_drawn};
use crate::faults::{push_fault_of, push_first, push_observed_sums};
use crate::nets::{
    push_definition, push_eval, push_named, push_readers, push_refusal, push_signals, push_text,
};
use crate::scans::{push_chains, push_insert, push_pin_name, push_site};
use crate::searches::{By, push_search};
use crate::trees::{push_deep_tree, push_tree};
use crate::values::{push_gate, push_sample};
use case_nets::{design_core, scanned};
use case_text::{Args, Named, Pushed, Said, Script, cut, number, small, text_of};
use netlist::{Core, Netlist};
use std::alloc::{AllocError, Global};

/// A call on a netlist that asks for no memory but that of its answer.
fn show(to: &mut Said, core: &Core, verb: &str, name: &str) {
    let netlist = core.netlist();
    match verb {
        "signals" => push_signals(to, netlist),
        "readers" => push_readers(to, netlist, name),
        "definition" => push_definition(to, netlist, name),
        _ => push_named(to, netlist, "order", core.order()),
    }
}

/// A call on a netlist.
fn look(to: &mut Said, core: &Core, verb: &str, args: &Args<'_>) -> Pushed {
    match verb {
        "eval" => push_eval(to, core, args),
        "hits" => push_detected(to, core, args.all, Told::Batch),
        "last" => push_detected(to, core, args.all, Told::Last),
        "times" => push_detected(to, core, args.behind, Told::Times(small(args.first))),
        "search" => push_search(to, core, args, By::Podem),
        "search-fan" => push_search(to, core, args, By::Fan),
        "tree" => push_tree(to, core, args),
        "deep-tree" => push_deep_tree(to, core, args),
        "fault" => push_fault_of(to, core.netlist(), args.all),
        "pin-name" => push_pin_name(to, core.netlist(), small(args.all)),
        "signals" | "readers" | "definition" | "order" => {
            show(to, core, verb, args.all);
            Ok(())
        }
        _ => push_text(to, core.netlist(), true),
    }
}

/// A call on a design with numbers alone.
fn draw(to: &mut Said, core: &Core, verb: &str, args: &Args<'_>) -> Pushed
    requires { IsDesign core.now }
{
    let seed = number(args.first);
    let count = small(args.second);
    match verb {
        "events" => push_changes(to, core, seed, count),
        "drawn-hits" => push_drawn(to, core, seed, count, Told::Batch),
        "drawn-last" => push_drawn(to, core, seed, count, Told::Last),
        _ => push_drawn(to, core, seed, count, Told::Times(small(args.last))),
    }
}

/// A call on a design.
fn work(to: &mut Said, core: &Core, verb: &str, args: &Args<'_>) -> Pushed
    requires { IsDesign core.now }
{
    let netlist = core.netlist();
    let asked = small(args.first).max(1);
    match verb {
        "chains" => push_chains(to, netlist, asked),
        "insert" => push_insert(to, netlist, asked),
        "site" => push_site(to, netlist, asked, args.behind),
        "first-member" => push_first(to, netlist, small(args.first)),
        "observed" => push_observed_sums(to, core),
        "events" | "drawn-hits" | "drawn-last" | "drawn-times" => draw(to, core, verb, args),
        _ => look(to, core, verb, args),
    }
}

fn on_design(to: &mut Said, text: &[u8], verb: &str, rest: &str) -> Pushed {
    match design_core(to.alloc, text) {
        Ok(core) => work(to, &core, verb, &Args::of(rest)),
        Err(fault) => push_refusal(to, &fault),
    }
}

/// `read-scanned`: the canonical text of a netlist with any names.
fn on_scanned(to: &mut Said, text: &[u8]) -> Pushed {
    match scanned(to.alloc, text) {
        Ok(netlist) => push_text(to, &netlist, true),
        Err(fault) => push_refusal(to, &fault),
    }
}

/// A call that needs no netlist.
fn on_values(to: &mut Said, verb: &str, args: &Args<'_>) -> Pushed {
    let gates = small(args.second).clamp(16, 20_000);
    match verb {
        "gate" => push_gate(to, args),
        "merge" => push_merged(to, args.all),
        "fill" => push_filled(to, args),
        _ => push_sample(to, number(args.first), gates, verb == "generate"),
    }
}

/// Each line is a call.
#[derive(Drop)]
pub struct NetlistCalls;

impl Script for NetlistCalls {
    fn take(&mut self, alloc: Global, texts: &[Named], line: &str) -> Result<Vec<u8>, AllocError> {
        let mut to = Said::new(alloc);
        to.push_line(line);
        let (verb, rest) = cut(line);
        let args = Args::of(rest);
        let done = match verb {
            "gate" | "generate" | "generate-sum" | "fill" | "merge" => {
                on_values(&mut to, verb, &args)
            }
            "read-scanned" => on_scanned(&mut to, text_of(texts, rest)),
            _ => on_design(&mut to, text_of(texts, args.first), verb, args.behind),
        };
        done?;
        to.end()
    }
}
