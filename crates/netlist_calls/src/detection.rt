//! What patterns detect: the last one for each fault, how many, and which are needed for that.
ghost use Rattle.std.specs.Prelude.{ℕ, IfOk, OnOk};
ghost use Rattle.std.specs.List.{All};
ghost use Rattle.netlist.specs.Designs.{IsDesign};
ghost use Rattle.netlist.specs.Lines.{IsLineOf};
ghost use Rattle.statement.specs.declared.lines.Fault.{Fault as FaultOf};
ghost use Rattle.word_sim.specs.Words.{HasWidthsOf};

use crate::faults::{all_faults, listed};
use case_nets::{all_drawn, patterns_of};
use case_text::{Pushed, Said, cut_at, push_checksum};
use cubes::Pattern;
use detections::last_few_of;
use netlist::{Core, Fault, Netlist, Point};
use rand_pcg::Pcg32;
use std::alloc::{AllocError, Global};
use word_sim::{Hit, hits, last_tells};

/// What is told of patterns.
#[derive(Clone, Copy)]
pub enum Told {
    /// The last one of a batch that detects each fault, and its first point.
    Batch,
    /// The last one of all that detects each fault, and its first point.
    Last,
    /// How many detect each fault, counted to this number, and which are among the last so many of some fault.
    Times(u32),
}

fn push_found(to: &mut Said, found: Option<(u32, Point)>) {
    let Some((pattern, point)) = found else {
        return to.push("never\n");
    };
    to.push("pattern ");
    to.push_number(u64::from(pattern));
    match point {
        Point::Output(place) => to.push_count(" output ", u64::from(place)),
        Point::Cell(place) => to.push_count(" cell ", u64::from(place)),
    }
}

/// What the first hit says, if it is that of a place, and the hits behind it.
fn found_at(place: usize, hits: &[Hit]) -> (Option<(u32, Point)>, &[Hit]) {
    match hits {
        [hit, more @ ..] if hit.class as usize == place => (Some((hit.pattern, hit.point)), more),
        _ => (None, hits),
    }
}

/// Adds a line for each fault from its hit, if it has one; hits come in the order of the faults.
fn push_hits(to: &mut Said, count: usize, hits: &[Hit]) {
    let mut rest = hits;
    for place in 0..count {
        let (found, more) = found_at(place, rest);
        push_found(to, found);
        rest = more;
    }
}

/// Adds the fault of a text, if the list of faults has it.
fn push_listed(netlist: &Netlist, name: &str, faults: &mut Vec<Fault>) -> Pushed
    requires { All (λ (f : FaultOf). IsLineOf netlist.now f.line) faults.old.items }
    ensures { OnOk result (All (λ (f : FaultOf). IsLineOf netlist.now f.line) faults.new.items) }
{
    if let Some(fault) = listed(netlist, name) {
        faults.extend_from_slice(&[fault])?;
    }
    Ok(())
}

/// The faults of a text, parted by `, `, as far as the list of faults has them.
fn faults_of(alloc: Global, netlist: &Netlist, text: &str) -> Result<Vec<Fault>, AllocError>
    ensures { IfOk result (λ v. All (λ (f : FaultOf). IsLineOf netlist.now f.line) v.items) }
{
    let mut faults = Vec::new(alloc);
    for name in text.split(", ") {
        push_listed(netlist, name, &mut faults)?;
    }
    Ok(faults)
}

/// Each fault under its place.
fn placed(alloc: Global, core: &Core, faults: &[Fault]) -> Result<Vec<(u32, Fault)>, AllocError>
    requires { All (λ (f : FaultOf). IsLineOf core.now f.line) faults.now }
    ensures { IfOk result (λ v. All (λ (g : ℕ × FaultOf). IsLineOf core.now g.1.line) v.items) }
{
    let mut classes = Vec::with_capacity(alloc, faults.len())?;
    let mut place = 0u32;
    for fault in faults {
        classes.push((place, *fault))?;
        place = place.wrapping_add(1);
    }
    Ok(classes)
}

fn push_batch(to: &mut Said, core: &Core, faults: &[Fault], patterns: &[Pattern]) -> Pushed
    requires wide { All (HasWidthsOf core.now) patterns.now }
    requires lines { All (λ (f : FaultOf). IsLineOf core.now f.line) faults.now }
{
    if patterns.len() > 64 {
        to.push("more than 64 patterns\n");
        return Ok(());
    }
    let classes = placed(to.alloc, core, faults)?;
    match hits(to.alloc, core, patterns, &classes) {
        Ok(hits) => push_hits(to, faults.len(), &hits),
        Err(_) => return Err(AllocError),
    }
    Ok(())
}

fn push_last(to: &mut Said, core: &Core, faults: &[Fault], patterns: &[Pattern]) -> Pushed
    requires wide { All (HasWidthsOf core.now) patterns.now }
    requires lines { All (λ (f : FaultOf). IsLineOf core.now f.line) faults.now }
{
    if patterns.len() > 1_000_000 {
        to.push("more than 1000000 patterns\n");
        return Ok(());
    }
    let Ok(last) = last_tells(to.alloc, core, faults, patterns) else {
        return Err(AllocError);
    };
    for found in &last {
        push_found(to, *found);
    }
    Ok(())
}

/// Adds a line with each number, and one with a character for each mark: y where it stands.
fn push_times(to: &mut Said, times: &[u32], needed: &[bool]) {
    for count in times {
        to.push_count("", u64::from(*count));
    }
    to.push("needed ");
    push_marks(to, needed);
    to.push("\n");
}

fn push_marks(to: &mut Said, marks: &[bool]) {
    for mark in marks {
        to.push(if *mark { "y" } else { "n" });
    }
}

fn push_few(to: &mut Said, core: &Core, faults: &[Fault], patterns: &[Pattern], most: u32) -> Pushed
    requires wide { All (HasWidthsOf core.now) patterns.now }
    requires lines { All (λ (f : FaultOf). IsLineOf core.now f.line) faults.now }
{
    match last_few_of(to.alloc, core, faults, patterns, most) {
        Ok(found) => {
            push_times(to, &found.times, &found.needed);
            Ok(())
        }
        Err(_) => Err(AllocError),
    }
}

/// Adds what is to be told of these patterns for each of these faults.
fn push_told(
    to: &mut Said,
    core: &Core,
    faults: &[Fault],
    patterns: &[Pattern],
    told: Told,
) -> Pushed
    requires wide { All (HasWidthsOf core.now) patterns.now }
    requires lines { All (λ (f : FaultOf). IsLineOf core.now f.line) faults.now }
{
    match told {
        Told::Batch => push_batch(to, core, faults, patterns),
        Told::Last => push_last(to, core, faults, patterns),
        Told::Times(most) => push_few(to, core, faults, patterns, most),
    }
}

/// `hits FAULTS: PATTERNS`, `last FAULTS: PATTERNS`, `times MOST FAULTS: PATTERNS`.
pub fn push_detected(to: &mut Said, core: &Core, text: &str, told: Told) -> Pushed {
    let (names, texts) = cut_at(text, ": ");
    let faults = faults_of(to.alloc, core.netlist(), names)?;
    if faults.is_empty() && !matches!(told, Told::Times(_)) {
        to.push("no fault\n");
        return Ok(());
    }
    let patterns = patterns_of(to.alloc, core, texts)?;
    push_told(to, core, &faults, &patterns, told)
}

/// `drawn-hits SEED COUNT`, `drawn-last SEED COUNT`, `drawn-times SEED COUNT MOST`: the checksum of what so many drawn patterns say of all faults of
/// the list.
pub fn push_drawn(to: &mut Said, core: &Core, seed: u64, count: u32, told: Told) -> Pushed
    requires { IsDesign core.now }
{
    let faults = all_faults(to.alloc, core.netlist())?;
    let patterns = all_drawn(to.alloc, core, count, &mut Pcg32::new(seed, 54))?;
    let mut said = Said::new(to.alloc);
    push_told(&mut said, core, &faults, &patterns, told)?;
    push_checksum(to, "", &said.end()?);
    Ok(())
}
