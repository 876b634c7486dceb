//! How many patterns detect each fault, counted to a number, and which patterns are among the last so many: 64 after another from the last ones on,
//! over the faults for which there aren't enough yet.
ghost use Rattle.std.specs.Prelude.{◌≡◌, ◌+◌, ◌-◌, ◌≤◌, ◌<◌, false, List, drop, take, length, replicate, slice_index, vec_len, IfOk, OnOk};
ghost use Rattle.std.specs.List.{All, AllZip};
ghost use Rattle.netlist.specs.Lines.{IsLineOf};
ghost use Rattle.statement.specs.declared.lines.Fault.{Fault as FaultOf};
ghost use Rattle.statement.specs.Patterns.{Pattern as Bits};
ghost use Rattle.word_sim.specs.Words.{HasWidthsOf};
ghost use Rattle.detections.specs.Times.{AreNeededMarks, IsTimes};
ghost use Rattle.detections.specs.inner.Counting.{AreCounted, CountsOn};
ghost use Rattle.detections.specs.inner.Telling.{CanTell, IsReady};

use crate::counting::count_word;
use crate::telling::Teller;
use cubes::Pattern;
use netlist::{Core, Fault, NoMemory};
use std::alloc::{AllocError, Global};

/// For each fault how many patterns detect it, counted to a number, and for each pattern whether it is among the last so many that detect some fault.
#[derive(Drop)]
pub struct LastFew {
    pub times: Vec<u32>,
    pub needed: Vec<bool>,
}

/// Counts the patterns of a part for a fault, unless there are enough.
fn count_fault(
    teller: &mut Teller<'_>,
    core: &Core,
    part: &[Pattern],
    start: usize,
    fault: &Fault,
    most: u32,
    times: u32,
    needed: &mut Vec<bool>,
) -> u32
    requires can { CanTell core.now part.now teller.old }
    requires line { IsLineOf core.now fault.now.line }
    requires few { length part.now ≤ 64 }
    requires within { start + length part.now ≤ vec_len needed.old }
    ensures counted { (patterns : List Bits) → part.now ≡ take (length part.now) (drop start patterns)
        → CountsOn core.now patterns most start (start + length part.now) fault.now times result needed.old.items needed.new.items }
    ensures size { vec_len needed.new ≡ vec_len needed.old }
    ensures can { CanTell core.now part.now teller.new }
{
    if times == most {
        return times;
    }
    let word = teller.word(core, part, fault);
    count_word(word, start, start + part.len(), most, times, needed)
}

/// Counts the patterns of a part for each fault.
fn count_part(
    alloc: Global,
    teller: &mut Teller<'_>,
    core: &Core,
    patterns: &[Pattern],
    start: usize,
    end: usize,
    faults: &[Fault],
    most: u32,
    found: &mut LastFew,
) -> Result<(), AllocError>
    requires wide { All (HasWidthsOf core.now) patterns.now }
    requires lines { All (λ (f : FaultOf). IsLineOf core.now f.line) faults.now }
    requires order { start ≤ end }
    requires end { end ≤ length patterns.now }
    requires few { end ≤ start + 64 }
    requires ready { IsReady core.now teller.old }
    requires later { AreCounted core.now patterns.now most end faults.now found.old.times.items found.old.needed.items }
    ensures counted { OnOk result (AreCounted core.now patterns.now most start faults.now found.new.times.items found.new.needed.items) }
    ensures ready { OnOk result (IsReady core.now teller.new) }
{
    let part = &patterns[start..end];
    teller.begin(alloc, core, part)?;
    for k in 0..faults.len() {
        let times = found.times[k];
        let needed = &mut found.needed;
        found.times[k] = count_fault(teller, core, part, start, &faults[k], most, times, needed);
    }
    Ok(())
}

fn none_counted(alloc: Global, count: usize) -> Result<Vec<u32>, AllocError>
    ensures { IfOk result (λ v. v.items ≡ replicate count 0) }
{
    let mut times = Vec::with_capacity(alloc, count)?;
    for _done in 0..count {
        times.push(0)?;
    }
    Ok(times)
}

fn none_needed(alloc: Global, count: usize) -> Result<Vec<bool>, AllocError>
    ensures { IfOk result (λ v. v.items ≡ replicate count false) }
{
    let mut needed = Vec::with_capacity(alloc, count)?;
    for _done in 0..count {
        needed.push(false)?;
    }
    Ok(needed)
}

/// Counts 64 patterns after another, from the last ones on.
fn find_few(
    alloc: Global,
    core: &Core,
    faults: &[Fault],
    patterns: &[Pattern],
    most: u32,
) -> Result<LastFew, AllocError>
    requires wide { All (HasWidthsOf core.now) patterns.now }
    requires lines { All (λ (f : FaultOf). IsLineOf core.now f.line) faults.now }
    ensures times { IfOk result (λ r. AllZip (IsTimes core.now patterns.now most) faults.now r.times.items) }
    ensures needed { IfOk result (λ r. AreNeededMarks core.now patterns.now most faults.now r.needed.items) }
{
    let mut teller = Teller::new(alloc, core)?;
    let mut found = LastFew {
        times: none_counted(alloc, faults.len())?,
        needed: none_needed(alloc, patterns.len())?,
    };
    let mut end = patterns.len();
    while end > 0 {
        let start = if end > 64 { end - 64 } else { 0 };
        count_part(
            alloc,
            &mut teller,
            core,
            patterns,
            start,
            end,
            faults,
            most,
            &mut found,
        )?;
        end = start;
    }
    Ok(found)
}

/// For each fault how many patterns detect it, counted to a number, and for each pattern whether it is among the last so many that detect some fault.
pub fn last_few_of(
    alloc: Global,
    core: &Core,
    faults: &[Fault],
    patterns: &[Pattern],
    most: u32,
) -> Result<LastFew, NoMemory>
    requires wide { All (HasWidthsOf core.now) patterns.now }
    requires lines { All (λ (f : FaultOf). IsLineOf core.now f.line) faults.now }
    ensures times { IfOk result (λ r. AllZip (IsTimes core.now patterns.now most) faults.now r.times.items) }
    ensures needed { IfOk result (λ r. AreNeededMarks core.now patterns.now most faults.now r.needed.items) }
{
    find_few(alloc, core, faults, patterns, most).map_err(|_| NoMemory)
}

/// For each fault how many patterns detect it, counted to a number.
pub fn times_of(
    alloc: Global,
    core: &Core,
    faults: &[Fault],
    patterns: &[Pattern],
    most: u32,
) -> Result<Vec<u32>, NoMemory>
    requires wide { All (HasWidthsOf core.now) patterns.now }
    requires lines { All (λ (f : FaultOf). IsLineOf core.now f.line) faults.now }
    ensures { IfOk result (λ v. AllZip (IsTimes core.now patterns.now most) faults.now v.items) }
{
    let LastFew { times, .. } = last_few_of(alloc, core, faults, patterns, most)?;
    Ok(times)
}
