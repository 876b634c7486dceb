//! Who goes over which faults, where several go over many beside each other.
//!
//! One propagation from the head of a fanout-free region tells all faults of the region, so they stay together. Heads are dealt out by a few in a row:
//! neighbours are near each other in the netlist, and what they reach overlaps. Cut into parts in a row the faults would take the parts unequally long.
ghost use Rattle.std.specs.Prelude.{◌≡◌, ◌<◌, ◌≤◌, ◌^◌, ℕ, length, IfOk, OnOk};
ghost use Rattle.std.specs.List.{All};
ghost use Rattle.worker.specs.inner.Dealing.{dealt, dealt_hits, part_of, site};

use netlist::{Core, Fault, Line, NoMemory};
use regions::Paths;
use std::alloc::Global;

/// So many heads in a row go to one part.
const NEIGHBOURS: usize = 16;

/// For each signal the part of its head.
#[derive(Drop)]
pub(crate) struct Deal {
    numbers: Vec<u32>,
    parts: u32,
    ghost some: { 0 < parts },
    ghost within: { All (λ (p : ℕ). p < parts) numbers.items },
}

/// The signal at which a line stands.
fn site_of(line: &Line) -> usize
    ensures { result ≡ site line.now }
{
    match line {
        Line::Stem(x) => x.index(),
        Line::Pin(z, _) => z.index(),
        Line::Out(o) => o.index(),
    }
}

/// The parts of the heads.
fn numbers_of(alloc: Global, paths: &Paths, parts: u32) -> Result<Vec<u32>, NoMemory>
    requires { 0 < parts }
    ensures { IfOk result (λ v. All (λ (p : ℕ). p < parts) v.items) }
{
    let mut numbers = Vec::with_capacity(alloc, paths.heads.len())?;
    for head in &paths.heads {
        numbers.push((head.index() / NEIGHBOURS % parts as usize) as u32)?;
    }
    Ok(numbers)
}

impl Deal {
    /// The signals of a netlist for so many parts.
    pub(crate) fn new(alloc: Global, core: &Core, parts: u32) -> Result<Deal, NoMemory>
        requires { 0 < parts }
        ensures { IfOk result (λ d. d.parts ≡ parts) }
    {
        let mut paths = Paths::new(alloc, core.netlist())?;
        let zeros = vec![in alloc; 0u64; paths.heads.len()]?;
        paths.open(core, &zeros);
        let numbers = numbers_of(alloc, &paths, parts)?;
        Ok(Deal { numbers, parts })
    }

    /// The part of a fault.
    #[inline(always)]
    pub(crate) fn part(&self, fault: &Fault) -> usize
        ensures value { result ≡ part_of self.now.numbers.items fault.now }
        ensures within { result < self.now.parts }
    {
        match self.numbers.get(site_of(&fault.line)) {
            Some(number) => *number as usize,
            None => 0,
        }
    }

    /// Of these faults those of a part, in their order.
    pub(crate) fn faults(
        &self,
        alloc: Global,
        number: usize,
        faults: &[Fault],
    ) -> Result<Vec<Fault>, NoMemory>
        ensures { IfOk result (λ v. v.items ≡ dealt self.now.numbers.items number faults.now) }
    {
        let mut own = Vec::new(alloc);
        for fault in faults {
            if self.part(fault) == number {
                own.push(*fault)?;
            }
        }
        Ok(own)
    }

    /// The same of faults that have numbers. Those that are dealt have their places as numbers.
    pub(crate) fn deal(
        &self,
        number: usize,
        given: &[(u32, Fault)],
        own: &mut Vec<(u32, Fault)>,
    ) -> Result<(), NoMemory>
        requires { length given.now ≤ 2 ^ 32 }
        ensures { OnOk result (own.new.items ≡ dealt_hits self.now.numbers.items number 0 given.now) }
    {
        own.clear();
        for place in 0..given.len() {
            let fault = given[place].1;
            if self.part(&fault) == number {
                own.push((place as u32, fault))?;
            }
        }
        Ok(())
    }
}
