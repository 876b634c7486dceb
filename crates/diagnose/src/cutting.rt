//! The cycles before the end of a log.
ghost use Rattle.std.specs.Prelude.{◌≡◌, ◌≤◌, ◌<◌, take, IfOk};
ghost use Rattle.scan_play.specs.Bursts.{cycles_of};
ghost use Rattle.diagnose.specs.Explaining.{told_cycles};

use scan_play::{Burst, Vectors};
use std::alloc::{AllocError, Global};

/// How many cycles of a burst are among the first ones.
fn part_of(burst: &Burst, first: u64) -> usize
    ensures within { result ≤ burst.now.count }
    ensures few { result ≤ first }
    ensures all { result < first → result ≡ burst.now.count }
{
    if first < burst.count as u64 {
        first as usize
    } else {
        burst.count
    }
}

/// The first cycles of a burst, as a burst.
fn first_of(alloc: Global, burst: &Burst, count: usize) -> Result<Burst, AllocError>
    requires { count ≤ burst.now.count }
    ensures { IfOk result (λ first. cycles_of first ≡ take count (cycles_of burst.now)) }
{
    Ok(Burst {
        drive: Vec::from_slice(alloc, &burst.drive)?,
        strobe: Vec::from_slice(alloc, &burst.strobe)?,
        pulse: burst.pulse,
        width: burst.width,
        ins: Vec::from_slice(alloc, &burst.ins)?,
        outs: Vec::from_slice(alloc, &burst.outs)?,
        count,
    })
}

/// So many cycles, or all where there are fewer.
fn first_cycles(alloc: Global, vectors: &Vectors, count: u64) -> Result<Vectors, AllocError>
    ensures { IfOk result (λ first. first ≡ take count vectors.now) }
{
    let mut bursts = Vec::new(alloc);
    let mut left = count;
    for burst in vectors.bursts() {
        if left == 0 {
            return Ok(Vectors::new(bursts));
        }
        let part = part_of(burst, left);
        bursts.push(first_of(alloc, burst, part)?)?;
        left -= part as u64;
    }
    Ok(Vectors::new(bursts))
}

/// The cycles of which a log with this end tells.
pub(crate) fn told(alloc: Global, vectors: Vectors, end: Option<u64>) -> Result<Vectors, AllocError>
    ensures { IfOk result (λ told. told ≡ told_cycles end vectors) }
{
    match end {
        Some(end) => first_cycles(alloc, &vectors, end),
        None => Ok(vectors),
    }
}
