//! Sample netlists.
ghost use Rattle.std.specs.Prelude.{◌≡◌, ◌+◌, ◌^◌, ◌<◌, ◌≤◌, IfOk};
ghost use Rattle.std.specs.List.{range_with_len};
ghost use Rattle.plain_text.specs.Limits.{fewest_gates, most_gates};
ghost use Rattle.netlist.specs.Conditions.{whole};
ghost use Rattle.net_gen.specs.Samples.{sample, words_from_seed};
ghost use Rattle.net_gen.specs.Laws.{SamplesAreDesigns, SamplesAreSound};

use crate::draws::{draw_cells, draw_gates};
use crate::names::all_names;
use netlist::{NetRefusal, Netlist, NoMemory, Parts, SignalId};
use rand_core::Rng;
use rand_pcg::Lcg64Xsh32;
use std::alloc::{AllocError, Global};

const INPUTS: u32 = 8;

const OUTPUTS: u32 = 8;

/// So many ids, from this one on.
fn ids(alloc: Global, first: u32, count: u32) -> Result<Vec<SignalId>, AllocError>
    requires { first + count < 2 ^ 32 }
    ensures { IfOk result (λ ids. ids.items ≡ range_with_len first count) }
{
    let mut ids = Vec::with_capacity(alloc, count as usize)?;
    for k in 0..count {
        ids.push(SignalId(first + k))?;
    }
    Ok(ids)
}

/// The parts of a sample netlist.
fn draw_parts<R: Rng>(alloc: Global, gates: u32, rng: &mut R) -> Result<Parts, AllocError>
    requires least { fewest_gates ≤ gates }
    requires most { gates ≤ most_gates }
    ensures { IfOk result (λ parts. whole parts ≡ sample gates (R.stream rng.old)) }
{
    let cells = gates / 8;
    let first_gate = INPUTS + cells;
    let mut drawn = draw_gates(alloc, first_gate, gates, rng)?;
    let mut definitions = draw_cells(alloc, cells, INPUTS, first_gate, gates, rng)?;
    definitions.append(&mut drawn)?;
    Ok(Parts {
        names: all_names(alloc, cells, gates)?,
        inputs: ids(alloc, 0, INPUTS)?,
        outputs: ids(alloc, first_gate + gates - OUTPUTS, OUTPUTS)?,
        definitions,
    })
}

/// The sample netlist of a seed, with so many gates and an eighth as many cells.
pub fn generate(alloc: Global, seed: u64, gates: u32) -> Result<Netlist, NoMemory>
    requires least { fewest_gates ≤ gates }
    requires most { gates ≤ most_gates }
    ensures { IfOk result (λ netlist. netlist ≡ sample gates (words_from_seed seed)) }
{
    let parts = draw_parts(alloc, gates, &mut Lcg64Xsh32::new(seed, 54))?;
    match Netlist::new(alloc, parts) {
        Ok(netlist) => Ok(netlist),
        // A sample is never refused for what it is.
        Err(refusal) => match refusal {
            NetRefusal::NoMemory => Err(NoMemory),
            _ => unreachable!(),
        },
    }
}

/// Every sample netlist meets all that is asked of a netlist.
pub fn samples_are_sound()
    ensures { SamplesAreSound }
{}

/// Every sample netlist may be scanned.
pub fn samples_are_designs()
    ensures { SamplesAreDesigns }
{}
