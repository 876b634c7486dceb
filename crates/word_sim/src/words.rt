//! The words of up to 64 patterns, a bit of each for every pattern.
ghost use Rattle.std.specs.Prelude.{◌≡◌, ◌≤◌, ◌<◌, length, slice_index, IfOk};
ghost use Rattle.std.specs.List.{All};
ghost use Rattle.statement.specs.Netlists.{signals};
ghost use Rattle.word_sim.specs.inner.Packed.{AreGoodFor};
ghost use Rattle.word_sim.specs.Words.{AreGoodWords, AreResponseWords, HasWidthsOf};

use crate::packing::{Part, packed};
use cubes::Pattern;
use netlist::{Core, NoMemory, SignalId};
use std::alloc::{AllocError, Global};
use std::marker::Model;

/// A word for each signal, of which bit j is its bit under pattern j.
#[derive(Drop)]
pub struct Words {
    words: Vec<u64>,
}

impl Model for Words {
    ghost use Rattle.std.specs.Prelude.{ℕ, List};

    ghost Value = { List ℕ };

    ghost view = { λ w. w.words.items };
}

impl Words {
    /// Bit j is the settled bit of the signal under pattern j.
    pub fn word(&self, signal: SignalId) -> u64
        requires { signal < length self.now }
        ensures { result ≡ slice_index self.now signal }
    {
        self.words[signal.index()]
    }
}

/// The words that settle without a fault.
pub(crate) fn settled_words(
    alloc: Global,
    core: &Core,
    patterns: &[Pattern],
) -> Result<Vec<u64>, AllocError>
    requires few { length patterns.now ≤ 64 }
    requires wide { All (HasWidthsOf core.now) patterns.now }
    ensures good { IfOk result (λ v. AreGoodFor core.now patterns.now v.items) }
    ensures words { IfOk result (λ v. AreGoodWords core.now patterns.now v.items) }
    ensures size { IfOk result (λ v. length v.items ≡ length (signals core.now)) }
{
    let netlist = core.netlist();
    let inputs = packed(alloc, Part::Inputs, patterns, netlist.inputs().len())?;
    let state = packed(alloc, Part::Cells, patterns, netlist.cells().len())?;
    let rule = events::Words { fault: None };
    let words = core.settle(alloc, &rule, &inputs, &state)?;
    Ok(words)
}

/// The words of at most 64 patterns, without a fault.
pub fn good64(alloc: Global, core: &Core, patterns: &[Pattern]) -> Result<Words, NoMemory>
    requires few { length patterns.now ≤ 64 }
    requires wide { All (HasWidthsOf core.now) patterns.now }
    ensures { IfOk result (AreGoodWords core.now patterns.now) }
{
    match settled_words(alloc, core, patterns) {
        Ok(words) => Ok(Words { words }),
        Err(_) => Err(NoMemory),
    }
}

/// What outputs and cells' pins show under up to 64 patterns: in each word bit j is the bit under pattern j.
#[derive(Drop)]
pub struct ResponseWords {
    pub outputs: Vec<u64>,
    pub cells: Vec<u64>,
}

fn response_words(
    alloc: Global,
    core: &Core,
    patterns: &[Pattern],
) -> Result<ResponseWords, AllocError>
    requires few { length patterns.now ≤ 64 }
    requires wide { All (HasWidthsOf core.now) patterns.now }
    ensures { IfOk result (λ r. AreResponseWords core.now patterns.now r.outputs.items r.cells.items) }
{
    let words = settled_words(alloc, core, patterns)?;
    let rule = events::Words { fault: None };
    let mut outputs = Vec::new(alloc);
    let mut cells = Vec::new(alloc);
    core.outs_into(&rule, &words, &mut outputs)?;
    core.next_into(&rule, &words, &mut cells)?;
    Ok(ResponseWords { outputs, cells })
}

/// The fault-free responses to at most 64 patterns.
pub fn response64(
    alloc: Global,
    core: &Core,
    patterns: &[Pattern],
) -> Result<ResponseWords, NoMemory>
    requires few { length patterns.now ≤ 64 }
    requires wide { All (HasWidthsOf core.now) patterns.now }
    ensures { IfOk result (λ r. AreResponseWords core.now patterns.now r.outputs.items r.cells.items) }
{
    match response_words(alloc, core, patterns) {
        Ok(words) => Ok(words),
        Err(_) => Err(NoMemory),
    }
}
