//! Patterns by their texts, and drawn ones.
ghost use Rattle.std.specs.Prelude.{◌≡◌, IfOk, IfSome, length};
ghost use Rattle.std.specs.List.{All};
ghost use Rattle.word_sim.specs.Words.{HasWidthsOf};

use case_text::cut_at;
use cubes::Pattern;
use netlist::Core;
use rand_core::Rng;
use rand_pcg::Pcg32;
use std::alloc::{AllocError, Global};

/// The bits of digits; every other byte than a `1` is a 0.
pub fn bits(alloc: Global, digits: &str) -> Result<Vec<bool>, AllocError> {
    let mut bits = Vec::with_capacity(alloc, digits.len())?;
    for digit in digits.as_bytes() {
        bits.push(*digit == b'1')?;
    }
    Ok(bits)
}

/// Adds bits as digits.
pub fn push_bits(to: &mut Vec<u8>, bits: &[bool]) -> Result<(), AllocError> {
    for bit in bits {
        to.push(if *bit { b'1' } else { b'0' })?;
    }
    Ok(())
}

/// Adds a pattern as its text is.
pub fn push_pattern(to: &mut Vec<u8>, pattern: &Pattern) -> Result<(), AllocError> {
    push_bits(to, pattern.inputs())?;
    to.push(b'/')?;
    push_bits(to, pattern.cells())
}

/// The pattern of a text, `-` for no bits; nothing where it isn't as wide as the netlist.
fn pattern_of(alloc: Global, core: &Core, text: &str) -> Result<Option<Pattern>, AllocError>
    ensures { IfOk result (λ p. IfSome p (HasWidthsOf core.now)) }
{
    let (inputs, cells) = cut_at(text, "/");
    let inputs = bits(alloc, inputs)?;
    let cells = bits(alloc, cells)?;
    if inputs.len() != core.netlist().inputs().len() {
        return Ok(None);
    }
    if cells.len() != core.netlist().cells().len() {
        return Ok(None);
    }
    Ok(Some(Pattern::new(inputs, cells)))
}

/// The patterns of a text, parted by blanks, up to the first one that isn't as wide as the netlist.
pub fn patterns_of(alloc: Global, core: &Core, text: &str) -> Result<Vec<Pattern>, AllocError>
    ensures { IfOk result (λ v. All (HasWidthsOf core.now) v.items) }
{
    let mut patterns = Vec::new(alloc);
    for word in text.split(' ') {
        let Some(pattern) = pattern_of(alloc, core, word)? else {
            return Ok(patterns);
        };
        patterns.push(pattern)?;
    }
    Ok(patterns)
}

fn drawn_bits(alloc: Global, count: usize, random: &mut Pcg32) -> Result<Vec<bool>, AllocError>
    ensures { IfOk result (λ v. length v.items ≡ count) }
{
    let mut bits = Vec::with_capacity(alloc, count)?;
    for _done in 0..count {
        bits.push(random.next_u32() % 2 == 1)?;
    }
    Ok(bits)
}

/// A pattern for a netlist; `bench/measure/timings` draws by it too.
pub fn drawn(alloc: Global, core: &Core, random: &mut Pcg32) -> Result<Pattern, AllocError>
    ensures { IfOk result (HasWidthsOf core.now) }
{
    let inputs = drawn_bits(alloc, core.netlist().inputs().len(), random)?;
    let cells = drawn_bits(alloc, core.netlist().cells().len(), random)?;
    Ok(Pattern::new(inputs, cells))
}

/// So many drawn patterns.
pub fn all_drawn(
    alloc: Global,
    core: &Core,
    count: u32,
    random: &mut Pcg32,
) -> Result<Vec<Pattern>, AllocError>
    ensures { IfOk result (λ v. All (HasWidthsOf core.now) v.items) }
{
    let mut patterns = Vec::new(alloc);
    for _done in 0..count {
        patterns.push(drawn(alloc, core, random)?)?;
    }
    Ok(patterns)
}
