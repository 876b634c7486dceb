//! Patterns packed into words, a bit for each.
ghost use Rattle.std.specs.Prelude.{◌≡◌, ◌≢◌, ◌<◌, ◌≤◌, ℕ, false, length, nat_lt, slice_index, IfOk};
ghost use Rattle.std.specs.List.{All};
ghost use Rattle.statement.specs.Patterns.{Pattern as Bits};
ghost use Rattle.events.specs.Words.{bit_of};
ghost use Rattle.word_sim.specs.inner.Packed.{bits_in, ArePacked, IsColumn, IsUsed};

use cubes::Pattern;
use std::alloc::{AllocError, Global};

/// Which part of a pattern is packed: both are by the same code.
#[derive(Clone, Copy, PartialEq, Eq)]
pub(crate) enum Part {
    Inputs,
    Cells,
}

fn bits_in(part: Part, pattern: &Pattern) -> &[bool]
    ensures { result.now ≡ bits_in part pattern.now }
{
    match part {
        Part::Inputs => pattern.inputs(),
        Part::Cells => pattern.cells(),
    }
}

/// The word with one bit more, where the bit is 1.
fn with_bit(word: u64, j: usize, bit: bool) -> u64
    requires { j < 64 }
    ensures same { bit_of j word ≡ false → bit_of j result ≡ bit }
    ensures others { (i : ℕ) → i ≢ j → bit_of i result ≡ bit_of i word }
{
    if bit { word | (1u64 << j) } else { word }
}

/// The bits at one place of all patterns.
fn column(part: Part, patterns: &[Pattern], place: usize) -> u64
    requires few { length patterns.now ≤ 64 }
    requires wide { All (λ (p : Bits). place < length (bits_in part p)) patterns.now }
    ensures { IsColumn part patterns.now place (length patterns.now) result }
{
    let mut word = 0;
    for j in 0..patterns.len() {
        let bit = bits_in(part, &patterns[j])[place];
        word = with_bit(word, j, bit);
    }
    word
}

/// A word for each place.
pub(crate) fn packed(
    alloc: Global,
    part: Part,
    patterns: &[Pattern],
    width: usize,
) -> Result<Vec<u64>, AllocError>
    requires few { length patterns.now ≤ 64 }
    requires wide { All (λ (p : Bits). length (bits_in part p) ≡ width) patterns.now }
    ensures { IfOk result (λ v. ArePacked part patterns.now width v.items) }
{
    let mut words = Vec::with_capacity(alloc, width)?;
    for place in 0..width {
        words.push(column(part, patterns, place))?;
    }
    Ok(words)
}

/// The bits that patterns have: those below their count.
pub fn used_bits(count: usize) -> u64
    requires { count ≤ 64 }
    ensures { IsUsed count result }
{
    let mut word = 0;
    for j in 0..count {
        word = with_bit(word, j, true);
    }
    word
}
