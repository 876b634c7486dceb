//! The characters of words as bits and strobes.
ghost use Rattle.std.specs.Prelude.{◌≡◌, ◌++◌, map, OnOk};
ghost use Rattle.statement.specs.Tests.{driven_bit, strobed_value};
ghost use Rattle.stil_vectors.specs.FileVectors.{bits_of, values_of};

use netlist::Tri;
use std::alloc::AllocError;

/// The bit for which a character stands.
pub(crate) fn bit_of(b: u8) -> bool
    ensures { result ≡ driven_bit b }
{
    b == b'1'
}

/// The strobe for which a character stands.
pub(crate) fn value_of(b: u8) -> Tri
    ensures { result ≡ strobed_value b }
{
    match b {
        b'H' => Tri::One,
        b'L' => Tri::Zero,
        _ => Tri::X,
    }
}

/// Adds the bits of a word.
pub(crate) fn push_bits(bits: &mut Vec<bool>, word: &[u8]) -> Result<(), AllocError>
    ensures { OnOk result (bits.new.items ≡ bits.old.items ++ bits_of word.now) }
{
    for b in word {
        bits.push(bit_of(*b))?;
    }
    Ok(())
}

/// Adds the strobes of a word.
pub(crate) fn push_values(values: &mut Vec<Tri>, word: &[u8]) -> Result<(), AllocError>
    ensures { OnOk result (values.new.items ≡ values.old.items ++ values_of word.now) }
{
    for b in word {
        values.push(value_of(*b))?;
    }
    Ok(())
}
