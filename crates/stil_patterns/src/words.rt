//! Words: bits and strobes as characters.
ghost use Rattle.std.specs.Prelude.{◌≡◌, ◌≤◌, ◌++◌, length, map, OnOk};
ghost use Rattle.statement.specs.Values.{known};
ghost use Rattle.statement.specs.Tests.{word_in, word_out, char_of_bit, char_of_value};
ghost use Rattle.statement.specs.Stils.{where_chained};
ghost use Rattle.stil_vectors.specs.TestFiles.{text_of_bits, text_of_values};

use netlist::Tri;
use scan_play::{bit_in, value_out};
use std::alloc::AllocError;
use tri::known;

pub(crate) fn char_of_bit(bit: bool) -> u8
    ensures { result ≡ char_of_bit bit }
{
    if bit { b'1' } else { b'0' }
}

/// The character of a strobe.
pub(crate) fn char_of_value(value: Tri) -> u8
    ensures { result ≡ char_of_value value }
{
    match value {
        Tri::Zero => b'L',
        Tri::One => b'H',
        Tri::X => b'X',
    }
}

pub(crate) fn push_bits(word: &mut Vec<u8>, bits: &[bool]) -> Result<(), AllocError>
    ensures { OnOk result (word.new.items ≡ word.old.items ++ text_of_bits bits.now) }
{
    for bit in bits {
        word.push(char_of_bit(*bit))?;
    }
    Ok(())
}

/// Adds strobes for these bits.
pub(crate) fn push_strobes(word: &mut Vec<u8>, bits: &[bool]) -> Result<(), AllocError>
    ensures { OnOk result (word.new.items ≡ word.old.items ++ text_of_values (map known bits.now)) }
{
    for bit in bits {
        word.push(char_of_value(known(*bit)))?;
    }
    Ok(())
}

/// Puts the word that brings these bits to a chain in the place of another.
pub(crate) fn set_word_in(word: &mut Vec<u8>, own: &[bool], m: usize) -> Result<(), AllocError>
    requires { length own.now ≤ m }
    ensures { OnOk result (word.new.items ≡ text_of_bits (word_in m own.now)) }
{
    word.clear();
    for t in 0..m {
        word.push(char_of_bit(bit_in(own, m, t)))?;
    }
    Ok(())
}

/// Puts the word that comes out of a chain that holds this in the place of another.
pub(crate) fn set_word_out(word: &mut Vec<u8>, own: &[Tri], m: usize) -> Result<(), AllocError>
    requires { length own.now ≤ m }
    ensures { OnOk result (word.new.items ≡ text_of_values (word_out m own.now)) }
{
    word.clear();
    for t in 0..m {
        word.push(char_of_value(value_out(own, m, t)))?;
    }
    Ok(())
}
