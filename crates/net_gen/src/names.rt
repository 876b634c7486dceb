//! The names of a sample netlist.
ghost use Rattle.std.specs.Prelude.{◌≡◌, ◌++◌, OnOk, IfOk};
ghost use Rattle.net_gen.specs.Samples.{lettered_names};

use itoa::Buffer;
use netlist::NameTable;
use std::alloc::{AllocError, Global};

/// Adds a letter before each number below the count.
pub fn add_names(
    names: &mut NameTable,
    text: &mut Vec<u8>,
    letter: u8,
    count: u32,
) -> Result<(), AllocError>
    ensures { OnOk result (names.new ≡ names.old ++ lettered_names letter count) }
{
    for number in 0..count {
        let mut buffer = Buffer::new();
        text.clear();
        text.push(letter)?;
        text.extend_from_slice(buffer.format(number).as_bytes())?;
        names.push(text)?;
    }
    Ok(())
}

/// The names of inputs, cells and gates.
pub(crate) fn all_names(alloc: Global, cells: u32, gates: u32) -> Result<NameTable, AllocError>
    ensures { IfOk result (λ names. names ≡ lettered_names 105 8 ++ (lettered_names 113 cells ++ lettered_names 103 gates)) }
{
    let mut names = NameTable::new(alloc);
    let mut text = Vec::new(alloc);
    add_names(&mut names, &mut text, b'i', 8)?;
    add_names(&mut names, &mut text, b'q', cells)?;
    add_names(&mut names, &mut text, b'g', gates)?;
    Ok(names)
}
