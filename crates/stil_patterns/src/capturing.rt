//! Vectors that capture.
ghost use Rattle.std.specs.Prelude.{◌≡◌, ◌++◌, ◌∷◌, [], codes, false, length, map, replicate, OnOk};
ghost use Rattle.statement.specs.declared.kinds.Tri.TheVariants.{X};
ghost use Rattle.statement.specs.Values.{known};
ghost use Rattle.statement.specs.Tests.{Response, capture_item, char_of_value};
ghost use Rattle.statement.specs.Stils.{where_chained};
ghost use Rattle.stil_vectors.specs.TestFiles.{launch_item, text_of_bits, text_of_values};

use crate::loading::Room;
use crate::words::{push_bits, push_strobes};
use cubes::Pattern;
use scan_insert::Chains;
use std::alloc::AllocError;
use stil_write::{ItemKind, Items, Texts};

/// Adds so many copies of a word.
fn push_copies(words: &mut Texts, count: usize, word: &[u8]) -> Result<(), AllocError>
    ensures { OnOk result (words.new ≡ words.old ++ replicate count word.now) }
{
    for _ in 0..count {
        words.push(word)?;
    }
    Ok(())
}

/// Adds the word for the inputs: the pattern's bits, and 0 for the scan enable where there are chains.
fn push_inputs(room: &mut Room, chains: usize, inputs: &[bool]) -> Result<(), AllocError>
    ensures { OnOk result (room.new.words ≡ room.old.words ++ text_of_bits (inputs.now ++ where_chained chains false) ∷ []) }
{
    room.word.clear();
    push_bits(&mut room.word, inputs)?;
    if chains > 0 {
        room.word.push(b'0')?;
    }
    room.words.push(&room.word)?;
    Ok(())
}

/// Adds the word that strobes the outputs.
fn push_outputs(room: &mut Room, outputs: &[bool]) -> Result<(), AllocError>
    ensures { OnOk result (room.new.words ≡ room.old.words ++ text_of_values (map known outputs.now) ∷ []) }
{
    room.word.clear();
    push_strobes(&mut room.word, outputs)?;
    room.words.push(&room.word)?;
    Ok(())
}

/// Adds a capture, which strobes these outputs.
pub fn push_capture(
    items: &mut Items,
    room: &mut Room,
    chains: &Chains,
    pattern: &Pattern,
    outputs: &[bool],
) -> Result<(), AllocError>
    ensures { OnOk result ((r : Response) → r.outputs ≡ outputs.now → items.new ≡ items.old ++ capture_item chains.now pattern.now r ∷ []) }
{
    let count = chains.count() as usize;
    room.words.clear();
    push_inputs(room, count, pattern.inputs())?;
    push_copies(&mut room.words, count, b"0")?;
    push_copies(&mut room.words, count.min(1), b"P")?;
    push_outputs(room, outputs)?;
    push_copies(&mut room.words, count, b"X")?;
    items.push(ItemKind::Vector, &room.words)?;
    Ok(())
}

/// Adds the characters that strobe none of so many outputs.
fn push_unstrobed(word: &mut Vec<u8>, count: usize) -> Result<(), AllocError>
    ensures { OnOk result (word.new.items ≡ word.old.items ++ replicate count (char_of_value X)) }
{
    for _ in 0..count {
        word.push(b'X')?;
    }
    Ok(())
}

/// Adds the word that strobes none of so many outputs.
fn push_no_strobes(room: &mut Room, outputs: usize) -> Result<(), AllocError>
    ensures { OnOk result (room.new.words ≡ room.old.words ++ text_of_values (replicate outputs X) ∷ []) }
{
    room.word.clear();
    push_unstrobed(&mut room.word, outputs)?;
    room.words.push(&room.word)?;
    Ok(())
}

/// Adds a launch, which strobes none of so many outputs.
pub fn push_launch(
    items: &mut Items,
    room: &mut Room,
    chains: &Chains,
    pattern: &Pattern,
    outputs: usize,
) -> Result<(), AllocError>
    ensures { OnOk result (items.new ≡ items.old ++ launch_item outputs chains.now pattern.now ∷ []) }
{
    let count = chains.count() as usize;
    room.words.clear();
    push_inputs(room, count, pattern.inputs())?;
    push_copies(&mut room.words, count, b"0")?;
    push_copies(&mut room.words, count.min(1), b"P")?;
    push_no_strobes(room, outputs)?;
    push_copies(&mut room.words, count, b"X")?;
    items.push(ItemKind::Vector, &room.words)?;
    Ok(())
}
