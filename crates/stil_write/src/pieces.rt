//! The lines of a STIL text.
ghost use Rattle.std.specs.Prelude.{◌≡◌, ◌++◌, ◌<◌, length, OnOk, codes, decimal};
ghost use Rattle.stil_write.specs.StilFiles.{item_at, words_of, item_kind};
ghost use Rattle.stil_write.specs.Pieces.{assignment, chain_head, expression, item_line, opening, signal_line, signal_lines, targets, waveform_line, waveform_lines};
ghost use Rattle.statement.specs.Stils.{assignments, chain_block, chain_blocks, group_line, item_text, joined, quoted};

use crate::items::{ItemKind, Items};
use itoa::Buffer;
use plain_text::Texts;
use std::alloc::AllocError;

fn push_number(out: &mut Vec<u8>, number: usize) -> Result<(), AllocError>
    ensures { OnOk result (out.new.items ≡ out.old.items ++ decimal number) }
{
    out.extend_from_slice(Buffer::new().format(number).as_bytes())?;
    Ok(())
}

/// Adds a name in quotes.
fn push_quoted(out: &mut Vec<u8>, name: &[u8]) -> Result<(), AllocError>
    ensures { OnOk result (out.new.items ≡ out.old.items ++ quoted name.now) }
{
    out.extend_from_slice(b"\"")?;
    out.extend_from_slice(name)?;
    out.extend_from_slice(b"\"")?;
    Ok(())
}

/// Adds a name that ends in a number, in quotes.
fn push_quoted_number(out: &mut Vec<u8>, stem: &[u8], number: usize) -> Result<(), AllocError>
    ensures { OnOk result (out.new.items ≡ out.old.items ++ quoted (stem.now ++ decimal number)) }
{
    out.extend_from_slice(b"\"")?;
    out.extend_from_slice(stem)?;
    push_number(out, number)?;
    out.extend_from_slice(b"\"")?;
    Ok(())
}

/// Adds names in quotes with something between them.
fn push_joined(out: &mut Vec<u8>, between: &[u8], names: &Texts) -> Result<(), AllocError>
    ensures { OnOk result (out.new.items ≡ out.old.items ++ joined between.now names.now) }
{
    if names.is_empty() {
        return Ok(());
    }
    push_quoted(out, names.get(0))?;
    for place in 1..names.len() {
        out.extend_from_slice(between)?;
        push_quoted(out, names.get(place))?;
    }
    Ok(())
}

/// Adds the line of a signal of this kind.
fn push_signal(out: &mut Vec<u8>, kind: &[u8], name: &[u8]) -> Result<(), AllocError>
    ensures { OnOk result (out.new.items ≡ out.old.items ++ signal_line kind.now name.now) }
{
    out.extend_from_slice(b"  ")?;
    push_quoted(out, name)?;
    out.extend_from_slice(kind)?;
    Ok(())
}

/// Adds the lines of signals of one kind.
pub(crate) fn push_signals(out: &mut Vec<u8>, kind: &[u8], names: &Texts) -> Result<(), AllocError>
    ensures { OnOk result (out.new.items ≡ out.old.items ++ signal_lines kind.now names.now) }
{
    for place in 0..names.len() {
        push_signal(out, kind, names.get(place))?;
    }
    Ok(())
}

/// Adds the line of a group of signals.
pub(crate) fn push_group(out: &mut Vec<u8>, group: &[u8], names: &Texts) -> Result<(), AllocError>
    ensures { OnOk result (out.new.items ≡ out.old.items ++ group_line group.now names.now) }
{
    out.extend_from_slice(b"  ")?;
    push_quoted(out, group)?;
    out.extend_from_slice(b" = '")?;
    push_joined(out, b" + ", names)?;
    out.extend_from_slice(b"';\n")?;
    Ok(())
}

/// Adds the line of a signal's waveforms.
fn push_waveform(out: &mut Vec<u8>, kind: &[u8], name: &[u8]) -> Result<(), AllocError>
    ensures { OnOk result (out.new.items ≡ out.old.items ++ waveform_line kind.now name.now) }
{
    out.extend_from_slice(b"      ")?;
    push_quoted(out, name)?;
    out.extend_from_slice(kind)?;
    Ok(())
}

/// Adds the lines of the waveforms of signals of one kind.
pub(crate) fn push_waveforms(
    out: &mut Vec<u8>,
    kind: &[u8],
    names: &Texts,
) -> Result<(), AllocError>
    ensures { OnOk result (out.new.items ≡ out.old.items ++ waveform_lines kind.now names.now) }
{
    for place in 0..names.len() {
        push_waveform(out, kind, names.get(place))?;
    }
    Ok(())
}

/// Adds what stands of a chain before the names of its cells.
fn push_chain_head(out: &mut Vec<u8>, chain: usize, cells: usize) -> Result<(), AllocError>
    ensures { OnOk result (out.new.items ≡ out.old.items ++ chain_head chain cells) }
{
    out.extend_from_slice(b"  ScanChain ")?;
    push_quoted_number(out, b"chain", chain)?;
    out.extend_from_slice(b" {\n    ScanLength ")?;
    push_number(out, cells)?;
    out.extend_from_slice(b";\n    ScanIn ")?;
    push_quoted_number(out, b"SC__si", chain)?;
    out.extend_from_slice(b";\n    ScanOut ")?;
    push_quoted_number(out, b"SC__so", chain)?;
    out.extend_from_slice(b";\n    ScanCells ")?;
    Ok(())
}

/// Adds the block of a chain.
fn push_chain(out: &mut Vec<u8>, chain: usize, cells: &Texts) -> Result<(), AllocError>
    ensures { OnOk result (out.new.items ≡ out.old.items ++ chain_block chain cells.now) }
{
    push_chain_head(out, chain, cells.len())?;
    push_joined(out, b" ", cells)?;
    out.extend_from_slice(b";\n    ScanMasterClock \"SC__ck\";\n  }\n")?;
    Ok(())
}

/// Adds the blocks of chains.
pub(crate) fn push_chains(out: &mut Vec<u8>, chains: &[Texts]) -> Result<(), AllocError>
    ensures { OnOk result (out.new.items ≡ out.old.items ++ chain_blocks 0 chains.now) }
{
    for (chain, cells) in chains.iter().enumerate() {
        push_chain(out, chain, cells)?;
    }
    Ok(())
}

/// Adds `"signal" = word; `.
fn push_assignment(out: &mut Vec<u8>, signal: &[u8], word: &[u8]) -> Result<(), AllocError>
    ensures { OnOk result (out.new.items ≡ out.old.items ++ assignment signal.now word.now) }
{
    push_quoted(out, signal)?;
    out.extend_from_slice(b" = ")?;
    out.extend_from_slice(word)?;
    out.extend_from_slice(b"; ")?;
    Ok(())
}

/// Adds what an item assigns to these signals.
fn push_assignments(
    out: &mut Vec<u8>,
    signals: &Texts,
    items: &Items,
    place: usize,
) -> Result<(), AllocError>
    requires item { place < length items.now }
    requires words { length (words_of (item_at items.now place)) ≡ length signals.now }
    ensures { OnOk result (out.new.items ≡ out.old.items ++ assignments signals.now (words_of (item_at items.now place))) }
{
    for k in 0..signals.len() {
        push_assignment(out, signals.get(k), items.word(place, k))?;
    }
    Ok(())
}

/// What begins an item.
fn opening(kind: ItemKind) -> &'static [u8]
    ensures { result.now ≡ opening kind }
{
    match kind {
        ItemKind::Call => b"Call \"load_unload\" { ",
        ItemKind::Vector => b"V { ",
    }
}

pub(crate) fn push_item(
    out: &mut Vec<u8>,
    called: &Texts,
    assigned: &Texts,
    items: &Items,
    place: usize,
) -> Result<(), AllocError>
    requires item { place < length items.now }
    requires words { length (words_of (item_at items.now place)) ≡ length (targets called.now assigned.now (item_kind (item_at items.now place))) }
    ensures { OnOk result (out.new.items ≡ out.old.items ++ item_text called.now assigned.now (item_at items.now place)) }
{
    let kind = items.kind(place);
    let signals = match kind {
        ItemKind::Call => called,
        ItemKind::Vector => assigned,
    };
    out.extend_from_slice(opening(kind))?;
    push_assignments(out, signals, items, place)?;
    out.extend_from_slice(b"}\n")?;
    Ok(())
}
