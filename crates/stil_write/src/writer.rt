//! A file as text.
ghost use Rattle.std.specs.Prelude.{◌≡◌, ◌++◌, ◌∷◌, [], length, replicate, IfOk, OnOk};
ghost use Rattle.std.specs.List.{All, flat_map};
ghost use Rattle.stil_write.specs.Pieces.{HasTargets, item_line};
ghost use Rattle.statement.specs.Stils.{Vector, numbered, assigned, called, procedures_by, shift_words, signals_text, stil_text, structures_text, timing_text};
ghost use Rattle.stil_write.specs.Texts.{groups_text, pattern_text};

use crate::items::{ItemKind, Items};
use crate::parts::StilFile;
use crate::pieces::{push_chains, push_group, push_item, push_signals, push_waveforms};
use crate::signals::{assigned, called, clock, numbered};
use plain_text::Texts;
use std::alloc::{AllocError, Global};

/// Adds the signals' block behind its head.
fn push_all_signals(alloc: Global, out: &mut Vec<u8>, file: &StilFile) -> Result<(), AllocError>
    ensures { OnOk result (out.new.items ≡ out.old.items ++ signals_text file.now) }
{
    let chains = file.chains().len();
    push_signals(out, b" In;\n", file.pi())?;
    let inputs = numbered(alloc, b"SC__si", chains)?;
    push_signals(out, b" In { ScanIn; }\n", &inputs)?;
    let clock = clock(alloc, chains)?;
    push_signals(out, b" In;\n", &clock)?;
    push_signals(out, b" Out;\n", file.po())?;
    let outputs = numbered(alloc, b"SC__so", chains)?;
    push_signals(out, b" Out { ScanOut; }\n", &outputs)?;
    out.extend_from_slice(b"}\n")?;
    Ok(())
}

/// Adds the groups' block.
fn push_groups(out: &mut Vec<u8>, file: &StilFile) -> Result<(), AllocError>
    ensures { OnOk result (out.new.items ≡ out.old.items ++ groups_text file.now) }
{
    out.extend_from_slice(b"SignalGroups {\n")?;
    push_group(out, b"SC__pi", file.pi())?;
    push_group(out, b"SC__po", file.po())?;
    out.extend_from_slice(b"}\n")?;
    Ok(())
}

/// A name and behind it one for each chain.
fn group_and(alloc: Global, group: &[u8], stem: &[u8], chains: usize) -> Result<Texts, AllocError>
    ensures { IfOk result (λ names. names ≡ group.now ∷ numbered stem.now chains) }
{
    let mut names = Texts::new(alloc);
    names.push(group)?;
    let scanned = numbered(alloc, stem, chains)?;
    names.append(&scanned)?;
    Ok(names)
}

/// Adds the block of times.
fn push_timing(alloc: Global, out: &mut Vec<u8>, file: &StilFile) -> Result<(), AllocError>
    ensures { OnOk result (out.new.items ≡ out.old.items ++ timing_text file.now) }
{
    let chains = file.chains().len();
    out.extend_from_slice(
        b"Timing {\n  WaveformTable \"wft\" {\n    Period '100ns';\n    Waveforms {\n",
    )?;
    let drives = group_and(alloc, b"SC__pi", b"SC__si", chains)?;
    push_waveforms(out, b" { 01 { '0ns' D/U; } }\n", &drives)?;
    let clock = clock(alloc, chains)?;
    push_waveforms(
        out,
        b" { 0 { '0ns' D; } P { '0ns' D; '45ns' U; '55ns' D; } }\n",
        &clock,
    )?;
    let strobes = group_and(alloc, b"SC__po", b"SC__so", chains)?;
    push_waveforms(out, b" { HLX { '40ns' H/L/X; } }\n", &strobes)?;
    out.extend_from_slice(b"    }\n  }\n}\n")?;
    Ok(())
}

/// Adds the chains' block, where there are chains.
fn push_structures(out: &mut Vec<u8>, file: &StilFile) -> Result<(), AllocError>
    ensures { OnOk result (out.new.items ≡ out.old.items ++ structures_text file.now.chains) }
{
    let chains = file.chains();
    if chains.is_empty() {
        return Ok(());
    }
    out.extend_from_slice(b"ScanStructures {\n")?;
    push_chains(out, chains)?;
    out.extend_from_slice(b"}\n")?;
    Ok(())
}

/// Adds so many copies of a word.
fn push_words(words: &mut Texts, count: usize, word: &[u8]) -> Result<(), AllocError>
    ensures { OnOk result (words.new ≡ words.old ++ replicate count word.now) }
{
    for _ in 0..count {
        words.push(word)?;
    }
    Ok(())
}

/// What a vector assigns while the chains shift.
fn shift_words(alloc: Global, file: &StilFile) -> Result<Texts, AllocError>
    ensures { IfOk result (λ words. words ≡ shift_words file.now) }
{
    let chains = file.chains().len();
    let mut words = Texts::new(alloc);
    words.push(file.shift_word())?;
    push_words(&mut words, chains, b"#")?;
    push_words(&mut words, chains.min(1), b"P")?;
    let strobes = vec![in alloc; b'X'; file.po().len()]?;
    words.push(&strobes)?;
    push_words(&mut words, chains, b"#")?;
    Ok(words)
}

fn shift_item(alloc: Global, file: &StilFile) -> Result<Items, AllocError>
    ensures { IfOk result (λ items. items ≡ Vector (shift_words file.now) ∷ []) }
{
    let mut items = Items::new(alloc);
    let words = shift_words(alloc, file)?;
    items.push(ItemKind::Vector, &words)?;
    Ok(items)
}

/// Adds the procedures' block, where there are chains.
fn push_procedures(alloc: Global, out: &mut Vec<u8>, file: &StilFile) -> Result<(), AllocError>
    ensures { OnOk result (out.new.items ≡ out.old.items ++ procedures_by (length file.now.chains) file.now) }
{
    let chains = file.chains().len();
    if chains == 0 {
        return Ok(());
    }
    out.extend_from_slice(
        b"Procedures {\n  \"load_unload\" {\n    W \"wft\";\n    Shift {\n      ",
    )?;
    let called = called(alloc, chains)?;
    let assigned = assigned(alloc, chains)?;
    let items = shift_item(alloc, file)?;
    push_item(out, &called, &assigned, &items, 0)?;
    out.extend_from_slice(b"    }\n  }\n}\n")?;
    Ok(())
}

/// Adds the lines of items.
fn push_items(
    out: &mut Vec<u8>,
    called: &Texts,
    assigned: &Texts,
    items: &Items,
) -> Result<(), AllocError>
    requires { All (HasTargets called.now assigned.now) items.now }
    ensures { OnOk result (out.new.items ≡ out.old.items ++ flat_map (item_line called.now assigned.now) items.now) }
{
    for place in 0..items.len() {
        out.extend_from_slice(b"  ")?;
        push_item(out, called, assigned, items, place)?;
    }
    Ok(())
}

/// Adds the pattern's block.
fn push_pattern(alloc: Global, out: &mut Vec<u8>, file: &StilFile) -> Result<(), AllocError>
    ensures { OnOk result (out.new.items ≡ out.old.items ++ pattern_text file.now) }
{
    let chains = file.chains().len();
    out.extend_from_slice(b"Pattern \"pattern\" {\n  W \"wft\";\n")?;
    let called = called(alloc, chains)?;
    let assigned = assigned(alloc, chains)?;
    file.sound();
    push_items(out, &called, &assigned, file.items())?;
    out.extend_from_slice(b"}\n")?;
    Ok(())
}

/// Adds the whole text.
fn push_file(alloc: Global, out: &mut Vec<u8>, file: &StilFile) -> Result<(), AllocError>
    ensures { OnOk result (out.new.items ≡ out.old.items ++ stil_text file.now) }
{
    out.extend_from_slice(b"STIL 1.0;\nHeader {\n  Title \"full scan test\";\n}\nSignals {\n")?;
    push_all_signals(alloc, out, file)?;
    push_groups(out, file)?;
    push_timing(alloc, out, file)?;
    push_structures(out, file)?;
    out.extend_from_slice(
        b"PatternBurst \"burst\" {\n  PatList { \"pattern\"; }\n}\nPatternExec {\n  PatternBurst \"burst\";\n}\n",
    )?;
    push_procedures(alloc, out, file)?;
    push_pattern(alloc, out, file)?;
    Ok(())
}

/// The text of a file. It is laid out in one way.
pub fn write_stil(alloc: Global, file: &StilFile) -> Result<Vec<u8>, AllocError>
    ensures { IfOk result (λ text. text.items ≡ stil_text file.now) }
{
    let mut out = Vec::with_capacity(alloc, file.text_room())?;
    push_file(alloc, &mut out, file)?;
    Ok(out)
}
