//! The names of a file's signals.
ghost use Rattle.std.specs.Prelude.{◌≡◌, ◌++◌, ◌∷◌, [], codes, length, IfOk, OnOk};
ghost use Rattle.statement.specs.Stils.{numbered, where_chained, assigned, called};
ghost use Rattle.stil_write.specs.StilFiles.{declared_signals};
ghost use Rattle.stil_write.specs.Parts.{file_of};

use crate::parts::StilParts;
use itoa::Buffer;
use plain_text::Texts;
use std::alloc::{AllocError, Global};

/// Adds a name for each of so many chains.
fn push_numbered(
    alloc: Global,
    names: &mut Texts,
    stem: &[u8],
    chains: usize,
) -> Result<(), AllocError>
    ensures { OnOk result (names.new ≡ names.old ++ numbered stem.now chains) }
{
    let mut name = Vec::new(alloc);
    for chain in 0..chains {
        name.clear();
        name.extend_from_slice(stem)?;
        name.extend_from_slice(Buffer::new().format(chain).as_bytes())?;
        names.push(&name)?;
    }
    Ok(())
}

/// Adds the clock, where there are chains.
fn push_clock(names: &mut Texts, chains: usize) -> Result<(), AllocError>
    ensures { OnOk result (names.new ≡ names.old ++ where_chained chains (codes "SC__ck")) }
{
    if chains > 0 {
        names.push(b"SC__ck")?;
    }
    Ok(())
}

/// A name for each of so many chains.
pub fn numbered(alloc: Global, stem: &[u8], chains: usize) -> Result<Texts, AllocError>
    ensures { IfOk result (λ names. names ≡ numbered stem.now chains) }
{
    let mut names = Texts::new(alloc);
    push_numbered(alloc, &mut names, stem, chains)?;
    Ok(names)
}

pub(crate) fn clock(alloc: Global, chains: usize) -> Result<Texts, AllocError>
    ensures { IfOk result (λ names. names ≡ where_chained chains (codes "SC__ck")) }
{
    let mut names = Texts::new(alloc);
    push_clock(&mut names, chains)?;
    Ok(names)
}

/// All signals in the order in which they are declared.
pub(crate) fn signals(alloc: Global, parts: &StilParts) -> Result<Texts, AllocError>
    ensures { IfOk result (λ names. names ≡ declared_signals (file_of parts.now)) }
{
    let chains = parts.chains.len();
    let mut names = Texts::new(alloc);
    names.append(&parts.pi)?;
    push_numbered(alloc, &mut names, b"SC__si", chains)?;
    push_clock(&mut names, chains)?;
    names.append(&parts.po)?;
    push_numbered(alloc, &mut names, b"SC__so", chains)?;
    Ok(names)
}

/// What a call of the load assigns to, in order: the scan inputs, and then the scan outputs.
pub fn called(alloc: Global, chains: usize) -> Result<Texts, AllocError>
    ensures { IfOk result (λ names. names ≡ called chains) }
{
    let mut names = Texts::new(alloc);
    push_numbered(alloc, &mut names, b"SC__si", chains)?;
    push_numbered(alloc, &mut names, b"SC__so", chains)?;
    Ok(names)
}

/// What a vector assigns to, in order: the group of inputs, the scan inputs, the clock, the group of outputs, the scan outputs.
pub fn assigned(alloc: Global, chains: usize) -> Result<Texts, AllocError>
    ensures { IfOk result (λ names. names ≡ assigned chains) }
{
    let mut names = Texts::new(alloc);
    names.push(b"SC__pi")?;
    push_numbered(alloc, &mut names, b"SC__si", chains)?;
    push_clock(&mut names, chains)?;
    names.push(b"SC__po")?;
    push_numbered(alloc, &mut names, b"SC__so", chains)?;
    Ok(names)
}
