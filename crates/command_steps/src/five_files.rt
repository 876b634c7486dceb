//! What a command that searches writes and shows: five files, and a line of counts.
ghost use Rattle.std.specs.Prelude.{◌≡◌, ◌++◌, ◌∷◌, [], IfOk, OnOk, decimal, length};
ghost use Rattle.commands.specs.Names.{texts_of};
ghost use Rattle.commands.specs.declared.ending.Finding.TheVariants.{Fine};
ghost use Rattle.command_steps.specs.Runs.{tests_line, unasked_words};

use commands::{Finding, Product};
use itoa::Buffer;
use report::ReportCounts;
use std::alloc::{AllocError, Global};

/// Adds a word and a number.
pub fn push_count(line: &mut Vec<u8>, word: &[u8], count: u64) -> Result<(), AllocError>
    ensures { OnOk result (line.new.items ≡ line.old.items ++ (word.now ++ decimal count)) }
{
    line.extend_from_slice(word)?;
    line.extend_from_slice(Buffer::new().format(count).as_bytes())?;
    Ok(())
}

/// Adds how many faults weren't asked for, where there is one.
fn push_unasked(line: &mut Vec<u8>, count: u64) -> Result<(), AllocError>
    ensures { OnOk result (line.new.items ≡ line.old.items ++ unasked_words count) }
{
    if count > 0 {
        push_count(line, b" unasked ", count)?;
    }
    Ok(())
}

/// The line of a report's counts.
pub fn tests_line(alloc: Global, counts: ReportCounts) -> Result<Vec<u8>, AllocError>
    ensures { IfOk result (λ t. t.items ≡ tests_line counts) }
{
    let mut line = Vec::new(alloc);
    push_count(&mut line, b"faults ", counts.faults)?;
    push_count(&mut line, b" detected ", counts.detected)?;
    push_count(&mut line, b" redundant ", counts.redundant)?;
    push_count(&mut line, b" aborted ", counts.aborted)?;
    push_unasked(&mut line, counts.unasked)?;
    push_count(&mut line, b" patterns ", counts.patterns)?;
    push_count(&mut line, b" cycles ", counts.cycles)?;
    line.extend_from_slice(b"\n")?;
    Ok(line)
}

/// The texts in the order in which they are written.
fn texts_in_order(
    alloc: Global,
    net: Vec<u8>,
    scan: Vec<u8>,
    stil: Vec<u8>,
    certificate: Vec<u8>,
    report: Vec<u8>,
) -> Result<Vec<Vec<u8>>, AllocError>
    ensures texts { IfOk result (λ v. texts_of v.items ≡ net.items ∷ scan.items ∷ stil.items ∷ certificate.items ∷ report.items ∷ []) }
    ensures count { IfOk result (λ v. length v.items ≡ 5) }
{
    let mut texts = Vec::new(alloc);
    texts.push(net)?;
    texts.push(scan)?;
    texts.push(stil)?;
    texts.push(certificate)?;
    texts.push(report)?;
    Ok(texts)
}

/// The product of these five files, and of a line.
pub fn five_files_product(
    alloc: Global,
    net: Vec<u8>,
    scan: Vec<u8>,
    stil: Vec<u8>,
    certificate: Vec<u8>,
    report: Vec<u8>,
    shown: Vec<u8>,
) -> Result<Product, AllocError>
    ensures texts { IfOk result (λ p. texts_of p.texts.items ≡ net.items ∷ scan.items ∷ stil.items ∷ certificate.items ∷ report.items ∷ []) }
    ensures count { IfOk result (λ p. length p.texts.items ≡ 5) }
    ensures shown { IfOk result (λ p. p.shown ≡ shown) }
    ensures fine { IfOk result (λ p. p.finding ≡ Fine) }
{
    let texts = texts_in_order(alloc, net, scan, stil, certificate, report)?;
    Ok(Product {
        texts,
        shown,
        finding: Finding::Fine,
    })
}
