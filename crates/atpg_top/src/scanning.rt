//! `scan`: the scanned netlist of a file, written to another.
ghost use Rattle.std.specs.Prelude.{◌≡◌, ◌≤◌, ◌++◌, ◌∷◌, [], IfOk, codes, decimal, length, option_map};
ghost use Rattle.std.specs.List.{All};
ghost use Rattle.plain_text.specs.Limits.{most_chains};
ghost use Rattle.netlist.specs.Designs.{IsDesign};
ghost use Rattle.statement.specs.Benches.{canonical};
ghost use Rattle.scan_insert.specs.Scanned.{AreChainsOf, scanned_of};
ghost use Rattle.commands.specs.Contents.{most_bytes};
ghost use Rattle.commands.specs.Names.{texts_of};
ghost use Rattle.commands.specs.Rows.{CommandRow};
ghost use Rattle.commands.specs.Worked.{IsWorked};
ghost use Rattle.commands.specs.World.{world};
ghost use Rattle.command_line.specs.CommandLine.{scan_reads};
ghost use Rattle.command_steps.specs.Ordering.{ordered_due};
ghost use Rattle.atpg_top.specs.Commands.{scan_due, scanned_due};
ghost use Rattle.atpg_top.specs.Scans.{IsScanProduct, scan_line};

use crate::counts::push_counts;
use bench_text::write;
use command_line::scan_reads;
use command_steps::{OneFile, Refusal, design_of, in_order, one_file_product};
use commands::{Ending, FileName, Product, Stop, deliver, read_in_order};
use netlist::{Netlist, NoMemory};
use outside::{Shelf, Sink};
use scan_insert::laws::scan_behaves;
use scan_insert::{Chains, insert, stitch};
use std::alloc::{AllocError, Global};

/// The line that `scan` prints.
fn count_line(alloc: Global, cells: usize, chains: u32) -> Result<Vec<u8>, AllocError>
    ensures { IfOk result (λ t. t.items ≡ codes "cells " ++ (decimal cells ++ (codes " chains " ++ (decimal chains ++ codes "\n")))) }
{
    let mut line = Vec::new(alloc);
    push_counts(
        &mut line,
        b"cells ",
        cells as u64,
        b" chains ",
        u64::from(chains),
    )?;
    Ok(line)
}

/// The text of the design scanned in these chains.
fn scanned_text(alloc: Global, netlist: &Netlist, chains: &Chains) -> Result<Vec<u8>, NoMemory>
    requires design { IsDesign netlist.now }
    requires chains { AreChainsOf netlist.now chains.now }
    ensures { IfOk result (λ text. text.items ≡ canonical (scanned_of netlist.now chains.now)) }
{
    let scanned = insert(alloc, netlist, chains)?;
    let text = write(alloc, scanned.netlist());
    drop(scanned);
    text
}

/// What `scan` makes of a design and the number of chains that is asked for.
fn texts_of(alloc: Global, netlist: &Netlist, asked: u32) -> Result<OneFile, NoMemory>
    requires design { IsDesign netlist.now }
    requires some { 1 ≤ asked }
    ensures { IfOk result (λ p. IsScanProduct netlist.now asked p.text.items p.line.items) }
{
    netlist.sound();
    scan_behaves();
    let chains = stitch(alloc, netlist.cells(), asked)?;
    let text = scanned_text(alloc, netlist, &chains)?;
    let cells = netlist.cells().len();
    let count = chains.count();
    match count_line(alloc, cells, count) {
        Ok(line) => Ok(OneFile { text, line }),
        Err(_) => Err(NoMemory),
    }
}

/// What `scan` writes and shows of a design.
fn product_of(alloc: Global, netlist: &Netlist, chains: u32) -> Result<Product, Stop<Refusal>>
    requires design { IsDesign netlist.now }
    requires some { 1 ≤ chains }
    ensures { IsWorked (scanned_due chains netlist.now) 1 result }
{
    let Ok(made) = texts_of(alloc, netlist, chains) else {
        return Err(Stop::NoMemory);
    };
    match one_file_product(alloc, made) {
        Ok(product) => Ok(product),
        Err(_) => Err(Stop::NoMemory),
    }
}

/// The work of `scan`, for at most so many chains.
fn work(alloc: Global, texts: Vec<Vec<u8>>, chains: u32) -> Result<Product, Stop<Refusal>>
    requires count { length texts.items ≡ 1 }
    requires within { All (λ text. length text ≤ most_bytes) (texts_of texts.items) }
    requires some { 1 ≤ chains }
    ensures { IsWorked (scan_due chains (texts_of texts.items)) 1 result }
{
    match design_of(alloc, texts) {
        Ok(netlist) => {
            let worked = product_of(alloc, &netlist, chains);
            drop(netlist);
            worked
        }
        Err(stop) => Err(stop),
    }
}

/// The work of `scan`, where an order of the cells may be given.
fn ordered_work(
    alloc: Global,
    texts: Vec<Vec<u8>>,
    order: Option<&str>,
    chains: u32,
) -> Result<Product, Stop<Refusal>>
    requires count { length texts.items ≡ length (scan_reads [] (option_map (λ t. t.now) order)) }
    requires within { All (λ text. length text ≤ most_bytes) (texts_of texts.items) }
    requires range { (1 ≤ chains) × (chains ≤ most_chains) }
    ensures { IsWorked (ordered_due scan_due (option_map (λ t. t.now) order.entry) chains (texts_of texts.items)) 1 result }
{
    match in_order(alloc, texts, order, chains) {
        Ok(ordered) => work(alloc, ordered.texts, ordered.chains),
        Err(stop) => Err(stop),
    }
}

/// Writes the scanned netlist of the file `net` to the file `to`: in at most so many chains, or in those of the order that is given.
pub fn scan_netlist<'a, S: Shelf, T: Sink>(
    alloc: Global,
    shelf: &mut S,
    out: &mut T,
    net: &'a str,
    to: &'a str,
    order: Option<&'a str>,
    chains: u32,
) -> Ending<'a, Refusal>
    requires { (1 ≤ chains) × (chains ≤ most_chains) }
    ensures { CommandRow (scan_reads net.now (option_map (λ t. t.now) order.entry)) (to.now ∷ []) (ordered_due scan_due (option_map (λ t. t.now) order.entry) chains)
        (world (S.files shelf.old) (S.failures shelf.old) (T.taken out.old) (T.failures out.old))
        (world (S.files shelf.new) (S.failures shelf.new) (T.taken out.new) (T.failures out.new)) result }
{
    let writes = [FileName::of(to)];
    let reads = match scan_reads(alloc, net, order) {
        Ok(reads) => reads,
        Err(_) => return Ending::Memory,
    };
    let texts = match read_in_order(alloc, shelf, reads.as_slice()) {
        Ok(texts) => texts,
        Err(ending) => return ending,
    };
    let worked = ordered_work(alloc, texts, order, chains);
    deliver(alloc, shelf, out, &writes, worked)
}
