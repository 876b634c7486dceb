//! The paths on which the chains shift.
ghost use Rattle.std.specs.Prelude.{◌≡◌, ◌++◌, ◌∷◌, ◌+◌, ◌<◌, ◌≤◌, length, map, take, IfOk, OnOk};
ghost use Rattle.std.specs.List.{All, zip};
ghost use Rattle.statement.specs.Netlists.{Definition as Equation};
ghost use Rattle.statement.specs.Tests.{cells_of};
ghost use Rattle.statement.specs.Runs.{numbers_from};
ghost use Rattle.scan_insert.specs.Scan.{show_last};
ghost use Rattle.scan_insert.specs.Scanned.{befores, last_of};
ghost use Rattle.scan_insert.specs.inner.Made.{held_at};

use crate::cells::define;
use crate::chains::Chains;
use crate::sites::{Site, after};
use netlist::{Definition, Kind, SignalId};
use std::alloc::{AllocError, Global};

/// What holds the bit of a cell.
fn held(sites: &[Site], cell: SignalId) -> SignalId
    requires within { cell < length sites.now }
    requires low { All (λ t. t.pins ≤ 7000000) sites.now }
    ensures { result ≡ held_at sites.now cell }
{
    let site = &sites[cell.index()];
    after(site.pins, 3)
}

/// Adds what each cell of a chain takes when it shifts.
fn push_befores(
    chain: &[SignalId],
    input: SignalId,
    sites: &[Site],
    befores: &mut Vec<SignalId>,
) -> Result<(), AllocError>
    requires within { All (λ x. x < length sites.now) chain.now }
    requires low { All (λ t. t.pins ≤ 7000000) sites.now }
    ensures { OnOk result (befores.new.items ≡ befores.old.items ++ take (length chain.now) (input ∷ map (held_at sites.now) chain.now)) }
{
    let mut before = input;
    for cell in chain {
        befores.push(before)?;
        before = held(sites, *cell);
    }
    Ok(())
}

/// What each cell takes when it shifts, chain by chain.
pub(crate) fn befores(
    alloc: Global,
    chains: &Chains,
    first_input: u32,
    cells: usize,
    sites: &[Site],
) -> Result<Vec<SignalId>, AllocError>
    requires within { All (λ x. x < length sites.now) (cells_of chains.now) }
    requires low { All (λ t. t.pins ≤ 7000000) sites.now }
    requires room { first_input + length chains.now ≤ 8000000 }
    ensures { IfOk result (λ v. v.items ≡ befores (held_at sites.now) first_input chains.now) }
{
    let mut befores = Vec::with_capacity(alloc, cells)?;
    for c in 0..chains.count() {
        push_befores(
            chains.chain(c),
            SignalId(first_input + c),
            sites,
            &mut befores,
        )?;
    }
    Ok(befores)
}

/// What holds the bit of a chain's last cell.
fn held_last(chain: &[SignalId], sites: &[Site]) -> SignalId
    requires some { 0 < length chain.now }
    requires within { All (λ x. x < length sites.now) chain.now }
    requires low { All (λ t. t.pins ≤ 7000000) sites.now }
    ensures { result ≡ held_at sites.now (last_of chain.now) }
{
    held(sites, chain[chain.len() - 1])
}

/// Adds a scan output for each chain, which shows the chain's last cell.
pub(crate) fn push_scan_outputs(
    alloc: Global,
    chains: &Chains,
    first_output: u32,
    sites: &[Site],
    made: &mut Vec<Definition>,
) -> Result<(), AllocError>
    requires filled { All (λ chain. 0 < length chain) chains.now }
    requires within { All (λ x. x < length sites.now) (cells_of chains.now) }
    requires low { All (λ t. t.pins ≤ 7000000) sites.now }
    requires room { first_output + length chains.now ≤ 8000000 }
    ensures { OnOk result (made.new.items ≡ made.old.items
        ++ map show_last (zip (numbers_from first_output (length chains.now)) (map (λ chain. held_at sites.now (last_of chain)) chains.now))) }
{
    for c in 0..chains.count() {
        let last = held_last(chains.chain(c), sites);
        made.push(define(alloc, SignalId(first_output + c), Kind::Buff, &[last])?)?;
    }
    Ok(())
}
