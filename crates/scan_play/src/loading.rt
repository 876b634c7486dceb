//! Loads of the scan chains.
ghost use Rattle.std.specs.Prelude.{◌≡◌, ◌+◌, ◌*◌, ◌^◌, ◌<◌, ◌≤◌, ◌++◌, ◌∷◌, [], false, true, length, map, replicate, slice_index_or, IfOk, OnOk};
ghost use Rattle.std.specs.List.{flat_map};
ghost use Rattle.netlist.specs.Holds.{AreHoldsOf};
ghost use Rattle.statement.specs.Runs.{numbers_from};
ghost use Rattle.statement.specs.declared.kinds.Tri.TheVariants.{X};
ghost use Rattle.statement.specs.Tests.{cells_of, longest_of, by_chain, column, word_in, word_out, held_or_zero};
ghost use Rattle.scan_play.specs.Shifts.{idle_inputs, load};
ghost use Rattle.scan_play.specs.Bursts.{cycles_of};

use crate::cycles::Burst;
use crate::flushing::push_zeros;
use netlist::{Holds, Netlist, Tri};
use scan_insert::Chains;
use std::alloc::{AllocError, Global};

/// Character t of the word of m characters that brings these bits to a chain.
pub fn bit_in(own: &[bool], m: usize, t: usize) -> bool
    requires within { t < m }
    requires short { length own.now ≤ m }
    ensures { result ≡ slice_index_or (word_in m own.now) t false }
{
    let place = m - 1 - t;
    if place < own.len() {
        return own[place];
    }
    false
}

/// Character t of the word of m characters that comes out of a chain that holds this.
pub fn value_out(own: &[Tri], m: usize, t: usize) -> Tri
    requires within { t < m }
    requires short { length own.now ≤ m }
    ensures { result ≡ slice_index_or (word_out m own.now) t X }
{
    if t < own.len() {
        return own[own.len() - 1 - t];
    }
    Tri::X
}

/// Adds what the scan inputs are driven with in shift t.
fn push_ins(
    chains: &Chains,
    bits: &[bool],
    m: usize,
    t: usize,
    ins: &mut Vec<bool>,
) -> Result<(), AllocError>
    requires within { t < m }
    requires longest { longest_of chains.now ≤ m }
    requires all { length bits.now ≡ length (cells_of chains.now) }
    requires few { length bits.now < 2 ^ 32 }
    ensures { OnOk result (ins.new.items ≡ ins.old.items ++ column false (map (word_in m) (by_chain chains.now bits.now)) t) }
{
    let mut start = 0;
    for c in 0..chains.count() {
        let end = start + chains.chain(c).len();
        ins.push(bit_in(&bits[start..end], m, t))?;
        start = end;
    }
    Ok(())
}

/// Adds what the scan outputs are strobed for in shift t.
fn push_outs(
    chains: &Chains,
    held: &[Tri],
    m: usize,
    t: usize,
    outs: &mut Vec<Tri>,
) -> Result<(), AllocError>
    requires within { t < m }
    requires longest { longest_of chains.now ≤ m }
    requires all { length held.now ≡ length (cells_of chains.now) }
    requires few { length held.now < 2 ^ 32 }
    ensures { OnOk result (outs.new.items ≡ outs.old.items ++ column X (map (word_out m) (by_chain chains.now held.now)) t) }
{
    let mut start = 0;
    for c in 0..chains.count() {
        let end = start + chains.chain(c).len();
        outs.push(value_out(&held[start..end], m, t))?;
        start = end;
    }
    Ok(())
}

/// What an input has while the chains shift, by the bit at which it is held.
fn idle_bit(held: Option<bool>) -> bool
    ensures { result ≡ held_or_zero held }
{
    match held {
        Some(bit) => bit,
        None => false,
    }
}

/// What stays as it is through a load: the functional inputs are idle and the scan enable is 1.
fn shift_drive(alloc: Global, inputs: u32, holds: &Holds) -> Result<Vec<bool>, AllocError>
    requires { inputs ≡ length holds.now }
    ensures { IfOk result (λ v. v.items ≡ idle_inputs holds.now ++ true ∷ []) }
{
    let mut drive = Vec::new(alloc);
    for k in 0..inputs {
        drive.push(idle_bit(holds.held(k)))?;
    }
    drive.push(true)?;
    Ok(drive)
}

/// Strobes that ask for nothing.
pub fn no_strobes(alloc: Global, count: usize) -> Result<Vec<Tri>, AllocError>
    ensures { IfOk result (λ v. v.items ≡ replicate count X) }
{
    let mut strobes = Vec::with_capacity(alloc, count)?;
    for _done in 0..count {
        strobes.push(Tri::X)?;
    }
    Ok(strobes)
}

/// What the scan inputs are driven with, shift by shift.
fn all_ins(alloc: Global, chains: &Chains, bits: &[bool], m: usize) -> Result<Vec<bool>, AllocError>
    requires longest { longest_of chains.now ≤ m }
    requires all { length bits.now ≡ length (cells_of chains.now) }
    requires few { length bits.now < 2 ^ 32 }
    ensures { IfOk result (λ v. v.items ≡ flat_map (column false (map (word_in m) (by_chain chains.now bits.now))) (numbers_from 0 m)) }
{
    let mut ins = Vec::new(alloc);
    for t in 0..m {
        push_ins(chains, bits, m, t, &mut ins)?;
    }
    Ok(ins)
}

/// What the scan outputs are strobed for, shift by shift.
fn all_outs(alloc: Global, chains: &Chains, held: &[Tri], m: usize) -> Result<Vec<Tri>, AllocError>
    requires longest { longest_of chains.now ≤ m }
    requires all { length held.now ≡ length (cells_of chains.now) }
    requires few { length held.now < 2 ^ 32 }
    ensures { IfOk result (λ v. v.items ≡ flat_map (column X (map (word_out m) (by_chain chains.now held.now))) (numbers_from 0 m)) }
{
    let mut outs = Vec::new(alloc);
    for t in 0..m {
        push_outs(chains, held, m, t, &mut outs)?;
    }
    Ok(outs)
}

/// A load of these bits, which strobes what the cells should hold before.
pub fn load(
    alloc: Global,
    netlist: &Netlist,
    chains: &Chains,
    bits: &[bool],
    held: &[Tri],
    holds: &Holds,
) -> Result<Burst, AllocError>
    requires holds { AreHoldsOf netlist.now holds.now }
    requires bits { length bits.now ≡ length (cells_of chains.now) }
    requires held { length held.now ≡ length (cells_of chains.now) }
    requires few { length bits.now < 2 ^ 32 }
    ensures { IfOk result (λ b. cycles_of b ≡ load netlist.now holds.now chains.now bits.now held.now) }
{
    let count = chains.longest() as usize;
    netlist.sound();
    let drive = shift_drive(alloc, netlist.inputs().len() as u32, holds)?;
    let strobe = no_strobes(alloc, netlist.outputs().len())?;
    let ins = all_ins(alloc, chains, bits, count)?;
    let outs = all_outs(alloc, chains, held, count)?;
    let width = chains.count() as usize;
    Ok(Burst {
        drive,
        strobe,
        pulse: true,
        width,
        ins,
        outs,
        count,
    })
}

/// A load of 0s, which strobes what the cells should hold before.
pub fn zero_load(
    alloc: Global,
    netlist: &Netlist,
    chains: &Chains,
    held: &[Tri],
    holds: &Holds,
) -> Result<Burst, AllocError>
    requires holds { AreHoldsOf netlist.now holds.now }
    requires held { length held.now ≡ length (cells_of chains.now) }
    requires few { length held.now < 2 ^ 32 }
    ensures { IfOk result (λ b. cycles_of b ≡ load netlist.now holds.now chains.now (replicate (length (cells_of chains.now)) false) held.now) }
{
    let mut zeros = Vec::new(alloc);
    push_zeros(held.len(), &mut zeros)?;
    let last = load(alloc, netlist, chains, &zeros, held, holds)?;
    Ok(last)
}
