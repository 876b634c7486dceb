//! Which inputs are unknown, and the new numbers of all.
ghost use Rattle.std.specs.Prelude.{◌≡◌, ◌++◌, ◌∷◌, [], ◌+◌, ◌≤◌, length, cond, nat_lt, slice_index_or, Bool, false, not, IfOk, OnOk};
ghost use Rattle.unknown_inputs.specs.Unknowns.{known_part, unknown_part};
ghost use Rattle.unknown_inputs.specs.Opened.{number_by, numbers_of};

use netlist::{Netlist, SignalId};
use std::alloc::{AllocError, Global};

/// Whether the tester can't set the input at a place. Inputs behind the list are known.
fn is_unknown(unknown: &[bool], place: usize) -> bool
    ensures { result ≡ slice_index_or unknown.now place false }
{
    if place < unknown.len() {
        return unknown[place];
    }
    false
}

/// Whether the tester can set an input.
pub fn has_known(netlist: &Netlist, unknown: &[bool]) -> bool
    ensures { result ≡ nat_lt 0 (length (known_part unknown.now netlist.now.inputs)) }
{
    let inputs = netlist.inputs();
    for k in 0..inputs.len() {
        if !is_unknown(unknown, k) {
            return true;
        }
    }
    false
}

/// Adds a signal, unless it is to be left out.
fn push_unless(
    left_out: bool,
    signal: SignalId,
    signals: &mut Vec<SignalId>,
) -> Result<(), AllocError>
    ensures { OnOk result (signals.new.items ≡ signals.old.items ++ cond left_out [] (signal ∷ [])) }
{
    if left_out {
        return Ok(());
    }
    signals.push(signal)?;
    Ok(())
}

fn push_known(
    inputs: &[SignalId],
    unknown: &[bool],
    known: &mut Vec<SignalId>,
) -> Result<(), AllocError>
    ensures { OnOk result (known.new.items ≡ known.old.items ++ known_part unknown.now inputs.now) }
{
    for k in 0..inputs.len() {
        push_unless(is_unknown(unknown, k), inputs[k], known)?;
    }
    Ok(())
}

fn push_unknown(
    inputs: &[SignalId],
    unknown: &[bool],
    others: &mut Vec<SignalId>,
) -> Result<(), AllocError>
    ensures { OnOk result (others.new.items ≡ others.old.items ++ unknown_part unknown.now inputs.now) }
{
    for k in 0..inputs.len() {
        push_unless(!is_unknown(unknown, k), inputs[k], others)?;
    }
    Ok(())
}

/// The known inputs.
pub(crate) fn known_inputs(
    alloc: Global,
    inputs: &[SignalId],
    unknown: &[bool],
) -> Result<Vec<SignalId>, AllocError>
    ensures { IfOk result (λ v. v.items ≡ known_part unknown.now inputs.now) }
{
    let mut known = Vec::with_capacity(alloc, inputs.len())?;
    push_known(inputs, unknown, &mut known)?;
    Ok(known)
}

/// The unknown inputs.
pub(crate) fn unknown_inputs(
    alloc: Global,
    inputs: &[SignalId],
    unknown: &[bool],
) -> Result<Vec<SignalId>, AllocError>
    ensures { IfOk result (λ v. v.items ≡ unknown_part unknown.now inputs.now) }
{
    let mut others = Vec::new(alloc);
    push_unknown(inputs, unknown, &mut others)?;
    Ok(others)
}

/// Adds the new numbers of the inputs: known ones from 0 on, unknown ones behind them.
fn push_numbers(
    inputs: &[SignalId],
    unknown: &[bool],
    known: u32,
    numbers: &mut Vec<SignalId>,
) -> Result<(), AllocError>
    requires { known + length inputs.now ≤ 16000000 }
    ensures { OnOk result (numbers.new.items ≡ numbers.old.items ++ numbers_of unknown.now 0 known inputs.now) }
{
    let mut next_known = 0;
    let mut next_unknown = known;
    for k in 0..inputs.len() {
        if is_unknown(unknown, k) {
            numbers.push(SignalId(next_unknown))?;
            next_unknown += 1;
        } else {
            numbers.push(SignalId(next_known))?;
            next_known += 1;
        }
    }
    Ok(())
}

/// The new numbers of the inputs, of which so many are known.
pub(crate) fn input_numbers(
    alloc: Global,
    inputs: &[SignalId],
    unknown: &[bool],
    known: u32,
) -> Result<Vec<SignalId>, AllocError>
    requires { known + length inputs.now ≤ 16000000 }
    ensures { IfOk result (λ v. v.items ≡ numbers_of unknown.now 0 known inputs.now) }
{
    let mut numbers = Vec::with_capacity(alloc, inputs.len())?;
    push_numbers(inputs, unknown, known, &mut numbers)?;
    Ok(numbers)
}

/// The new number of a signal: that of the table, or where it is no input its own.
pub(crate) fn number(numbers: &[SignalId], signal: SignalId) -> SignalId
    ensures { result ≡ number_by numbers.now signal }
{
    if signal.index() < numbers.len() {
        return numbers[signal.index()];
    }
    signal
}
