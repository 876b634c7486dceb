//! Held inputs beside unknown ones.
ghost use Rattle.std.specs.Prelude.{◌≡◌, ◌<◌, ◌++◌, ◌∷◌, [], Some, cond, false, length, IfOk, OnOk};
ghost use Rattle.netlist.specs.Holds.{AreHoldsOf};
ghost use Rattle.unknown_inputs.specs.Unknowns.{holds_at_zero, known_part};
ghost use Rattle.known_tests.specs.inner.Holding.{hold_set};

use crate::fitting::is_unknown;
use netlist::{Core, Holds, NoMemory};
use std::alloc::{AllocError, Global};

/// Adds what holds an input, unless it is to be left out.
fn push_unless(
    left_out: bool,
    hold: Option<bool>,
    known: &mut Vec<Option<bool>>,
) -> Result<(), AllocError>
    ensures { OnOk result (known.new.items ≡ known.old.items ++ cond left_out [] (hold ∷ [])) }
{
    if left_out {
        return Ok(());
    }
    known.push(hold)?;
    Ok(())
}

/// What holds the known inputs.
pub fn known_holds(
    alloc: Global,
    core: &Core,
    holds: &Holds,
    unknown: &[bool],
) -> Result<Vec<Option<bool>>, NoMemory>
    requires { AreHoldsOf core.now holds.now }
    ensures { IfOk result (λ known. known.items ≡ known_part unknown.now holds.now) }
{
    core.netlist().sound();
    let count = core.netlist().inputs().len() as u32;
    let mut known = Vec::new(alloc);
    for input in 0..count {
        let hold = holds.held(input);
        push_unless(is_unknown(unknown, input as usize), hold, &mut known)?;
    }
    Ok(known)
}

/// What holds an input, where an unknown one is held at 0.
fn zeroed_at(hold: Option<bool>, unknown: bool) -> Option<bool>
    ensures { result ≡ cond unknown (Some false) hold }
{
    if unknown { Some(false) } else { hold }
}

/// Holds an input, if at some bit.
fn set_hold(holds: &mut Holds, input: u32, hold: Option<bool>)
    requires { input < length holds.old }
    ensures { holds.new ≡ hold_set holds.old input hold }
{
    match hold {
        Some(bit) => holds.set(input, bit),
        None => {}
    }
}

/// The same holds, but each unknown input is held at 0.
pub fn zeroed(
    alloc: Global,
    core: &Core,
    holds: &Holds,
    unknown: &[bool],
) -> Result<Holds, NoMemory>
    requires held { AreHoldsOf core.now holds.now }
    requires size { length unknown.now ≡ length holds.now }
    ensures { IfOk result (λ zeroed. zeroed ≡ holds_at_zero unknown.now holds.now) }
{
    core.netlist().sound();
    let count = core.netlist().inputs().len() as u32;
    let mut zeroed = Holds::none(alloc, core)?;
    for input in 0..count {
        let hold = zeroed_at(holds.held(input), unknown[input as usize]);
        set_hold(&mut zeroed, input, hold);
    }
    Ok(zeroed)
}
