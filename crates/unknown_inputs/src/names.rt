//! The names of the opened netlist's signals.
ghost use Rattle.std.specs.Prelude.{◌≡◌, ◌++◌, ◌∷◌, [], ◌<◌, length, map, IfOk, OnOk};
ghost use Rattle.std.specs.List.{All};
ghost use Rattle.statement.specs.Netlists.{Definition as Equation, signals, name_of};
ghost use Rattle.netlist.specs.Conditions.{IsSound};

use netlist::{NameTable, Netlist, SignalId};
use std::alloc::{AllocError, Global};

/// Adds the name of a signal.
fn push_name(netlist: &Netlist, signal: SignalId, names: &mut NameTable) -> Result<(), AllocError>
    requires { signal < length (signals netlist.now) }
    ensures { OnOk result (names.new ≡ names.old ++ name_of netlist.now signal ∷ []) }
{
    names.push(netlist.name(signal))
}

/// Adds the names of these signals.
fn push_names(netlist: &Netlist, ids: &[SignalId], names: &mut NameTable) -> Result<(), AllocError>
    requires { All (λ x. x < length (signals netlist.now)) ids.now }
    ensures { OnOk result (names.new ≡ names.old ++ map (name_of netlist.now) ids.now) }
{
    for x in ids {
        push_name(netlist, *x, names)?;
    }
    Ok(())
}

/// Adds the names of the definitions.
fn push_definitions(netlist: &Netlist, names: &mut NameTable) -> Result<(), AllocError>
    requires { IsSound netlist.now }
    ensures { OnOk result (names.new ≡ names.old ++ map (λ (d : Equation). name_of netlist.now d.id) netlist.now.definitions) }
{
    for definition in netlist.definitions() {
        push_name(netlist, definition.id(), names)?;
    }
    Ok(())
}

/// The names of the known inputs, of the unknown ones and of the definitions.
pub(crate) fn opened_names(
    alloc: Global,
    netlist: &Netlist,
    known: &[SignalId],
    others: &[SignalId],
) -> Result<NameTable, AllocError>
    requires sound { IsSound netlist.now }
    requires known { All (λ x. x < length (signals netlist.now)) known.now }
    requires others { All (λ x. x < length (signals netlist.now)) others.now }
    ensures { IfOk result (λ names. names
        ≡ map (name_of netlist.now) known.now ++ map (name_of netlist.now) others.now ++ map (λ (d : Equation). name_of netlist.now d.id) netlist.now.definitions) }
{
    let mut names = NameTable::new(alloc);
    push_names(netlist, known, &mut names)?;
    push_names(netlist, others, &mut names)?;
    push_definitions(netlist, &mut names)?;
    Ok(names)
}
