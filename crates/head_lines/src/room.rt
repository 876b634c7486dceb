//! Roles that are kept from fault to fault. What is bound whatever the fault is marked once; what the fault's line binds besides is a chain, since
//! a signal of two readers is a fanout stem, and what reads it is bound anyway. So a fault costs its chain and the pins of the gates there, where a
//! pass would cost the netlist.
ghost use Rattle.std.specs.Prelude.{◌≡◌, ◌≤◌, ◌<◌, ◌+◌, ℕ, [], ◌∷◌, length, Some, None, IfOk, OnOk};
ghost use Rattle.std.specs.Bool.{Decides};
ghost use Rattle.std.specs.List.{All, Contains};
ghost use Rattle.netlist.specs.Holds.{AreHoldsOf};
ghost use Rattle.statement.specs.Netlists.{signals};
ghost use Rattle.netlist.specs.Netlist.{Reads};
ghost use Rattle.head_lines.specs.HeadLines.{role_at, AreRoles};
ghost use Rattle.head_lines.specs.Rooms.{AreBeside, IsReusableRoleRoom};
ghost use Rattle.head_lines.specs.inner.Binding.{IsKeptBeside, IsPut, AreHeads, IsBoundNow, IsOnlyReader, IsSite, AreRolesBut, unbound, waiting};

use crate::marking::is_gate;
use crate::roles::{Role, roles_of};
use netlist::{Core, Fault, Holds, Line, Netlist, SignalId};
use std::alloc::{AllocError, Global};

/// The roles of one fault after the other.
#[derive(Drop)]
pub struct RoleRoom {
    /// Whatever the fault.
    base: Vec<Role>,
    roles: Vec<Role>,
    changed: Vec<SignalId>,
}

/// Gives a signal a role.
fn put(
    roles: &mut Vec<Role>,
    changed: &mut Vec<SignalId>,
    id: SignalId,
    role: Role,
) -> Result<(), AllocError>
    requires { id < length roles.old.items }
    ensures put { OnOk result (IsPut roles.old.items roles.new.items id role) }
    ensures beside { OnOk result (IsKeptBeside roles.old.items changed.old.items roles.new.items changed.new.items) }
{
    changed.push(id)?;
    roles[id.index()] = role;
    Ok(())
}

/// A signal that is read by a bound gate is a head line, unless it is bound.
fn end_at(
    roles: &mut Vec<Role>,
    changed: &mut Vec<SignalId>,
    id: SignalId,
) -> Result<(), AllocError>
    requires { id < length roles.old.items }
    ensures heads { OnOk result (AreHeads roles.old.items roles.new.items (id ∷ [])) }
    ensures beside { OnOk result (IsKeptBeside roles.old.items changed.old.items roles.new.items changed.new.items) }
{
    match roles[id.index()] {
        Role::Bound => Ok(()),
        Role::Head => Ok(()),
        Role::Inner => put(roles, changed, id, Role::Head),
    }
}

/// So are all of these.
fn end_at_all(
    roles: &mut Vec<Role>,
    changed: &mut Vec<SignalId>,
    ids: &[SignalId],
) -> Result<(), AllocError>
    requires { All (λ x. x < length roles.old.items) ids.now }
    ensures heads { OnOk result (AreHeads roles.old.items roles.new.items ids.now) }
    ensures beside { OnOk result (IsKeptBeside roles.old.items changed.old.items roles.new.items changed.new.items) }
{
    for id in ids {
        end_at(roles, changed, *id)?;
    }
    Ok(())
}

/// What the gate of a signal reads; nothing for an input and a cell.
fn gate_pins(netlist: &Netlist, id: SignalId) -> &[SignalId]
    requires { id < length (signals netlist.now) }
    ensures are { All (λ x. Reads netlist.now id x) result.now }
    ensures all { (x : ℕ) → Reads netlist.now id x → Contains result.now x }
{
    netlist.sound();
    if id.index() < netlist.inputs().len() {
        return &[];
    }
    let definition = netlist.definition(id);
    if definition.kind().is_flip_flop() {
        return &[];
    }
    definition.pins()
}

/// A signal is bound, and what its gate reads are head lines, as far as it isn't bound.
fn bind(
    netlist: &Netlist,
    roles: &mut Vec<Role>,
    changed: &mut Vec<SignalId>,
    id: SignalId,
) -> Result<(), AllocError>
    requires size { length roles.old.items ≡ length (signals netlist.now) }
    requires within { id < length (signals netlist.now) }
    ensures bound { OnOk result (IsBoundNow netlist.now id roles.old.items roles.new.items) }
    ensures beside { OnOk result (IsKeptBeside roles.old.items changed.old.items roles.new.items changed.new.items) }
{
    netlist.sound();
    put(roles, changed, id, Role::Bound)?;
    end_at_all(roles, changed, gate_pins(netlist, id))?;
    Ok(())
}

/// The only gate that reads a signal.
fn only_reader(netlist: &Netlist, id: SignalId) -> Option<SignalId>
    requires { id < length (signals netlist.now) }
    ensures { IsOnlyReader netlist.now id result }
{
    netlist.sound();
    let readers = netlist.readers(id);
    if readers.len() != 1 {
        return None;
    }
    match readers[0] {
        Line::Stem(_) => None,
        Line::Pin(z, _) => { if is_gate(netlist, z) { Some(z) } else { None } }
        Line::Out(_) => None,
    }
}

/// The signal of which a line is: a stem's own, or that of a gate of which it is a pin.
fn site_of(netlist: &Netlist, line: &Line) -> Option<SignalId>
    ensures { IsSite netlist.now line.now result }
{
    netlist.sound();
    let count = netlist.inputs().len() + netlist.definitions().len();
    match line {
        Line::Stem(x) => { if x.index() < count { Some(*x) } else { None } }
        Line::Pin(z, _) => {
            if z.index() < count && is_gate(netlist, *z) {
                Some(*z)
            } else {
                None
            }
        }
        Line::Out(_) => None,
    }
}

fn is_bound(roles: &[Role], id: SignalId) -> bool
    requires { id < length roles.now }
    ensures { Decides result (role_at roles.now id ≡ Role.Bound) }
{
    match roles[id.index()] {
        Role::Bound => true,
        Role::Head => false,
        Role::Inner => false,
    }
}

/// A signal is bound, if it wasn't; and then the next one.
fn bind_next(
    netlist: &Netlist,
    fault: &Fault,
    holds: &Holds,
    roles: &mut Vec<Role>,
    changed: &mut Vec<SignalId>,
    id: SignalId,
) -> Result<Option<SignalId>, AllocError>
    requires { AreRolesBut fault.now netlist.now holds.now roles.old.items (Some id) }
    ensures roles { IfOk result (AreRolesBut fault.now netlist.now holds.now roles.new.items) }
    ensures fewer { IfOk result (λ next. unbound roles.new.items + waiting next ≤ unbound roles.old.items) }
    ensures beside { OnOk result (IsKeptBeside roles.old.items changed.old.items roles.new.items changed.new.items) }
{
    netlist.sound();
    if is_bound(roles, id) {
        return Ok(None);
    }
    bind(netlist, roles, changed, id)?;
    Ok(only_reader(netlist, id))
}

/// All signals are bound that this one reaches.
fn bind_from(
    netlist: &Netlist,
    fault: &Fault,
    holds: &Holds,
    roles: &mut Vec<Role>,
    changed: &mut Vec<SignalId>,
    first: Option<SignalId>,
) -> Result<(), AllocError>
    requires { AreRolesBut fault.now netlist.now holds.now roles.old.items first }
    ensures roles { OnOk result (AreRolesBut fault.now netlist.now holds.now roles.new.items None) }
    ensures beside { OnOk result (IsKeptBeside roles.old.items changed.old.items roles.new.items changed.new.items) }
{
    let mut next = first;
    while let Some(id) = next {
        next = bind_next(netlist, fault, holds, roles, changed, id)?;
    }
    Ok(())
}

/// The roles are again what they are whatever the fault.
fn restore(base: &[Role], roles: &mut Vec<Role>, changed: &mut Vec<SignalId>)
    requires size { length roles.old.items ≡ length base.now }
    requires beside { AreBeside base.now roles.old.items changed.old.items }
    ensures size { length roles.new.items ≡ length base.now }
    ensures same { AreBeside base.now roles.new.items [] }
    ensures none { changed.new.items ≡ [] }
{
    while let Some(id) = changed.pop() {
        if id.index() < base.len() {
            roles[id.index()] = base[id.index()];
        }
    }
}

impl RoleRoom {
    /// For a netlist under held inputs.
    pub fn of(alloc: Global, core: &Core, holds: &Holds) -> Result<RoleRoom, AllocError>
        requires { AreHoldsOf core.now holds.now }
        ensures { IfOk result (IsReusableRoleRoom core.now holds.now) }
    {
        let nowhere = Fault {
            line: Line::Out(SignalId(0)),
            value: false,
        };
        let base = roles_of(alloc, core, &nowhere, holds)?;
        let roles = base.clone()?;
        Ok(RoleRoom {
            base,
            roles,
            changed: Vec::new(alloc),
        })
    }

    /// The roles are those of a fault, whatever they were.
    pub fn aim(&mut self, core: &Core, fault: &Fault, holds: &Holds) -> Result<(), AllocError>
        requires { IsReusableRoleRoom core.now holds.now self.old }
        ensures serves { OnOk result (IsReusableRoleRoom core.now holds.now self.new) }
        ensures roles { OnOk result (AreRoles fault.now core.now holds.now self.new.roles.items) }
    {
        let netlist = core.netlist();
        netlist.sound();
        restore(&self.base, &mut self.roles, &mut self.changed);
        let site = site_of(netlist, &fault.line);
        bind_from(
            netlist,
            fault,
            holds,
            &mut self.roles,
            &mut self.changed,
            site,
        )?;
        Ok(())
    }

    /// The role of each signal, by number.
    pub fn roles(&self) -> &[Role]
        ensures { result.now ≡ self.now.roles.items }
    {
        &self.roles
    }
}
