//! The values of a netlist's signals as they stand, and the calls by which they settle anew.
ghost use Rattle.std.specs.Prelude.{◌≡◌, ◌≢◌, ◌+◌, ◌^◌, ◌<◌, ◌≤◌, [], drop, length, slice_set, take, IfOk, IfSome, MatchOption, OnOk, None, Some, slice_get};
ghost use Rattle.std.specs.List.{All, AllPairs};
ghost use Rattle.netlist.specs.Lines.{IsLineOf};
ghost use Rattle.statement.specs.Netlists.{cells, signals};
ghost use Rattle.statement.specs.Values.{Table, with_fault};
ghost use Rattle.events.specs.Rooms.{IsReusableRoom, IsRoomOf, standing_in};
ghost use Rattle.events.specs.Standing.{IsStanding, Moves, SettlesAnew, SettlesAllAnew, SettlesFor, SettlesOver};
ghost use Rattle.events.specs.Stuck.{IsObservedOnly, IsSite};
ghost use Rattle.events.specs.Trails.{undone};

use crate::agendas::Agenda;
use crate::comparing::Comparing;
use crate::driving::drive_onto;
use crate::resettling::{resettle, touch, touch_each};
use crate::rooms::EventRoom;
use crate::tables::Tables;
use crate::trails::{Change, undo};
use crate::watches::Watches;
use netlist::{Core, Fault, Line, SignalId};
use std::alloc::{AllocError, Global};
use std::marker::Model;

/// Values of the signals of a netlist, with a trail of what changed.
#[derive(Drop)]
pub struct Events<'a, V> {
    core: &'a Core,
    tables: Tables,
    agenda: Agenda,
    watches: Watches,
    trail: Vec<Change<V>>,
    values: Vec<V>,
}

impl<'a, V> Model for Events<'a, V> {
    ghost use Rattle.events.specs.Standing.{Standing};

    ghost Value = { Standing V };

    ghost use Rattle.std.specs.Prelude.{vec_capacity};
    ghost use Rattle.events.specs.Standing.{standing};
    ghost use Rattle.events.specs.inner.Running.{AreReady};

    ghost view = { λ e. standing e.core.now e.values.items e.trail.items (vec_capacity e.trail) };

    ghost invariant = { λ e. AreReady e.core.now e.tables.order.items e.tables.places.items e.tables.fans e.agenda e.values.items e.trail.items (vec_capacity e.trail) };
}

impl<'a, V: Copy + Drop> Events<'a, V> {
    /// A value for each signal, an empty trail, and room for so many changes when a call begins. Only this call and `reserve` take memory.
    pub fn new(
        alloc: Global,
        core: &'a Core,
        values: Vec<V>,
        room: usize,
    ) -> Result<Events<'a, V>, AllocError>
        requires size { length values.items ≡ length (signals core.now) }
        requires small { room < 2 ^ 62 }
        ensures { IfOk result (λ e. (e.netlist ≡ core.now) × (e.values ≡ values.items) × (e.trail ≡ []) × (room ≤ e.room)) }
    {
        core.netlist().sound();
        let tables = Tables::of(alloc, core)?;
        let agenda = Agenda::new(alloc, tables.order.len())?;
        let watches = Watches::of(alloc, core.netlist())?;
        let trail = Vec::with_capacity(alloc, values.len() + 1 + room)?;
        Ok(Events {
            core,
            tables,
            agenda,
            watches,
            trail,
            values,
        })
    }

    /// What is kept of it beside the netlist.
    pub fn into_room(self) -> EventRoom<V>
        ensures { IsRoomOf self.entry result }
    {
        let Events {
            core: _,
            tables,
            agenda,
            watches,
            trail,
            values,
        } = self;
        EventRoom {
            tables,
            agenda,
            watches,
            trail,
            values,
        }
    }

    /// Goes on where the room was left.
    pub fn in_room(core: &'a Core, room: EventRoom<V>) -> Events<'a, V>
        requires { IsReusableRoom core.now room }
        ensures { result ≡ standing_in core.now room }
    {
        let EventRoom {
            tables,
            agenda,
            watches,
            trail,
            values,
        } = room;
        Events {
            core,
            tables,
            agenda,
            watches,
            trail,
            values,
        }
    }

    pub fn core(&self) -> &'a Core
        ensures { result.now ≡ self.now.netlist }
    {
        self.core
    }

    /// The value of each signal.
    #[inline(always)]
    pub fn values(&self) -> &[V]
        ensures values { result.now ≡ self.now.values }
        ensures standing { IsStanding self.now }
    {
        &self.values
    }

    /// What changed since the trail was empty, the latest change last.
    #[inline(always)]
    pub fn trail(&self) -> &[Change<V>]
        ensures trail { result.now ≡ self.now.trail }
        ensures standing { IsStanding self.now }
    {
        &self.trail
    }

    /// The length of the trail, to which `undo` goes back.
    #[inline(always)]
    pub fn mark(&self) -> usize
        ensures { result ≡ length self.now.trail }
    {
        self.trail.len()
    }

    /// Makes room for so many changes more than stand on the trail.
    pub fn reserve(&mut self, changes: usize) -> Result<(), AllocError>
        requires { changes < 2 ^ 62 }
        ensures room { OnOk result (length self.old.trail + changes ≤ self.new.room) }
        ensures kept { self.old.room ≤ self.new.room }
        ensures same { self.new ≡ record self.old { room = self.new.room } }
    {
        self.trail.reserve(changes + self.values.len() + 1)
    }

    /// The rule, or what is driven, changed at one signal: what that reaches is evaluated.
    pub fn change<L: Comparing<Value = V>>(&mut self, rule: &L, id: SignalId, driven: V)
        requires within { id < length (signals self.old.netlist) }
        requires room { length self.old.trail ≤ self.old.room }
        ensures moves { Moves self.old self.new }
        ensures settles { SettlesAnew (L.rule rule.now) self.old.netlist id driven self.old.values self.new.values }
    {
        let netlist = self.core.netlist();
        netlist.sound();
        touch(
            rule,
            netlist,
            &self.tables,
            id,
            driven,
            &mut self.agenda,
            &mut self.watches,
            &mut self.trail,
            &mut self.values,
        );
        resettle(
            rule,
            netlist,
            &self.tables,
            &mut self.agenda,
            &mut self.watches,
            &mut self.trail,
            &mut self.values,
        );
    }

    /// The rule changed at each of these signals: what that reaches is evaluated, once for all of them. What is driven onto inputs and cells is
    /// the value that they have.
    pub fn change_each<L: Comparing<Value = V>>(&mut self, rule: &L, ids: &[SignalId])
        requires within { All (λ x. x < length (signals self.old.netlist)) ids.now }
        requires distinct { AllPairs (λ x y. x ≢ y) ids.now }
        requires room { length self.old.trail + length ids.now ≤ self.old.room + 1 }
        ensures moves { Moves self.old self.new }
        ensures settles { SettlesAllAnew (L.rule rule.now) self.old.netlist ids.now self.old.values self.new.values }
    {
        let netlist = self.core.netlist();
        netlist.sound();
        touch_each(
            rule,
            netlist,
            &self.tables,
            ids,
            &mut self.agenda,
            &mut self.watches,
            &mut self.trail,
            &mut self.values,
        );
        resettle(
            rule,
            netlist,
            &self.tables,
            &mut self.agenda,
            &mut self.watches,
            &mut self.trail,
            &mut self.values,
        );
    }

    /// A signal takes a value, and nothing is evaluated.
    #[inline(always)]
    pub fn put(&mut self, id: SignalId, value: V)
        requires { id < length (signals self.old.netlist) }
        ensures { self.new ≡ record self.old { values = slice_set self.old.values id value } }
    {
        self.values[id.index()] = value;
    }

    /// The signal whose equation a line enters; none for an output and for a cell's pin, which only an observed point reads.
    fn site(&self, line: &Line) -> Option<SignalId>
        requires { IsLineOf self.now.netlist line.now }
        ensures site { MatchOption result (IsObservedOnly self.now.netlist line.now) (IsSite self.now.netlist line.now) }
        ensures within { IfSome result (λ x. x < length (signals self.now.netlist)) }
    {
        self.core.netlist().sound();
        match line {
            Line::Stem(x) => Some(*x),
            Line::Pin(z, _) => {
                if self.tables.place(*z) < self.tables.order.len() {
                    Some(*z)
                } else {
                    None
                }
            }
            Line::Out(_) => None,
        }
    }

    /// A line is stuck, which was not: the rule has the fault, and the values settled without one.
    pub fn stick<L: Comparing<Value = V>>(&mut self, rule: &L, fault: &Fault)
        requires line { IsLineOf self.old.netlist fault.now.line }
        requires room { length self.old.trail ≤ self.old.room }
        ensures moves { Moves self.old self.new }
        ensures settles { (table : Table V) → L.rule rule.now ≡ with_fault table (Some fault.now) → SettlesOver (with_fault table None) (with_fault table (Some fault.now)) self.old.netlist self.old.values self.new.values }
    {
        self.core.netlist().sound();
        if let Some(id) = self.site(&fault.line) {
            self.change(rule, id, rule.blank());
        }
    }

    /// Takes back all changes from a mark on, the last one first.
    pub fn undo(&mut self, mark: usize)
        requires { mark ≤ length self.old.trail }
        ensures { self.new ≡ record self.old { values = undone (drop mark self.old.trail) self.old.values; trail = take mark self.old.trail } }
    {
        undo(&mut self.trail, mark, &mut self.values);
    }

    /// Takes the changes from a mark on off the trail: they can't be taken back.
    pub fn forget_from(&mut self, mark: usize)
        ensures { self.new ≡ record self.old { trail = take mark self.old.trail } }
    {
        self.trail.truncate(mark);
    }

    /// Empties the trail: the values as they stand can't be taken back.
    pub fn forget(&mut self)
        ensures { self.new ≡ record self.old { trail = [] } }
    {
        self.trail.clear();
    }

    /// Drives other values onto the inputs and cells. The trail is empty then.
    pub fn drive<L: Comparing<Value = V>>(&mut self, rule: &L, inputs: &[V], state: &[V])
        requires inputs { length inputs.now ≡ length self.old.netlist.inputs }
        requires state { length state.now ≡ length (cells self.old.netlist) }
        ensures settles { SettlesFor (L.rule rule.now) self.old.netlist inputs.now state.now self.old.values self.new.values }
        ensures same { self.new ≡ record self.old { values = self.new.values; trail = [] } }
    {
        let netlist = self.core.netlist();
        netlist.sound();
        self.trail.clear();
        drive_onto(
            rule,
            netlist,
            &self.tables,
            netlist.inputs(),
            inputs,
            &mut self.agenda,
            &mut self.values,
        );
        drive_onto(
            rule,
            netlist,
            &self.tables,
            netlist.cells(),
            state,
            &mut self.agenda,
            &mut self.values,
        );
        resettle(
            rule,
            netlist,
            &self.tables,
            &mut self.agenda,
            &mut self.watches,
            &mut self.trail,
            &mut self.values,
        );
        self.trail.clear();
    }
}
