//! The one evaluator by events, for any rule by which values settle.
ghost use Rattle.std.specs.Prelude.{◌≡◌, ◌≢◌, ◌+◌, ◌<◌, ◌≤◌, ◌∷◌, [], length, slice_index, slice_index_or, slice_set, vec_capacity, IsTrue};
ghost use Rattle.std.specs.List.{All, AllPairs, Contains};
ghost use Rattle.netlist.specs.Gates.{most_pins};
ghost use Rattle.statement.specs.Netlists.{signals, readers_of};
ghost use Rattle.netlist.specs.Netlist.{IsGateAt};
ghost use Rattle.netlist.specs.Conditions.{IsSound};
ghost use Rattle.netlist.specs.Lines.{IsPinBelow};
ghost use Rattle.netlist.specs.Settled.{at};
ghost use Rattle.events.specs.Agendas.{AreClear};
ghost use Rattle.events.specs.Waiting.{given};
ghost use Rattle.events.specs.inner.Placing.{AreTables, Marks};
ghost use Rattle.events.specs.inner.Running.{CallsTurned, IsMade, MakesSame, Takes, Resettles, PutsSource, Touches};

use crate::agendas::Agenda;
use crate::comparing::Comparing;
use crate::tables::Tables;
use crate::trails::Change;
use crate::watches::{Watches, is_wide};
use netlist::{Definition, Line, Netlist, SignalId};

/// Marks places.
#[inline(always)]
pub(crate) fn call(row: &[u32], agenda: &mut Agenda)
    requires { All (λ p. p < length agenda.old) row.now }
    ensures { Marks row.now agenda.old agenda.new }
{
    for place in row {
        agenda.insert(*place as usize);
    }
}

/// Whether a wide gate makes the same once a signal has another value, as far as the watched pins tell.
fn is_hidden<L: Comparing>(
    rule: &L,
    gate: &Definition,
    watches: &Watches,
    id: SignalId,
    value: L::Value,
    values: &[L::Value],
) -> bool
    requires below { All (λ x. x < length values.now) gate.now.pins }
    requires within { id < length values.now }
    ensures { IsTrue result → MakesSame (L.rule rule.now) gate.now values.now (slice_set values.now id value) }
{
    let watched = watches.at(gate.id());
    if rule.hides(gate, watched.latest, id, value, values) {
        return true;
    }
    rule.hides(gate, watched.unset, id, value, values)
}

/// Calls the gate of a pin that reads a signal, unless it makes the same once the signal has its value.
fn call_reader<L: Comparing>(
    rule: &L,
    netlist: &Netlist,
    tables: &Tables,
    line: &Line,
    id: SignalId,
    value: L::Value,
    values: &[L::Value],
    agenda: &mut Agenda,
    watches: &mut Watches,
)
    requires tables { AreTables netlist.now tables.now.order.items tables.now.places.items tables.now.fans }
    requires line { IsPinBelow (length (signals netlist.now)) line.now }
    requires within { id < length values.now }
    requires size { length values.now ≡ length (signals netlist.now) }
    requires marks { length agenda.old ≡ length tables.now.order.items }
    ensures { CallsTurned (L.rule rule.now) netlist.now (line.now ∷ []) tables.now.places.items values.now (slice_set values.now id value) agenda.old agenda.new }
{
    netlist.sound();
    let Line::Pin(reader, pin) = line else {
        return;
    };
    let place = tables.place(*reader);
    if place >= tables.order.len() {
        return;
    }
    let gate = netlist.definition(*reader);
    if is_wide(gate) {
        if is_hidden(rule, gate, watches, id, value, values) {
            return;
        }
        watches.changed(*reader, *pin);
    }
    agenda.insert(place);
}

/// The same of all pins among these lines.
fn call_each<L: Comparing>(
    rule: &L,
    netlist: &Netlist,
    tables: &Tables,
    lines: &[Line],
    id: SignalId,
    value: L::Value,
    values: &[L::Value],
    agenda: &mut Agenda,
    watches: &mut Watches,
)
    requires tables { AreTables netlist.now tables.now.order.items tables.now.places.items tables.now.fans }
    requires lines { All (IsPinBelow (length (signals netlist.now))) lines.now }
    requires within { id < length values.now }
    requires size { length values.now ≡ length (signals netlist.now) }
    requires marks { length agenda.old ≡ length tables.now.order.items }
    ensures { CallsTurned (L.rule rule.now) netlist.now lines.now tables.now.places.items values.now (slice_set values.now id value) agenda.old agenda.new }
{
    for line in lines {
        call_reader(
            rule, netlist, tables, line, id, value, values, agenda, watches,
        );
    }
}

/// Calls the gates that read a signal that is to have a value, but for those of which a watched pin tells that they make the same.
#[inline(always)]
fn call_readers<L: Comparing>(
    rule: &L,
    netlist: &Netlist,
    tables: &Tables,
    id: SignalId,
    value: L::Value,
    values: &[L::Value],
    agenda: &mut Agenda,
    watches: &mut Watches,
)
    requires tables { AreTables netlist.now tables.now.order.items tables.now.places.items tables.now.fans }
    requires within { id < length (signals netlist.now) }
    requires size { length values.now ≡ length (signals netlist.now) }
    requires marks { length agenda.old ≡ length tables.now.order.items }
    ensures { CallsTurned (L.rule rule.now) netlist.now (readers_of netlist.now id) tables.now.places.items values.now (slice_set values.now id value) agenda.old agenda.new }
{
    netlist.sound();
    let is_watched = rule.tells_by_pins() && watches.is_read(id);
    if is_watched {
        let lines = netlist.readers(id);
        call_each(
            rule, netlist, tables, lines, id, value, values, agenda, watches,
        );
        return;
    }
    call(tables.fan(id), agenda);
}

/// What a wide gate makes: one watched pin may tell.
#[inline(never)]
fn made_wide<L: Comparing>(
    rule: &L,
    gate: &Definition,
    values: &[L::Value],
    watches: &mut Watches,
) -> L::Value
    requires below { All (λ x. x < length values.now) gate.now.pins }
    requires few { length gate.now.pins ≤ most_pins }
    ensures { (d : L.Value) → result ≡ given (L.rule rule.now) (at values.now d) gate.now }
{
    let id = gate.id();
    if let Some(value) = rule.told(gate, watches.at(id).latest, values) {
        return value;
    }
    watches.watch(id, rule.watched(gate, values));
    rule.made(id, gate.kind(), gate.pins(), values)
}

/// What the gate of a signal makes.
#[inline(always)]
fn made<L: Comparing>(
    rule: &L,
    netlist: &Netlist,
    id: SignalId,
    values: &[L::Value],
    watches: &mut Watches,
) -> L::Value
    requires sound { IsSound netlist.now }
    requires gate { IsGateAt netlist.now id }
    requires size { length values.now ≡ length (signals netlist.now) }
    ensures { IsMade (L.rule rule.now) netlist.now id values.now result }
{
    let definition = netlist.definition(id);
    if rule.tells_by_pins() && is_wide(definition) {
        return made_wide(rule, definition, values, watches);
    }
    rule.made(id, definition.kind(), definition.pins(), values)
}

/// Gives a signal its value. Where it changed, the old one goes onto the trail, and the gates that read the signal are called.
#[inline(always)]
fn take_value<L: Comparing>(
    rule: &L,
    netlist: &Netlist,
    tables: &Tables,
    id: SignalId,
    value: L::Value,
    agenda: &mut Agenda,
    watches: &mut Watches,
    trail: &mut Vec<Change<L::Value>>,
    values: &mut Vec<L::Value>,
)
    requires tables { AreTables netlist.now tables.now.order.items tables.now.places.items tables.now.fans }
    requires within { id < length (signals netlist.now) }
    requires size { length values.old.items ≡ length (signals netlist.now) }
    requires marks { length agenda.old ≡ length tables.now.order.items }
    requires room { length trail.old.items < vec_capacity trail.old }
    ensures takes { Takes (L.rule rule.now) netlist.now tables.now.places.items id value values.old.items values.new.items agenda.old agenda.new trail.old.items trail.new.items }
    ensures room { vec_capacity trail.new ≡ vec_capacity trail.old }
    ensures pushed { length trail.new.items ≤ length trail.old.items + 1 }
{
    let before = values[id.index()];
    if rule.is_same(value, before) {
        return;
    }
    trail.push_reserved(Change { signal: id, before });
    call_readers(rule, netlist, tables, id, value, values, agenda, watches);
    values[id.index()] = value;
}

/// A signal may no longer have its value: a gate is marked, and an input or a cell takes what its stem makes of what is driven.
pub(crate) fn touch<L: Comparing>(
    rule: &L,
    netlist: &Netlist,
    tables: &Tables,
    id: SignalId,
    driven: L::Value,
    agenda: &mut Agenda,
    watches: &mut Watches,
    trail: &mut Vec<Change<L::Value>>,
    values: &mut Vec<L::Value>,
)
    requires tables { AreTables netlist.now tables.now.order.items tables.now.places.items tables.now.fans }
    requires within { id < length (signals netlist.now) }
    requires size { length values.old.items ≡ length (signals netlist.now) }
    requires marks { length agenda.old ≡ length tables.now.order.items }
    requires room { length trail.old.items < vec_capacity trail.old }
    ensures puts { PutsSource (L.rule rule.now) netlist.now tables.now.places.items id ((L.rule rule.now).line (Line.Stem id) driven) values.old.items values.new.items agenda.old agenda.new trail.old.items trail.new.items }
    ensures room { vec_capacity trail.new ≡ vec_capacity trail.old }
    ensures pushed { length trail.new.items ≤ length trail.old.items + 1 }
{
    netlist.sound();
    let place = tables.place(id);
    if place < tables.order.len() {
        agenda.insert(place);
        return;
    }
    let value = rule.line(&Line::Stem(id), driven);
    take_value(
        rule, netlist, tables, id, value, agenda, watches, trail, values,
    );
}

/// The same of each of these signals, where what is driven onto inputs and cells is the value that they have.
pub(crate) fn touch_each<L: Comparing>(
    rule: &L,
    netlist: &Netlist,
    tables: &Tables,
    ids: &[SignalId],
    agenda: &mut Agenda,
    watches: &mut Watches,
    trail: &mut Vec<Change<L::Value>>,
    values: &mut Vec<L::Value>,
)
    requires tables { AreTables netlist.now tables.now.order.items tables.now.places.items tables.now.fans }
    requires within { All (λ x. x < length (signals netlist.now)) ids.now }
    requires distinct { AllPairs (λ x y. x ≢ y) ids.now }
    requires size { length values.old.items ≡ length (signals netlist.now) }
    requires marks { length agenda.old ≡ length tables.now.order.items }
    requires room { length trail.old.items + length ids.now ≤ vec_capacity trail.old }
    ensures touches { Touches (L.rule rule.now) netlist.now tables.now.places.items ids.now values.old.items values.new.items agenda.old agenda.new trail.old.items trail.new.items (length ids.now) }
    ensures room { vec_capacity trail.new ≡ vec_capacity trail.old }
    ensures pushed { length trail.new.items ≤ length trail.old.items + length ids.now }
{
    for k in 0..ids.len() {
        let id = ids[k];
        let driven = values[id.index()];
        touch(
            rule, netlist, tables, id, driven, agenda, watches, trail, values,
        );
    }
}

/// Settles values anew that settle but at the marked places: the least place is taken and its gate evaluated, until none is marked.
pub(crate) fn resettle<L: Comparing>(
    rule: &L,
    netlist: &Netlist,
    tables: &Tables,
    agenda: &mut Agenda,
    watches: &mut Watches,
    trail: &mut Vec<Change<L::Value>>,
    values: &mut Vec<L::Value>,
)
    requires tables { AreTables netlist.now tables.now.order.items tables.now.places.items tables.now.fans }
    requires size { length values.old.items ≡ length (signals netlist.now) }
    requires marks { length agenda.old ≡ length tables.now.order.items }
    requires room { length trail.old.items + length tables.now.order.items ≤ vec_capacity trail.old }
    ensures resettles { Resettles (L.rule rule.now) netlist.now tables.now.places.items values.old.items values.new.items agenda.old trail.old.items trail.new.items }
    ensures clear { AreClear agenda.new }
    ensures marks { length agenda.new ≡ length agenda.old }
    ensures room { vec_capacity trail.new ≡ vec_capacity trail.old }
{
    netlist.sound();
    let mut below = 0;
    while let Some(place) = agenda.take_least() {
        let id = tables.order[place];
        let value = made(rule, netlist, id, values, watches);
        take_value(
            rule, netlist, tables, id, value, agenda, watches, trail, values,
        );
        below = place + 1;
    }
}
