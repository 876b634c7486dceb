//! What an evaluator keeps beside its netlist.
use crate::agendas::Agenda;
use crate::tables::Tables;
use crate::trails::Change;
use crate::watches::Watches;
use std::marker::Model;

/// The tables, the agenda, what is watched, the values and the trail of an evaluator, for later use with the same netlist.
#[derive(Drop)]
pub struct EventRoom<V> {
    pub(crate) tables: Tables,
    pub(crate) agenda: Agenda,
    pub(crate) watches: Watches,
    pub(crate) trail: Vec<Change<V>>,
    pub(crate) values: Vec<V>,
}

impl<V> Model for EventRoom<V> {
    ghost use Rattle.events.specs.Rooms.{Room};

    ghost Value = { Room V };

    ghost use Rattle.std.specs.Prelude.{vec_capacity};

    ghost view = { λ r. record { order = r.tables.order.items; places = r.tables.places.items; fans = r.tables.fans; marks = r.agenda; values = r.values.items; trail = r.trail.items; capacity = vec_capacity r.trail } };
}
