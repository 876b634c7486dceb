//! Other values on the inputs and cells.
ghost use Rattle.std.specs.Prelude.{◌≡◌, ◌≢◌, ◌<◌, ◌≤◌, length};
ghost use Rattle.std.specs.List.{All, AllPairs};
ghost use Rattle.statement.specs.Netlists.{signals};
ghost use Rattle.events.specs.inner.Placing.{AreTables};
ghost use Rattle.events.specs.inner.Driving.{Puts, AreDriven};

use crate::agendas::Agenda;
use crate::comparing::Comparing;
use crate::resettling::call;
use crate::tables::Tables;
use netlist::{Line, Netlist, SignalId};

/// Gives a signal its value. The gates that read it are called where it changed.
#[inline(always)]
fn put_value<L: Comparing>(
    rule: &L,
    netlist: &Netlist,
    tables: &Tables,
    id: SignalId,
    value: L::Value,
    agenda: &mut Agenda,
    values: &mut Vec<L::Value>,
)
    requires tables { AreTables netlist.now tables.now.order.items tables.now.places.items tables.now.fans }
    requires within { id < length (signals netlist.now) }
    requires size { length values.old.items ≡ length (signals netlist.now) }
    requires marks { length agenda.old ≡ length tables.now.order.items }
    ensures { Puts netlist.now tables.now.places.items id value values.old.items values.new.items agenda.old agenda.new }
{
    if rule.is_same(value, values[id.index()]) {
        return;
    }
    values[id.index()] = value;
    call(tables.fan(id), agenda);
}

/// Puts values onto inputs or cells.
pub(crate) fn drive_onto<L: Comparing>(
    rule: &L,
    netlist: &Netlist,
    tables: &Tables,
    ids: &[SignalId],
    driven: &[L::Value],
    agenda: &mut Agenda,
    values: &mut Vec<L::Value>,
)
    requires tables { AreTables netlist.now tables.now.order.items tables.now.places.items tables.now.fans }
    requires enough { length driven.now ≡ length ids.now }
    requires within { All (λ x. x < length (signals netlist.now)) ids.now }
    requires distinct { AllPairs (λ x y. x ≢ y) ids.now }
    requires size { length values.old.items ≡ length (signals netlist.now) }
    requires marks { length agenda.old ≡ length tables.now.order.items }
    ensures { AreDriven (L.rule rule.now) netlist.now tables.now.places.items ids.now driven.now values.old.items values.new.items agenda.old agenda.new (length ids.now) }
{
    for k in 0..ids.len() {
        let id = ids[k];
        let value = rule.line(&Line::Stem(id), driven[k]);
        put_value(rule, netlist, tables, id, value, agenda, values);
    }
}
