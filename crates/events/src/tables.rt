//! What the evaluator reads of a netlist, in flat tables: the order of evaluation, the place of each signal in it, and for each signal the places of the gates that read it.
ghost use Rattle.std.specs.Prelude.{◌≡◌, ◌++◌, ◌<◌, ◌≤◌, ◌∷◌, [], IfOk, OnOk, Some, length, slice_get, slice_index, slice_index_or};
ghost use Rattle.std.specs.List.{All};
ghost use Rattle.statement.specs.Netlists.{signals};
ghost use Rattle.plain_text.specs.Rows.{AreEnds, rows};
ghost use Rattle.netlist.specs.Lines.{IsPinBelow};
ghost use Rattle.events.specs.inner.Placing.{AreFans, AreTables, called};

use netlist::{Core, Line, Netlist, SignalId};
use std::alloc::{AllocError, Global};
use std::marker::Model;

/// The places of the gates that read each signal, one list behind the other.
#[derive(Drop)]
pub(crate) struct Fans {
    places: Vec<u32>,
    ends: Vec<usize>,
}

impl Model for Fans {
    ghost use Rattle.std.specs.Prelude.{ℕ, List};
    ghost use Rattle.plain_text.specs.Rows.{AreEnds, rows};

    ghost Value = { List (List ℕ) };

    ghost view = { λ f. rows 0 f.places.items f.ends.items };

    ghost invariant = { λ f. AreEnds 0 f.places.items f.ends.items };
}

/// What the evaluator reads.
#[derive(Drop)]
pub(crate) struct Tables {
    pub order: Vec<SignalId>,
    pub places: Vec<u32>,
    pub fans: Fans,
}

/// Adds the place of the gate that has this pin.
fn push_called(
    line: &Line,
    places: &[u32],
    bound: usize,
    fan: &mut Vec<u32>,
) -> Result<(), AllocError>
    requires { IsPinBelow (length places.now) line.now }
    ensures { OnOk result (fan.new.items ≡ fan.old.items ++ called places.now bound (line.now ∷ [])) }
{
    if let Line::Pin(gate, _) = line {
        let place = places[gate.index()];
        if (place as usize) < bound {
            fan.push(place)?;
        }
    }
    Ok(())
}

/// Adds the places of the gates that have pins among these lines.
fn push_all_called(
    lines: &[Line],
    places: &[u32],
    bound: usize,
    fan: &mut Vec<u32>,
) -> Result<(), AllocError>
    requires { All (IsPinBelow (length places.now)) lines.now }
    ensures { OnOk result (fan.new.items ≡ fan.old.items ++ called places.now bound lines.now) }
{
    for line in lines {
        push_called(line, places, bound, fan)?;
    }
    Ok(())
}

/// The places of the gates that read each signal.
fn fans_of(
    alloc: Global,
    netlist: &Netlist,
    places: &[u32],
    bound: usize,
) -> Result<Fans, AllocError>
    requires { length places.now ≡ length (signals netlist.now) }
    ensures { IfOk result (AreFans netlist.now places.now bound) }
{
    netlist.sound();
    let count = places.len();
    let mut fan = Vec::new(alloc);
    let mut ends = Vec::with_capacity(alloc, count)?;
    for x in 0..count {
        let readers = netlist.readers(SignalId(x as u32));
        push_all_called(readers, places, bound, &mut fan)?;
        ends.push(fan.len())?;
    }
    Ok(Fans { places: fan, ends })
}

/// Where the list at a place begins.
#[inline(always)]
fn start_of(ends: &[usize], place: usize) -> usize
    requires { place < length ends.now }
    ensures { result ≡ slice_index (0 ∷ ends.now) place }
{
    if place == 0 { 0 } else { ends[place - 1] }
}

/// The list at a place.
#[inline(always)]
#[tactic(auto, using(plain_text::proofs::Buffers::begins_before_end, plain_text::proofs::Buffers::end_within))]
fn row<'a>(items: &'a [u32], ends: &[usize], place: usize) -> &'a [u32]
    requires ends { AreEnds 0 items.now ends.now }
    requires within { place < length ends.now }
    ensures { slice_index_or (rows 0 items.now ends.now) place [] ≡ result.now }
{
    let start = start_of(ends, place);
    let end = ends[place];
    &items[start..end]
}

impl Fans {
    /// The places of the gates that read a signal.
    #[inline(always)]
    fn row(&self, id: SignalId) -> &[u32]
        requires { id < length self.now }
        ensures { slice_index_or self.now id [] ≡ result.now }
    {
        row(&self.places, &self.ends, id.index())
    }
}

impl Tables {
    /// The tables of a netlist, made once.
    pub(crate) fn of(alloc: Global, core: &Core) -> Result<Tables, AllocError>
        ensures { IfOk result (λ t. AreTables core.now t.order.items t.places.items t.fans) }
    {
        let schedule = core.schedule();
        let order = Vec::from_slice(alloc, schedule.order)?;
        let places = Vec::from_slice(alloc, schedule.places)?;
        let fans = fans_of(alloc, core.netlist(), &places, order.len())?;
        Ok(Tables {
            order,
            places,
            fans,
        })
    }

    #[inline(always)]
    pub(crate) fn place(&self, id: SignalId) -> usize
        requires { id < length self.now.places.items }
        ensures { result ≡ slice_index self.now.places.items id }
    {
        self.places[id.index()] as usize
    }

    /// The places of the gates that read a signal.
    #[inline(always)]
    pub(crate) fn fan(&self, id: SignalId) -> &[u32]
        requires { id < length self.now.fans }
        ensures { slice_index_or self.now.fans id [] ≡ result.now }
    {
        self.fans.row(id)
    }
}
