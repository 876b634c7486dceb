//! Four heads side by side, in the lanes of an evaluator of four words.
//!
//! One by one, a signal that four heads change is evaluated four times; side by side it is once, but an evaluation, a change and its undoing move four
//! times the words. So it pays where four neighbours in the list of heads change much in common. Which it is depends on the netlist: a sample of the
//! heads is turned over one by one first, and what they change in common decides (`overlap`). What isn't told here is told one by one later.
ghost use Rattle.std.specs.Prelude.{◌≡◌, ◌≢◌, ◌<◌, [], length, map, None, IfOk, IfSome, IsTrue};
ghost use Rattle.std.specs.List.{All, AllPairs};
ghost use Rattle.statement.specs.Netlists.{signals};
ghost use Rattle.regions.specs.Side.{lane_of, spread, turned_in, turned_signals};
ghost use Rattle.word_sim.specs.inner.Differences.{in_lane};
ghost use Rattle.word_sim.specs.inner.Groups.{AreTold, CanTellAll, IsBeside, IsPass, IsSpread};

use crate::groups::{Told, mask_from, tell_chain, tell_from};
use crate::overlap::Overlap;
use crate::passes::Pass;
use crate::shown::{Shown, list_lane};
use events::Events;
use netlist::{Core, SignalId};
use regions::{Four, Lane, TurnedFour, TurnedWords, turn_four};
use std::alloc::{AllocError, Global};

/// A head with the patterns under which some fault reaches it, and the first such fault.
#[derive(Clone, Copy)]
struct Head {
    turned: TurnedWords,
    start: usize,
}

/// Whether the four are of a netlist, and no two the same.
fn can_turn(count: usize, turned: &TurnedFour) -> bool
    ensures within { IsTrue result → All (λ x. x < count) (turned_signals turned.now) }
    ensures distinct { IsTrue result → AllPairs (λ x y. x ≢ y) (turned_signals turned.now) }
{
    let a = turned.a.signal.index();
    let b = turned.b.signal.index();
    let c = turned.c.signal.index();
    let d = turned.d.signal.index();
    if a >= count || b >= count || c >= count || d >= count {
        return false;
    }
    if a == b || a == c || a == d || b == c || b == d || c == d {
        return false;
    }
    true
}

/// An evaluator of four words for the same netlist, at rest.
fn evaluator<'a>(
    alloc: Global,
    core: &'a Core,
    count: usize,
) -> Result<Events<'a, Four>, AllocError>
    requires { count ≡ length (signals core.now) }
    ensures { IfOk result (IsBeside core.now) }
{
    let values = vec![in alloc; Four::all(0); count]?;
    Events::new(alloc, core, values, 3)
}

/// Each word in each lane.
fn spread_words(wide: &mut Events<'_, Four>, values: &[u64])
    requires size { length wide.old.values ≡ length values.now }
    requires within { length values.now ≡ length (signals wide.old.netlist) }
    ensures { wide.new ≡ record wide.old { values = map spread values.now } }
{
    wide.core().netlist().sound();
    for x in 0..values.len() {
        let word = values[x];
        wide.put(SignalId(x as u32), Four::all(word));
    }
}

/// Tells the faults of one lane's head. Where there is no memory for a list, nothing is told.
fn tell_lane(
    events: &Events<'_, u64>,
    wide: &Events<'_, Four>,
    pass: &Pass,
    turned: &TurnedFour,
    lane: Lane,
    start: usize,
    shown: &mut Vec<Shown>,
    told: &mut Vec<Told>,
)
    requires netlist { wide.now.netlist ≡ events.now.netlist }
    requires turned { CanTellAll events.now.netlist pass.now (turned_in lane turned.now) (map (lane_of lane) wide.now.values) (map (in_lane lane) wide.now.trail) }
    requires told { AreTold events.now.netlist pass.now told.old.items }
    ensures { AreTold events.now.netlist pass.now told.new.items }
{
    let points = pass.points;
    let count = points.seen.len();
    let own = turned.of(lane);
    let Ok(()) = list_lane(
        wide.trail(),
        wide.values(),
        lane,
        &points.first,
        count,
        shown,
    ) else {
        return;
    };
    tell_chain(events, pass, &own, start, shown, told);
}

/// Turns over four heads, and tells the faults of each. The words are then those before.
fn tell_four(
    events: &Events<'_, u64>,
    wide: &mut Events<'_, Four>,
    pass: &Pass,
    four: &[Head; 4],
    shown: &mut Vec<Shown>,
    told: &mut Vec<Told>,
)
    requires pass { IsPass events.now.netlist events.now.values pass.now }
    requires beside { IsSpread events.now.netlist events.now.values wide.old }
    requires told { AreTold events.now.netlist pass.now told.old.items }
    ensures told { AreTold events.now.netlist pass.now told.new.items }
    ensures same { wide.new ≡ wide.old }
{
    let turned = TurnedFour {
        a: four[0].turned,
        b: four[1].turned,
        c: four[2].turned,
        d: four[3].turned,
    };
    if !can_turn(events.values().len(), &turned) {
        return;
    }
    turn_four(wide, &turned);
    let lanes = [Lane::A, Lane::B, Lane::C, Lane::D];
    for k in 0..4usize {
        let lane = lanes[k];
        tell_lane(
            events,
            wide,
            pass,
            &turned,
            lane,
            four[k].start,
            shown,
            told,
        );
    }
    wide.undo(0);
}

/// The first fault of the head at a place of the list.
fn first_fault(pass: &Pass, at: usize) -> Option<usize>
    ensures { IfSome result (λ k. k < length pass.now.reaches.now) }
{
    let head = *pass.heads.get(at)?;
    let start = *pass.latest.get(head.index())? as usize;
    if start < pass.reaches.len() {
        Some(start)
    } else {
        None
    }
}

/// The head at a place of the list, where nothing is told of its faults, and some pattern reaches it.
fn untold_head(pass: &Pass, at: usize, told: &[Told]) -> Option<Head> {
    let signal = *pass.heads.get(at)?;
    let start = first_fault(pass, at)?;
    if start >= told.len() || told[start].is_some() {
        return None;
    }
    let mask = mask_from(pass, start);
    if mask == 0 {
        return None;
    }
    let turned = TurnedWords { signal, mask };
    Some(Head { turned, start })
}

/// Tells the faults of all heads of which nothing is told, but for the last few.
fn tell_fours(
    events: &Events<'_, u64>,
    wide: &mut Events<'_, Four>,
    pass: &Pass,
    shown: &mut Vec<Shown>,
    told: &mut Vec<Told>,
)
    requires pass { IsPass events.now.netlist events.now.values pass.now }
    requires beside { IsSpread events.now.netlist events.now.values wide.old }
    requires told { AreTold events.now.netlist pass.now told.old.items }
    ensures told { AreTold events.now.netlist pass.now told.new.items }
    ensures beside { IsBeside events.now.netlist wide.new }
{
    let none = Head {
        turned: TurnedWords {
            signal: SignalId(0),
            mask: 0,
        },
        start: 0,
    };
    let mut four = [none; 4];
    let mut count = 0usize;
    for at in 0..pass.heads.len() {
        let Some(head) = untold_head(pass, at, told) else {
            continue;
        };
        four[count % 4] = head;
        count = count.wrapping_add(1);
        if count % 4 != 0 {
            continue;
        }
        tell_four(events, wide, pass, &four, shown, told);
    }
}

/// Tells the faults of a sample of the heads one by one, and counts what each changes. The words are then those before.
fn tell_samples(
    events: &mut Events<'_, u64>,
    pass: &Pass,
    overlap: &mut Overlap,
    shown: &mut Vec<Shown>,
    told: &mut Vec<Told>,
)
    requires pass { IsPass events.old.netlist events.old.values pass.now }
    requires trail { events.old.trail ≡ [] }
    requires told { AreTold events.old.netlist pass.now told.old.items }
    ensures told { AreTold events.old.netlist pass.now told.new.items }
    ensures same { events.new ≡ events.old }
{
    for at in 0..pass.heads.len() {
        if !Overlap::is_sampled(at) {
            continue;
        }
        let Some(start) = first_fault(pass, at) else {
            continue;
        };
        overlap.begin(at);
        tell_from(events, pass, start, overlap, true, shown, told);
    }
}

/// The evaluator that was kept, or one that is made now.
fn kept_or_made<'a>(
    alloc: Global,
    core: &'a Core,
    count: usize,
    kept: Option<Events<'a, Four>>,
) -> Result<Events<'a, Four>, AllocError>
    requires count { count ≡ length (signals core.now) }
    requires kept { IfSome kept (IsBeside core.now) }
    ensures { IfOk result (IsBeside core.now) }
{
    match kept {
        Some(wide) => Ok(wide),
        None => evaluator(alloc, core, count),
    }
}

/// The evaluator that was kept, or one that is made now, with each word in each lane.
fn side_of<'a>(
    alloc: Global,
    events: &Events<'a, u64>,
    wide: &mut Option<Events<'a, Four>>,
) -> Result<Events<'a, Four>, AllocError>
    requires size { length events.now.values ≡ length (signals events.now.netlist) }
    requires wide { IfSome wide.old (IsBeside events.now.netlist) }
    ensures side { IfOk result (IsSpread events.now.netlist events.now.values) }
    ensures wide { wide.new ≡ None }
{
    let values = events.values();
    let mut side = kept_or_made(alloc, events.core(), values.len(), wide.take())?;
    spread_words(&mut side, values);
    Ok(side)
}

/// Tells the faults of heads of which nothing is told, four by four.
fn tell_others<'a>(
    alloc: Global,
    events: &Events<'a, u64>,
    wide: &mut Option<Events<'a, Four>>,
    pass: &Pass,
    shown: &mut Vec<Shown>,
    told: &mut Vec<Told>,
) -> Result<(), AllocError>
    requires pass { IsPass events.now.netlist events.now.values pass.now }
    requires wide { IfSome wide.old (IsBeside events.now.netlist) }
    requires told { AreTold events.now.netlist pass.now told.old.items }
    ensures told { AreTold events.now.netlist pass.now told.new.items }
    ensures wide { IfSome wide.new (IsBeside events.now.netlist) }
{
    let mut side = side_of(alloc, events, wide)?;
    tell_fours(events, &mut side, pass, shown, told);
    *wide = Some(side);
    Ok(())
}

/// Tells the faults of a sample of heads one by one, and of the others four by four where that pays. The words are then those before.
pub(crate) fn tell_ahead<'a>(
    alloc: Global,
    events: &mut Events<'a, u64>,
    wide: &mut Option<Events<'a, Four>>,
    pass: &Pass,
    overlap: &mut Overlap,
    shown: &mut Vec<Shown>,
    told: &mut Vec<Told>,
) -> Result<(), AllocError>
    requires pass { IsPass events.old.netlist events.old.values pass.now }
    requires trail { events.old.trail ≡ [] }
    requires wide { IfSome wide.old (IsBeside events.old.netlist) }
    requires told { AreTold events.old.netlist pass.now told.old.items }
    ensures told { AreTold events.old.netlist pass.now told.new.items }
    ensures wide { IfSome wide.new (IsBeside events.old.netlist) }
    ensures same { events.new ≡ events.old }
{
    tell_samples(events, pass, overlap, shown, told);
    if !overlap.is_large() {
        return Ok(());
    }
    tell_others(alloc, events, wide, pass, shown, told)
}
