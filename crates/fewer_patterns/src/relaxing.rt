//! Patterns relaxed to the bits that are needed, dealt to the workers: what one needs doesn't depend on the others that are traced with it.
ghost use Rattle.netlist.specs.Holds.{AreHoldsOf};
ghost use Rattle.fewer_patterns.specs.inner.Aims.{IsAim};

use crate::aims::Aim;
use crate::fronts::Made;
use crate::rows::Rows;
use crate::sorting::Sorted;
use crate::tracing::Tracing;
use crate::worlds::Lanes;
use cubes::Pattern;
use flat_netlist::{NONE, Whole, at, fill, number_of, put};
use netlist::{Core, Fault, Holds, NoMemory, Point, SignalId};
use std::alloc::{AllocError, Global};
use std::thread;
use std::thread::Threads;

/// What fewer faults need is traced sooner by one worker than threads are made.
const FEWEST: usize = 512;

/// Patterns, and faults by the places of those to which they are left.
#[derive(Drop)]
struct Load<'a> {
    core: &'a Core,
    patterns: &'a [Pattern],
    faults: &'a [Fault],
    by_place: &'a Sorted,
}

/// The place of the pattern to which each fault is left; NONE where none detects it.
fn places_of(alloc: Global, last: &[Option<(u32, Point)>]) -> Result<Vec<u32>, AllocError> {
    let mut places = Vec::with_capacity(alloc, last.len())?;
    for one in last {
        places.push(match one {
            None => NONE,
            Some((place, _)) => *place,
        })?;
    }
    Ok(places)
}

/// The faults by these places.
fn sorted(alloc: Global, from: &Made) -> Result<Sorted, AllocError> {
    let places = places_of(alloc, &from.last)?;
    let mut by_place = Sorted::new(alloc);
    by_place.sort(&places, number_of(from.patterns.len()))?;
    Ok(by_place)
}

/// Of the faults that are left to each pattern, which are looked at: those from the one up to the other.
#[derive(Clone, Copy)]
struct Stage {
    from: u32,
    to: u32,
}

/// What the faults of these slots need of the pattern that is looked at.
fn need_slots(
    whole: &Whole,
    tracing: &mut Tracing,
    load: &Load<'_>,
    first: u32,
    end: u32,
) -> Result<(), AllocError> {
    let core = load.core;
    let faults = load.faults;
    let by_place = load.by_place;
    for slot in first..end {
        if let Some(fault) = faults.get(by_place.number(slot) as usize) {
            tracing.need(whole, core, fault.line)?;
        }
    }
    Ok(())
}

/// What some of the faults that are left to the pattern at a place need of it, which stands in this lane of those that are traced. Where it needs
/// nearly all of its bits already it is taken whole, and no more faults are looked at.
fn need_some(
    whole: &Whole,
    tracing: &mut Tracing,
    load: &Load<'_>,
    place: u32,
    lane: u32,
    stage: Stage,
) -> Result<(), AllocError> {
    let (start, end) = load.by_place.of_key(place);
    let first = start.saturating_add(stage.from);
    if first >= end {
        return Ok(());
    }
    tracing.worlds.look_at(lane);
    if stage.from > 0 && tracing.is_nearly_whole(load.core) {
        tracing.take_whole(load.core);
        return Ok(());
    }
    need_slots(
        whole,
        tracing,
        load,
        first,
        end.min(start.saturating_add(stage.to)),
    )
}

/// The same of the patterns of these lanes; and what that rests on.
fn need_stage(
    whole: &Whole,
    tracing: &mut Tracing,
    load: &Load<'_>,
    lanes: Lanes,
    stage: Stage,
) -> Result<(), AllocError> {
    for lane in 0..lanes.count {
        need_some(whole, tracing, load, lanes.place(lane), lane, stage)?;
    }
    tracing.trace(whole);
    Ok(())
}

/// How many faults are left to a pattern of these lanes at most.
fn most_left(by_place: &Sorted, lanes: Lanes) -> u32 {
    let mut most = 0;
    for lane in 0..lanes.count {
        let (first, end) = by_place.of_key(lanes.place(lane));
        most = end.wrapping_sub(first).max(most);
    }
    most
}

/// What the faults need that are left to the patterns of these lanes: a few at first, and four times as many each time.
fn need_lanes(
    whole: &Whole,
    tracing: &mut Tracing,
    load: &Load<'_>,
    lanes: Lanes,
) -> Result<(), AllocError> {
    tracing.begin(whole, load.core, load.patterns, lanes)?;
    let most = most_left(load.by_place, lanes);
    let mut stage = Stage { from: 0, to: 8 };
    for _stage in 0..16 {
        if stage.from >= most {
            break;
        }
        need_stage(whole, tracing, load, lanes, stage)?;
        stage = Stage {
            from: stage.to,
            to: stage.to.saturating_mul(4),
        };
    }
    Ok(())
}

/// Sets the bits of signals that are needed, from a place of the row on.
fn put_needed(rows: &mut Rows, row: u32, tracing: &Tracing, signals: &[SignalId], from: u32) {
    for (k, signal) in signals.iter().enumerate() {
        if tracing.is_needed(signal.0) {
            let place = from.wrapping_add(number_of(k));
            rows.put(row, place, tracing.worlds.good(signal.0) != 0);
        }
    }
}

/// The bit at which an input is held.
fn held(core: &Core, holds: &Holds, input: u32) -> Option<bool>
    requires { AreHoldsOf core.now holds.now }
{
    if (input as usize) < core.netlist().inputs().len() {
        holds.held(input)
    } else {
        None
    }
}

/// Sets the bits at which inputs are held.
fn put_held(rows: &mut Rows, row: u32, core: &Core, holds: &Holds)
    requires { AreHoldsOf core.now holds.now }
{
    for input in 0..number_of(core.netlist().inputs().len()) {
        if let Some(bit) = held(core, holds, input) {
            rows.put(row, input, bit);
        }
    }
}

/// A row more, of what was needed.
fn push_needed(rows: &mut Rows, tracing: &Tracing, core: &Core) -> Result<(), AllocError> {
    let row = rows.count();
    rows.push()?;
    let inputs = core.netlist().inputs();
    put_needed(rows, row, tracing, inputs, 0);
    let cells = core.netlist().cells();
    put_needed(rows, row, tracing, cells, number_of(inputs.len()));
    Ok(())
}

/// A row for each pattern of these lanes to which a fault is left.
fn push_lanes(
    rows: &mut Rows,
    tracing: &mut Tracing,
    load: &Load<'_>,
    lanes: Lanes,
) -> Result<(), AllocError> {
    for lane in 0..lanes.count {
        if load.by_place.has_key(lanes.place(lane)) {
            tracing.worlds.look_at(lane);
            push_needed(rows, tracing, load.core)?;
        }
    }
    Ok(())
}

/// A worker's room for tracing, the rows of its own patterns, and whether memory was refused to it.
#[derive(Drop)]
pub(crate) struct Part {
    tracing: Tracing,
    rows: Rows,
    is_refused: bool,
}

/// How many workers relax so many patterns: each traces 64 of them at once, and fewer take it as long.
pub(crate) fn sharing(workers: u32, patterns: usize) -> u32 {
    workers.min(number_of(patterns.div_ceil(64)))
}

/// The room of a worker.
fn part_of(alloc: Global, whole: &Whole, places: u32) -> Result<Part, AllocError> {
    let tracing = Tracing::new(alloc, whole)?;
    Ok(Part {
        tracing,
        rows: Rows::new(alloc, places),
        is_refused: false,
    })
}

/// The room of so many workers, for patterns of so many places.
pub(crate) fn parts_of(
    alloc: Global,
    whole: &Whole,
    places: u32,
    workers: u32,
) -> Result<Vec<Part>, AllocError> {
    let mut parts = Vec::new(alloc);
    for _worker in 0..workers {
        parts.push(part_of(alloc, whole, places)?)?;
    }
    Ok(parts)
}

/// The next lanes of a part, behind so many words of it.
fn lanes_of(patterns: usize, number: u32, step: u32, word: u32) -> Lanes {
    let first = number.wrapping_add(word.wrapping_mul(64).wrapping_mul(step));
    let left = number_of(patterns).saturating_sub(first);
    Lanes {
        first,
        step,
        count: left.div_ceil(step.max(1)).min(64),
    }
}

/// Rows for the patterns of these lanes.
fn relax_word(
    whole: &Whole,
    load: &Load<'_>,
    lanes: Lanes,
    tracing: &mut Tracing,
    rows: &mut Rows,
) -> Result<(), AllocError> {
    need_lanes(whole, tracing, load, lanes)?;
    push_lanes(rows, tracing, load, lanes)
}

/// Rows for the patterns of a part.
fn relax_lanes(
    whole: &Whole,
    load: &Load<'_>,
    number: u32,
    step: u32,
    tracing: &mut Tracing,
    rows: &mut Rows,
) -> Result<(), AllocError> {
    let count = load.patterns.len();
    for word in 0..number_of(count) {
        let lanes = lanes_of(count, number, step, word);
        if lanes.count == 0 {
            break;
        }
        relax_word(whole, load, lanes, tracing, rows)?;
    }
    Ok(())
}

/// The part of so many with this number: every so-many-th pattern is its own.
fn relax_part(whole: &Whole, load: &Load<'_>, number: u32, step: u32, part: &mut Part) {
    part.rows.clear();
    let relaxed = relax_lanes(whole, load, number, step, &mut part.tracing, &mut part.rows);
    part.is_refused = relaxed.is_err();
}

/// The first part does all.
fn relax_alone(whole: &Whole, load: &Load<'_>, parts: &mut [Part]) {
    if let Some(part) = parts.first_mut() {
        relax_part(whole, load, 0, 1, part);
    }
}

/// Each part does its own, beside the others. Of few faults the first does all.
fn relax_parts<R: Threads + Sync>(
    rt: &R,
    whole: &Whole,
    load: &Load<'_>,
    parts: &mut Vec<Part>,
) -> u32 {
    let workers = parts.len();
    if workers < 2 || load.faults.len() < FEWEST {
        relax_alone(whole, load, parts);
        return 1;
    }
    let step = number_of(workers);
    let work = move |number: usize, part: &mut Part| {
        relax_part(whole, load, number_of(number), step, part)
    };
    thread::for_each_mut(rt, parts, workers, &work);
    step
}

/// Takes the next row of a part.
fn take_row(
    rows: &mut Rows,
    parts: &[Part],
    nexts: &mut Vec<u32>,
    number: u32,
) -> Result<(), AllocError> {
    let Some(part) = parts.get(number as usize) else {
        return Ok(());
    };
    let next = at(nexts, number);
    let row = rows.count();
    rows.push()?;
    rows.join(row, &part.rows, next);
    put(nexts, number, next.wrapping_add(1));
    Ok(())
}

/// The rows of all parts, in the order of the patterns.
fn gathered(aim: &Aim<'_>, load: &Load<'_>, parts: &[Part], step: u32) -> Result<Rows, AllocError> {
    let by_place = load.by_place;
    let mut nexts = Vec::new(aim.alloc);
    fill(&mut nexts, step, 0)?;
    let mut rows = Rows::new(aim.alloc, aim.places());
    for place in 0..number_of(load.patterns.len()) {
        if by_place.has_key(place) {
            take_row(&mut rows, parts, &mut nexts, place % step.max(1))?;
        }
    }
    Ok(rows)
}

/// Whether memory was refused to a part.
fn is_refused(parts: &[Part]) -> bool {
    for part in parts {
        if part.is_refused {
            return true;
        }
    }
    false
}

/// The bits that are needed, gathered in this room.
fn relaxed_in<R: Threads + Sync>(
    rt: &R,
    aim: &Aim<'_>,
    whole: &Whole,
    load: &Load<'_>,
    parts: &mut Vec<Part>,
) -> Result<Rows, NoMemory> {
    let step = relax_parts(rt, whole, load, parts);
    let done = parts.as_slice();
    if is_refused(done) {
        return Err(NoMemory);
    }
    Ok(gathered(aim, load, done, step)?)
}

/// The bits at which inputs are held, in each row.
fn put_held_in(rows: &mut Rows, core: &Core, holds: &Holds)
    requires { AreHoldsOf core.now holds.now }
{
    for row in 0..rows.count() {
        put_held(rows, row, core, holds);
    }
}

/// A row for each pattern to which a fault is left: the bits that such faults need, and those that are held.
pub(crate) fn relaxed<R: Threads + Sync>(
    rt: &R,
    aim: &Aim<'_>,
    whole: &Whole,
    parts: &mut Vec<Part>,
    from: &Made,
) -> Result<Rows, NoMemory>
    requires { IsAim aim.now }
{
    let by_place = sorted(aim.alloc, from)?;
    let load = Load {
        core: aim.core,
        patterns: &from.patterns,
        faults: aim.faults,
        by_place: &by_place,
    };
    let mut rows = relaxed_in(rt, aim, whole, &load, parts)?;
    put_held_in(&mut rows, aim.core, aim.holds);
    Ok(rows)
}
