//! A play in legs, between which those machines are packed together anew of which nothing was said.
//!
//! Most machines are told early, and 128 side by side would go on for the last of them. So all are played up to some cycle, then those that are left
//! side by side from there. The first legs are a burst each, and then each is a quarter of all bursts before: what is packed in vain stays a small part
//! of what is played.
ghost use Rattle.std.specs.Prelude.{◌≡◌, ◌^◌, ◌<◌, ◌≤◌, ◌+◌, ◌++◌, None, length, map, replicate, IfOk, OnOk};
ghost use Rattle.std.specs.List.{All};
ghost use Rattle.statement.specs.Netlists.{cells};
ghost use Rattle.statement.specs.declared.kinds.Tri.TheVariants.{X};
ghost use Rattle.scan_play.specs.Bursts.{all_cycles};
ghost use Rattle.scan_play.specs.Cycles.{IsCycleOf};
ghost use Rattle.lane_play.specs.Judged.{AreJudged};
ghost use Rattle.lane_play.specs.declared.packing.Machine.{Machine as One};
ghost use Rattle.lane_play.specs.inner.Apart.{AreFiled, AreInLeg, IsTeam, IsTeamPlayed};
ghost use Rattle.lane_play.specs.inner.Steps.{ArePlayed};

use crate::judging::{Verdicts, is_open};
use crate::packed::Lanes;
use crate::packing::{Machine, lines_of, pack, unpack};
use crate::playing::{play_from, signal_count};
use crate::plays::Play;
use crate::stuck::Stuck;
use netlist::{Core, Fault, NoMemory, Tri};
use scan_play::{Burst, Judge, Played, Vectors};
use std::alloc::{AllocError, Global};

/// What all machines of a leg are given: the netlist and their stuck lines, who judges what they show, the bursts that were played, and the leg's own.
#[derive(Drop)]
struct Leg<'a, J> {
    alloc: Global,
    core: &'a Core,
    faults: &'a [Fault],
    judge: &'a J,
    played: &'a [Burst],
    bursts: &'a [Burst],
    ghost fits: { All (IsCycleOf core.now) (all_cycles bursts.now) },
    ghost few: { length (all_cycles played.now) + length (all_cycles bursts.now) < 2 ^ 64 },
}

/// The places of up to 128 machines of which nothing was said, and the place up to which there are no others.
#[derive(Drop)]
struct Team {
    places: Vec<usize>,
    end: usize,
}

/// The next such machines, from a place on.
fn team_from(alloc: Global, machines: &[Machine], start: usize) -> Result<Team, AllocError>
    requires { start < length machines.now }
    ensures { IfOk result (λ t. IsTeam machines.now start t.places.items t.end) }
{
    let mut places = Vec::with_capacity(alloc, 128)?;
    for place in start..machines.len() {
        if places.len() == 128 {
            return Ok(Team { places, end: place });
        }
        if is_open(&machines[place].said) {
            places.push(place)?;
        }
    }
    Ok(Team {
        places,
        end: machines.len(),
    })
}

/// The machines of a team take over what the cells of those side by side hold, and what was said of them.
fn file_team(
    alloc: Global,
    team: &Team,
    state: &[Lanes],
    said: &[Option<Played>],
    machines: &mut [Machine],
) -> Result<(), AllocError>
    requires few { length team.now.places.items ≤ 128 }
    requires same { length said.now ≡ length team.now.places.items }
    requires within { All (λ place. place < length machines.old) team.now.places.items }
    ensures { OnOk result (AreFiled team.now.places.items (length team.now.places.items) state.now said.now machines.old machines.new) }
{
    for k in 0..team.places.len() {
        let own = unpack(alloc, k, state)?;
        machines[team.places[k]] = Machine {
            state: own,
            said: said[k],
        };
    }
    Ok(())
}

/// How many cycles these bursts have.
fn cycles_in(bursts: &[Burst]) -> u64
    requires { length (all_cycles bursts.now) < 2 ^ 64 }
    ensures { result ≡ length (all_cycles bursts.now) }
{
    let mut count: u64 = 0;
    for burst in bursts {
        count += burst.count as u64;
    }
    count
}

/// Plays machines with these stuck lines, of which nothing was said, side by side through a leg from what their cells hold.
fn play_lines<J: Judge>(
    leg: &Leg<'_, J>,
    lines: &[Fault],
    state: Vec<Lanes>,
) -> Result<(Verdicts, Vec<Lanes>), AllocError>
    requires machines { length lines.now ≤ 128 }
    requires size { length state.items ≡ length (cells leg.now.core.now) }
    requires begun { ArePlayed (J.says leg.now.judge.now) lines.now leg.now.core.now (all_cycles leg.now.played.now) state.items (replicate (length lines.now) None) }
    ensures { IfOk result (λ r. ArePlayed (J.says leg.now.judge.now) lines.now leg.now.core.now (all_cycles leg.now.played.now ++ all_cycles leg.now.bursts.now) r.1.items r.0.found.items) }
{
    let verdicts = Verdicts::none(leg.alloc, lines.len())?;
    let rule = Stuck::new(leg.alloc, lines, signal_count(leg.core.netlist()))?;
    let play = Play {
        core: leg.core,
        rule,
        judge: leg.judge,
    };
    let first = cycles_in(leg.played);
    let heard = play_from(leg.alloc, &play, leg.bursts, first, state, verdicts)?;
    Ok(heard)
}

/// Plays a team through a leg: what is then said of its machines, and what their cells hold side by side.
fn play_side_by_side<J: Judge>(
    leg: &Leg<'_, J>,
    start: usize,
    team: &Team,
    machines: &[Machine],
) -> Result<(Verdicts, Vec<Lanes>), AllocError>
    requires team { IsTeam machines.now start team.now.places.items team.now.end }
    requires before { AreInLeg (J.says leg.now.judge.now) leg.now.faults.now leg.now.core.now leg.now.played.now leg.now.bursts.now start machines.now }
    ensures { IfOk result (λ r. IsTeamPlayed (J.says leg.now.judge.now) leg.now.faults.now leg.now.core.now (all_cycles leg.now.played.now ++ all_cycles leg.now.bursts.now)
        team.now.places.items r.1.items r.0.found.items) }
{
    let places = team.places.as_slice();
    let lines = lines_of(leg.alloc, leg.faults, places)?;
    let cells = leg.core.netlist().cells().len();
    let packed = pack(leg.alloc, cells, machines, places)?;
    let heard = play_lines(leg, &lines, packed)?;
    Ok(heard)
}

/// Plays a team through a leg, and takes it apart.
fn play_team<J: Judge>(
    leg: &Leg<'_, J>,
    start: usize,
    team: &Team,
    machines: &mut [Machine],
) -> Result<(), AllocError>
    requires team { IsTeam machines.old start team.now.places.items team.now.end }
    requires before { AreInLeg (J.says leg.now.judge.now) leg.now.faults.now leg.now.core.now leg.now.played.now leg.now.bursts.now start machines.old }
    ensures { OnOk result (AreInLeg (J.says leg.now.judge.now) leg.now.faults.now leg.now.core.now leg.now.played.now leg.now.bursts.now team.now.end machines.new) }
{
    let (heard, state) = play_side_by_side(leg, start, team, machines)?;
    file_team(leg.alloc, team, &state, &heard.found, machines)?;
    Ok(())
}

/// Plays the next machines of which nothing was said through a leg, and answers the place up to which all have been.
fn play_next<J: Judge>(
    leg: &Leg<'_, J>,
    start: usize,
    machines: &mut [Machine],
) -> Result<usize, AllocError>
    requires start { start < length machines.old }
    requires before { AreInLeg (J.says leg.now.judge.now) leg.now.faults.now leg.now.core.now leg.now.played.now leg.now.bursts.now start machines.old }
    ensures end { IfOk result (λ end. (start < end) × (end ≤ length machines.new)) }
    ensures after { IfOk result (λ end. AreInLeg (J.says leg.now.judge.now) leg.now.faults.now leg.now.core.now leg.now.played.now leg.now.bursts.now end machines.new) }
{
    let team = team_from(leg.alloc, machines, start)?;
    if team.places.is_empty() {
        return Ok(team.end);
    }
    play_team(leg, start, &team, machines)?;
    Ok(team.end)
}

/// Plays all machines of which nothing was said through a leg, behind the bursts that were played.
fn play_leg<J: Judge>(leg: &Leg<'_, J>, machines: &mut [Machine]) -> Result<(), AllocError>
    requires { AreInLeg (J.says leg.now.judge.now) leg.now.faults.now leg.now.core.now leg.now.played.now leg.now.bursts.now 0 machines.old }
    ensures { OnOk result (AreInLeg (J.says leg.now.judge.now) leg.now.faults.now leg.now.core.now leg.now.played.now leg.now.bursts.now (length machines.new) machines.new) }
{
    let mut start = 0;
    while start < machines.len() {
        start = play_next(leg, start, machines)?;
    }
    Ok(())
}

/// So many cells of which nothing is known.
fn unknown_cells(alloc: Global, count: usize) -> Result<Vec<Tri>, AllocError>
    ensures { IfOk result (λ v. v.items ≡ replicate count X) }
{
    let cells = vec![in alloc; Tri::X; count]?;
    Ok(cells)
}

/// So many machines before the first cycle.
fn first_machines(alloc: Global, cells: usize, count: usize) -> Result<Vec<Machine>, AllocError>
    ensures size { IfOk result (λ v. length v.items ≡ count) }
    ensures blank { IfOk result (λ v. All (λ (m : One). (m.state.items ≡ replicate cells X) × (m.said ≡ None)) v.items) }
{
    let mut machines = Vec::with_capacity(alloc, count)?;
    for _place in 0..count {
        machines.push(Machine {
            state: unknown_cells(alloc, cells)?,
            said: None,
        })?;
    }
    Ok(machines)
}

/// How many bursts the leg has that begins behind so many, where so many are left. Up to 128 machines needn't be packed anew.
fn leg_length(played: usize, left: usize, machines: usize) -> usize
    requires { 0 < left }
    ensures { (0 < result) × (result ≤ left) }
{
    if machines <= 128 {
        return left;
    }
    (played / 4).max(1).min(left)
}

/// What was said of each machine.
fn said_of(alloc: Global, machines: &[Machine]) -> Result<Vec<Option<Played>>, AllocError>
    ensures { IfOk result (λ v. v.items ≡ map (λ (m : One). m.said) machines.now) }
{
    let mut said = Vec::with_capacity(alloc, machines.len())?;
    for machine in machines {
        said.push(machine.said)?;
    }
    Ok(said)
}

/// Plays vectors on a netlist for stuck lines, 128 side by side: what the judge first says with each, if anything.
pub fn play_lanes<J: Judge>(
    alloc: Global,
    core: &Core,
    faults: &[Fault],
    vectors: &Vectors,
    judge: &J,
) -> Result<Vec<Option<Played>>, NoMemory>
    requires fits { All (IsCycleOf core.now) vectors.now }
    requires few { length vectors.now < 2 ^ 64 }
    ensures { IfOk result (λ found. AreJudged (J.says judge.now) core.now faults.now vectors.now found.items) }
{
    core.netlist().sound();
    let bursts = vectors.bursts();
    let mut machines = first_machines(alloc, core.netlist().cells().len(), faults.len())?;
    let mut from = 0;
    while from < bursts.len() {
        let to = from + leg_length(from, bursts.len() - from, faults.len());
        let leg = Leg {
            alloc,
            core,
            faults,
            judge,
            played: &bursts[..from],
            bursts: &bursts[from..to],
        };
        play_leg(&leg, &mut machines)?;
        from = to;
    }
    Ok(said_of(alloc, &machines)?)
}
