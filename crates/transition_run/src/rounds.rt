//! Tests of slow lines. A batch of drawn patterns drops most faults that can be detected; the others are searched in two rounds, and then all patterns are
//! simulated. What a round searches is set before it begins: there is no list that workers share, and so no lock. What stands between the rounds knows of
//! no engine.
ghost use Rattle.std.specs.Prelude.{◌≡◌, ◌<◌, ◌≤◌, ◌^◌, Bool, IfOk, length};
ghost use Rattle.std.specs.List.{All};
ghost use Rattle.statement.specs.Faults.{universe_of};
ghost use Rattle.transition.specs.Searches.{AreFoundWhereLeft};
ghost use Rattle.transition_tests.specs.SlowLines.{AreSlowLines};
ghost use Rattle.transition_tests.specs.Verdicts.{AreTests, MayHave};
ghost use Rattle.transition_run.specs.inner.Rounds.{AreBehind, AreDrawn};

use cubes::Pattern;
use evidence::{Engine, Found};
use fault_universe::FaultSet;
use netlist::NoMemory;
use outside::{Gate, Stage};
use std::alloc::Global;
use std::thread::Threads;
use transition::{SearchPlan, search_left};
use transition_tests::{
    SlowLines, Tests, all_answers, batch_of, first_round, left_by, second_round, tests_of,
    with_tests,
};
use worker::Errand;

/// Drawn patterns, which of the faults that they leave the first round searches, and how many they detect.
#[derive(Drop)]
struct Drawn {
    patterns: Vec<Pattern>,
    searched: Vec<bool>,
    detected: u64,
}

/// What stands behind a first round: the patterns so far, which faults they leave, the answers, which of the faults have none and are left to the second
/// round, and how many the patterns of the answers detect.
#[derive(Drop)]
struct Behind {
    patterns: Vec<Pattern>,
    left: Vec<bool>,
    found: Vec<Option<Found>>,
    rest: Vec<bool>,
    detected: u64,
}

/// What is passed where patterns detect so many faults that aren't searched.
fn dropped(count: u64) -> Stage {
    Stage::Answered {
        count,
        detected: count,
    }
}

/// How many faults are marked.
fn count_of(marks: &[bool]) -> u64 {
    marks.iter().filter(|is_marked| **is_marked).count() as u64
}

/// What is drawn, and left for the first round.
fn drawn_for(alloc: Global, lines: &SlowLines<'_>) -> Result<Drawn, NoMemory>
    requires { AreSlowLines lines.now.core.now lines.now.holds.now lines.now.faults.now }
    ensures { IfOk result (λ d. AreDrawn lines.now.core.now lines.now.holds.now d.patterns.items d.searched.items) }
{
    let patterns = batch_of(alloc, lines.core, lines.seed, lines.holds)?;
    let left = left_by(alloc, lines.core, lines.faults, patterns.as_slice())?;
    let marks = left.as_slice();
    let detected = (lines.faults.len() as u64).saturating_sub(count_of(marks));
    let searched = first_round(alloc, marks)?;
    Ok(Drawn {
        patterns,
        searched,
        detected,
    })
}

/// What comes of a first round's answers.
fn rest_behind(
    alloc: Global,
    lines: &SlowLines<'_>,
    drawn: Drawn,
    found: Vec<Option<Found>>,
) -> Result<Behind, NoMemory>
    ghost refutes: { Bool }
    requires lines { AreSlowLines lines.now.core.now lines.now.holds.now lines.now.faults.now }
    requires drawn { AreDrawn lines.now.core.now lines.now.holds.now drawn.patterns.items drawn.searched.items }
    requires found { AreFoundWhereLeft lines.now.core.now lines.now.holds.now lines.now.limit refutes (universe_of lines.now.core.now) drawn.searched.items found.items }
    ensures { IfOk result (λ b. AreBehind lines.now.core.now lines.now.holds.now lines.now.limit refutes b.patterns.items b.left.items b.found.items b.rest.items) }
{
    let Drawn {
        patterns: batch,
        searched,
        detected,
    } = drawn;
    let known = detected.saturating_add(count_of(searched.as_slice()));
    drop(searched);
    let answers = found.as_slice();
    let patterns = with_tests(alloc, batch, answers, lines.seed)?;
    let left = left_by(alloc, lines.core, lines.faults, patterns.as_slice())?;
    let rest = second_round(alloc, left.as_slice(), answers)?;
    let others = known.saturating_add(count_of(rest.as_slice()));
    let detected = (lines.faults.len() as u64).saturating_sub(others);
    Ok(Behind {
        patterns,
        left,
        found,
        rest,
        detected,
    })
}

/// Tests of what both rounds found.
fn tests_behind(
    alloc: Global,
    lines: &SlowLines<'_>,
    behind: Behind,
    more: Vec<Option<Found>>,
) -> Result<Tests, NoMemory>
    ghost refutes: { Bool }
    requires lines { AreSlowLines lines.now.core.now lines.now.holds.now lines.now.faults.now }
    requires behind { AreBehind lines.now.core.now lines.now.holds.now lines.now.limit refutes behind.patterns.items behind.left.items behind.found.items behind.rest.items }
    requires more { AreFoundWhereLeft lines.now.core.now lines.now.holds.now lines.now.limit refutes (universe_of lines.now.core.now) behind.rest.items more.items }
    ensures tests { IfOk result (λ t. AreTests lines.now.core.now lines.now.holds.now lines.now.limit t.patterns.items t.verdicts.items) }
    ensures kinds { IfOk result (λ t. All (MayHave refutes) t.verdicts.items) }
    ensures few { IfOk result (λ t. length t.patterns.items < 2 ^ 32) }
{
    let Behind {
        patterns,
        left,
        found,
        ..
    } = behind;
    let answers = all_answers(left.as_slice(), found, more);
    tests_of(alloc, lines, patterns, answers)
}

/// The answers for the faults that are marked.
fn answers_of<R: Threads + Sync, E: Engine + Sync, G: Gate + Sync>(
    errand: &Errand<'_, E, G, R>,
    faults: &FaultSet,
    marks: &[bool],
    plan: SearchPlan,
) -> Result<Vec<Option<Found>>, NoMemory>
    requires lines { AreSlowLines errand.now.core.now errand.now.holds.now faults.now }
    requires limit { 1 ≤ plan.limit }
    requires workers { 0 < plan.workers }
    requires marks { length marks.now ≡ length (universe_of errand.now.core.now) }
    ensures { IfOk result (λ v. AreFoundWhereLeft errand.now.core.now errand.now.holds.now plan.limit E.refutes (universe_of errand.now.core.now) marks.now v.items) }
{
    errand.core.netlist().sound();
    search_left(errand, faults, marks, plan)
}

/// Tests of these faults: two rounds of searches, of which the second is over what the patterns of the first leave, and of all patterns those that are
/// needed.
pub(crate) fn slow_tests<R: Threads + Sync, E: Engine + Sync, G: Gate + Sync>(
    errand: &Errand<'_, E, G, R>,
    faults: &FaultSet,
    seed: u64,
    plan: SearchPlan,
) -> Result<Tests, NoMemory>
    requires lines { AreSlowLines errand.now.core.now errand.now.holds.now faults.now }
    requires limit { 1 ≤ plan.limit }
    requires workers { 0 < plan.workers }
    ensures tests { IfOk result (λ t. AreTests errand.now.core.now errand.now.holds.now plan.limit t.patterns.items t.verdicts.items) }
    ensures kinds { IfOk result (λ t. All (MayHave E.refutes) t.verdicts.items) }
    ensures few { IfOk result (λ t. length t.patterns.items < 2 ^ 32) }
{
    let lines = SlowLines {
        core: errand.core,
        faults,
        holds: errand.holds,
        limit: plan.limit,
        seed,
    };
    let count = faults.len() as u64;
    errand.stage.at(0, Stage::Begun { count });
    let drawn = drawn_for(errand.alloc, &lines)?;
    errand.stage.at(0, dropped(drawn.detected));
    let found = answers_of(errand, faults, drawn.searched.as_slice(), plan)?;
    let behind = rest_behind(errand.alloc, &lines, drawn, found)?;
    errand.stage.at(0, dropped(behind.detected));
    let more = answers_of(errand, faults, behind.rest.as_slice(), plan)?;
    tests_behind(errand.alloc, &lines, behind, more)
}
