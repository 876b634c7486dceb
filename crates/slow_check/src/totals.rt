//! The numbers above the report's lines.
ghost use Rattle.std.specs.Prelude.{◌≡◌, ◌<◌, length, MatchBool};
ghost use Rattle.statement.specs.Faults.{universe_of};
ghost use Rattle.good_slow_files.specs.GoodSlowFiles.{AreSlowTotals};
ghost use Rattle.slow_check.specs.inner.Totals.{HasCounts, HasShares};
ghost use Rattle.slow_check.specs.inner.Trials.{IsSlowTrial, slow_test_of};

use crate::trials::SlowTrial;
use plain_text::MOST_LIMIT;
use run_report::{counts_with, share_of, tally_of};
use transition_report::{TransitionReport, launch_cycles};

/// Whether the shares are those that follow from the lines.
fn has_shares(faults: u32, said: &TransitionReport) -> bool
    requires { 0 < faults }
    ensures { MatchBool result (HasShares faults said.now) (¬ HasShares faults said.now) }
{
    let tally = tally_of(&said.lines);
    said.coverage == share_of(faults, tally.detected)
        && said.efficiency == share_of(faults, tally.detected + tally.redundant)
}

/// Whether the counts are those that follow.
fn has_counts(trial: &SlowTrial<'_>, faults: u32, said: &TransitionReport) -> bool
    requires { IsSlowTrial trial.now }
    ensures { MatchBool result (HasCounts (slow_test_of trial.now) faults said.now) (¬ HasCounts (slow_test_of trial.now) faults said.now) }
{
    let patterns = trial.patterns.len() as u32;
    let cycles = launch_cycles(trial.chains.longest() as u64, patterns as u64);
    let counts = counts_with(
        trial.netlist,
        trial.chains,
        faults,
        faults,
        patterns,
        cycles,
        trial.limit,
        &said.lines,
    );
    said.counts == counts
}

/// Whether the numbers above the lines are those that follow.
pub(crate) fn has_totals(trial: &SlowTrial<'_>, faults: u32, said: &TransitionReport) -> bool
    requires trial { IsSlowTrial trial.now }
    requires faults { faults ≡ length (universe_of trial.now.netlist.now) }
    requires some { 0 < length (universe_of trial.now.netlist.now) }
    ensures { MatchBool result
        (AreSlowTotals (slow_test_of trial.now) said.now)
        (¬ AreSlowTotals (slow_test_of trial.now) said.now) }
{
    if trial.limit < 1 || trial.limit > MOST_LIMIT {
        return false;
    }
    if !has_shares(faults, said) {
        return false;
    }
    has_counts(trial, faults, said)
}
