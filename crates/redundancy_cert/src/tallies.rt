//! Counts that follow what changed: how many signals are observed and may differ, and how many decided bits are contradicted.
ghost use Rattle.std.specs.Prelude.{◌≡◌, ◌≢◌, ◌+◌, ◌^◌, ◌<◌, ◌≤◌, length};
ghost use Rattle.std.specs.List.{All, AllPairs};
ghost use Rattle.events.specs.declared.trails.Change.{Change as ChangeOf};
ghost use Rattle.events.specs.Trails.{undone};
ghost use Rattle.tri.specs.declared.labels.Label.{Label as LabelOf};
ghost use Rattle.redundancy_cert.specs.inner.Tallies.{tally, count_pairs, shows, contradicts};

use events::Change;
use netlist::Tri;
use tri::{Label, is_known_as};

/// How many signals are observed and may differ, and how many decided bits are the other ones than what the pins tell.
#[derive(Clone, Copy)]
pub(crate) struct LabelTally {
    pub differing: usize,
    pub contradicted: usize,
}

/// Whether the decided bit is the other one than what the pins tell.
pub(crate) fn contradicts(decision: Option<bool>, label: Label) -> bool
    ensures { result ≡ contradicts decision label }
{
    match decision {
        None => false,
        Some(bit) => is_known_as(!bit, label.own),
    }
}

/// A count in which one pair has changed.
pub(crate) fn counted(count: usize, before: bool, after: bool) -> usize
    requires some { tally before ≤ count + tally after }
    requires small { count < 2 ^ 62 }
    ensures { result + tally before ≡ count + tally after }
{
    let more = if after { count + 1 } else { count };
    if before { more - 1 } else { more }
}

/// One signal's label has changed.
fn follow(
    observed: bool,
    decision: Option<bool>,
    before: Label,
    after: Label,
    counts: LabelTally,
) -> LabelTally
    requires differing { tally (shows observed before) ≤ counts.differing + tally (shows observed after) }
    requires contradicted { tally (contradicts decision before) ≤ counts.contradicted + tally (contradicts decision after) }
    requires few_differing { counts.differing < 2 ^ 62 }
    requires few_contradicted { counts.contradicted < 2 ^ 62 }
    ensures differing { result.differing + tally (shows observed before) ≡ counts.differing + tally (shows observed after) }
    ensures contradicted { result.contradicted + tally (contradicts decision before) ≡ counts.contradicted + tally (contradicts decision after) }
{
    LabelTally {
        differing: counted(
            counts.differing,
            observed && before.may_differ,
            observed && after.may_differ,
        ),
        contradicted: counted(
            counts.contradicted,
            contradicts(decision, before),
            contradicts(decision, after),
        ),
    }
}

/// The counts after what changed, from those before.
pub(crate) fn recount(
    observed: &[bool],
    decided: &[Option<bool>],
    values: &[Label],
    changes: &[Change<Label>],
    counts: LabelTally,
) -> LabelTally
    requires observed { length observed.now ≡ length values.now }
    requires decided { length decided.now ≡ length values.now }
    requires small { length values.now < 2 ^ 32 }
    requires within { All (λ (c : ChangeOf LabelOf). c.signal < length values.now) changes.now }
    requires once { AllPairs (λ (c d : ChangeOf LabelOf). c.signal ≢ d.signal) changes.now }
    requires differing { counts.differing ≡ count_pairs shows observed.now (undone changes.now values.now) }
    requires contradicted { counts.contradicted ≡ count_pairs contradicts decided.now (undone changes.now values.now) }
    ensures differing { result.differing ≡ count_pairs shows observed.now values.now }
    ensures contradicted { result.contradicted ≡ count_pairs contradicts decided.now values.now }
{
    let mut counts = counts;
    for change in changes {
        let x = change.signal.index();
        counts = follow(observed[x], decided[x], change.before, values[x], counts);
    }
    counts
}
