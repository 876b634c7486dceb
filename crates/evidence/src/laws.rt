//! Laws of evidence: functions that do nothing, whose contracts are the laws.
ghost use Rattle.evidence.specs.Laws.{ShownIsRedundant};

use redundancy_cert::closed_tree_is_redundant;
use refutation::refuted_is_redundant;

/// Evidence that leaves nothing open shows the fault redundant, whichever kind it is.
pub fn shown_is_redundant()
    ensures { ShownIsRedundant }
{
    closed_tree_is_redundant();
    refuted_is_redundant();
}
