//! Laws of settled assignments: functions that do nothing, whose contracts are the laws.
ghost use Rattle.netlist.specs.Laws.{HoldsEverywhere, SettlesOnce, SomeSettles, SettleAlike};

/// Induction over an acyclic netlist.
pub fn holds_everywhere()
    ensures { HoldsEverywhere }
{}

/// At most one assignment settles.
pub fn settles_once<V>()
    ensures { SettlesOnce V }
{}

/// On an acyclic netlist some assignment settles.
pub fn some_settles<V>()
    ensures { SomeSettles V }
{}

/// Settled assignments of two rules are related where lines and gates keep the relation.
pub fn settle_alike<V, W>()
    ensures { SettleAlike V W }
{}
