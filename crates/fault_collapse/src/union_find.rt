//! Disjoint classes that are merged, as trees in which each member names an earlier one.
ghost use Rattle.std.specs.Prelude.{◌≡◌, ◌^◌, ◌<◌, ◌≤◌, ℕ, length, min, max};
ghost use Rattle.fault_collapse.specs.inner.Merging.{IsForest, LeadsTo, merged};

/// The first member of a class. The way there is halved for later calls: m calls over n members take O(n + m log n) steps,
/// in whatever order the classes are merged (Tarjan and van Leeuwen, Worst-case analysis of set union algorithms, 1984).
pub(crate) fn first_member(parents: &mut [u32], member: usize) -> usize
    requires forest { IsForest parents.old }
    requires within { member < length parents.old }
    ensures forest { IsForest parents.new }
    ensures within { result < length parents.new }
    ensures same { (first : ℕ → ℕ) → LeadsTo parents.old first → LeadsTo parents.new first }
    ensures first { (first : ℕ → ℕ) → LeadsTo parents.old first → result ≡ first member }
{
    let mut at = member;
    while parents[at] as usize != at {
        let above = parents[parents[at] as usize];
        parents[at] = above;
        at = above as usize;
    }
    at
}

/// Merges the classes of two members.
pub(crate) fn merge(parents: &mut [u32], one: usize, other: usize)
    requires forest { IsForest parents.old }
    requires few { length parents.old ≤ 2 ^ 32 }
    requires one_within { one < length parents.old }
    requires other_within { other < length parents.old }
    ensures forest { IsForest parents.new }
    ensures merged { (first : ℕ → ℕ) → LeadsTo parents.old first → LeadsTo parents.new (merged first (min (first one) (first other)) (max (first one) (first other))) }
{
    let one = first_member(parents, one);
    let other = first_member(parents, other);
    parents[one.max(other)] = one.min(other) as u32;
}
