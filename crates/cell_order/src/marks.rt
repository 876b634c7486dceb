//! Marks on signals.
ghost use Rattle.std.specs.Prelude.{◌≡◌, ◌≢◌, ◌<◌, ◌++◌, ◌∷◌, [], ℕ, List, true, length, IfOk, MatchOption};
ghost use Rattle.std.specs.List.{All, AllPairs};
ghost use Rattle.cell_order.specs.Orders.{IsTwice};
ghost use Rattle.cell_order.specs.inner.Reads.{AreMarked, IsFirstUnmarked, is_marked};

use netlist::SignalId;
use std::alloc::{AllocError, Global};

pub(crate) fn is_marked(marks: &[bool], signal: SignalId) -> bool
    requires { signal < length marks.now }
    ensures { result ≡ is_marked marks.now signal }
{
    marks[signal.index()]
}

fn mark(marks: &mut Vec<bool>, signal: SignalId)
    requires { signal < length marks.old.items }
    ensures size { length marks.new.items ≡ length marks.old.items }
    ensures marks { (done : List ℕ) → AreMarked done marks.old.items → AreMarked (done ++ signal ∷ []) marks.new.items }
{
    marks[signal.index()] = true;
}

/// So many signals, of which none is marked.
fn no_marks(alloc: Global, bound: usize) -> Result<Vec<bool>, AllocError>
    ensures size { IfOk result (λ marks. length marks.items ≡ bound) }
    ensures none { IfOk result (λ marks. AreMarked [] marks.items) }
{
    vec![in alloc; false; bound]
}

/// So many signals, of which these are marked.
pub(crate) fn marks_of(
    alloc: Global,
    bound: usize,
    signals: &[SignalId],
) -> Result<Vec<bool>, AllocError>
    requires { All (λ x. x < bound) signals.now }
    ensures size { IfOk result (λ marks. length marks.items ≡ bound) }
    ensures marks { IfOk result (λ marks. AreMarked signals.now marks.items) }
{
    let mut marks = no_marks(alloc, bound)?;
    for signal in signals {
        mark(&mut marks, *signal);
    }
    Ok(marks)
}

/// The number, from 1, of the first that stands for the second time.
pub(crate) fn first_twice(
    alloc: Global,
    bound: usize,
    signals: &[SignalId],
) -> Result<Option<usize>, AllocError>
    requires { All (λ x. x < bound) signals.now }
    ensures { IfOk result (λ first. MatchOption first (AllPairs (λ x y. x ≢ y) signals.now) (IsTwice signals.now)) }
{
    let mut marks = no_marks(alloc, bound)?;
    for (place, signal) in signals.iter().enumerate() {
        if is_marked(marks.as_slice(), *signal) {
            return Ok(Some(place + 1));
        }
        mark(&mut marks, *signal);
    }
    Ok(None)
}

/// The number, from 1, of the first that isn't marked.
pub(crate) fn first_unmarked(signals: &[SignalId], marks: &[bool]) -> Option<usize>
    requires { All (λ x. x < length marks.now) signals.now }
    ensures { MatchOption result (All (λ x. is_marked marks.now x ≡ true) signals.now) (IsFirstUnmarked signals.now marks.now) }
{
    for (place, signal) in signals.iter().enumerate() {
        if !is_marked(marks, *signal) {
            return Some(place + 1);
        }
    }
    None
}
