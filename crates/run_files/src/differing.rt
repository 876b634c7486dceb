//! Lists of patterns in which each stands once.
ghost use Rattle.std.specs.Prelude.{◌≡◌, ◌↔◌, ◌∷◌, [], IsTrue, IfOk, OnOk};
ghost use Rattle.std.specs.List.{Contains};
ghost use Rattle.run_files.specs.inner.Often.{AreJoined};

use cubes::Pattern;
use std::alloc::AllocError;

/// Whether two patterns have the same bits.
fn are_equal(one: &Pattern, other: &Pattern) -> bool
    ensures { IsTrue result ↔ (one.now ≡ other.now) }
{
    one.inputs() == other.inputs() && one.cells() == other.cells()
}

/// Whether the pattern stands among these.
fn is_among(patterns: &[Pattern], pattern: &Pattern) -> bool
    ensures { IsTrue result ↔ Contains patterns.now pattern.now }
{
    for other in patterns {
        if are_equal(other, pattern) {
            return true;
        }
    }
    false
}

/// Puts the pattern behind the others, unless it stands among them.
fn add_new(patterns: &mut Vec<Pattern>, pattern: Pattern) -> Result<(), AllocError>
    ensures { OnOk result (AreJoined patterns.old.items (pattern ∷ []) patterns.new.items) }
{
    if is_among(patterns, &pattern) {
        return Ok(());
    }
    patterns.push(pattern)?;
    Ok(())
}

/// Patterns with those of more behind them that don't stand among them yet.
pub(crate) fn joined(patterns: Vec<Pattern>, more: Vec<Pattern>) -> Result<Vec<Pattern>, AllocError>
    ensures { IfOk result (λ v. AreJoined patterns.items more.items v.items) }
{
    let mut all = patterns;
    for pattern in more {
        add_new(&mut all, pattern)?;
    }
    Ok(all)
}
