//! Laws of the rows: functions that do nothing, whose contracts are the laws.
ghost use Rattle.commands.specs.Laws.{FailedExactly, MissingExactly, NothingElse, RefusedExactly, TooLongExactly};

use crate::command::Work;

/// The first file that can't be had isn't there: the command says so, unless a read failed or memory was refused.
pub fn missing_exactly<W: Work>()
    ensures { (work : W) → MissingExactly (W.due work) }
{}

/// The first file that can't be had is too long.
pub fn too_long_exactly<W: Work>()
    ensures { (work : W) → TooLongExactly (W.due work) }
{}

/// The texts are refused: the command says why, unless a read failed or memory was refused.
pub fn refused_exactly<W: Work>()
    ensures { (work : W) → RefusedExactly (W.due work) }
{}

/// A failed call of the shelf or the output comes to light, and no other is told.
pub fn failed_exactly<W: Work>()
    ensures { (work : W) → FailedExactly (W.due work) }
{}

/// With nothing in the way the command does its work.
pub fn nothing_else<W: Work>()
    ensures { (work : W) → NothingElse (W.due work) }
{}
