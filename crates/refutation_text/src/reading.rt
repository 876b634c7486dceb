//! Steps from their text.
ghost use Rattle.std.specs.Prelude.{MatchResult};
ghost use Rattle.std.specs.List.{All};
ghost use Rattle.refutation_text.specs.Texts.{move_text, literal_text, step_text, AreSteps, IsMove, IsLiteral, IsStep, IsTextFault, NoSteps};
ghost use Rattle.refutation_text.specs.inner.Parts.{listed, reasons_text, AreReasons, IsAt, NoneAt};

use crate::parts::{last_at, literal_at, move_at};
use refutation::{Literal, Move, Reason, Step};
use std::alloc::Global;

/// Why there are no steps.
#[derive(Clone, Copy, PartialEq, Eq)]
pub enum TextFault {
    NotSteps,
    NoMemory,
}

/// The literals up to `; `, and what comes behind it.
fn clause_at(alloc: Global, text: &[u8]) -> Result<(Vec<Literal>, &[u8]), TextFault>
    ensures { MatchResult result (λ p. IsAt (listed literal_text) (All IsLiteral) text.now p.0.items p.1.now) (IsTextFault (NoneAt (listed literal_text) (All IsLiteral) text.now)) }
{
    let mut literals = Vec::new(alloc);
    let mut rest = text;
    while !rest.starts_with(b"; ") {
        let Some(next) = literal_at(rest) else {
            return Err(TextFault::NotSteps);
        };
        let Ok(()) = literals.push(next.0) else {
            return Err(TextFault::NoMemory);
        };
        rest = next.1;
    }
    Ok((literals, &rest[2..]))
}

/// The moves up to `; `, and what comes behind it.
fn moves_at(alloc: Global, text: &[u8]) -> Result<(Vec<Move>, &[u8]), TextFault>
    ensures { MatchResult result (λ p. IsAt (listed move_text) (All IsMove) text.now p.0.items p.1.now) (IsTextFault (NoneAt (listed move_text) (All IsMove) text.now)) }
{
    let mut list = Vec::new(alloc);
    let mut rest = text;
    while !rest.starts_with(b"; ") {
        let Some(next) = move_at(rest) else {
            return Err(TextFault::NotSteps);
        };
        let Ok(()) = list.push(next.0) else {
            return Err(TextFault::NoMemory);
        };
        rest = next.1;
    }
    Ok((list, &rest[2..]))
}

/// The moves, the last reason, and what comes behind them.
fn reasons_at(alloc: Global, text: &[u8]) -> Result<((Vec<Move>, Reason), &[u8]), TextFault>
    ensures { MatchResult result (λ p. IsAt reasons_text AreReasons text.now (p.0.0.items, p.0.1) p.1.now) (IsTextFault (NoneAt reasons_text AreReasons text.now)) }
{
    let list = moves_at(alloc, text)?;
    match last_at(list.1) {
        Some(last) => Ok(((list.0, last.0), last.1)),
        None => Err(TextFault::NotSteps),
    }
}

fn step_at(alloc: Global, text: &[u8]) -> Result<(Step, &[u8]), TextFault>
    ensures { MatchResult result (λ p. IsAt step_text IsStep text.now p.0 p.1.now) (IsTextFault (NoneAt step_text IsStep text.now)) }
{
    let Some(behind) = text.strip_prefix(b" ( ") else {
        return Err(TextFault::NotSteps);
    };
    let clause = clause_at(alloc, behind)?;
    let reasons = reasons_at(alloc, clause.1)?;
    Ok((Step::new(clause.0, reasons.0.0, reasons.0.1), reasons.1))
}

/// The steps whose text the bytes are; `NotSteps` exactly where they are the text of none.
pub fn read_steps(alloc: Global, bytes: &[u8]) -> Result<Vec<Step>, TextFault>
    ensures { MatchResult result (λ steps. AreSteps bytes.now steps.items) (IsTextFault (NoSteps bytes.now)) }
{
    let mut steps = Vec::new(alloc);
    let mut rest = bytes;
    while !rest.is_empty() {
        let next = step_at(alloc, rest)?;
        let Ok(()) = steps.push(next.0) else {
            return Err(TextFault::NoMemory);
        };
        rest = next.1;
    }
    Ok(steps)
}
