//! Logs from their text, line by line.
ghost use Rattle.std.specs.Prelude.{◌≡◌, ◌++◌, IfOk, MatchOption};
ghost use Rattle.std.specs.Bool.{Decides};
ghost use Rattle.std.specs.List.{All, flat_map};
ghost use Rattle.report.specs.Beginnings.{NoneBegins};
ghost use Rattle.diagnose.specs.Failures.{Failing, IsBefore, IsFailing};
ghost use Rattle.diagnose.specs.Reading.{IsLogOf, IsLogRead};
ghost use Rattle.diagnose.specs.Texts.{failing_line};
ghost use Rattle.diagnose.specs.declared.failures.FailLog.{FailLog as Log};

use crate::failures::{FailLog, FailureLines};
use crate::lines::{end, failure};
use report::behind;
use std::alloc::{AllocError, Global};

#[derive(Clone, Copy, PartialEq, Eq)]
pub enum LogFault {
    NotLog,
    NoMemory,
}

/// All failures that are told one behind the other, and what stands behind their lines.
fn failures<'a>(alloc: Global, text: &'a [u8]) -> Result<(FailureLines, &'a [u8]), AllocError>
    ensures { IfOk result (λ p. All IsFailing p.0 × (text.now ≡ flat_map failing_line p.0 ++ p.1.now) × NoneBegins IsFailing failing_line p.1.now) }
{
    let mut lines = FailureLines::new(alloc);
    let mut rest = text;
    'lines: while let Some((line, after)) = failure(rest) {
        lines = lines.push(line.cycle, line.signal)?;
        rest = after;
    }
    Ok((lines, rest))
}

/// Whether a cycle is before the end of a log.
fn is_before(end: Option<u64>, cycle: u64) -> bool
    ensures { Decides result (IsBefore end cycle) }
{
    match end {
        Some(end) => cycle < end,
        None => true,
    }
}

fn are_before(end: Option<u64>, failures: &FailureLines) -> bool
    ensures { Decides result (All (λ (f : Failing). IsBefore end f.cycle) failures.now) }
{
    for place in 0..failures.len() {
        if !is_before(end, failures.get(place).cycle) {
            return false;
        }
    }
    true
}

fn log(alloc: Global, bytes: &[u8]) -> Result<Option<FailLog>, AllocError>
    ensures { IfOk result (λ o. MatchOption o ((log : Log) → ¬ IsLogOf bytes.now log) (λ log. IsLogOf bytes.now log)) }
{
    let Some(text) = behind(b"atpg fail log 1\n", bytes) else {
        return Ok(None);
    };
    let (failures, rest) = failures(alloc, text)?;
    let Some(end) = end(rest) else {
        return Ok(None);
    };
    if are_before(end, &failures) {
        Ok(Some(FailLog { failures, end }))
    } else {
        Ok(None)
    }
}

/// The log with this text; `NotLog` exactly where no log has it.
pub fn read_log(alloc: Global, bytes: &[u8]) -> Result<FailLog, LogFault>
    ensures { IsLogRead bytes.now result }
{
    match log(alloc, bytes) {
        Ok(Some(log)) => Ok(log),
        Ok(None) => Err(LogFault::NotLog),
        Err(_) => Err(LogFault::NoMemory),
    }
}
