//! What is said of the slow lines, and the one that is named where something said is false.
ghost use Rattle.std.specs.Prelude.{◌≡◌, ◌<◌, length, IfOk, MatchOption};
ghost use Rattle.netlist.specs.Lines.{signal_of};
ghost use Rattle.statement.specs.Netlists.{signals};
ghost use Rattle.transition_report.specs.Texts.{transition_text};
ghost use Rattle.slow_check.specs.inner.Walking.{AreTrueBelow, HasTrueFaults, HasTrueLines, IsFalseText, IsFurtherText, IsReady, IsStrayText, IsUntrueText, count_of};

use crate::leftovers::left_of;
use crate::walking::{Walk, first_untrue};
use check_parts::{first_stray, named_at};
use fault_universe::{faults_have_signals, few_faults};
use netlist::{Fault, Netlist, NoMemory};
use std::alloc::{AllocError, Global};
use transition_report::push_fault;

/// The slow line of the line behind those of the universe.
fn further_fault(alloc: Global, walk: &Walk<'_>) -> Result<Option<Vec<u8>>, AllocError>
    requires ready { IsReady walk.now }
    requires below { AreTrueBelow walk.now (count_of walk.now) }
    ensures { IfOk result (λ o. MatchOption o (HasTrueLines walk.now) (λ text. IsFurtherText walk.now text.items)) }
{
    let count = walk.faults.len() as usize;
    let lines = walk.lines;
    if count >= lines.len() {
        return Ok(None);
    }
    Ok(Some(Vec::from_slice(alloc, lines.get(count).fault)?))
}

/// The text of a slow line.
fn text_of(alloc: Global, netlist: &Netlist, fault: Fault) -> Result<Vec<u8>, AllocError>
    requires { signal_of fault.line < length (signals netlist.now) }
    ensures { IfOk result (λ text. text.items ≡ transition_text netlist.now fault) }
{
    let mut text = Vec::new(alloc);
    push_fault(&mut text, netlist, fault)?;
    Ok(text)
}

/// The slow line of the first line of the certificate that isn't, in order, that of one of which a line says redundant or aborted.
fn stray_fault(alloc: Global, walk: &Walk<'_>) -> Result<Option<Vec<u8>>, AllocError>
    requires ready { IsReady walk.now }
    requires lines { HasTrueLines walk.now }
    ensures { IfOk result (λ o. MatchOption o (HasTrueFaults walk.now) (λ text. IsStrayText walk.now text.items)) }
{
    faults_have_signals();
    few_faults();
    let trial = walk.trial;
    let evidence = trial.evidence;
    let left = left_of(alloc, walk.faults, walk.lines)?;
    match first_stray(evidence, &left) {
        None => Ok(None),
        Some(place) => {
            let text = text_of(alloc, trial.netlist, evidence[place].0)?;
            Ok(Some(text))
        }
    }
}

/// The slow line of which the report says nothing or what is false, or where it has ended.
fn untrue_fault(alloc: Global, walk: &Walk<'_>) -> Result<Option<Vec<u8>>, NoMemory>
    requires { IsReady walk.now }
    ensures { IfOk result (λ o. MatchOption o (AreTrueBelow walk.now (count_of walk.now)) (λ text. IsUntrueText walk.now text.items)) }
{
    faults_have_signals();
    let Some(place) = first_untrue(alloc, walk)? else {
        return Ok(None);
    };
    let text = text_of(alloc, walk.trial.netlist, walk.faults.fault(place))?;
    let named = named_at(alloc, walk.lines, place, text)?;
    Ok(Some(named))
}

/// The slow line that is named where what the report or the certificate says is false, or None where all is true.
pub(crate) fn false_fault(alloc: Global, walk: &Walk<'_>) -> Result<Option<Vec<u8>>, NoMemory>
    requires { IsReady walk.now }
    ensures { IfOk result (λ o. MatchOption o (HasTrueFaults walk.now) (λ text. IsFalseText walk.now text.items)) }
{
    match untrue_fault(alloc, walk) {
        Ok(None) => {}
        Ok(Some(text)) => return Ok(Some(text)),
        Err(_) => return Err(NoMemory),
    }
    match further_fault(alloc, walk) {
        Ok(None) => {}
        Ok(Some(text)) => return Ok(Some(text)),
        Err(_) => return Err(NoMemory),
    }
    match stray_fault(alloc, walk) {
        Ok(answer) => Ok(answer),
        Err(_) => Err(NoMemory),
    }
}
