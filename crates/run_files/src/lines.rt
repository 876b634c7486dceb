//! A line for each fault, by its class's verdict, where it is asked for.
ghost use Rattle.std.specs.Prelude.{◌<◌, List, ℕ, IfOk, length};
ghost use Rattle.std.specs.List.{All};
ghost use Rattle.statement.specs.Netlists.{signals};
ghost use Rattle.netlist.specs.Lines.{IsLineOf, signal_of};
ghost use Rattle.scan_insert.specs.Scanned.{AreChainsOf};
ghost use Rattle.statement.specs.Faults.{universe_of};
ghost use Rattle.report.specs.Reports.{IsLine, IsOutcome};
ghost use Rattle.list_core.specs.declared.verdicts.Verdict.{Verdict as VerdictOf};
ghost use Rattle.run_files.specs.inner.Cases.{AreFoundOf, IsCase};
ghost use Rattle.run_files.specs.inner.Outcomes.{AreLines, ArePins, IsAdded, IsOutcomeOf, verdict_said};
ghost use Rattle.run_files.specs.inner.Verdicts.{IsInside};

use crate::case::Case;
use fault_universe::{faults_have_lines, faults_have_signals, push_text};
use list_core::{Finished, Verdict};
use netlist::{Fault, NameTable, Netlist, NoMemory};
use report::{FaultLines, Outcome};
use run_report::sight_of;
use scan_insert::Chains;
use std::alloc::AllocError;

/// What a fault has in its line behind its name.
#[derive(Clone, Copy)]
struct Said<'a> {
    outcome: Outcome,
    pin: &'a [u8],
}

/// What is said of a fault whose class has this verdict.
fn said_of<'a>(
    netlist: &Netlist,
    chains: &Chains,
    pins: &'a NameTable,
    asked: bool,
    verdict: &Verdict,
) -> Said<'a>
    requires chains { AreChainsOf netlist.now chains.now }
    requires pins { ArePins netlist.now chains.now pins.now }
    requires verdict { IsInside netlist.now verdict.now }
    ensures outcome { IsOutcomeOf netlist.now chains.now (verdict_said asked verdict.now) result.outcome result.pin.now }
    ensures sound { IsOutcome result.outcome result.pin.now }
{
    if !asked {
        return Said {
            outcome: Outcome::Unasked,
            pin: b"",
        };
    }
    match verdict {
        Verdict::Detected(place, point) => {
            let sight = sight_of(netlist, chains, pins, *place, *point);
            Said {
                outcome: Outcome::Detected(*place as u64, sight.cycle),
                pin: sight.pin,
            }
        }
        Verdict::Redundant(_) => Said {
            outcome: Outcome::Redundant,
            pin: b"",
        },
        Verdict::Aborted(_) => Said {
            outcome: Outcome::Aborted,
            pin: b"",
        },
        Verdict::Open => Said {
            outcome: Outcome::Unasked,
            pin: b"",
        },
    }
}

/// Adds the line of a fault of which this is said.
fn add_line(
    lines: FaultLines,
    text: &mut Vec<u8>,
    netlist: &Netlist,
    fault: Fault,
    said: Said<'_>,
) -> Result<FaultLines, AllocError>
    requires line { IsLineOf netlist.now fault.line }
    requires signal { signal_of fault.line < length (signals netlist.now) }
    requires sound { IsOutcome said.outcome said.pin.now }
    ensures { IfOk result (λ new. (chains : List (List ℕ)) (v : VerdictOf) → IsOutcomeOf netlist.now chains v said.entry.outcome said.entry.pin.now → IsAdded netlist.now chains fault v lines new) }
{
    netlist.sound();
    text.clear();
    push_text(text, netlist, fault)?;
    lines.push(text.as_slice(), said.outcome, said.pin)
}

fn lines_within(
    case: &Case<'_>,
    pins: &NameTable,
    verdicts: &[Verdict],
) -> Result<FaultLines, AllocError>
    requires case { IsCase case.now }
    requires pins { ArePins case.now.netlist.now case.now.chains.now pins.now }
    requires within { All (λ class. class < length verdicts.now) case.now.subject.now.classes.numbers }
    requires inside { All (IsInside case.now.netlist.now) verdicts.now }
    ensures { IfOk result (λ lines. AreLines case.now.netlist.now case.now.chains.now case.now.subject.now.classes.numbers case.now.asked.now verdicts.now (length (universe_of case.now.netlist.now)) lines) }
{
    let netlist = case.netlist;
    let faults = &case.subject.faults;
    let classes = &case.subject.classes;
    netlist.sound();
    faults_have_signals();
    faults_have_lines();
    let mut text = Vec::new(case.alloc);
    let mut lines = FaultLines::new(case.alloc);
    for i in 0..faults.len() {
        let verdict = &verdicts[classes.class_of(i) as usize];
        let said = said_of(netlist, case.chains, pins, case.asked[i as usize], verdict);
        lines = add_line(lines, &mut text, netlist, faults.fault(i), said)?;
    }
    Ok(lines)
}

/// The lines of all faults, in order, where these are asked for. `pins` has the names of the pins at the scanned netlist's outputs.
pub(crate) fn lines_of(
    case: &Case<'_>,
    pins: &NameTable,
    found: &Finished,
) -> Result<FaultLines, NoMemory>
    requires case { IsCase case.now }
    requires pins { ArePins case.now.netlist.now case.now.chains.now pins.now }
    requires found { AreFoundOf case.now found.now }
    ensures lines { IfOk result (λ lines. AreLines case.now.netlist.now case.now.chains.now case.now.subject.now.classes.numbers case.now.asked.now found.now.verdicts.items (length (universe_of case.now.netlist.now)) lines) }
    ensures sound { IfOk result (All IsLine) }
{
    case.netlist.sound();
    let lines = lines_within(case, pins, found.verdicts.as_slice())?;
    Ok(lines)
}
