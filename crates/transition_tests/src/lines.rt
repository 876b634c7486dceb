//! A line for each transition fault, by its verdict.
ghost use Rattle.std.specs.Prelude.{◌≡◌, ◌<◌, ◌++◌, ◌∷◌, [], ◌^◌, IfOk, length, map};
ghost use Rattle.std.specs.List.{All};
ghost use Rattle.statement.specs.Netlists.{signals};
ghost use Rattle.netlist.specs.Lines.{IsLineOf, signal_of};
ghost use Rattle.statement.specs.Runs.{output_name};
ghost use Rattle.scan_insert.specs.Scanned.{AreChainsOf, scanned_of};
ghost use Rattle.statement.specs.Faults.{universe_of};
ghost use Rattle.report.specs.Reports.{IsBenchWord, IsOutcome};
ghost use Rattle.transition_tests.specs.Lines.{AreLines, IsInside, IsOutcomeOf};
ghost use Rattle.transition_tests.specs.inner.Parts.{IsAdded};

use crate::verdicts::TransitionVerdict;
use fault_universe::{FaultSet, faults_have_lines, faults_have_signals};
use netlist::{Fault, NameTable, Netlist, NoMemory};
use report::{FaultLines, Outcome};
use scan_insert::Chains;
use std::alloc::{AllocError, Global};
use transition_report::{push_fault, sight_behind};

/// What is said of a fault.
#[derive(Clone, Copy)]
struct Said<'a> {
    outcome: Outcome,
    pin: &'a [u8],
}

fn said_of<'a>(
    netlist: &Netlist,
    chains: &Chains,
    pins: &'a NameTable,
    verdict: &TransitionVerdict,
) -> Said<'a>
    requires chains { AreChainsOf netlist.now chains.now }
    requires pins { pins.now ≡ map (output_name (scanned_of netlist.now chains.now)) (scanned_of netlist.now chains.now).outputs }
    requires words { All IsBenchWord pins.now }
    requires verdict { IsInside netlist.now verdict.now }
    ensures outcome { IsOutcomeOf netlist.now chains.now verdict.now result.outcome result.pin.now }
    ensures formed { IsOutcome result.outcome result.pin.now }
{
    match verdict {
        TransitionVerdict::Detected(place, point) => {
            let sight = sight_behind(netlist, chains, pins, *place, *point);
            Said {
                outcome: Outcome::Detected(*place as u64, sight.cycle),
                pin: sight.pin,
            }
        }
        TransitionVerdict::Redundant(_) => Said {
            outcome: Outcome::Redundant,
            pin: b"",
        },
        TransitionVerdict::Aborted(_) => Said {
            outcome: Outcome::Aborted,
            pin: b"",
        },
    }
}

/// Adds the line of a fault with this verdict.
fn add_line(
    lines: FaultLines,
    text: &mut Vec<u8>,
    netlist: &Netlist,
    chains: &Chains,
    pins: &NameTable,
    fault: Fault,
    verdict: &TransitionVerdict,
) -> Result<FaultLines, AllocError>
    requires chains { AreChainsOf netlist.now chains.now }
    requires pins { pins.now ≡ map (output_name (scanned_of netlist.now chains.now)) (scanned_of netlist.now chains.now).outputs }
    requires words { All IsBenchWord pins.now }
    requires verdict { IsInside netlist.now verdict.now }
    requires line { IsLineOf netlist.now fault.line }
    requires signal { signal_of fault.line < length (signals netlist.now) }
    ensures { IfOk result (IsAdded netlist.now chains.now fault verdict.now lines) }
{
    netlist.sound();
    text.clear();
    push_fault(text, netlist, fault)?;
    let said = said_of(netlist, chains, pins, verdict);
    lines.push(text.as_slice(), said.outcome, said.pin)
}

/// The lines of all transition faults, in order. `pins` has the names of the pins at the scanned netlist's outputs.
pub fn lines_of(
    alloc: Global,
    netlist: &Netlist,
    chains: &Chains,
    pins: &NameTable,
    faults: &FaultSet,
    verdicts: &[TransitionVerdict],
) -> Result<FaultLines, NoMemory>
    requires chains { AreChainsOf netlist.now chains.now }
    requires pins { pins.now ≡ map (output_name (scanned_of netlist.now chains.now)) (scanned_of netlist.now chains.now).outputs }
    requires words { All IsBenchWord pins.now }
    requires universe { faults.now ≡ universe_of netlist.now }
    requires size { length verdicts.now ≡ length (universe_of netlist.now) }
    requires inside { All (IsInside netlist.now) verdicts.now }
    ensures { IfOk result (λ lines. AreLines netlist.now chains.now (universe_of netlist.now) verdicts.now lines) }
{
    netlist.sound();
    faults_have_signals();
    faults_have_lines();
    let mut text = Vec::new(alloc);
    let mut lines = FaultLines::new(alloc);
    for i in 0..faults.len() {
        let verdict = &verdicts[i as usize];
        let fault = faults.fault(i);
        lines = add_line(lines, &mut text, netlist, chains, pins, fault, verdict)?;
    }
    Ok(lines)
}
