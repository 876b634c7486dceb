//! The certificate's order.
ghost use Rattle.std.specs.Prelude.{◌≡◌, length, take, MatchBool, MatchOption};
ghost use Rattle.good_files.specs.GoodFiles.{faults_in};
ghost use Rattle.check_parts.specs.Strays.{IsStrayAt};

use evidence::Evidence;
use netlist::Fault;

fn is_fault(fault: &Fault, other: &Fault) -> bool
    ensures { MatchBool result (fault.now ≡ other.now) (¬ (fault.now ≡ other.now)) }
{
    fault.line.is(&other.line) && fault.value == other.value
}

/// The first line of a certificate that isn't, in order, that of one of these faults.
pub fn first_stray(evidence: &[(Fault, Evidence)], left: &[Fault]) -> Option<usize>
    ensures { MatchOption result (take (length evidence.now) left.now ≡ faults_in evidence.now) (IsStrayAt evidence.now left.now) }
{
    for (k, pair) in evidence.iter().enumerate() {
        if k >= left.len() {
            return Some(k);
        }
        if !is_fault(&pair.0, &left[k]) {
            return Some(k);
        }
    }
    None
}
