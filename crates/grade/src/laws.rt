//! Laws of grading: functions that do nothing, whose contracts are the laws.
ghost use Rattle.grade.specs.Agreement.{AgreesWithReport};
ghost use Rattle.grade.specs.Laws.{DetectedFails, PatternsGrade, UndetectedPasses};

use chain_test::first_wrong_fails;
use fault_universe::faults_have_lines;
use netlist::Tri;
use scan_insert::laws::scanned_is_sound;
use scan_play::{play_tells_the_truth, some_run, vectors_fit};
use stil_patterns::laws::file_vectors;

/// A fault that is detected fails at its strobe from every power-up state.
pub fn detected_fails()
    ensures { DetectedFails }
{
    first_wrong_fails();
}

/// A fault that is undetected passes from every power-up state.
pub fn undetected_passes()
    ensures { UndetectedPasses }
{
    play_tells_the_truth();
}

/// On the vectors of patterns a fault's grade is the one by patterns.
pub fn patterns_grade()
    ensures { PatternsGrade }
{
    scanned_is_sound();
    vectors_fit();
    some_run::<Tri>();
}

/// The grade of a run's own test agrees with its report.
pub fn agrees_with_report()
    ensures { AgreesWithReport }
{
    file_vectors();
    faults_have_lines();
}
