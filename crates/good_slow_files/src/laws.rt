//! The laws of good files of slow lines and of their check: functions that do nothing, whose contracts are the laws.
ghost use Rattle.good_slow_files.specs.Laws.{GoodSlowFilesPass, GoodSlowFilesTellTheTruth, SlowAnswersAgree, SlowCheckedIsGood};

use fault_universe::faults_have_lines;
use scan_insert::laws::scanned_is_sound;
use stil_read::laws::at_most_one;
use transition_files::laws::{launch_file_vectors, one_launch_pattern_list};
use transition_play::laws::{
    detected_fails_slowly, good_passes_launches, launch_vectors_fit, launch_vectors_obey,
    some_slow_run, undetected_passes_slowly,
};
use transition_report::{one_transition_certificate, transition_texts_tell_reports};
use transition_sim::laws::shown_has_no_transition;

/// What good files say of slow lines comes true on the tester.
pub fn good_slow_files_tell_the_truth()
    ensures { GoodSlowFilesTellTheTruth }
{
    scanned_is_sound();
    faults_have_lines();
    shown_has_no_transition();
    launch_file_vectors();
    launch_vectors_fit();
    good_passes_launches();
    detected_fails_slowly();
    undetected_passes_slowly();
    some_slow_run();
    launch_vectors_obey();
}

/// Files that pass the check are good, whoever made them.
pub fn slow_checked_is_good()
    ensures { SlowCheckedIsGood }
{
    good_slow_files_tell_the_truth();
}

/// Good files pass the check.
pub fn good_slow_files_pass()
    ensures { GoodSlowFilesPass }
{
    one_transition_certificate();
    transition_texts_tell_reports();
    at_most_one();
    one_launch_pattern_list();
}

/// Files are refused or passed alike by every check.
pub fn slow_answers_agree()
    ensures { SlowAnswersAgree }
{
    good_slow_files_pass();
}
