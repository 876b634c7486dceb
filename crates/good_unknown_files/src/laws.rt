//! The laws of good files of tests with unknown inputs and of their check: functions that do nothing, whose contracts are the laws.
ghost use Rattle.good_unknown_files.specs.Laws.{GoodUnknownFilesPass, GoodUnknownFilesTellTheTruth, UnknownAnswersAgree, UnknownCheckedIsGood};

use certificate::one_certificate;
use evidence::shown_is_redundant;
use fault_collapse::{classes_once, detected_alike};
use fault_universe::faults_have_lines;
use known_tests::{known_cycles, sites_are_lines};
use scan_insert::laws::{scan_behaves, scanned_is_sound, sites_have_names};
use scan_play::no_sequence_detects_redundant;
use stil_read::laws::at_most_one;
use unknown_inputs::{
    held_unknown_is_untold, opened_allows, opened_is_sound, opened_tells_the_truth,
};
use unknown_report::unknown_texts_tell_reports;

/// What good files claim of the chip comes true, whatever the unknown inputs have.
pub fn good_unknown_files_tell_the_truth()
    ensures { GoodUnknownFilesTellTheTruth }
{
    scan_behaves();
    scanned_is_sound();
    sites_have_names();
    faults_have_lines();
    detected_alike();
    shown_is_redundant();
    no_sequence_detects_redundant();
    known_cycles();
    sites_are_lines();
    opened_allows();
    opened_tells_the_truth();
    held_unknown_is_untold();
}

/// Files that pass the check are good, whoever made them.
pub fn unknown_checked_is_good()
    ensures { UnknownCheckedIsGood }
{
    good_unknown_files_tell_the_truth();
}

/// Good files pass the check.
pub fn good_unknown_files_pass()
    ensures { GoodUnknownFilesPass }
{
    one_certificate();
    unknown_texts_tell_reports();
    at_most_one();
    classes_once();
    scanned_is_sound();
    opened_is_sound();
}

/// Files are refused or passed alike by every check.
pub fn unknown_answers_agree()
    ensures { UnknownAnswersAgree }
{
    good_unknown_files_pass();
}
