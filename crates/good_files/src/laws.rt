//! The laws of good files and of the check: functions that do nothing, whose contracts are the laws.
ghost use Rattle.good_files.specs.Laws.{AllAskedAsBefore, AnswersAgree, CheckedIsGood, GoodFilesPass, GoodFilesTellTheTruth, TimesTellDetected, TreesAsBefore};

use bench_text::canonical_text_is_read;
use certificate::{first_line_tells, one_certificate};
use evidence::shown_is_redundant;
use fault_collapse::{classes_once, detected_alike};
use fault_universe::faults_have_lines;
use report::texts_tell_reports;
use scan_insert::laws::{scan_behaves, scanned_is_sound, sites_have_names};
use scan_play::{
    detected_fails, good_passes, no_sequence_detects_redundant, some_run, undetected_passes,
    vectors_fit,
};
use stil_patterns::laws::{file_vectors, one_pattern_list};
use stil_read::laws::at_most_one;

/// What good files say comes true on the tester, for every fault.
pub fn good_files_tell_the_truth()
    ensures { GoodFilesTellTheTruth }
{
    scan_behaves();
    scanned_is_sound();
    sites_have_names();
    canonical_text_is_read();
    good_passes();
    undetected_passes();
    detected_fails();
    vectors_fit();
    no_sequence_detects_redundant();
    some_run::<bool>();
    file_vectors();
    faults_have_lines();
    detected_alike();
    shown_is_redundant();
}

/// A certificate that begins as those of trees did has trees alone, and its files all that is said of these.
pub fn trees_as_before()
    ensures { TreesAsBefore }
{
    first_line_tells();
}

/// Where each fault was asked for, the certificate has the evidence of exactly the classes that no pattern detects.
pub fn all_asked_as_before()
    ensures { AllAskedAsBefore }
{
    detected_alike();
}

/// Where detections are counted, each fault has a number, which is 0 exactly where no pattern detects it.
pub fn times_tell_detected()
    ensures { TimesTellDetected }
{}

/// Files that pass the check are good, whoever made them.
pub fn checked_is_good()
    ensures { CheckedIsGood }
{
    good_files_tell_the_truth();
}

/// Good files pass the check.
pub fn good_files_pass()
    ensures { GoodFilesPass }
{
    one_certificate();
    texts_tell_reports();
    at_most_one();
    one_pattern_list();
    classes_once();
}

/// Files are refused or passed alike by every check.
pub fn answers_agree()
    ensures { AnswersAgree }
{
    good_files_pass();
}
