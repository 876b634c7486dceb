//! Laws of the command: functions that do nothing, whose contracts are the laws.
ghost use Rattle.commands.specs.Laws.{IsExclusive};
ghost use Rattle.check_command.specs.Checking.{GoodFilesChecked, GoodSlowFilesChecked, five_texts_due};

use good_files::{answers_agree, good_files_pass};
use good_slow_files::{good_slow_files_pass, slow_answers_agree};

/// What is due of the same five texts is alike: the same refusal, or the same finding.
pub fn check_exclusive()
    ensures { IsExclusive five_texts_due }
{
    answers_agree();
    slow_answers_agree();
}

/// Good files, whoever made them, end with status 0, but for files that can't be had, an output that fails and want of memory.
pub fn good_files_checked()
    ensures { GoodFilesChecked }
{
    good_files_pass();
}

/// The same of good files of slow lines.
pub fn good_slow_files_checked()
    ensures { GoodSlowFilesChecked }
{
    good_slow_files_pass();
}
