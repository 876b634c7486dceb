//! What is written of verdicts is a run: a function that does nothing, whose contract is the law.
ghost use Rattle.transition_run.specs.inner.Laws.{WrittenIsRun};

use bench_text::canonical_text_is_read;
use fault_universe::{faults_have_lines, texts_differ};
use good_slow_files::good_slow_files_tell_the_truth;
use stil_read::laws::written_stands;

/// The texts of verdicts are good files, which tell the truth.
pub(crate) fn written_is_run()
    ensures { WrittenIsRun }
{
    canonical_text_is_read();
    written_stands();
    texts_differ();
    faults_have_lines();
    good_slow_files_tell_the_truth();
}
