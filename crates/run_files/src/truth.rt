//! What is written of verdicts comes true: functions that do nothing, whose contracts are the laws.
ghost use Rattle.run_files.specs.inner.Laws.{WrittenIsGood, WrittenIsRun};

use bench_text::canonical_text_is_read;
use fault_collapse::detected_alike;
use fault_universe::texts_differ;
use good_files::{good_files_tell_the_truth, trees_as_before};
use stil_read::laws::written_stands;

/// The texts of verdicts are good files.
fn written_is_good()
    ensures { WrittenIsGood }
{
    canonical_text_is_read();
    written_stands();
    detected_alike();
    texts_differ();
}

/// So what they say comes true.
pub(crate) fn written_is_run()
    ensures { WrittenIsRun }
{
    detected_alike();
    written_is_good();
    good_files_tell_the_truth();
    trees_as_before();
}
