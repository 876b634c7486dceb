//! Laws of the file of patterns: functions that do nothing, whose contracts are the laws.
ghost use Rattle.stil_patterns.specs.Laws.{FileVectors, FilesFit, FilesReadBack, OneFile, OnePatternList, PatternsTakeItems, PicksPatterns, TakenBack};

use stil_read::laws::{at_most_one, written_stands};
use stil_vectors::test_vectors;

/// The file of patterns has their vectors.
pub fn file_vectors()
    ensures { FileVectors }
{
    test_vectors();
}

/// The file of patterns fits the scanned netlist.
pub fn files_fit()
    ensures { FilesFit }
{}

/// The text of the file of patterns is read as that file, and as no other.
pub fn files_read_back()
    ensures { FilesReadBack }
{
    written_stands();
    at_most_one();
}

/// No two files are that of the same patterns.
pub fn one_file()
    ensures { OneFile }
{}

/// A file is that of one list of patterns at most.
pub fn one_pattern_list()
    ensures { OnePatternList }
{}

/// A file has no fewer items than it is of patterns.
pub fn patterns_take_items()
    ensures { PatternsTakeItems }
{}

/// What is picked of a file is what obeys.
pub fn picks_patterns()
    ensures { PicksPatterns }
{}

/// A file applies the patterns that it is of, whatever it strobes.
pub fn taken_back()
    ensures { TakenBack }
{}
