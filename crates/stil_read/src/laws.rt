//! Laws of reading: functions that do nothing, whose contracts are the laws.
ghost use Rattle.stil_read.specs.Format.{TokensAreOfFormat};
ghost use Rattle.stil_read.specs.Laws.{AtMostOne, ItemsTakeBytes, WrittenStands};

/// Bytes stand for one file at most.
pub fn at_most_one()
    ensures { AtMostOne }
{}

/// What was written is read as the same value.
pub fn written_stands()
    ensures { WrittenStands }
{}

/// What is read is no longer than the text: each item takes a byte at least.
pub fn items_take_bytes()
    ensures { ItemsTakeBytes }
{}

/// The tokens of a text in the words of the format: gaps, marks, longest runs, quoted texts, comments, and what is none of them.
pub fn tokens_are_of_format()
    ensures { TokensAreOfFormat }
{}
