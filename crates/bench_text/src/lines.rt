//! A text line by line.

ghost use Rattle.std.specs.Prelude.{◌≡◌, ◌==◌, ◌<◌, ◌≤◌, ◌^◌, ◌∷◌, position, length};
ghost use Rattle.bench_text.specs.Bytes.{lines};
ghost use Rattle.bench_text.specs.inner.LineRead.{put_at};
ghost use Rattle.bench_text.specs.inner.LinesRead.{AreLinesRead};
ghost use Rattle.bench_text.specs.Whole.{most_in_text};

use crate::draft::Draft;
use crate::refusal::{BenchFault, BenchRefusal, LineRefusal, Names};
use memchr::{memchr, memchr_iter};
use std::alloc::Global;

impl LineRefusal {
    /// The refusal of this line of a text.
    fn at(self, line: u32) -> BenchFault
        ensures { result ≡ put_at line self }
    {
        match self {
            LineRefusal::NoMemory => BenchFault::NoMemory,
            LineRefusal::Refused(kind) => BenchFault::Refused(BenchRefusal { line, kind }),
        }
    }
}

fn line_end(bytes: &[u8]) -> Option<usize>
    ensures { result ≡ position (λ b. b == 10) bytes.now }
{
    memchr(b'\n', bytes)
}

/// The first line, and the bytes after it.
fn first_line(bytes: &[u8]) -> (&[u8], &[u8])
    requires { 0 < length bytes.now }
    ensures line { lines bytes.now ≡ result.0.now ∷ lines result.1.now }
    ensures shorter { length result.1.now < length bytes.now }
{
    match line_end(bytes) {
        Some(end) => {
            let (line, rest) = bytes.split_at(end);
            (line, rest.split_at(1).1)
        }
        None => bytes.split_at(bytes.len()),
    }
}

impl Names {
    /// For how many names room is made: one a line, and no more than there may be signals.
    fn names_expected(self, text: &[u8]) -> usize
        ensures { result ≤ most_in_text self }
    {
        memchr_iter(b'\n', text).count().min(self.most_signals())
    }
}

/// Reads line by line, up to the first refused one.
pub fn read_lines<'a>(
    alloc: Global,
    reading: Names,
    text: &'a [u8],
) -> Result<Draft<'a>, BenchFault>
    requires { length (lines text.now) < 2 ^ 32 }
    ensures { AreLinesRead reading text.now result }
{
    let mut draft = Draft::with_room(alloc, reading.names_expected(text))?;
    let mut rest = text;
    'lines: while !rest.is_empty() {
        let (line, after) = first_line(rest);
        let number = draft.lines() + 1;
        draft = match draft.add_line(alloc, reading, line) {
            Ok(longer) => longer,
            Err(refusal) => return Err(refusal.at(number)),
        };
        rest = after;
    }
    Ok(draft)
}
