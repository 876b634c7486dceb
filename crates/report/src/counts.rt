//! The counts of a report: their words, and their order in the text.
ghost use Rattle.std.specs.Prelude.{◌≡◌, ◌<◌, ◌^◌, slice_get, Some};
ghost use Rattle.std.specs.List.{All};
ghost use Rattle.report.specs.Counts.{AreSmallCounts};
ghost use Rattle.report.specs.inner.Counts.{count_of_counts, count_words, in_order, counts_from};

/// How many counts every report has a line of.
pub(crate) const COUNTS: usize = 14;

/// The word of each of these counts, in the order of the text.
const WORDS: [&'static [u8]; COUNTS] = [
    b"inputs ",
    b"outputs ",
    b"gates ",
    b"cells ",
    b"chains ",
    b"faults ",
    b"classes ",
    b"patterns ",
    b"cycles ",
    b"limit ",
    b"detected ",
    b"redundant ",
    b"aborted ",
    b"untested ",
];

/// The counts of a report, each under its word in the text.
#[derive(Clone, Copy, PartialEq, Eq)]
pub struct ReportCounts {
    pub inputs: u64,
    pub outputs: u64,
    /// Without cells.
    pub gates: u64,
    pub cells: u64,
    /// How many chains were made.
    pub chains: u64,
    pub faults: u64,
    pub classes: u64,
    pub patterns: u64,
    pub cycles: u64,
    /// The backtrack limit.
    pub limit: u64,
    pub detected: u64,
    pub redundant: u64,
    pub aborted: u64,
    /// Redundant and aborted together.
    pub untested: u64,
    /// Faults that weren't asked for, which have a line only where there are some.
    pub unasked: u64,
}

impl ReportCounts {
    /// The counts that every report has a line of, in the order of the text.
    pub(crate) fn to_array(self) -> [u64; COUNTS]
        ensures { result ≡ in_order self }
    {
        [
            self.inputs,
            self.outputs,
            self.gates,
            self.cells,
            self.chains,
            self.faults,
            self.classes,
            self.patterns,
            self.cycles,
            self.limit,
            self.detected,
            self.redundant,
            self.aborted,
            self.untested,
        ]
    }

    /// The counts that are these in the order of the text, and so many that weren't asked for.
    pub(crate) fn of(counts: [u64; COUNTS], unasked: u64) -> ReportCounts
        ensures { result ≡ counts_from counts unasked }
    {
        ReportCounts {
            inputs: counts[0],
            outputs: counts[1],
            gates: counts[2],
            cells: counts[3],
            chains: counts[4],
            faults: counts[5],
            classes: counts[6],
            patterns: counts[7],
            cycles: counts[8],
            limit: counts[9],
            detected: counts[10],
            redundant: counts[11],
            aborted: counts[12],
            untested: counts[13],
            unasked,
        }
    }

    /// What the counts of every report are.
    pub fn sound(self)
        ensures { AreSmallCounts self }
    {
        are_small(&self.to_array());
    }
}

/// What numbers of this type are.
fn are_small(numbers: &[u64])
    ensures { All (λ k. k < 2 ^ 64) numbers.now }
{}

/// The word of a count, by its place.
pub(crate) fn count_word(place: usize) -> &'static [u8]
    requires { place < count_of_counts }
    ensures { slice_get count_words place ≡ Some result.now }
{
    WORDS[place]
}
