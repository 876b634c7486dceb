//! What is wrong with a text as a whole, but for loops.

ghost use Rattle.std.specs.Prelude.{◌≡◌, ◌<◌, true, not, length, find, nat_lt};
ghost use Rattle.std.specs.Option.{option_map};
ghost use Rattle.std.specs.List.{list_any, list_all};
ghost use Rattle.std.specs.Str.{bytes_eq};
ghost use Rattle.bench_text.specs.Said.{Said};
ghost use Rattle.statement.specs.Benches.{name_at};
ghost use Rattle.bench_text.specs.inner.Numbered.{are_below, spelling_of};
ghost use Rattle.bench_text.specs.Whole.{reads_from, most_in_text, refusal_at, whole_refusal};
ghost use Rattle.bench_text.specs.inner.Drafted.{names_seen, notes_in, signals_in};

use crate::draft::Draft;
use crate::numbered::Numbered;
use crate::refusal::{BenchKind, BenchRefusal, Names};
use netlist::{MOST_DESIGN_SIGNALS, MOST_SIGNALS};

impl Names {
    /// How many signals a text may have.
    pub fn most_signals(self) -> usize
        ensures { result ≡ most_in_text self }
    {
        match self {
            Names::Design => MOST_DESIGN_SIGNALS,
            Names::Scanned => MOST_SIGNALS,
        }
    }
}

impl BenchRefusal {
    /// What is wrong with a text as a whole.
    fn of_text(kind: BenchKind) -> BenchRefusal
        ensures { result ≡ refusal_at 0 kind }
    {
        BenchRefusal { line: 0, kind }
    }
}

impl Draft<'_> {
    /// Whether lines define all these names.
    fn defines_all(&self, numbers: &[usize]) -> bool
        requires { list_all (λ n. nat_lt n (length (names_seen self.now))) numbers.now ≡ true }
        ensures { result ≡ list_all (λ n. list_any (bytes_eq (name_at (names_seen self.now) n)) (signals_in self.now)) numbers.now }
    {
        for number in numbers {
            if !self.defines(*number) {
                return false;
            }
        }
        true
    }

    /// Whether a line reads only names that lines define.
    fn reads_defined(&self, statement: &Numbered) -> bool
        requires { are_below (length (names_seen self.now)) statement.now ≡ true }
        ensures { result ≡ reads_from (signals_in self.now) (spelling_of (names_seen self.now) statement.now) }
    {
        match statement {
            Numbered::Input(_) => true,
            Numbered::Output(number) => self.defines(*number),
            Numbered::Definition(_, _, pins) => self.defines_all(pins),
        }
    }

    /// The first line that reads a name that no line defines.
    fn first_undefined(&self) -> Option<u32>
        ensures { result ≡ option_map (λ (s : Said). s.line) (find (λ (s : Said). not (reads_from (signals_in self.now) s.statement)) (notes_in self.now)) }
    {
        for entry in &self.entries {
            if !self.reads_defined(&entry.statement) {
                return Some(entry.line);
            }
        }
        None
    }

    /// What is wrong with the text as a whole, but for loops.
    pub fn whole_refusal(&self, reading: Names) -> Option<BenchRefusal>
        ensures { result ≡ whole_refusal reading (notes_in self.now) }
    {
        if self.signal_count() > reading.most_signals() {
            return Some(BenchRefusal::of_text(BenchKind::TooMany));
        }
        if self.inputs.len() == 0 {
            return Some(BenchRefusal::of_text(BenchKind::NoInput));
        }
        if self.outputs.len() == 0 {
            return Some(BenchRefusal::of_text(BenchKind::NoOutput));
        }
        match self.first_undefined() {
            Some(line) => Some(BenchRefusal {
                line,
                kind: BenchKind::Undefined,
            }),
            None => None,
        }
    }

    /// How many signals the lines define.
    pub fn signal_count(&self) -> usize
        ensures { result ≡ length (signals_in self.now) }
    {
        self.inputs.len() + self.definitions.len()
    }
}
