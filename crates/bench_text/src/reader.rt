//! Netlists from text.

ghost use Rattle.std.specs.Prelude.{◌≡◌, ◌<◌, ◌≤◌, ◌^◌, length, find, IfOk};
ghost use Rattle.std.specs.Option.{option_map};
ghost use Rattle.bench_text.specs.Bytes.{lines};
ghost use Rattle.bench_text.specs.declared.numbered.Entry.{Entry};
ghost use Rattle.bench_text.specs.inner.Numbered.{defines_number};
ghost use Rattle.bench_text.specs.Reading.{IsRead, IsReadAs};
ghost use Rattle.bench_text.specs.inner.Loops.{IsDefinedAt, IsLeft, IsLoopRefusal};
ghost use Rattle.bench_text.specs.inner.Drafted.{notes_in, signals_in};

use crate::draft::Draft;
use crate::lines::read_lines;
use crate::numbered::Numbered;
use crate::refusal::{BenchFault, BenchKind, BenchRefusal, Names};
use netlist::{NetRefusal, Netlist, SignalId};
use std::alloc::Global;

impl Numbered {
    /// Whether it is the definition of this name.
    fn defines(&self, name: usize) -> bool
        ensures { result ≡ defines_number name self.now }
    {
        match self {
            Numbered::Definition(number, _, _) => *number == name,
            Numbered::Input(_) | Numbered::Output(_) => false,
        }
    }
}

impl Draft<'_> {
    /// The line of the definition of a name.
    fn defining_line(&self, number: usize) -> Option<u32>
        ensures { result ≡ option_map (λ (e : Entry). e.line) (find (λ (e : Entry). defines_number number e.statement) self.now.entries.items) }
    {
        for entry in &self.entries {
            if entry.statement.defines(number) {
                return Some(entry.line);
            }
        }
        None
    }

    /// The line that defines a signal, which is no input.
    fn line_of(&self, signal: SignalId) -> u32
        requires defined { length self.now.inputs.items ≤ signal }
        requires within { signal < length (signals_in self.now) }
        ensures { IsDefinedAt (notes_in self.now) signal result }
    {
        let number = self.definitions[signal.index() - self.inputs.len()];
        match self.defining_line(number) {
            Some(line) => line,
            None => unreachable!(),
        }
    }
}

impl Draft<'_> {
    /// What the refusal of the netlist is for the text. Only a loop is left, or want of memory.
    fn refusal_of(&self, refusal: &NetRefusal) -> BenchFault
        requires { IsLeft (notes_in self.now) refusal.now }
        ensures { IsLoopRefusal (notes_in self.now) result }
    {
        match refusal {
            NetRefusal::Loop(signal) => BenchFault::Refused(BenchRefusal {
                line: self.line_of(*signal),
                kind: BenchKind::Loop,
            }),
            NetRefusal::NoMemory => BenchFault::NoMemory,
            NetRefusal::TooMany
            | NetRefusal::NoInput
            | NetRefusal::NoOutput
            | NetRefusal::Undefined(_) => unreachable!(),
        }
    }
}

/// The netlist that a text stands for, or why it is refused. Linear in the bytes; each name is looked up once where it stands.
pub fn read(alloc: Global, text: &[u8], reading: Names) -> Result<Netlist, BenchFault>
    requires { length (lines text.now) < 2 ^ 32 }
    ensures read { IsRead reading text.now result }
    ensures design { IfOk result (IsReadAs reading) }
{
    let draft = match read_lines(alloc, reading, text) {
        Ok(draft) => draft,
        Err(refusal) => return Err(refusal),
    };
    if let Some(refusal) = draft.whole_refusal(reading) {
        return Err(BenchFault::Refused(refusal));
    }
    let parts = draft.parts(alloc)?;
    match Netlist::new(alloc, parts) {
        Ok(netlist) => {
            netlist.sound();
            Ok(netlist)
        }
        Err(refusal) => Err(draft.refusal_of(&refusal)),
    }
}
