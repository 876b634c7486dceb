//! The lines read so far.

ghost use Rattle.std.specs.Prelude.{◌≡◌, ◌<◌, ◌^◌, ◌+◌, [], ◌∷◌, ◌++◌, true, false, length, map, IfOk, OnOk, vec_len, vec_capacity, Some, slice_get, nat_lt};
ghost use Rattle.std.specs.List.{list_any, list_all};
ghost use Rattle.std.specs.Str.{bytes_eq};
ghost use Rattle.bench_text.specs.declared.numbered.Numbered.TheVariants.{Input, Output, Definition};
ghost use Rattle.bench_text.specs.inner.Stated.{names, statement_of};
ghost use Rattle.bench_text.specs.Refusals.{has_unknown_gate, defines_one_of, line_refusal};
ghost use Rattle.bench_text.specs.Texts.{statement_on};
ghost use Rattle.bench_text.specs.Said.{note_at};
ghost use Rattle.bench_text.specs.inner.LineRead.{IsRefusal};
ghost use Rattle.statement.specs.Benches.{name_at};
ghost use Rattle.bench_text.specs.inner.Numbered.{IsDraft, are_below, spelling_of, spelling_if_any, with_role};
ghost use Rattle.bench_text.specs.Forms as forms;

use crate::line::read_line;
use crate::numbered::{Entry, Numbered, Role};
use crate::refusal::{BenchKind, LineRefusal, Names};
use crate::sights::Sights;
use crate::statements::Statement;
use indexmap::IndexSet;
use netlist::Kind;
use smallvec::SmallVec;
use std::alloc::{AllocError, Global};

/// The statements of the lines read so far.
#[derive(Drop)]
pub struct Draft<'a> {
    pub(crate) sights: Sights<'a>,
    pub(crate) roles: Vec<Role>,
    pub(crate) entries: Vec<Entry>,
    pub(crate) inputs: Vec<usize>,
    pub(crate) definitions: Vec<usize>,
    pub(crate) outputs: IndexSet<usize>,
    pub(crate) lines: u32,
    ghost sound: { IsDraft (names sights.names.keys) roles.items entries.items inputs.items definitions.items outputs.keys },
}

/// Gives a name that has the next number its role, which is none so far.
fn see(roles: &mut Vec<Role>, number: usize)
    requires { vec_len roles.old < vec_capacity roles.old }
    ensures { roles.new.items ≡ with_role roles.old.items number }
{
    if number == roles.len() {
        roles.push_reserved(Role::Read);
    }
}

impl<'a> Draft<'a> {
    ghost use Rattle.bench_text.specs.inner.Drafted.{names_seen, notes_in, signals_in, are_seen, Keeps, AreNumbers};

    /// No lines, and room for so many names.
    pub fn with_room(alloc: Global, names: usize) -> Result<Self, AllocError>
        ensures nothing { IfOk result (λ d. notes_in d ≡ []) }
        ensures lines { IfOk result (λ d. d.lines ≡ 0) }
    {
        Ok(Draft {
            sights: Sights::with_room(alloc, names)?,
            roles: Vec::with_capacity(alloc, names)?,
            entries: Vec::with_capacity(alloc, names)?,
            inputs: Vec::new(alloc),
            definitions: Vec::with_capacity(alloc, names)?,
            outputs: IndexSet::new(alloc),
            lines: 0,
        })
    }

    /// How many lines were read.
    pub fn lines(&self) -> u32
        ensures { result ≡ self.now.lines }
    {
        self.lines
    }

    /// The number of a name, a new one at its first sight.
    fn number(&mut self, name: &'a [u8]) -> Result<usize, AllocError>
        ensures keeps { OnOk result (Keeps self.old self.new) }
        ensures number { IfOk result (λ n. slice_get (names_seen self.new) n ≡ Some name.now) }
    {
        self.roles.reserve(1)?;
        let number = self.sights.number(name)?;
        see(&mut self.roles, number);
        Ok(number)
    }

    /// The numbers of a gate's pins.
    fn number_all(
        &mut self,
        alloc: Global,
        pins: &[&'a [u8]],
    ) -> Result<SmallVec<usize, 4>, AllocError>
        ensures keeps { OnOk result (Keeps self.old self.new) }
        ensures numbers { IfOk result (λ ns. AreNumbers (names_seen self.new) ns.items (names pins.now)) }
    {
        let mut numbers = SmallVec::new(alloc);
        for pin in pins {
            let number = self.number(pin)?;
            numbers.push(number)?;
        }
        Ok(numbers)
    }

    fn numbered_definition(
        &mut self,
        alloc: Global,
        name: &'a [u8],
        kind: Kind,
        pins: &[&'a [u8]],
    ) -> Result<Numbered, AllocError>
        ensures keeps { OnOk result (Keeps self.old self.new) }
        ensures same { IfOk result (λ s. spelling_of (names_seen self.new) s ≡ forms.Definition name.now (Some kind) (names pins.now)) }
        ensures seen { IfOk result (λ s. are_below (length (names_seen self.new)) s ≡ true) }
    {
        let number = self.number(name)?;
        let pins = self.number_all(alloc, pins)?;
        Ok(Numbered::Definition(number, kind, pins))
    }

    /// A statement by numbers. `None`: it says nothing.
    fn numbered(
        &mut self,
        alloc: Global,
        statement: &Statement<'a>,
    ) -> Result<Option<Numbered>, AllocError>
        requires { has_unknown_gate (statement_of statement.now) ≡ false }
        ensures keeps { OnOk result (Keeps self.old self.new) }
        ensures same { IfOk result (λ s. spelling_if_any (names_seen self.new) s ≡ statement_of statement.now) }
        ensures seen { IfOk result (λ s. are_seen self.new s ≡ true) }
    {
        match statement {
            Statement::Nothing => Ok(None),
            Statement::Input(x) => Ok(Some(Numbered::Input(self.number(x)?))),
            Statement::Output(x) => Ok(Some(Numbered::Output(self.number(x)?))),
            Statement::Definition(z, Some(kind), pins) => {
                Ok(Some(self.numbered_definition(alloc, z, *kind, pins)?))
            }
            Statement::Definition(_, None, _) => unreachable!(),
        }
    }

    /// Whether a line defines the name of this number.
    pub fn defines(&self, number: usize) -> bool
        requires { number < length (names_seen self.now) }
        ensures { result ≡ list_any (bytes_eq (name_at (names_seen self.now) number)) (signals_in self.now) }
    {
        match self.roles[number] {
            Role::Read => false,
            Role::Input(_) | Role::Definition(_) => true,
        }
    }

    /// Whether the statement's INPUT or definition has a name that a line defines.
    fn defines_again(&self, statement: &Option<Numbered>) -> bool
        requires { are_seen self.now statement.now ≡ true }
        ensures { result ≡ defines_one_of (signals_in self.now) (spelling_if_any (names_seen self.now) statement.now) }
    {
        match statement {
            Some(Numbered::Input(number)) => self.defines(*number),
            Some(Numbered::Definition(number, _, _)) => self.defines(*number),
            Some(Numbered::Output(_)) | None => false,
        }
    }

    fn push_input(self, number: usize) -> Result<Draft<'a>, AllocError>
        requires seen { number < length (names_seen self) }
        requires first { list_any (bytes_eq (name_at (names_seen self) number)) (signals_in self) ≡ false }
        requires lines { self.lines + 1 < 2 ^ 32 }
        ensures said { IfOk result (λ d. notes_in d ≡ notes_in self.entry ++ note_at (self.entry.lines + 1) (spelling_of (names_seen self.entry) (Input number))) }
        ensures lines { IfOk result (λ d. d.lines ≡ self.entry.lines + 1) }
    {
        let Draft {
            sights,
            mut roles,
            mut entries,
            mut inputs,
            definitions,
            outputs,
            lines,
        } = self;
        let line = lines + 1;
        roles[number] = Role::Input(inputs.len());
        inputs.push(number)?;
        entries.push(Entry {
            line,
            statement: Numbered::Input(number),
        })?;
        Ok(Draft {
            sights,
            roles,
            entries,
            inputs,
            definitions,
            outputs,
            lines: line,
        })
    }

    fn push_output(self, number: usize) -> Result<Draft<'a>, AllocError>
        requires seen { number < length (names_seen self) }
        requires lines { self.lines + 1 < 2 ^ 32 }
        ensures said { IfOk result (λ d. notes_in d ≡ notes_in self.entry ++ note_at (self.entry.lines + 1) (spelling_of (names_seen self.entry) (Output number))) }
        ensures lines { IfOk result (λ d. d.lines ≡ self.entry.lines + 1) }
    {
        let Draft {
            sights,
            roles,
            mut entries,
            inputs,
            definitions,
            mut outputs,
            lines,
        } = self;
        let line = lines + 1;
        outputs.insert(number)?;
        entries.push(Entry {
            line,
            statement: Numbered::Output(number),
        })?;
        Ok(Draft {
            sights,
            roles,
            entries,
            inputs,
            definitions,
            outputs,
            lines: line,
        })
    }

    fn push_definition(
        self,
        number: usize,
        kind: Kind,
        pins: SmallVec<usize, 4>,
    ) -> Result<Draft<'a>, AllocError>
        requires seen { number < length (names_seen self) }
        requires pins { list_all (λ n. nat_lt n (length (names_seen self))) pins.items ≡ true }
        requires first { list_any (bytes_eq (name_at (names_seen self) number)) (signals_in self) ≡ false }
        requires lines { self.lines + 1 < 2 ^ 32 }
        ensures said { IfOk result (λ d. notes_in d ≡ notes_in self.entry ++ note_at (self.entry.lines + 1) (spelling_of (names_seen self.entry) (Definition number kind pins))) }
        ensures lines { IfOk result (λ d. d.lines ≡ self.entry.lines + 1) }
    {
        let Draft {
            sights,
            mut roles,
            mut entries,
            inputs,
            mut definitions,
            outputs,
            lines,
        } = self;
        let line = lines + 1;
        roles[number] = Role::Definition(definitions.len());
        definitions.push(number)?;
        entries.push(Entry {
            line,
            statement: Numbered::Definition(number, kind, pins),
        })?;
        Ok(Draft {
            sights,
            roles,
            entries,
            inputs,
            definitions,
            outputs,
            lines: line,
        })
    }

    /// Adds a line's statement, or a line that says nothing.
    fn push(self, statement: Option<Numbered>) -> Result<Draft<'a>, AllocError>
        requires seen { are_seen self statement ≡ true }
        requires first { defines_one_of (signals_in self) (spelling_if_any (names_seen self) statement) ≡ false }
        requires lines { self.lines + 1 < 2 ^ 32 }
        ensures said { IfOk result (λ d. notes_in d ≡ notes_in self.entry ++ note_at (self.entry.lines + 1) (spelling_if_any (names_seen self.entry) statement)) }
        ensures lines { IfOk result (λ d. d.lines ≡ self.entry.lines + 1) }
    {
        match statement {
            None => {
                let mut draft = self;
                draft.lines += 1;
                Ok(draft)
            }
            Some(Numbered::Input(number)) => self.push_input(number),
            Some(Numbered::Output(number)) => self.push_output(number),
            Some(Numbered::Definition(number, kind, pins)) => {
                self.push_definition(number, kind, pins)
            }
        }
    }

    /// A line's statement by numbers, unless the line is refused.
    fn number_line(
        &mut self,
        alloc: Global,
        reading: Names,
        line: &'a [u8],
    ) -> Result<Option<Numbered>, LineRefusal>
        ensures keeps { OnOk result (Keeps self.old self.new) }
        ensures same { IfOk result (λ s. spelling_if_any (names_seen self.new) s ≡ statement_on reading line.now) }
        ensures seen { IfOk result (λ s. are_seen self.new s ≡ true) }
        ensures first { IfOk result (λ s. defines_one_of (signals_in self.new) (spelling_if_any (names_seen self.new) s) ≡ false) }
        ensures refusal { IsRefusal (line_refusal reading (signals_in self.old) line.now) result }
    {
        let statement = read_line(alloc, reading, line)?;
        let numbered = self.numbered(alloc, &statement)?;
        if self.defines_again(&numbered) {
            return Err(LineRefusal::Refused(BenchKind::DefinedTwice));
        }
        if reading.reserves(&statement) {
            return Err(LineRefusal::Refused(BenchKind::Reserved));
        }
        Ok(numbered)
    }

    /// Adds a line, unless it is refused.
    #[inline(always)]
    pub fn add_line(
        self,
        alloc: Global,
        reading: Names,
        line: &'a [u8],
    ) -> Result<Draft<'a>, LineRefusal>
        requires { self.lines + 1 < 2 ^ 32 }
        ensures said { IfOk result (λ d. notes_in d ≡ notes_in self.entry ++ note_at (self.entry.lines + 1) (statement_on reading line.now)) }
        ensures lines { IfOk result (λ d. d.lines ≡ self.entry.lines + 1) }
        ensures refusal { IsRefusal (line_refusal reading (signals_in self.entry) line.now) result }
    {
        let mut draft = self;
        let statement = match draft.number_line(alloc, reading, line) {
            Ok(statement) => statement,
            Err(refusal) => return Err(refusal),
        };
        Ok(draft.push(statement)?)
    }
}
