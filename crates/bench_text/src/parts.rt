//! The parts of the netlist that the statements stand for.

ghost use Rattle.std.specs.Prelude.{◌≡◌, ◌<◌, ◌≤◌, ◌++◌, true, map, length, nat_lt, IfOk, OnOk};
ghost use Rattle.std.specs.List.{list_any, list_all, flat_map};
ghost use Rattle.std.specs.Str.{bytes_eq};
ghost use Rattle.netlist.specs.Conditions.{most_signals, whole};
ghost use Rattle.bench_text.specs.Said.{Said, statements_of};
ghost use Rattle.bench_text.specs.Texts.{inputs_of};
ghost use Rattle.statement.specs.Benches.{name_at};
ghost use Rattle.bench_text.specs.Sights.{distinct};
ghost use Rattle.bench_text.specs.inner.Numbered.{are_below, definition_number, spelling_of};
ghost use Rattle.bench_text.specs.Whole.{outputs_of, reads_from};
ghost use Rattle.bench_text.specs.Netlists.{id_of, equation, netlist_of};
ghost use Rattle.bench_text.specs.inner.Drafted.{names_seen, notes_in, signals_in};

use crate::draft::Draft;
use crate::numbered::{Numbered, Role};
use netlist::{Definition, NameTable, Parts, SignalId};
use smallvec::SmallVec;
use std::alloc::{AllocError, Global};

impl Draft<'_> {
    /// The signal of a name.
    fn id(&self, number: usize) -> SignalId
        requires seen { number < length (names_seen self.now) }
        requires defined { list_any (bytes_eq (name_at (names_seen self.now) number)) (signals_in self.now) ≡ true }
        requires few { length (signals_in self.now) ≤ most_signals }
        ensures { result ≡ id_of (signals_in self.now) (name_at (names_seen self.now) number) }
    {
        match self.roles[number] {
            Role::Input(place) => SignalId(place as u32),
            Role::Definition(place) => SignalId((self.inputs.len() + place) as u32),
            Role::Read => unreachable!(),
        }
    }

    /// The signals of inputs or outputs.
    fn ids(&self, alloc: Global, numbers: &[usize]) -> Result<Vec<SignalId>, AllocError>
        requires seen { list_all (λ n. nat_lt n (length (names_seen self.now))) numbers.now ≡ true }
        requires defined { list_all (λ n. list_any (bytes_eq (name_at (names_seen self.now) n)) (signals_in self.now)) numbers.now ≡ true }
        requires few { length (signals_in self.now) ≤ most_signals }
        ensures { IfOk result (λ v. v.items ≡ map (λ n. id_of (signals_in self.now) (name_at (names_seen self.now) n)) numbers.now) }
    {
        let mut ids = Vec::with_capacity(alloc, numbers.len())?;
        for number in numbers {
            ids.push(self.id(*number))?;
        }
        Ok(ids)
    }

    /// The same in the form that definitions have: up to four pins stand in place.
    fn pin_ids(&self, alloc: Global, numbers: &[usize]) -> Result<SmallVec<SignalId, 4>, AllocError>
        requires seen { list_all (λ n. nat_lt n (length (names_seen self.now))) numbers.now ≡ true }
        requires defined { list_all (λ n. list_any (bytes_eq (name_at (names_seen self.now) n)) (signals_in self.now)) numbers.now ≡ true }
        requires few { length (signals_in self.now) ≤ most_signals }
        ensures { IfOk result (λ v. v.items ≡ map (λ n. id_of (signals_in self.now) (name_at (names_seen self.now) n)) numbers.now) }
    {
        let mut ids = SmallVec::new(alloc);
        ids.reserve(numbers.len())?;
        for number in numbers {
            ids.push(self.id(*number))?;
        }
        Ok(ids)
    }

    /// Adds a statement's definition, if it is one.
    fn push_equation(
        &self,
        alloc: Global,
        equations: &mut Vec<Definition>,
        statement: &Numbered,
    ) -> Result<(), AllocError>
        requires seen { are_below (length (names_seen self.now)) statement.now ≡ true }
        requires reads { reads_from (signals_in self.now) (spelling_of (names_seen self.now) statement.now) ≡ true }
        requires defined { list_all (λ n. list_any (bytes_eq (name_at (names_seen self.now) n)) (signals_in self.now)) (definition_number statement.now) ≡ true }
        requires few { length (signals_in self.now) ≤ most_signals }
        ensures { OnOk result (equations.new.items ≡ equations.old.items ++ equation (signals_in self.now) (spelling_of (names_seen self.now) statement.now)) }
    {
        match statement {
            Numbered::Definition(number, kind, pins) => {
                let id = self.id(*number);
                let pins = self.pin_ids(alloc, pins)?;
                equations.push(Definition::new(id, *kind, pins))?;
                Ok(())
            }
            Numbered::Input(_) | Numbered::Output(_) => Ok(()),
        }
    }

    /// The definitions, in file order.
    fn equations(&self, alloc: Global) -> Result<Vec<Definition>, AllocError>
        requires reads { list_all (λ (s : Said). reads_from (signals_in self.now) s.statement) (notes_in self.now) ≡ true }
        requires few { length (signals_in self.now) ≤ most_signals }
        ensures { IfOk result (λ v. v.items ≡ flat_map (equation (signals_in self.now)) (statements_of (notes_in self.now))) }
    {
        let mut equations = Vec::with_capacity(alloc, self.definitions.len())?;
        for entry in &self.entries {
            self.push_equation(alloc, &mut equations, &entry.statement)?;
        }
        Ok(equations)
    }

    fn push_names(&self, names: &mut NameTable, numbers: &[usize]) -> Result<(), AllocError>
        requires { list_all (λ n. nat_lt n (length (names_seen self.now))) numbers.now ≡ true }
        ensures { OnOk result (names.new ≡ names.old ++ map (name_at (names_seen self.now)) numbers.now) }
    {
        for number in numbers {
            names.push(self.sights.name(*number))?;
        }
        Ok(())
    }

    fn names(&self, alloc: Global) -> Result<NameTable, AllocError>
        ensures { IfOk result (λ t. t ≡ signals_in self.now) }
    {
        let mut names = NameTable::new(alloc);
        names.reserve(self.signal_count(), 0)?;
        self.push_names(&mut names, &self.inputs)?;
        self.push_names(&mut names, &self.definitions)?;
        Ok(names)
    }

    fn input_ids(&self, alloc: Global) -> Result<Vec<SignalId>, AllocError>
        requires few { length (signals_in self.now) ≤ most_signals }
        ensures { IfOk result (λ v. v.items ≡ map (id_of (signals_in self.now)) (inputs_of (statements_of (notes_in self.now)))) }
    {
        self.ids(alloc, &self.inputs)
    }

    /// The outputs, in the order of their first lines.
    fn output_ids(&self, alloc: Global) -> Result<Vec<SignalId>, AllocError>
        requires reads { list_all (λ (s : Said). reads_from (signals_in self.now) s.statement) (notes_in self.now) ≡ true }
        requires few { length (signals_in self.now) ≤ most_signals }
        ensures { IfOk result (λ v. v.items ≡ map (id_of (signals_in self.now)) (distinct (outputs_of (statements_of (notes_in self.now))))) }
    {
        self.ids(alloc, self.outputs.as_slice())
    }

    /// The parts of the netlist, where each name that is read is defined.
    pub fn parts(&self, alloc: Global) -> Result<Parts, AllocError>
        requires reads { list_all (λ (s : Said). reads_from (signals_in self.now) s.statement) (notes_in self.now) ≡ true }
        requires few { length (signals_in self.now) ≤ most_signals }
        ensures { IfOk result (λ p. whole p ≡ netlist_of (statements_of (notes_in self.now))) }
    {
        Ok(Parts {
            names: self.names(alloc)?,
            inputs: self.input_ids(alloc)?,
            outputs: self.output_ids(alloc)?,
            definitions: self.equations(alloc)?,
        })
    }
}
