//! Classes by number.
ghost use Rattle.std.specs.Prelude.{◌≡◌, ◌^◌, ◌<◌, ℕ, IfOk, length, slice_index};
ghost use Rattle.fault_collapse.specs.inner.Merging.{AreNumbered, IsForest, LeadsTo};

use fault_universe::FaultSet;
use netlist::Fault;
use std::alloc::{AllocError, Global};
use std::marker::Model;

/// The classes of a netlist's faults: the class of each fault, and the first member of each class.
#[derive(Drop)]
pub struct Classes {
    numbers: Vec<u32>,
    representatives: Vec<Fault>,
}

impl Model for Classes {
    ghost use Rattle.std.specs.Prelude.{◌^◌, ◌<◌, length};
    ghost use Rattle.fault_collapse.specs.Numbers.{Classes};

    ghost Value = { Classes };

    ghost view = { λ c. record { numbers = c.numbers.items; representatives = c.representatives.items } };

    ghost invariant = { λ c. length c.representatives.items < 2 ^ 32 };
}

impl Classes {
    ghost use Rattle.fault_collapse.specs.Classes.{Represents};

    /// How many classes there are.
    pub fn count(&self) -> u32
        ensures { result ≡ length self.now.representatives }
    {
        self.representatives.len() as u32
    }

    /// The class of the fault at a place of the list of faults.
    pub fn class_of(&self, i: u32) -> u32
        requires { i < length self.now.numbers }
        ensures { result ≡ slice_index self.now.numbers i }
    {
        self.numbers[i as usize]
    }

    /// The first member of a class.
    pub fn representative(&self, class: u32) -> Fault
        requires { class < length self.now.representatives }
        ensures { Represents self.now class result }
    {
        self.representatives[class as usize]
    }

    /// The first member of each class.
    pub fn representatives(&self) -> &[Fault]
        ensures { result.now ≡ self.now.representatives }
    {
        &self.representatives
    }
}

/// Numbers the classes in the order of their first members.
pub(crate) fn number(
    alloc: Global,
    parents: &[u32],
    faults: &FaultSet,
) -> Result<Classes, AllocError>
    requires size { length parents.now ≡ length faults.now }
    requires forest { IsForest parents.now }
    ensures { IfOk result (λ c. (first : ℕ → ℕ) → LeadsTo parents.now first → AreNumbered faults.now first c.numbers c.representatives (length faults.now)) }
{
    let mut numbers = Vec::with_capacity(alloc, parents.len())?;
    let mut representatives = Vec::new(alloc);
    for i in 0..faults.len() {
        let parent = parents[i as usize];
        if parent == i {
            let Fault { line, value } = faults.fault(i);
            numbers.push(representatives.len() as u32)?;
            representatives.push(Fault { line, value })?;
        } else {
            numbers.push(numbers[parent as usize])?;
        }
    }
    Ok(Classes {
        numbers,
        representatives,
    })
}
