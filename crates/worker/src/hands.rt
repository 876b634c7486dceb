//! What a worker keeps from round to round.
use cubes::Cube;
use evidence::Engine;
use list_core::{About, Claim};
use shared_list::{Share, Shared};
use std::marker::Model;
use std::sync::ledger::Ledger;

/// A test of a class that was found, and isn't published yet.
#[derive(Drop)]
pub(crate) struct Test {
    pub class: u32,
    pub cube: Cube,
}

/// A worker between two rounds: its share of the list, its room for searches, claims that are searched in a later round, and tests. It may publish a
/// pattern for each claim and each test. Room is made in its first round; behind a round it is missing where memory was refused. Contracts see a
/// worker as its share.
#[derive(Drop)]
pub(crate) struct Hand<'a, J: About, T: Ledger, S: Ledger, P: Ledger, U: Ledger, E: Engine> {
    pub shared: &'a Shared<J, T, S, P, U>,
    pub share: Share<T, S, P, U>,
    pub room: Option<E::Room>,
    pub claims: Vec<Claim<J>>,
    pub tests: Vec<Test>,
}

impl<'a, J: About, T: Ledger, S: Ledger, P: Ledger, U: Ledger, E: Engine> Model
    for Hand<'a, J, T, S, P, U, E> {
    ghost use Rattle.std.specs.Prelude.{◌≡◌, ◌+◌, ◌≤◌, IfSome, vec_len};
    ghost use Rattle.shared_list.specs.Tally.{Tally};
    ghost use Rattle.worker.specs.inner.Tests.{AreTestsOf};

    ghost Value = { Tally };

    ghost view = { λ a. a.share };

    ghost invariant = { λ a.
        (a.share.table ≡ a.shared.now.word.shared.table_id)
        × IfSome a.room (E.serves J.subject.netlist J.subject.holds)
        × AreTestsOf J.subject a.tests.items
        × (vec_len a.claims + vec_len a.tests ≤ a.share.unspent) };
}
