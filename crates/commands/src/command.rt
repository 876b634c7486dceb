//! A command from its reads to its output.
ghost use Rattle.std.specs.Prelude.{◌≡◌, ◌≤◌, ℕ, List, length};
ghost use Rattle.std.specs.List.{All};
ghost use Rattle.statement.specs.Benches.{Text};
ghost use Rattle.commands.specs.World.{world};
ghost use Rattle.commands.specs.Names.{file_names_of, texts_of};
ghost use Rattle.commands.specs.Contents.{most_bytes};
ghost use Rattle.commands.specs.Due.{Due};
ghost use Rattle.commands.specs.Worked.{IsWorked};
ghost use Rattle.commands.specs.Rows.{CommandRow};

use crate::delivering::deliver;
use crate::ending::Ending;
use crate::names::FileName;
use crate::product::{Product, Stop};
use crate::reading::read_in_order;
use outside::{Shelf, Sink};
use std::alloc::Global;

/// The work of a command, between its reads and its writes.
pub trait Work {
    /// Why texts are refused.
    type Refusal;

    /// What it rests on, as that a number of the command line is in its range.
    ghost can_work: { Self → Type 0 };

    /// How many files it reads.
    ghost reads: { Self → ℕ };

    /// How many files it writes.
    ghost writes: { Self → ℕ };

    /// What is due of the texts.
    ghost due: { Self → List Text → Due Self.Refusal → Type 0 };

    /// What is to be written and shown, or why not. The texts are handed over, so that they need
    /// not stand beside what is made of them.
    fn work(&self, alloc: Global, texts: Vec<Vec<u8>>) -> Result<Product, Stop<Self::Refusal>>
        requires can { can_work self.now }
        requires count { length texts.items ≡ reads self.now }
        requires within { All (λ text. length text ≤ most_bytes) (texts_of texts.items) }
        ensures { IsWorked (due self.now (texts_of texts.items)) (writes self.now) result };
}

/// Reads the files, works, writes the files, and shows the text.
pub fn run_command<'a, S: Shelf, T: Sink, W: Work>(
    alloc: Global,
    shelf: &mut S,
    out: &mut T,
    reads: &[FileName<'a>],
    writes: &[FileName<'a>],
    work: &W,
) -> Ending<'a, W::Refusal>
    requires can { W.can_work work.now }
    requires reads { length reads.now ≡ W.reads work.now }
    requires writes { length writes.now ≡ W.writes work.now }
    ensures { CommandRow (file_names_of reads.now) (file_names_of writes.now) (W.due work.now)
        (world (S.files shelf.old) (S.failures shelf.old) (T.taken out.old) (T.failures out.old))
        (world (S.files shelf.new) (S.failures shelf.new) (T.taken out.new) (T.failures out.new)) result }
{
    let texts = match read_in_order(alloc, shelf, reads) {
        Ok(texts) => texts,
        Err(ending) => return ending,
    };
    let worked = work.work(alloc, texts);
    deliver(alloc, shelf, out, writes, worked)
}
