//! The end of a command: what its work made is written and shown.
ghost use Rattle.std.specs.Prelude.{◌≡◌, IfOk, length};
ghost use Rattle.commands.specs.World.{world};
ghost use Rattle.commands.specs.Names.{file_names_of};
ghost use Rattle.commands.specs.Delivered.{DeliveryRow, ProductRow};

use crate::ending::{Ending, WriteFailure};
use crate::names::FileName;
use crate::product::{Product, Stop};
use crate::writing::write_in_order;
use outside::{Shelf, Sink, WriteRefusal};
use std::alloc::Global;

/// Writes the files of a product, and shows its text.
fn deliver_product<'a, S: Shelf, T: Sink, R>(
    alloc: Global,
    shelf: &mut S,
    out: &mut T,
    writes: &[FileName<'a>],
    product: &Product,
) -> Ending<'a, R>
    requires { length product.now.texts.items ≡ length writes.now }
    ensures { ProductRow (file_names_of writes.now) product.now
        (world (S.files shelf.old) (S.failures shelf.old) (T.taken out.old) (T.failures out.old))
        (world (S.files shelf.new) (S.failures shelf.new) (T.taken out.new) (T.failures out.new)) result }
{
    if let Err(ending) = write_in_order(alloc, shelf, writes, product.texts.as_slice()) {
        return ending;
    }
    match out.put(product.shown.as_slice()) {
        Ok(()) => Ending::Ended(product.finding),
        Err(WriteRefusal::Failed) => Ending::WriteFailed(WriteFailure::Output),
        Err(WriteRefusal::NoMemory) => Ending::Memory,
    }
}

/// Ends a command whose work has been done: writes the files and shows the text, or says why there
/// are none. A command whose work may wait reads, works and ends so, as `run_command` does.
pub fn deliver<'a, S: Shelf, T: Sink, R>(
    alloc: Global,
    shelf: &mut S,
    out: &mut T,
    writes: &[FileName<'a>],
    worked: Result<Product, Stop<R>>,
) -> Ending<'a, R>
    requires { IfOk worked (λ p. length p.texts.items ≡ length writes.now) }
    ensures { DeliveryRow (file_names_of writes.now) worked
        (world (S.files shelf.old) (S.failures shelf.old) (T.taken out.old) (T.failures out.old))
        (world (S.files shelf.new) (S.failures shelf.new) (T.taken out.new) (T.failures out.new)) result }
{
    match worked {
        Ok(product) => deliver_product(alloc, shelf, out, writes, &product),
        Err(Stop::Refused(refusal)) => Ending::Refused(refusal),
        Err(Stop::NoMemory) => Ending::Memory,
    }
}
