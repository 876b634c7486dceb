//! `check`: the independent check of the five files of a prefix, with this program's refusals.
ghost use Rattle.std.specs.Prelude.{◌≡◌, [], length};
ghost use Rattle.commands.specs.Names.{run_files};
ghost use Rattle.commands.specs.Rows.{CommandRow};
ghost use Rattle.commands.specs.World.{world};
ghost use Rattle.atpg_top.specs.Checks.{check_due, refusal_of};

use check_command::{CheckRefusal, check_texts};
use command_steps::Refusal;
use commands::{Ending, Product, Stop, Work, file_names, run_command};
use outside::{Shelf, Sink};
use std::alloc::Global;

fn refusal_of(refusal: CheckRefusal) -> Refusal
    ensures { result ≡ refusal_of refusal }
{
    match refusal {
        CheckRefusal::Netlist(why) => Refusal::Netlist(why),
        CheckRefusal::NotStil => Refusal::NotStil,
        CheckRefusal::NotCertificate => Refusal::NotCertificate,
        CheckRefusal::NotReport => Refusal::NotReport,
    }
}

#[derive(Clone, Copy)]
struct Check;

impl Work for Check {
    type Refusal = Refusal;

    ghost can_work = { λ _. Unit {0} };

    ghost reads = { λ _. 5 };

    ghost writes = { λ _. 0 };

    ghost due = { λ _. check_due };

    fn work(&self, alloc: Global, texts: Vec<Vec<u8>>) -> Result<Product, Stop<Refusal>> {
        match check_texts(alloc, texts) {
            Ok(product) => Ok(product),
            Err(Stop::Refused(refusal)) => Err(Stop::Refused(refusal_of(refusal))),
            Err(Stop::NoMemory) => Err(Stop::NoMemory),
        }
    }
}

/// Checks the five files of a prefix, and shows what is found.
pub fn check_run<'a, S: Shelf, T: Sink>(
    alloc: Global,
    shelf: &mut S,
    out: &mut T,
    prefix: &'a str,
) -> Ending<'a, Refusal>
    ensures { CommandRow (run_files prefix.now) [] check_due
        (world (S.files shelf.old) (S.failures shelf.old) (T.taken out.old) (T.failures out.old))
        (world (S.files shelf.new) (S.failures shelf.new) (T.taken out.new) (T.failures out.new)) result }
{
    let reads = file_names(prefix);
    run_command(alloc, shelf, out, &reads, &[], &Check)
}
