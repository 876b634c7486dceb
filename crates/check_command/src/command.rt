//! The five reads and the check.
ghost use Rattle.std.specs.Prelude.{◌≡◌, ◌≤◌, [], length};
ghost use Rattle.std.specs.List.{All};
ghost use Rattle.commands.specs.Contents.{most_bytes};
ghost use Rattle.commands.specs.Names.{run_files, texts_of};
ghost use Rattle.commands.specs.Rows.{CommandRow};
ghost use Rattle.commands.specs.Worked.{IsWorked};
ghost use Rattle.commands.specs.World.{world};
ghost use Rattle.check_command.specs.Checking.{IsAnswerOf, five_texts_due};
ghost use Rattle.check_command.specs.inner.Answers.{IsAnswered, answer_due};

use crate::lines::{finding_of, line_of};
use crate::refusal::CheckRefusal;
use commands::{Ending, Product, Stop, Work, file_names, run_command};
use file_check::check_files;
use good_files::{CheckFault, Checked};
use outside::{Shelf, Sink};
use report::behind;
use slow_check::check_slow_files;
use std::alloc::Global;

/// How a report of slow lines begins, of either version.
const SLOW_LINES: &[u8] = b"atpg transition ";

/// Checks the five texts, by the check of slow lines or by that of stuck ones.
fn checked(
    alloc: Global,
    net: &[u8],
    scan: &[u8],
    stil: &[u8],
    certificate: &[u8],
    report: &[u8],
) -> Result<Checked, CheckFault>
    requires net { length net.now ≤ most_bytes }
    requires stil { length stil.now ≤ most_bytes }
    ensures { IsAnswerOf (record { net = net.now; scan = scan.now; stil = stil.now; certificate = certificate.now; report = report.now }) result }
{
    match behind(SLOW_LINES, report) {
        Some(_) => check_slow_files(alloc, net, scan, stil, certificate, report),
        None => check_files(alloc, net, scan, stil, certificate, report),
    }
}

/// What is answered of the five texts.
fn answer_of(
    alloc: Global,
    net: &[u8],
    scan: &[u8],
    stil: &[u8],
    certificate: &[u8],
    report: &[u8],
) -> Result<Checked, Stop<CheckRefusal>>
    requires net { length net.now ≤ most_bytes }
    requires stil { length stil.now ≤ most_bytes }
    ensures { IsAnswered (record { net = net.now; scan = scan.now; stil = stil.now; certificate = certificate.now; report = report.now }) result }
{
    match checked(alloc, net, scan, stil, certificate, report) {
        Ok(answer) => Ok(answer),
        Err(CheckFault::Netlist(refusal)) => Err(Stop::Refused(CheckRefusal::Netlist(refusal))),
        Err(CheckFault::NotStil) => Err(Stop::Refused(CheckRefusal::NotStil)),
        Err(CheckFault::NotCertificate) => Err(Stop::Refused(CheckRefusal::NotCertificate)),
        Err(CheckFault::NotReport) => Err(Stop::Refused(CheckRefusal::NotReport)),
        Err(CheckFault::NoMemory) => Err(Stop::NoMemory),
    }
}

/// What is shown of an answer.
fn product_of(alloc: Global, answer: &Checked) -> Result<Product, Stop<CheckRefusal>>
    ensures { IsWorked (answer_due answer.now) 0 result }
{
    match line_of(alloc, answer) {
        Ok(shown) => Ok(Product {
            texts: Vec::new(alloc),
            shown,
            finding: finding_of(answer),
        }),
        Err(_) => Err(Stop::NoMemory),
    }
}

/// The work of `check`, of the texts of the five files. They are let go once they are checked.
pub fn check_texts(alloc: Global, texts: Vec<Vec<u8>>) -> Result<Product, Stop<CheckRefusal>>
    requires count { length texts.items ≡ 5 }
    requires within { All (λ text. length text ≤ most_bytes) (texts_of texts.items) }
    ensures { IsWorked (five_texts_due (texts_of texts.items)) 0 result }
{
    let net = texts[0].as_slice();
    let scan = texts[1].as_slice();
    let stil = texts[2].as_slice();
    let certificate = texts[3].as_slice();
    let report = texts[4].as_slice();
    match answer_of(alloc, net, scan, stil, certificate, report) {
        Ok(answer) => {
            drop(texts);
            product_of(alloc, &answer)
        }
        Err(stop) => Err(stop),
    }
}

#[derive(Clone, Copy)]
struct Check;

impl Work for Check {
    type Refusal = CheckRefusal;

    ghost can_work = { λ _. Unit {0} };

    ghost reads = { λ _. 5 };

    ghost writes = { λ _. 0 };

    ghost due = { λ _. five_texts_due };

    fn work(&self, alloc: Global, texts: Vec<Vec<u8>>) -> Result<Product, Stop<CheckRefusal>> {
        check_texts(alloc, texts)
    }
}

/// Checks the five files of a prefix, and shows what is found.
pub fn check_prefix<'a, S: Shelf, T: Sink>(
    alloc: Global,
    shelf: &mut S,
    out: &mut T,
    prefix: &'a str,
) -> Ending<'a, CheckRefusal>
    ensures { CommandRow (run_files prefix.now) [] five_texts_due
        (world (S.files shelf.old) (S.failures shelf.old) (T.taken out.old) (T.failures out.old))
        (world (S.files shelf.new) (S.failures shelf.new) (T.taken out.new) (T.failures out.new)) result }
{
    let reads = file_names(prefix);
    run_command(alloc, shelf, out, &reads, &[], &Check)
}
