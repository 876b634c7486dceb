//! The lines on the error output: what the user is told of how the call ends.
ghost use Rattle.std.specs.Prelude.{◌≡◌, ◌++◌, [], codes, decimal, slice_index_or};
ghost use Rattle.commands.specs.Lines.{IsSaid};
ghost use Rattle.atpg_top.specs.inner.Held.{names_held};
ghost use Rattle.atpg_top.specs.Lines.{order_line, refusal_line};
ghost use Rattle.atpg_top.specs.Rows.{ErrRow};

use crate::status::Status;
use cell_order::OrderRefusal;
use command_line::Held;
use command_steps::Refusal;
use commands::{Ending, say, say_failed_write, say_name, say_netlist, say_text};
use itoa::Buffer;
use outside::Sink;

/// A line that names a word of the command line.
fn say_word<E: Sink>(err: &mut E, what: &[u8], word: &[u8])
    ensures { IsSaid E.takes_memory (what.now ++ (word.now ++ codes "\n")) (E.taken err.old) (E.failures err.old) (E.taken err.new) (E.failures err.new) }
{
    let pieces = [what, word, b"\n".as_slice()];
    say(err, pieces.as_slice())
}

/// A line that names something by its number.
fn say_number<E: Sink>(err: &mut E, what: &[u8], number: usize, why: &[u8])
    ensures { IsSaid E.takes_memory (what.now ++ (decimal number ++ why.now)) (E.taken err.old) (E.failures err.old) (E.taken err.new) (E.failures err.new) }
{
    let mut digits = Buffer::new();
    let pieces = [what, digits.format(number).as_bytes(), why];
    say(err, pieces.as_slice())
}

/// The line of an order that is refused.
fn say_order<E: Sink>(err: &mut E, refusal: &OrderRefusal)
    ensures { IsSaid E.takes_memory (order_line refusal.now) (E.taken err.old) (E.failures err.old) (E.taken err.new) (E.failures err.new) }
{
    match refusal {
        OrderRefusal::NotOrder => say_text(err, b"not an order\n"),
        OrderRefusal::NotCell(number) => {
            say_number(err, b"order name ", *number, b": no such cell\n")
        }
        OrderRefusal::Twice(number) => {
            say_number(err, b"order name ", *number, b": the cell stands twice\n")
        }
        OrderRefusal::LeftOut(number) => say_number(
            err,
            b"order leaves out cell ",
            *number,
            b" of the netlist\n",
        ),
        OrderRefusal::TooMany => say_text(err, b"order has too many chains\n"),
        OrderRefusal::Uneven => say_text(err, b"order has uneven chains\n"),
    }
}

/// The name of the held input at a place.
fn name_at<'a>(holds: &[Held<'a>], place: usize) -> &'a [u8]
    ensures { result.now ≡ slice_index_or (names_held holds.now) place [] }
{
    match holds.get(place) {
        Some(held) => held.name.as_bytes(),
        None => b"",
    }
}

/// The line of a refusal. The inputs are those that are to be held.
fn say_refusal<E: Sink>(err: &mut E, refusal: &Refusal, holds: &[Held<'_>])
    ensures { IsSaid E.takes_memory (refusal_line (names_held holds.now) refusal.now) (E.taken err.old) (E.failures err.old) (E.taken err.new) (E.failures err.new) }
{
    match refusal {
        Refusal::Netlist(refusal) => say_netlist(err, refusal),
        Refusal::Order(refusal) => say_order(err, refusal),
        Refusal::NoSuchFault => say_text(err, b"no such fault\n"),
        Refusal::NoSuchInput(place) => say_word(err, b"no such input: ", name_at(holds, *place)),
        Refusal::NotStil => say_text(err, b"not a stil file\n"),
        Refusal::NotCertificate => say_text(err, b"not a certificate\n"),
        Refusal::NotReport => say_text(err, b"not a report\n"),
        Refusal::NotLog => say_text(err, b"not a fail log\n"),
        Refusal::NoFaultAt(number) => {
            say_number(err, b"fault list line ", *number, b": no such fault\n")
        }
        Refusal::StilDoesNotFit => say_text(err, b"stil does not fit\n"),
    }
}

/// Says how the call ends; nothing where the command did its work. The inputs are those that are to be held.
pub fn tell<E: Sink>(err: &mut E, status: &Status<'_>, holds: &[Held<'_>])
    ensures { ErrRow E.takes_memory (names_held holds.now) status.now (E.taken err.old) (E.failures err.old) (E.taken err.new) (E.failures err.new) }
{
    match status {
        Status::BadWords { text } => say_text(err, text.as_bytes()),
        Status::BadHold => say_text(err, b"bad hold\n"),
        Status::BadPrefix { prefix } => {
            say_word(err, b"prefix names no file: ", prefix.as_bytes())
        }
        Status::WritesOver { name } => say_name(err, b"would write over: ", name),
        Status::Command(Ending::Ended(_)) => {}
        Status::Command(Ending::Refused(refusal)) => say_refusal(err, refusal, holds),
        Status::Command(Ending::ReadFailed(name)) => say_name(err, b"read failed: ", name),
        Status::Command(Ending::WriteFailed(failure)) => say_failed_write(err, failure),
        Status::Command(Ending::Missing(name)) => say_name(err, b"no such file: ", name),
        Status::Command(Ending::TooLong(name)) => say_name(err, b"too long: ", name),
        Status::Command(Ending::Memory) => say_text(err, b"out of memory\n"),
    }
}
