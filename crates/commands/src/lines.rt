//! The lines of the error output that all programs of this repository have, put in pieces, so that none asks for memory: what the
//! user is told can't turn a status into another.
ghost use Rattle.std.specs.Prelude.{◌≡◌, ◌++◌, codes};
ghost use Rattle.commands.specs.Names.{file_name_of};
ghost use Rattle.commands.specs.Pieces.{join};
ghost use Rattle.commands.specs.Lines.{IsSaid, failure_line, kind_name, netlist_line};

use crate::ending::WriteFailure;
use crate::names::FileName;
use crate::pieces::put_pieces;
use bench_text::{BenchKind, BenchRefusal};
use itoa::Buffer;
use outside::Sink;

/// Puts a line in these pieces, as far as the output takes it.
pub fn say<E: Sink>(err: &mut E, pieces: &[&[u8]])
    ensures { IsSaid E.takes_memory (join pieces.now) (E.taken err.old) (E.failures err.old) (E.taken err.new) (E.failures err.new) }
{
    let _ = put_pieces(err, pieces);
}

/// Puts a line that is one text.
pub fn say_text<E: Sink>(err: &mut E, text: &[u8])
    ensures { IsSaid E.takes_memory text.now (E.taken err.old) (E.failures err.old) (E.taken err.new) (E.failures err.new) }
{
    say(err, &[text])
}

/// The word for a kind of refusal.
fn kind_name(kind: BenchKind) -> &'static str
    ensures { result.now ≡ kind_name kind }
{
    match kind {
        BenchKind::BadByte => "BadByte",
        BenchKind::BadLine => "BadLine",
        BenchKind::UnknownGate => "UnknownGate",
        BenchKind::BadPins => "BadPins",
        BenchKind::DefinedTwice => "DefinedTwice",
        BenchKind::Reserved => "Reserved",
        BenchKind::TooMany => "TooMany",
        BenchKind::NoInput => "NoInput",
        BenchKind::NoOutput => "NoOutput",
        BenchKind::Undefined => "Undefined",
        BenchKind::Loop => "Loop",
    }
}

/// The line of a refused netlist: where, and why.
pub fn say_netlist<E: Sink>(err: &mut E, refusal: &BenchRefusal)
    ensures { IsSaid E.takes_memory (netlist_line refusal.now) (E.taken err.old) (E.failures err.old) (E.taken err.new) (E.failures err.new) }
{
    let mut digits = Buffer::new();
    let pieces = [
        b"netlist line ".as_slice(),
        digits.format(refusal.line).as_bytes(),
        b": ".as_slice(),
        kind_name(refusal.kind).as_bytes(),
        b"\n".as_slice(),
    ];
    say(err, pieces.as_slice())
}

/// A line that names a file.
pub fn say_name<E: Sink>(err: &mut E, what: &[u8], name: &FileName<'_>)
    ensures { IsSaid E.takes_memory (what.now ++ (file_name_of name.now ++ codes "\n")) (E.taken err.old) (E.failures err.old) (E.taken err.new) (E.failures err.new) }
{
    let pieces = [
        what,
        name.given.as_bytes(),
        name.ending.as_bytes(),
        b"\n".as_slice(),
    ];
    say(err, pieces.as_slice())
}

/// The line of a failed write.
pub fn say_failed_write<E: Sink>(err: &mut E, failure: &WriteFailure<'_>)
    ensures { IsSaid E.takes_memory (failure_line failure.now) (E.taken err.old) (E.failures err.old) (E.taken err.new) (E.failures err.new) }
{
    match failure {
        WriteFailure::File(name) => say_name(err, b"write failed: ", name),
        WriteFailure::Output => say_text(err, b"write failed: -\n"),
    }
}
