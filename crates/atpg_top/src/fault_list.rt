//! The list of faults as text: how many faults and classes there are, then each fault with the number of its class.
//! It goes out in pieces, so that it never stands in memory as a whole.
ghost use Rattle.std.specs.Prelude.{◌≡◌, ◌<◌, ◌++◌, IfOk, OnOk, length};
ghost use Rattle.netlist.specs.Designs.{IsDesign};
ghost use Rattle.statement.specs.Netlists.{signals};
ghost use Rattle.statement.specs.Faults.{universe_of};
ghost use Rattle.netlist.specs.Lines.{signal_of};
ghost use Rattle.fault_collapse.specs.Classes.{AreClasses};
ghost use Rattle.atpg_top.specs.FaultLists.{counts_line, listed_fault_line, fault_lines};
ghost use Rattle.commands.specs.Pieces.{PutsText};
ghost use Rattle.atpg_top.specs.inner.Pieces.{PutsFaultList, PutsPiece};

use crate::counts::push_counts;
use command_steps::faults_of;
use fault_collapse::{Classes, collapse};
use fault_universe::{FaultSet, faults_have_signals, push_text};
use itoa::Buffer;
use netlist::{Fault, Netlist, NoMemory};
use outside::{Sink, WriteRefusal};
use std::alloc::{AllocError, Global};

/// The least bytes of a piece but the last.
const PIECE_BYTES: usize = 65_536;

/// Room for a line beside a piece. A design's names have at most 255 bytes, so each of its lines fits,
/// and no memory is asked for once a piece is out.
const LINE_BYTES: usize = 512;

/// Adds the line of a fault.
fn push_fault(
    text: &mut Vec<u8>,
    netlist: &Netlist,
    fault: Fault,
    class: u32,
) -> Result<(), AllocError>
    requires { signal_of fault.line < length (signals netlist.now) }
    ensures { OnOk result (text.new.items ≡ text.old.items ++ listed_fault_line netlist.now fault class) }
{
    push_text(text, netlist, fault)?;
    text.extend_from_slice(b" class ")?;
    text.extend_from_slice(Buffer::new().format(class).as_bytes())?;
    text.extend_from_slice(b"\n")?;
    Ok(())
}

/// Puts the piece on the output and clears it, once it is long enough.
fn put_piece<T: Sink>(out: &mut T, piece: &mut Vec<u8>) -> Result<(), WriteRefusal>
    ensures { PutsPiece (T.taken out.old) (T.failures out.old) (T.taken out.new) (T.failures out.new) piece.old.items piece.new.items result }
{
    if piece.len() < PIECE_BYTES {
        return Ok(());
    }
    out.put(piece.as_slice())?;
    piece.clear();
    Ok(())
}

/// Adds the line of a fault to the piece, which goes out once it is long enough.
fn put_fault<T: Sink>(
    out: &mut T,
    piece: &mut Vec<u8>,
    netlist: &Netlist,
    fault: Fault,
    class: u32,
) -> Result<(), WriteRefusal>
    requires { signal_of fault.line < length (signals netlist.now) }
    ensures { PutsPiece (T.taken out.old) (T.failures out.old) (T.taken out.new) (T.failures out.new)
        (piece.old.items ++ listed_fault_line netlist.now fault class) piece.new.items result }
{
    match push_fault(piece, netlist, fault, class) {
        Ok(()) => put_piece(out, piece),
        Err(_) => Err(WriteRefusal::NoMemory),
    }
}

/// Puts the text and a line for each fault on the output, in pieces. The last may be empty: then it adds nothing.
fn put_faults<T: Sink>(
    out: &mut T,
    text: &mut Vec<u8>,
    netlist: &Netlist,
    faults: &FaultSet,
    classes: &Classes,
) -> Result<(), WriteRefusal>
    requires universe { faults.now ≡ universe_of netlist.now }
    requires size { length classes.now.numbers ≡ length (universe_of netlist.now) }
    ensures { PutsText (T.taken out.old) (T.failures out.old) (T.taken out.new) (T.failures out.new)
        (text.old.items ++ fault_lines netlist.now (universe_of netlist.now) classes.now.numbers) result }
{
    netlist.sound();
    faults_have_signals();
    for i in 0..faults.len() {
        put_fault(out, text, netlist, faults.fault(i), classes.class_of(i))?;
    }
    out.put(text.as_slice())
}

/// Room for a piece, and in it the line that counts faults and classes.
fn begun(alloc: Global, faults: u32, classes: u32) -> Result<Vec<u8>, AllocError>
    ensures { IfOk result (λ text. text.items ≡ counts_line faults classes) }
{
    let mut text = Vec::with_capacity(alloc, PIECE_BYTES + LINE_BYTES)?;
    push_counts(
        &mut text,
        b"faults ",
        u64::from(faults),
        b" classes ",
        u64::from(classes),
    )?;
    Ok(text)
}

/// Puts the list of a design's faults on the output, in pieces through one buffer.
/// After want of memory a part of it may stand there.
pub fn put_fault_list<T: Sink>(
    alloc: Global,
    out: &mut T,
    netlist: &Netlist,
) -> Result<(), WriteRefusal>
    requires { IsDesign netlist.now }
    ensures { PutsFaultList netlist.now (T.taken out.old) (T.failures out.old) (T.taken out.new) (T.failures out.new) result }
{
    let Ok(faults) = faults_of(alloc, netlist) else {
        return Err(WriteRefusal::NoMemory);
    };
    let Ok(classes) = collapse(alloc, netlist, &faults) else {
        return Err(WriteRefusal::NoMemory);
    };
    let Ok(mut text) = begun(alloc, faults.len(), classes.count()) else {
        return Err(WriteRefusal::NoMemory);
    };
    put_faults(out, &mut text, netlist, &faults, &classes)
}
