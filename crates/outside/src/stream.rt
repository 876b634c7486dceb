//! Whole reads and writes over a reader and a writer, which take and give a part at a time.
ghost use Rattle.std.specs.Prelude.{◌≢◌, Err, Some};
ghost use Rattle.std.specs.Bool.{OnTrue};
ghost use Rattle.std.specs.Io.KnownBytes.{Appends};
ghost use Rattle.outside.specs.Shelf.{IsWithin, Tells};
ghost use Rattle.outside.specs.inner.Stream.{AppendsPart};
ghost use Rattle.outside.specs.Told.{OnTold};

use crate::ReadRefusal;
use std::alloc::Global;
use std::io::{Read, Write};

/// How many bytes one read asks for.
const PIECE: usize = 4096;

/// All that a reader gives up to its end, where that is at most `max` bytes. Each turn but the last
/// takes at least one byte, so a reader without an end is left after `max + 1` turns at most.
pub(crate) fn read_up_to<F: Read>(
    alloc: Global,
    reader: &mut F,
    max: u64,
) -> Result<Vec<u8>, ReadRefusal>
    ensures told { OnTold (F.remaining reader.old) (λ left. Tells (Some left) max result) }
    ensures within { IsWithin max result }
    ensures found { result ≢ Err ReadRefusal.Missing }
{
    let mut bytes = Vec::new(alloc);
    let mut piece = [0u8; PIECE];
    loop {
        let Ok(count) = reader.read(&mut piece) else {
            return Err(ReadRefusal::Failed);
        };
        if count == 0 {
            return Ok(bytes);
        }
        if bytes.extend_from_slice(&piece[..count]).is_err() {
            return Err(ReadRefusal::NoMemory);
        }
        if bytes.len() as u64 > max {
            return Err(ReadRefusal::TooLong(max + 1));
        }
    }
}

/// Whether a writer took all these bytes. One that takes nothing of what is left has failed.
pub(crate) fn write_whole<F: Write>(writer: &mut F, bytes: &[u8]) -> bool
    ensures whole { OnTrue result (Appends (F.contents writer.old) (F.contents writer.new) bytes.now) }
    ensures part { AppendsPart (F.contents writer.old) (F.contents writer.new) bytes.now }
{
    let mut taken = 0;
    while taken < bytes.len() {
        match writer.write(&bytes[taken..]) {
            Ok(count) if count > 0 => taken += count,
            _ => return false,
        }
    }
    true
}
