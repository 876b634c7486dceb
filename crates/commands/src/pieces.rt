//! A text that is put on a sink in pieces, so that it needs no memory of its own.
ghost use Rattle.std.specs.Prelude.{◌≡◌, Err, IsTrue};
ghost use Rattle.commands.specs.Pieces.{PutsText, join};

use outside::{Sink, WriteRefusal};

/// Puts these pieces one after another, up to the first that the sink doesn't take.
pub fn put_pieces<T: Sink>(out: &mut T, pieces: &[&[u8]]) -> Result<(), WriteRefusal>
    ensures told { PutsText (T.taken out.old) (T.failures out.old) (T.taken out.new) (T.failures out.new) (join pieces.now) result }
    ensures memory { result ≡ Err WriteRefusal.NoMemory → IsTrue T.takes_memory }
{
    for piece in pieces {
        out.put(piece)?;
    }
    Ok(())
}
