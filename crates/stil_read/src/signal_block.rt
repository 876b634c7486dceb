//! The block of signals.
ghost use Rattle.std.specs.Prelude.{◌≡◌, ◌≢◌, ◌++◌, ℕ, List, IfOk, MatchOption};
ghost use Rattle.statement.specs.Benches.{Text};
ghost use Rattle.stil_read.specs.Tokens.{Token as Piece, tokens};
ghost use Rattle.stil_read.specs.inner.Grammar.{AreDeclared, clock_tokens};

use crate::expected::expect;
use crate::signals::signals;
use std::alloc::{AllocError, Global};
use stil_write::Texts;

/// The signals that a file declares, of scan inputs and the clock alone how many chains they are for.
#[derive(Drop)]
pub(crate) struct Declared {
    pub(crate) pi: Texts,
    pub(crate) chains: usize,
    pub(crate) po: Texts,
}

/// The bytes behind the clock's line, which stands there where there are chains.
fn behind_clock(chains: usize, bytes: &[u8]) -> Option<&[u8]>
    ensures { MatchOption result ((ts : List Piece) → tokens bytes.now ≢ clock_tokens chains ++ ts) (λ rest. tokens bytes.now ≡ clock_tokens chains ++ tokens rest.now) }
{
    if chains == 0 {
        return Some(bytes);
    }
    expect(b"\"SC__ck\" In;", bytes)
}

/// The signals, if they are declared, and the bytes behind the outputs.
pub(crate) fn signal_block<'a>(
    alloc: Global,
    bytes: &'a [u8],
) -> Result<Option<(Declared, &'a [u8])>, AllocError>
    ensures { IfOk result (λ o. MatchOption o ((pi : List Text) (chains : ℕ) (po : List Text) (rest : List Piece) → AreDeclared (tokens bytes.now) pi chains po rest → ⊥)
        (λ p. AreDeclared (tokens bytes.now) p.0.pi p.0.chains p.0.po (tokens p.1.now))) }
{
    let Some(inner) = expect(
        b"STIL 1.0;\nHeader {\n  Title \"full scan test\";\n}\nSignals {\n",
        bytes,
    ) else {
        return Ok(None);
    };
    let (pi, after) = signals(alloc, b" In;\n", inner)?;
    let (names, behind) = signals(alloc, b" In { ScanIn; }\n", after)?;
    let chains = names.len();
    let Some(outputs) = behind_clock(chains, behind) else {
        return Ok(None);
    };
    let (po, rest) = signals(alloc, b" Out;\n", outputs)?;
    Ok(Some((Declared { pi, chains, po }, rest)))
}
