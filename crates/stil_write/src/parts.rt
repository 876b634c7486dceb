//! The value of a STIL file.
ghost use Rattle.std.specs.Prelude.{◌≡◌};
ghost use Rattle.stil_write.specs.Parts.{file_of};
ghost use Rattle.stil_write.specs.StilFiles.{IsStilFile};

use crate::items::Items;
use plain_text::Texts;
use std::marker::Model;

/// What a block takes beside names, and what a name takes beside its bytes.
const BLOCK_ROOM: usize = 2000;

const NAME_ROOM: usize = 20;

/// The parts of a file, which may be those of none.
#[derive(Drop)]
pub struct StilParts {
    pub pi: Texts,
    pub po: Texts,
    pub chains: Vec<Texts>,
    pub shift_word: Vec<u8>,
    pub items: Items,
}

/// A STIL file: signals, chains, and a pattern of calls and vectors.
#[derive(Drop)]
pub struct StilFile {
    parts: StilParts,
}

impl Model for StilFile {
    ghost use Rattle.statement.specs.Stils.{StilFile};
    ghost use Rattle.stil_write.specs.StilFiles.{IsStilFile};

    ghost Value = { StilFile };

    ghost use Rattle.stil_write.specs.Parts.{file_of};

    ghost view = { λ f. file_of f.parts };

    ghost invariant = { λ f. IsStilFile (file_of f.parts) };
}

impl StilFile {
    /// The file of its parts; `StilParts::is_file` says whether there is one.
    pub fn new(parts: StilParts) -> StilFile
        requires { IsStilFile (file_of parts) }
        ensures { result ≡ file_of parts }
    {
        StilFile { parts }
    }

    /// What every file is.
    pub fn sound(&self)
        ensures { IsStilFile self.now }
    {
        let _ = &self.parts;
    }

    /// The names of the inputs but scan inputs and the clock.
    pub fn pi(&self) -> &Texts
        ensures { result.now ≡ self.now.pi }
    {
        &self.parts.pi
    }

    /// The names of the outputs but scan outputs.
    pub fn po(&self) -> &Texts
        ensures { result.now ≡ self.now.po }
    {
        &self.parts.po
    }

    /// The names of each chain's cells, from scan in to scan out.
    pub fn chains(&self) -> &[Texts]
        ensures { result.now ≡ self.now.chains }
    {
        &self.parts.chains
    }

    /// What the inputs have while the chains shift.
    pub fn shift_word(&self) -> &[u8]
        ensures { result.now ≡ self.now.shift_word }
    {
        &self.parts.shift_word
    }

    /// Room that the text will do with, mostly.
    pub(crate) fn text_room(&self) -> usize {
        let mut room = self
            .parts
            .pi
            .byte_count()
            .saturating_add(self.parts.po.byte_count());
        for chain in &self.parts.chains {
            room = room
                .saturating_add(chain.byte_count())
                .saturating_add(BLOCK_ROOM)
                .saturating_add(chain.len().saturating_mul(NAME_ROOM));
        }
        let names = self.parts.pi.len().saturating_add(self.parts.po.len());
        room = room
            .saturating_mul(2)
            .saturating_add(names.saturating_mul(NAME_ROOM))
            .saturating_add(BLOCK_ROOM);
        self.parts.items.text_room().saturating_add(room)
    }

    /// The calls and vectors.
    pub fn items(&self) -> &Items
        ensures { result.now ≡ self.now.items }
    {
        &self.parts.items
    }
}
