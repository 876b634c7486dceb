//! The forms of words: which characters, and how many.
ghost use Rattle.std.specs.Prelude.{◌≡◌, ◌<◌, ◌++◌, IfOk, OnOk, MatchBool, length, replicate};
ghost use Rattle.std.specs.List.{AllZip};
ghost use Rattle.stil_write.specs.Parts.{file_of};
ghost use Rattle.stil_write.specs.StilFiles.{IsWord, call_forms, is_value, item_at, vector_forms, words_of};
ghost use Rattle.statement.specs.Stils.{where_chained};

use crate::items::Items;
use crate::parts::StilParts;
use std::alloc::{AllocError, Global};

/// What the characters of a word stand for.
#[derive(Clone, Copy, PartialEq, Eq)]
pub enum CharKind {
    Bits,
    Pulses,
    Strobes,
}

/// The characters of a word and their number.
#[derive(Clone, Copy, PartialEq, Eq)]
pub struct Form {
    pub values: CharKind,
    pub size: usize,
}

/// Whether a character stands for a value of this kind.
fn is_value(values: CharKind, b: u8) -> bool
    ensures { result ≡ is_value values b }
{
    match values {
        CharKind::Bits => b == b'0' || b == b'1',
        CharKind::Pulses => b == b'0' || b == b'P',
        CharKind::Strobes => b == b'H' || b == b'L' || b == b'X',
    }
}

pub(crate) fn is_word(form: Form, word: &[u8]) -> bool
    ensures { MatchBool result (IsWord form word.now) (IsWord form word.now → ⊥) }
{
    if word.len() != form.size {
        return false;
    }
    for b in word {
        if !is_value(form.values, *b) {
            return false;
        }
    }
    true
}

/// Whether the words of an item have these forms.
pub(crate) fn are_words(forms: &[Form], items: &Items, place: usize) -> bool
    requires { place < length items.now }
    ensures { MatchBool result (AllZip IsWord forms.now (words_of (item_at items.now place))) (AllZip IsWord forms.now (words_of (item_at items.now place)) → ⊥) }
{
    if items.word_count(place) != forms.len() {
        return false;
    }
    for (k, form) in forms.iter().enumerate() {
        if !is_word(*form, items.word(place, k)) {
            return false;
        }
    }
    true
}

/// Adds so many copies of a form.
fn push_copies(forms: &mut Vec<Form>, count: usize, form: Form) -> Result<(), AllocError>
    ensures { OnOk result (forms.new.items ≡ forms.old.items ++ replicate count form) }
{
    for _ in 0..count {
        forms.push(form)?;
    }
    Ok(())
}

/// The forms of the words of a call that shifts so often, in place of other forms.
pub(crate) fn set_call_forms(
    forms: &mut Vec<Form>,
    chains: usize,
    size: usize,
) -> Result<(), AllocError>
    ensures { OnOk result (forms.new.items ≡ call_forms chains size) }
{
    forms.clear();
    push_copies(
        forms,
        chains,
        Form {
            values: CharKind::Bits,
            size,
        },
    )?;
    push_copies(
        forms,
        chains,
        Form {
            values: CharKind::Strobes,
            size,
        },
    )
}

/// The forms of a vector's words.
pub(crate) fn vector_forms(alloc: Global, parts: &StilParts) -> Result<Vec<Form>, AllocError>
    ensures { IfOk result (λ v. v.items ≡ vector_forms (file_of parts.now)) }
{
    let chains = parts.chains.len();
    let bit = Form {
        values: CharKind::Bits,
        size: 1,
    };
    let pulse = Form {
        values: CharKind::Pulses,
        size: 1,
    };
    let strobe = Form {
        values: CharKind::Strobes,
        size: 1,
    };
    let mut forms = Vec::new(alloc);
    forms.push(Form {
        size: parts.pi.len(),
        ..bit
    })?;
    push_copies(&mut forms, chains, bit)?;
    push_copies(&mut forms, chains.min(1), pulse)?;
    forms.push(Form {
        size: parts.po.len(),
        ..strobe
    })?;
    push_copies(&mut forms, chains, strobe)?;
    Ok(forms)
}
