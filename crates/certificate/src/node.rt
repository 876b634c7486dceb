//! Nodes of a tree, read from a line.
ghost use Rattle.std.specs.Prelude.{◌≡◌, ◌≢◌, ◌++◌, codes, Bool, MatchOption};
ghost use Rattle.certificate.specs.declared.node.Letter.{Letter};
ghost use Rattle.certificate.specs.inner.Parts.{IsNodeAt, NoNodeAt, bit_word, letter_word};

use crate::word::next_word;
use name_index::NameIndex;
use redundancy_cert::Node;

/// What a node's first word says.
#[derive(Clone, Copy, PartialEq, Eq)]
pub(crate) enum Letter {
    Closed,
    Open,
    Split,
    Forced,
}

/// The letter that is written so.
fn letter_of(word: &[u8]) -> Option<Letter>
    ensures { MatchOption result ((letter : Letter) → word.now ≢ letter_word letter) (λ letter. word.now ≡ letter_word letter) }
{
    match word {
        b"!" => Some(Letter::Closed),
        b"?" => Some(Letter::Open),
        b"S" => Some(Letter::Split),
        b"F" => Some(Letter::Forced),
        _ => None,
    }
}

/// The bit that is written so.
fn bit_of(word: &[u8]) -> Option<bool>
    ensures { MatchOption result ((bit : Bool) → word.now ≢ bit_word bit) (λ bit. word.now ≡ bit_word bit) }
{
    match word {
        b"0" => Some(false),
        b"1" => Some(true),
        _ => None,
    }
}

/// The Split whose name comes behind `S`, and the text behind it.
fn split_at<'a>(names: &NameIndex, text: &'a [u8]) -> Option<(Node, &'a [u8])>
    ensures { MatchOption result (NoNodeAt names.now (codes " S" ++ text.now)) (λ p. IsNodeAt names.now (codes " S" ++ text.now) p.0 p.1.now) }
{
    names.netlist().sound();
    let Some(name) = next_word(text) else {
        return None;
    };
    match names.get(name.0) {
        Some(x) => Some((Node::Split(x), name.1)),
        None => None,
    }
}

/// The Forced whose name and bit come behind `F`, and the text behind them.
fn forced_at<'a>(names: &NameIndex, text: &'a [u8]) -> Option<(Node, &'a [u8])>
    ensures { MatchOption result (NoNodeAt names.now (codes " F" ++ text.now)) (λ p. IsNodeAt names.now (codes " F" ++ text.now) p.0 p.1.now) }
{
    names.netlist().sound();
    let Some(name) = next_word(text) else {
        return None;
    };
    let Some(bit) = next_word(name.1) else {
        return None;
    };
    let Some(value) = bit_of(bit.0) else {
        return None;
    };
    match names.get(name.0) {
        Some(x) => Some((Node::Forced(x, value), bit.1)),
        None => None,
    }
}

/// The node that a text begins with, and the text behind it.
pub(crate) fn node_at<'a>(names: &NameIndex, text: &'a [u8]) -> Option<(Node, &'a [u8])>
    ensures { MatchOption result (NoNodeAt names.now text.now) (λ p. IsNodeAt names.now text.now p.0 p.1.now) }
{
    let Some(word) = next_word(text) else {
        return None;
    };
    let Some(letter) = letter_of(word.0) else {
        return None;
    };
    match letter {
        Letter::Closed => Some((Node::Closed, word.1)),
        Letter::Open => Some((Node::Open, word.1)),
        Letter::Split => split_at(names, word.1),
        Letter::Forced => forced_at(names, word.1),
    }
}
