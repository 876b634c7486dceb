//! Steps as text.
ghost use Rattle.std.specs.Prelude.{◌≡◌, ◌∷◌, ◌++◌, [], codes, decimal, OnOk};
ghost use Rattle.std.specs.List.{All, flat_map};
ghost use Rattle.refutation_text.specs.Texts.{bit_byte, implied_text, literal_text, move_text, pairs_text, reason_text, step_text, text_of, IsImplied, IsLiteral, IsMove, IsReason, IsStep};
ghost use Rattle.refutation_text.specs.inner.Parts.{AreReasons};

use itoa::Buffer;
use refutation::{Implied, Literal, Move, Pairs, Reason, Step};
use std::alloc::AllocError;

fn bit_byte(bit: bool) -> u8
    ensures { result ≡ bit_byte bit }
{
    if bit { b'1' } else { b'0' }
}

fn push_pairs(text: &mut Vec<u8>, pairs: Pairs) -> Result<(), AllocError>
    ensures { OnOk result (text.new.items ≡ text.old.items ++ pairs_text pairs) }
{
    let bytes = [
        bit_byte(pairs.zero),
        bit_byte(pairs.rises),
        bit_byte(pairs.falls),
        bit_byte(pairs.one),
        b' ',
    ];
    text.extend_from_slice(&bytes)
}

/// Adds a number.
fn push_number(text: &mut Vec<u8>, number: u32) -> Result<(), AllocError>
    ensures { OnOk result (text.new.items ≡ text.old.items ++ decimal number) }
{
    text.extend_from_slice(Buffer::new().format(number).as_bytes())
}

fn push_literal(text: &mut Vec<u8>, literal: &Literal) -> Result<(), AllocError>
    ensures text { OnOk result (text.new.items ≡ text.old.items ++ literal_text literal.now) }
    ensures within { OnOk result (IsLiteral literal.now) }
{
    push_number(text, literal.signal.0)?;
    text.extend_from_slice(b":")?;
    push_pairs(text, literal.pairs)
}

fn push_reason(text: &mut Vec<u8>, reason: &Reason) -> Result<(), AllocError>
    ensures text { OnOk result (text.new.items ≡ text.old.items ++ reason_text reason.now) }
    ensures within { OnOk result (IsReason reason.now) }
{
    match reason {
        Reason::Gate(x) => {
            text.extend_from_slice(b"=")?;
            push_number(text, x.0)?;
            text.extend_from_slice(b" ")
        }
        Reason::Lemma(k) => {
            text.extend_from_slice(b"*")?;
            push_number(text, *k)?;
            text.extend_from_slice(b" ")
        }
        Reason::Way => text.extend_from_slice(b"! "),
        Reason::Gates => text.extend_from_slice(b"~ "),
    }
}

fn push_implied(text: &mut Vec<u8>, implied: &Implied) -> Result<(), AllocError>
    ensures text { OnOk result (text.new.items ≡ text.old.items ++ implied_text implied.now) }
    ensures within { OnOk result (IsImplied implied.now) }
{
    push_literal(text, &implied.literal)?;
    push_reason(text, &implied.reason)
}

fn push_move(text: &mut Vec<u8>, item: &Move) -> Result<(), AllocError>
    ensures text { OnOk result (text.new.items ≡ text.old.items ++ move_text item.now) }
    ensures within { OnOk result (IsMove item.now) }
{
    match item {
        Move::Imply(implied) => push_implied(text, implied),
        Move::Sweep => text.extend_from_slice(b"~ "),
    }
}

fn push_clause(text: &mut Vec<u8>, literals: &[Literal]) -> Result<(), AllocError>
    ensures text { OnOk result (text.new.items ≡ text.old.items ++ flat_map literal_text literals.now) }
    ensures within { OnOk result (All IsLiteral literals.now) }
{
    for literal in literals {
        push_literal(text, literal)?;
    }
    Ok(())
}

fn push_moves(text: &mut Vec<u8>, moves: &[Move]) -> Result<(), AllocError>
    ensures text { OnOk result (text.new.items ≡ text.old.items ++ flat_map move_text moves.now) }
    ensures within { OnOk result (All IsMove moves.now) }
{
    for item in moves {
        push_move(text, item)?;
    }
    Ok(())
}

/// Adds the moves, and the last reason.
fn push_reasons(text: &mut Vec<u8>, step: &Step) -> Result<(), AllocError>
    ensures text { OnOk result (text.new.items ≡ text.old.items ++ (flat_map move_text step.now.moves ++ (codes "; " ++ (reason_text step.now.last ++ codes ")")))) }
    ensures within { OnOk result (AreReasons (step.now.moves, step.now.last)) }
{
    push_moves(text, step.moves())?;
    text.extend_from_slice(b"; ")?;
    push_reason(text, step.last())?;
    text.extend_from_slice(b")")
}

fn push_step(text: &mut Vec<u8>, step: &Step) -> Result<(), AllocError>
    ensures text { OnOk result (text.new.items ≡ text.old.items ++ step_text step.now) }
    ensures within { OnOk result (IsStep step.now) }
{
    text.extend_from_slice(b" ( ")?;
    push_clause(text, step.clause())?;
    text.extend_from_slice(b"; ")?;
    push_reasons(text, step)
}

/// Adds the text of these steps, in this order, to a text. Where memory is refused, a part of it may have been added.
pub fn push_steps(text: &mut Vec<u8>, steps: &[Step]) -> Result<(), AllocError>
    ensures text { OnOk result (text.new.items ≡ text.old.items ++ text_of steps.now) }
    ensures within { OnOk result (All IsStep steps.now) }
{
    for step in steps {
        push_step(text, step)?;
    }
    Ok(())
}
