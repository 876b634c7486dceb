//! The steps of a refutation, shown as a certificate has them by this program alone: what is read is seen.
use case_text::Said;
use refutation::{Literal, Move, Reason, Step};

fn push_literal(to: &mut Said, literal: &Literal) {
    let pairs = literal.pairs;
    to.push_number(u64::from(literal.signal.0));
    to.push(":");
    to.push_bits(&[pairs.zero, pairs.rises, pairs.falls, pairs.one]);
    to.push(" ");
}

fn push_reason(to: &mut Said, reason: &Reason) {
    match reason {
        Reason::Gate(gate) => {
            to.push("=");
            to.push_number(u64::from(gate.0));
        }
        Reason::Lemma(step) => {
            to.push("*");
            to.push_number(u64::from(*step));
        }
        Reason::Way => to.push("!"),
        Reason::Gates => to.push("~"),
    }
    to.push(" ");
}

fn push_moves(to: &mut Said, moves: &[Move]) {
    for item in moves {
        match item {
            Move::Imply(implied) => {
                push_literal(to, &implied.literal);
                push_reason(to, &implied.reason);
            }
            Move::Sweep => to.push("~ "),
        }
    }
}

fn push_step(to: &mut Said, step: &Step) {
    to.push(" ( ");
    for literal in step.clause() {
        push_literal(to, literal);
    }
    to.push("; ");
    push_moves(to, step.moves());
    to.push("; ");
    push_reason(to, step.last());
    to.push(")");
}

/// Adds the steps, and ends the line.
pub fn push_refutation(to: &mut Said, steps: &[Step]) {
    to.push(" R");
    for step in steps {
        push_step(to, step);
    }
    to.push("\n");
}
