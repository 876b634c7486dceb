//! The lines of `run` and `sweep`, shown so that they don't tell which tests a search has found.
use crate::showing::Cycles;
use case_text::{Said, cut, show};

/// The number behind a word; 0 where there is none.
fn number_of(text: &str, word: &str) -> u64 {
    let mut is_next = false;
    for told in text.split_whitespace() {
        if is_next {
            return told.parse().unwrap_or(0);
        }
        is_next = told == word;
    }
    0
}

/// Whether a text says as many cycles as are expected for the patterns that it says.
fn is_by_patterns(text: &str, cycles: &Cycles) -> bool {
    match number_of(text, "patterns").checked_mul(cycles.each) {
        Some(product) => product.checked_add(cycles.more) == Some(number_of(text, "cycles")),
        None => false,
    }
}

/// Adds how many faults have a verdict.
fn push_verdicts(to: &mut Said, text: &str) {
    let sum = number_of(text, "detected")
        .saturating_add(number_of(text, "redundant"))
        .saturating_add(number_of(text, "aborted"));
    to.push_count("|detected, redundant or aborted ", sum);
}

/// Adds a line with the number of cycles, by that of patterns.
pub fn push_cycles(to: &mut Said, bytes: &[u8], cycles: &Cycles) {
    if is_by_patterns(str::from_utf8(bytes).unwrap_or(""), cycles) {
        to.push("|cycles ");
        to.push_number(cycles.each);
        to.push_count("P + ", cycles.more);
    } else {
        to.push("|other cycles\n");
    }
}

/// Adds the lines of `sweep`: in place of those with the verdicts how many faults have one, and the cycles by the number P of patterns.
pub fn push_sweep(to: &mut Said, bytes: &[u8], cycles: &Cycles) {
    let Ok(text) = str::from_utf8(bytes) else {
        return show(to, bytes);
    };
    for line in text.lines() {
        match cut(line).0 {
            "detected" | "redundant" | "patterns" => {}
            "aborted" => push_verdicts(to, text),
            "cycles" => push_cycles(to, bytes, cycles),
            _ => {
                to.push("|");
                to.push_line(line);
            }
        }
    }
}
