//! Lines, faults and kinds of gates by their names.
use case_nets::signal;
use case_text::cut;
use netlist::{Fault, Kind, Line, Netlist};

/// The line of a text, whether or not it branches.
pub fn line_named(netlist: &Netlist, text: &str) -> Option<Line> {
    let (word, rest) = cut(text);
    match word {
        "stem" => Some(Line::Stem(signal(netlist, rest)?)),
        "out" => Some(Line::Out(signal(netlist, rest)?)),
        "pin" => {
            let (name, place) = cut(rest);
            Some(Line::Pin(signal(netlist, name)?, place.parse().ok()?))
        }
        _ => None,
    }
}

/// The fault of a text, at any line.
pub fn stuck(netlist: &Netlist, text: &str) -> Option<Fault> {
    let (line, value) = text.split_once('/')?;
    Some(Fault {
        line: line_named(netlist, line)?,
        value: value == "1",
    })
}

pub fn word_of(kind: Kind) -> &'static str {
    match kind {
        Kind::And => "AND",
        Kind::Nand => "NAND",
        Kind::Or => "OR",
        Kind::Nor => "NOR",
        Kind::Xor => "XOR",
        Kind::Xnor => "XNOR",
        Kind::Not => "NOT",
        Kind::Buff => "BUFF",
        Kind::Dff => "DFF",
        Kind::Const0 => "CONST0",
        Kind::Const1 => "CONST1",
    }
}

const KINDS: [Kind; 11] = [
    Kind::And,
    Kind::Nand,
    Kind::Or,
    Kind::Nor,
    Kind::Xor,
    Kind::Xnor,
    Kind::Not,
    Kind::Buff,
    Kind::Dff,
    Kind::Const0,
    Kind::Const1,
];

pub fn kind_of(word: &str) -> Option<Kind> {
    for kind in &KINDS {
        if word_of(*kind) == word {
            return Some(*kind);
        }
    }
    None
}
