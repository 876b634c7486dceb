//! Why the texts that a command reads, or the fault that its words name, are refused.

use bench_text::BenchRefusal;
use cell_order::OrderRefusal;

/// Why a command is refused, once its words are taken and its files are read.
#[derive(Clone, Copy)]
pub enum Refusal {
    /// The netlist is outside its grammar, or none.
    Netlist(BenchRefusal),
    /// The order is none of the netlist's cells.
    Order(OrderRefusal),
    /// The netlist has no fault of the given text.
    NoSuchFault,
    /// The held input at this place of the list is no input of the netlist.
    NoSuchInput(usize),
    NotStil,
    NotCertificate,
    NotReport,
    NotLog,
    /// The line of this number, from 1, of the list of faults is no fault's text.
    NoFaultAt(usize),
    /// The STIL file's signals are not those of the netlist.
    StilDoesNotFit,
}
