//! Why five texts are not checked.

use bench_text::BenchRefusal;

/// The first text that is outside its grammar. That of the scanned netlist has none of its own.
#[derive(Clone, Copy)]
pub enum CheckRefusal {
    Netlist(BenchRefusal),
    NotStil,
    NotCertificate,
    NotReport,
}
