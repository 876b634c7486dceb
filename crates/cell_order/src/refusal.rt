//! Why a text is no order of a netlist's cells.

/// The first cause, in this order. Names and cells are counted from 1.
#[derive(Clone, Copy, PartialEq, Eq)]
pub enum OrderRefusal {
    /// The text is outside its grammar.
    NotOrder,
    /// The name of this number is no cell's.
    NotCell(usize),
    /// The name of this number stands for the second time.
    Twice(usize),
    /// The netlist's cell of this number has no place.
    LeftOut(usize),
    /// There are more chains than may be asked for.
    TooMany,
    /// A chain is two cells longer than another, or longer than one before it.
    Uneven,
}

/// Why there is no order.
#[derive(Clone, Copy)]
pub enum OrderFault {
    Refused(OrderRefusal),
    NoMemory,
}
