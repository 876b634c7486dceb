//! The laws of orders: functions that do nothing, whose contracts are the laws.
ghost use Rattle.cell_order.specs.Given.{ChainsAreGiven};
ghost use Rattle.cell_order.specs.Ordered.{OwnOrder};

/// Dealt to so many chains as the text has lines, the cells of an order are in the chains of the text.
pub fn chains_are_given()
    ensures { ChainsAreGiven }
{}

/// In its own order a netlist is what it was.
pub fn own_order()
    ensures { OwnOrder }
{}
