//! The law of the round trip: a function that does nothing, whose contract is the law.

ghost use Rattle.bench_text.specs.Laws.{CanonicalTextIsRead};

/// What is written of a netlist is read again as that netlist, where the reading allows its names and its size.
pub fn canonical_text_is_read()
    ensures { CanonicalTextIsRead }
{}
