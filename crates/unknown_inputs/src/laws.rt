//! What the opened netlist promises, as laws over the definitions.
ghost use Rattle.unknown_inputs.specs.Laws.{OpenedIsSound, OpenedHasLines, OpenedKeepsNames, OpenedAllows, OpenedTellsTheTruth, HeldUnknownIsUntold};

/// The opened netlist meets every condition of a netlist.
pub fn opened_is_sound()
    ensures { OpenedIsSound }
{}

/// A line of the netlist stands in the opened one.
pub fn opened_has_lines()
    ensures { OpenedHasLines }
{}

/// Names move along with their signals.
pub fn opened_keeps_names()
    ensures { OpenedKeepsNames }
{}

/// What three-valued play shows on the opened netlist allows what the netlist shows, whatever the unknown inputs have.
pub fn opened_allows()
    ensures { OpenedAllows }
{}

/// What the player answers of the opened netlist holds of the netlist, whatever the unknown inputs have.
pub fn opened_tells_the_truth()
    ensures { OpenedTellsTheTruth }
{}

/// A fault that nothing tells while the unknown inputs have 0 fails no test of known bits.
pub fn held_unknown_is_untold()
    ensures { HeldUnknownIsUntold }
{}
