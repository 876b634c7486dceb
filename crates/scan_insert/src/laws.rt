//! What scan insertion promises, as laws over the definitions.
ghost use Rattle.scan_insert.specs.Laws.{BitsMultiplex, ScanBehavesBy, ScanBehaves, NothingAdded, ScannedIsSound};
ghost use Rattle.scan_insert.specs.Named.{ScannedByNames, SitesHaveNames, TesterNamesDiffer};

/// The scanned netlist behaves as the original, with each fault and with none; with scan on its chains shift.
/// It is so for every kind of values whose gates make a multiplexer.
pub fn scan_behaves_by<V>()
    ensures { ScanBehavesBy V }
{}

/// Bits are such values.
pub fn bits_multiplex()
    ensures { BitsMultiplex }
{}

/// The scanned netlist behaves as the original on bits.
pub fn scan_behaves()
    ensures { ScanBehaves }
{}

/// A netlist without cells stays as it is.
pub fn nothing_added()
    ensures { NothingAdded }
{}

/// The scanned netlist of a design has no loop, and meets every other condition of a netlist.
pub fn scanned_is_sound()
    ensures { ScannedIsSound }
{}

/// In names, the scanned netlist has five equations for each cell; the others stay.
pub fn scanned_by_names()
    ensures { ScannedByNames }
{}

/// A line's site has the line's own name, and a cell's pin the name of the gate that lets the captured bit through.
pub fn sites_have_names()
    ensures { SitesHaveNames }
{}

/// The pins of a scanned design have different names.
pub fn tester_names_differ()
    ensures { TesterNamesDiffer }
{}
