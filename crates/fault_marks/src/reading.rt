//! A list of faults from its text.
ghost use Rattle.std.specs.Prelude.{◌≡◌, MatchResult};
ghost use Rattle.bench_text.specs.Bytes.{lines};
ghost use Rattle.statement.specs.Faults.{universe_of};
ghost use Rattle.fault_marks.specs.Marks.{AreMarks, AreRefused};

use crate::marking::marks_of;
use crate::named_lines::named_lines;
use crate::refusal::MarksRefusal;
use fault_universe::FaultSet;
use name_index::NameIndex;
use netlist::Netlist;
use std::alloc::Global;

/// For each fault of the netlist whether some line of the text names it. `faults` is all faults of the netlist.
pub fn read_marks<'a>(
    alloc: Global,
    netlist: &Netlist,
    faults: &FaultSet,
    text: &'a [u8],
) -> Result<Vec<bool>, MarksRefusal<'a>>
    requires { faults.now ≡ universe_of netlist.now }
    ensures { MatchResult result (λ marks. AreMarks netlist.now (lines text.now) marks.items) (AreRefused netlist.now (lines text.now)) }
{
    let Ok(names) = NameIndex::of(alloc, netlist) else {
        return Err(MarksRefusal::NoMemory);
    };
    let lines = named_lines(alloc, &names, text)?;
    match marks_of(alloc, netlist, faults, &lines) {
        Ok(marks) => Ok(marks),
        Err(_) => Err(MarksRefusal::NoMemory),
    }
}
