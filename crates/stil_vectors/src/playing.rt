//! Playing a file.
ghost use Rattle.std.specs.Prelude.{◌≡◌, ◌^◌, ◌<◌, ◌≤◌, IfOk, MatchOption, length};
ghost use Rattle.scan_play.specs.Playing.{PlaysAs};
ghost use Rattle.stil_write.specs.StilFiles.{item_at};
ghost use Rattle.statement.specs.Tests.{cycles_of_item, vectors_in};
ghost use Rattle.stil_vectors.specs.Fitting.{FitsNetlist};

use crate::file_vectors::vectors;
use crate::laws::fitting_cycles;
use netlist::{Core, Fault, NoMemory};
use scan_play::{Played, play};
use std::alloc::Global;
use stil_write::{ItemKind, StilFile};

fn cycles_at(file: &StilFile, place: usize) -> usize
    requires { place < length file.now.items }
    ensures { result ≡ length (cycles_of_item file.now (item_at file.now.items place)) }
{
    file.sound();
    let items = file.items();
    match items.kind(place) {
        ItemKind::Call => items.word(place, 0).len(),
        ItemKind::Vector => 1,
    }
}

/// How many cycles a file has; None where there are 2 to the 64 or more.
pub fn cycle_count(file: &StilFile) -> Option<u64>
    ensures { MatchOption result (2 ^ 64 ≤ length (vectors_in file.now)) (λ count. count ≡ length (vectors_in file.now)) }
{
    let mut count: u64 = 0;
    for place in 0..file.items().len() {
        let more = cycles_at(file, place) as u64;
        match count.checked_add(more) {
            Some(sum) => count = sum,
            None => return None,
        }
    }
    Some(count)
}

/// Plays a file on a netlist that it fits, with a line stuck or with none. A file of 2 to the 64 cycles or more is refused as one that memory can't hold.
pub fn play_file(
    alloc: Global,
    core: &Core,
    fault: Option<Fault>,
    file: &StilFile,
) -> Result<Played, NoMemory>
    requires { FitsNetlist file.now core.now }
    ensures { IfOk result (λ played. PlaysAs core.now fault (vectors_in file.now) played) }
{
    file.sound();
    fitting_cycles();
    match cycle_count(file) {
        Some(_) => {}
        None => return Err(NoMemory),
    }
    let vectors = vectors(alloc, file)?;
    play(alloc, core, fault, &vectors)
}
