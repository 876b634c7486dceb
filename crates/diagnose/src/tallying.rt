//! How many strobes of each class contradict a log, in batches of 128.
ghost use Rattle.std.specs.Prelude.{◌≡◌, ◌<◌, ◌≤◌, ◌+◌, IfOk, drop, length, take};
ghost use Rattle.diagnose.specs.inner.Plays.{AreTalliesIn};

use crate::against::Against;
use crate::plays::Play;
use lane_play::{Counts, count_lanes};
use netlist::{Fault, NoMemory};
use outside::{Gate, Stage};

/// The next 128 suspects, or as many as there are.
fn batch_at(suspects: &[Fault], start: usize) -> &[Fault]
    requires { start ≤ length suspects.now }
    ensures batch { result.now ≡ take 128 (drop start suspects.now) }
    ensures few { length result.now ≤ 128 }
{
    let count = (suspects.len() - start).min(128);
    &suspects[start..start + count]
}

/// Plays the 128 suspects from one on, or as many as there are, to the end, and adds their counts.
fn tally_batch(play: &Play<'_>, start: usize, tallies: Counts) -> Result<Counts, NoMemory>
    requires start { start < length play.now.suspects.now }
    requires old { AreTalliesIn play.now (take start play.now.suspects.now) tallies.one.items tallies.other.items }
    ensures { IfOk result (λ t. AreTalliesIn play.now (take (start + 128) play.now.suspects.now) t.one.items t.other.items) }
{
    let batch = batch_at(play.suspects, start);
    let against = Against { marks: play.marks };
    let counts = count_lanes(play.alloc, play.core, batch, play.vectors, &against)?;
    let Counts { mut one, mut other } = tallies;
    one.extend_from_slice(&counts.one)?;
    other.extend_from_slice(&counts.other)?;
    Ok(Counts { one, other })
}

/// What is passed once so many suspects more were played. None of them ends before the others.
fn tallied(left: usize) -> Stage {
    Stage::Answered {
        count: left.min(128) as u64,
        detected: 0,
    }
}

/// The counts of all suspects.
pub(crate) fn tallies<G: Gate>(play: &Play<'_>, stage: &G) -> Result<Counts, NoMemory>
    ensures { IfOk result (λ t. AreTalliesIn play.now play.now.suspects.now t.one.items t.other.items) }
{
    let mut tallies = Counts {
        one: Vec::new(play.alloc),
        other: Vec::new(play.alloc),
    };
    for batch in 0..play.suspects.len().div_ceil(128) {
        let start = batch * 128;
        tallies = tally_batch(play, start, tallies)?;
        stage.at(0, tallied(play.suspects.len() - start));
    }
    Ok(tallies)
}
