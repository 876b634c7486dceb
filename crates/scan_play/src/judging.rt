//! Judges: what is said of what is shown beside what is strobed.
ghost use Rattle.std.specs.Prelude.{◌≡◌, ◌^◌, ◌<◌, ℕ, Option, None, length};
ghost use Rattle.statement.specs.declared.kinds.Tri.{Tri as Value};
ghost use Rattle.statement.specs.declared.kinds.Tri.TheVariants.{X};
ghost use Rattle.scan_play.specs.declared.played.Played.{Played as Said};
ghost use Rattle.scan_play.specs.Judging.{judged_in};
ghost use Rattle.scan_play.specs.inner.Unmet.{unmet_by};

use crate::played::Played;
use netlist::Tri;

/// Says something of a strobe and the value that is shown there, or nothing. A play ends at the first strobe of which something is said.
pub trait Judge {
    ghost says: { Self → ℕ → ℕ → Value → Value → Option Said };

    fn says(&self, cycle: u64, output: u32, strobe: Tri, value: Tri) -> Option<Played>
        ensures { result ≡ says self.now cycle output strobe value };

    /// Nothing is said of what isn't strobed.
    ghost open: { (j : Self) (c o : ℕ) (v : Value) → says j c o X v ≡ None };
}

/// Each strobe has to be known and equal.
#[derive(Clone, Copy)]
pub struct Strict;

impl Judge for Strict {
    ghost use Rattle.std.specs.Prelude.{refl};

    ghost says = { λ _. unmet_by };

    ghost open = { λ j c o v. refl };

    fn says(&self, cycle: u64, output: u32, strobe: Tri, value: Tri) -> Option<Played> {
        match (strobe, value) {
            (Tri::X, _) | (Tri::Zero, Tri::Zero) | (Tri::One, Tri::One) => None,
            (_, Tri::X) => Some(Played::Unknown(cycle, output)),
            (_, _) => Some(Played::Fails(cycle, output)),
        }
    }
}

/// What is first said of a cycle.
pub(crate) fn judged_in<J: Judge>(
    judge: &J,
    cycle: u64,
    strobes: &[Tri],
    values: &[Tri],
) -> Option<Played>
    requires same { length strobes.now ≡ length values.now }
    requires few { length strobes.now < 2 ^ 32 }
    ensures { result ≡ judged_in (J.says judge.now) cycle 0 strobes.now values.now }
{
    for o in 0..strobes.len() {
        let found = judge.says(cycle, o as u32, strobes[o], values[o]);
        if found.is_some() {
            return found;
        }
    }
    None
}
