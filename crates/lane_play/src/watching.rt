//! What is made of what machines show, cycle by cycle.
ghost use Rattle.std.specs.Prelude.{◌≡◌, ◌^◌, ◌<◌, true, IfOk, length};
ghost use Rattle.lane_play.specs.inner.Steps.{Keeping, KeepsOn, StaysKept};

use crate::packed::Lanes;
use netlist::Tri;
use std::alloc::AllocError;

/// Hears what up to 128 machines show in one cycle after the other, beside a judge.
pub(crate) trait Watch<J>: Drop {
    /// With these faults these cycles were heard, behind which the machines' cells hold this.
    ghost kept: { J → Self → Keeping };

    fn hear(
        self,
        judge: &J,
        number: u64,
        strobes: &[Tri],
        shown: &[Lanes],
    ) -> Result<Self, AllocError>
        requires same { length strobes.now ≡ length shown.now }
        requires few { length strobes.now < 2 ^ 32 }
        ensures { IfOk result (λ w. KeepsOn (kept judge.now self) (kept judge.now w) number strobes.now shown.now) };

    /// Whether nothing that may follow makes a difference.
    fn is_done(&self) -> bool
        ensures { result ≡ true → (j : J) → StaysKept (kept j self.now) };
}
