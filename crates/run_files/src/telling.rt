//! Verdicts by the last pattern that detects each fault.
ghost use Rattle.std.specs.Prelude.{◌≡◌, ◌<◌, length, slice_set, vec_len};
ghost use Rattle.list_core.specs.Verdicts.{verdict_at};
ghost use Rattle.run_files.specs.inner.Often.{AreTold, told_verdict};

use list_core::Verdict;
use netlist::Point;

/// Tells a fault by the last pattern that detects it, if one does.
fn tell_one(verdicts: &mut Vec<Verdict>, class: usize, known: &Option<(u32, Point)>)
    requires { class < vec_len verdicts.old }
    ensures size { vec_len verdicts.new ≡ vec_len verdicts.old }
    ensures told { verdicts.new.items ≡ slice_set verdicts.old.items class (told_verdict known.now (verdict_at verdicts.old.items class)) }
{
    if let Some((place, point)) = known {
        verdicts[class] = Verdict::Detected(*place, *point);
    }
}

/// Tells each fault by the last pattern that detects it. Where none does its verdict stays.
pub(crate) fn tell(verdicts: &mut Vec<Verdict>, last: &[Option<(u32, Point)>])
    requires { length last.now ≡ vec_len verdicts.old }
    ensures { AreTold last.now verdicts.old.items verdicts.new.items }
{
    for (class, known) in last.iter().enumerate() {
        tell_one(verdicts, class, known);
    }
}
