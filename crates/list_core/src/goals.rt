//! How much is to be detected.
ghost use Rattle.std.specs.Prelude.{◌≡◌, ◌<◌, ◌≤◌, ◌↔◌, ◌^◌, IsTrue, length};
ghost use Rattle.list_core.specs.Enough.{IsEnough, detected_weight};

use crate::verdicts::Verdict;

/// What the detection of each class counts, and how much is enough.
#[derive(Drop)]
pub struct Goal {
    pub weights: Vec<u32>,
    pub enough: u64,
}

/// What the classes that are detected count together.
pub(crate) fn detected_weight_of(weights: &[u32], verdicts: &[Verdict]) -> u64
    requires { length verdicts.now < 2 ^ 31 }
    ensures { result ≡ detected_weight weights.now verdicts.now }
{
    let mut weight = 0u64;
    for (class, verdict) in weights.iter().zip(verdicts) {
        if let Verdict::Detected(_, _) = verdict {
            weight += *class as u64;
        }
    }
    weight
}
