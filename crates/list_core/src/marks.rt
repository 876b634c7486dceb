//! Rows with an entry for each class.
ghost use Rattle.std.specs.Prelude.{◌≡◌, false, replicate, IfOk, vec_len};
ghost use Rattle.list_core.specs.declared.verdicts.Verdict.TheVariants.{Open};

use crate::verdicts::Verdict;
use std::alloc::{AllocError, Global};

pub(crate) fn all_open(alloc: Global, classes: u32) -> Result<Vec<Verdict>, AllocError>
    ensures { IfOk result (λ v. v.items ≡ replicate classes Open) }
{
    let mut verdicts = Vec::with_capacity(alloc, classes as usize)?;
    for _i in 0..classes {
        verdicts.push(Verdict::Open)?;
    }
    Ok(verdicts)
}

pub(crate) fn none_taken(alloc: Global, classes: u32) -> Result<Vec<bool>, AllocError>
    ensures { IfOk result (λ v. v.items ≡ replicate classes false) }
{
    let mut taken = Vec::with_capacity(alloc, classes as usize)?;
    for _i in 0..classes {
        taken.push(false)?;
    }
    Ok(taken)
}
