//! Marks at places, and what stands at the marked ones.
ghost use Rattle.std.specs.Prelude.{◌≡◌, ◌+◌, ◌<◌, ◌≤◌, ◌^◌, ◌++◌, ◌∷◌, [], ℕ, false, cond, IfOk, OnOk, length, slice_index, slice_index_or, vec_len};
ghost use Rattle.list_core.specs.Kept.{kept_from, new_place};

use std::alloc::{AllocError, Global};

/// One more where there is a mark.
fn count_on(count: u32, mark: bool) -> u32
    requires { count + 1 < 2 ^ 32 }
    ensures { result ≡ count + cond mark 1 0 }
{
    if mark { count + 1 } else { count }
}

/// Where each element will stand once only the marked ones are left.
pub fn new_places(alloc: Global, marks: &[bool]) -> Result<Vec<u32>, AllocError>
    requires { length marks.now + 1 < 2 ^ 32 }
    ensures size { IfOk result (λ v. vec_len v ≡ length marks.now) }
    ensures each { IfOk result (λ v. (k : ℕ) → k < length marks.now → slice_index v.items k ≡ new_place (λ i. slice_index_or marks.now i false) k) }
{
    let mut places = Vec::with_capacity(alloc, marks.len())?;
    let mut next = 0u32;
    for mark in marks {
        places.push(next)?;
        next = count_on(next, *mark);
    }
    Ok(places)
}

/// Adds an item where it is marked.
fn push_marked<X: Drop>(left: &mut Vec<X>, item: X, mark: bool) -> Result<(), AllocError>
    ensures { OnOk result (left.new.items ≡ left.old.items ++ cond mark (item ∷ []) []) }
{
    if mark {
        left.push(item)?;
    }
    Ok(())
}

fn is_marked(marks: &[bool], place: usize) -> bool
    ensures { result ≡ slice_index_or marks.now place false }
{
    place < marks.len() && marks[place]
}

/// The elements at the marked places.
pub fn kept<X: Drop>(alloc: Global, items: Vec<X>, marks: &[bool]) -> Result<Vec<X>, AllocError>
    ensures { IfOk result (λ v. v.items ≡ kept_from (λ i. slice_index_or marks.now i false) 0 items.items) }
{
    let mut left = Vec::new(alloc);
    let mut place = 0usize;
    for item in items {
        push_marked(&mut left, item, is_marked(marks, place))?;
        place += 1;
    }
    Ok(left)
}
