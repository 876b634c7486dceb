//! Goals of texts.
use case_text::{cut, number, small};
use list_core::Goal;
use std::alloc::{AllocError, Global};

/// `ENOUGH WEIGHTS`: how much is enough, and what each class counts, from the first on.
pub fn goal_of(alloc: Global, text: &str) -> Result<Goal, AllocError> {
    let (enough, counts) = cut(text);
    let mut weights = Vec::new(alloc);
    for count in counts.split(' ') {
        weights.push(small(count))?;
    }
    Ok(Goal {
        weights,
        enough: number(enough),
    })
}

/// No goal where there is no text.
pub fn goal_if_any(alloc: Global, text: &str) -> Result<Option<Goal>, AllocError> {
    if text.is_empty() {
        return Ok(None);
    }
    Ok(Some(goal_of(alloc, text)?))
}
