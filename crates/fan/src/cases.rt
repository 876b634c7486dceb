//! What a search is about, with what is read of it over and over. No part of the search changes it, so its functions are handed it as one, and
//! beside it what they change: labels, stack, guide.
use decisions::Case;
use head_lines::Role;

/// A case, the roles that signals have in it, and whether the search looks at both sides of each decision.
#[derive(Clone, Copy)]
pub(crate) struct RoledCase<'a> {
    pub case: Case<'a, 'a>,
    pub roles: &'a [Role],
    pub looks: bool,
}
