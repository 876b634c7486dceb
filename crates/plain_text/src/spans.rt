//! Lists that stand one behind the other in one buffer, by the place where each ends.
ghost use Rattle.std.specs.Prelude.{◌≡◌, ◌<◌, ◌∷◌, length, slice_get, slice_index, Some};
ghost use Rattle.plain_text.specs.Rows.{rows, AreEnds};

/// Where the list at a place begins and ends.
#[inline(always)]
pub fn span(ends: &[usize], place: usize) -> (usize, usize)
    requires { place < length ends.now }
    ensures start { result.0 ≡ slice_index (0 ∷ ends.now) place }
    ensures end { result.1 ≡ slice_index ends.now place }
{
    let start = if place == 0 { 0 } else { ends[place - 1] };
    (start, ends[place])
}

/// The list at a place.
#[inline(always)]
#[tactic(auto, using(crate::proofs::Buffers::begins_before_end, crate::proofs::Buffers::end_within))]
pub fn row<'a, T>(items: &'a [T], ends: &[usize], place: usize) -> &'a [T]
    requires ends { AreEnds 0 items.now ends.now }
    requires within { place < length ends.now }
    ensures { slice_get (rows 0 items.now ends.now) place ≡ Some result.now }
{
    let (start, end) = span(ends, place);
    &items[start..end]
}
