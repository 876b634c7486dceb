//! Items, so many at a time.
ghost use Rattle.std.specs.Prelude.{◌≡◌, ◌≤◌, drop, length, take};

/// The items from a place on, so many of them or as many as there are.
pub(crate) fn batch_at<T>(items: &[T], start: usize, most: usize) -> &[T]
    requires { start ≤ length items.now }
    ensures { result.now ≡ take most (drop start items.now) }
{
    let count = (items.len() - start).min(most);
    &items[start..start + count]
}
