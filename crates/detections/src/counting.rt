//! The patterns that detect a fault, counted from the last one on, and those that count marked.
ghost use Rattle.std.specs.Prelude.{◌≡◌, ◌+◌, ◌-◌, ◌<◌, ◌≤◌, ◌&&◌, ◌==◌, nat_lt, true, cond, slice_set, vec_len};
ghost use Rattle.events.specs.Words.{bit_of};
ghost use Rattle.detections.specs.inner.Counting.{CountsWord};

/// One place more: where its pattern detects the fault, and there aren't enough, it counts and is marked.
fn count_one(detects: bool, place: usize, most: u32, times: u32, needed: &mut Vec<bool>) -> u32
    requires { place < vec_len needed.old }
    ensures times { result ≡ cond (detects && nat_lt times most) (times + 1) times }
    ensures needed { needed.new.items ≡ cond (detects && nat_lt times most) (slice_set needed.old.items place true) needed.old.items }
{
    if detects && times < most {
        needed[place] = true;
        times + 1
    } else {
        times
    }
}

fn has_bit(word: u64, j: usize) -> bool
    requires { j < 64 }
    ensures { result ≡ bit_of j word }
{
    (word >> j) % 2 == 1
}

/// Counts the patterns of a word from the last place on, after so many at later places, until there are enough.
pub(crate) fn count_word(
    word: u64,
    start: usize,
    end: usize,
    most: u32,
    times: u32,
    needed: &mut Vec<bool>,
) -> u32
    requires order { start ≤ end }
    requires few { end ≤ start + 64 }
    requires end { end ≤ vec_len needed.old }
    ensures { CountsWord word start end most times needed.old.items 0 result needed.new.items }
{
    let mut count = times;
    for j in (0..end - start).rev() {
        count = count_one(has_bit(word, j), start + j, most, count, needed);
    }
    count
}
