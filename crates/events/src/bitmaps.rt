//! Sets of numbers as words of 64 bits.
ghost use Rattle.std.specs.Prelude.{◌≡◌, ◌≢◌, ◌<◌, ◌/◌, ℕ, MatchOption, IfOk, IsTrue, length, slice_index};
ghost use Rattle.events.specs.inner.Bitmaps.{has_bit, IsPut, IsTakenOut, IsLeastIn, IsFirstWord, IsSummary, IsSummaryBut};

use std::alloc::{AllocError, Global};

/// Puts a number into the set.
#[inline(always)]
pub(crate) fn put(words: &mut Vec<u64>, place: usize)
    requires { place / 64 < length words.old.items }
    ensures { IsPut words.old.items words.new.items place }
{
    words[place / 64] |= 1u64 << (place % 64);
}

/// Takes a number out of the set.
#[inline(always)]
pub(crate) fn take_out(words: &mut Vec<u64>, place: usize)
    requires { place / 64 < length words.old.items }
    ensures { IsTakenOut words.old.items words.new.items place }
{
    words[place / 64] &= !(1u64 << (place % 64));
}

/// The least number of a word that isn't 0.
#[inline(always)]
pub(crate) fn least_in(words: &[u64], word: usize) -> usize
    requires within { word < length words.now }
    requires some { 0 < slice_index words.now word }
    requires small { word < 1000000 }
    ensures { IsLeastIn words.now word result }
{
    word * 64 + words[word].trailing_zeros() as usize
}

/// The first word that isn't 0.
#[inline(always)]
pub(crate) fn first_word(words: &[u64]) -> Option<usize>
    ensures { MatchOption result ((w : ℕ) → slice_index words.now w ≡ 0) (IsFirstWord words.now) }
{
    for word in 0..words.len() {
        if words[word] != 0 {
            return Some(word);
        }
    }
    None
}

/// Takes the bit of a word out of a summary if the word is 0.
#[inline(always)]
pub(crate) fn sum_up(high: &mut Vec<u64>, low: &[u64], word: usize)
    requires but { IsSummaryBut high.old.items low.now word }
    requires here { IsTrue (has_bit high.old.items word) }
    requires within { word < length low.now }
    requires room { word / 64 < length high.old.items }
    ensures summary { IsSummary high.new.items low.now }
    ensures size { length high.new.items ≡ length high.old.items }
    ensures others { (w : ℕ) → w ≢ (word / 64) → slice_index high.new.items w ≡ slice_index high.old.items w }
{
    if low[word] == 0 {
        take_out(high, word);
    }
}

/// Words without a bit.
pub(crate) fn no_words(alloc: Global, count: usize) -> Result<Vec<u64>, AllocError>
    ensures size { IfOk result (λ v. length v.items ≡ count) }
    ensures none { IfOk result (λ v. (w : ℕ) → slice_index v.items w ≡ 0) }
{
    let mut words = Vec::with_capacity(alloc, count)?;
    for _done in 0..count {
        words.push(0)?;
    }
    Ok(words)
}
