//! A bit for each of 128 machines, in two words of 64 bits.
//!
//! One word of 128 bits would do the same, but the compiler keeps it in registers of 64 bits; two words side by side it keeps in one of 128 (SSE2).
ghost use Rattle.std.specs.Prelude.{◌≡◌, ◌≢◌, ◌<◌, ℕ, true, false};
ghost use Rattle.events.specs.Words.{bit_of};
ghost use Rattle.lane_play.specs.inner.Bits.{all_bits, bit_in, bits_and, bits_not, bits_or, bits_xor, no_bits, put, put_in, with_bit, word_of};

/// The bit of machine k is bit k of `low`, or, from 64 on, bit k - 64 of `high`.
#[derive(Clone, Copy, PartialEq, Eq)]
pub(crate) struct Bits {
    pub low: u64,
    pub high: u64,
}

/// The word's bit at a place.
fn bit(word: u64, j: usize) -> bool
    requires { j < 64 }
    ensures { result ≡ bit_of j word }
{
    (word >> j) % 2 == 1
}

/// The word with this bit at a place.
fn put(bit: bool, j: usize, word: u64) -> u64
    requires { j < 64 }
    ensures { result ≡ put bit j word }
{
    let one = 1u64 << j;
    if bit { word | one } else { word & !one }
}

impl Bits {
    /// No machine's.
    #[inline(always)]
    pub(crate) fn none() -> Bits
        ensures { result ≡ no_bits }
    {
        Bits { low: 0, high: 0 }
    }

    /// Every machine's.
    #[inline(always)]
    pub(crate) fn all() -> Bits
        ensures { result ≡ all_bits }
    {
        Bits {
            low: u64::MAX,
            high: u64::MAX,
        }
    }

    /// Those that are in both.
    #[inline(always)]
    pub(crate) fn and(self, other: Bits) -> Bits
        ensures { result ≡ bits_and self other }
    {
        Bits {
            low: self.low & other.low,
            high: self.high & other.high,
        }
    }

    /// Those that are in either.
    #[inline(always)]
    pub(crate) fn or(self, other: Bits) -> Bits
        ensures { result ≡ bits_or self other }
    {
        Bits {
            low: self.low | other.low,
            high: self.high | other.high,
        }
    }

    /// Those that are in one alone.
    #[inline(always)]
    pub(crate) fn xor(self, other: Bits) -> Bits
        ensures { result ≡ bits_xor self other }
    {
        Bits {
            low: self.low ^ other.low,
            high: self.high ^ other.high,
        }
    }

    /// Those that are not in it.
    #[inline(always)]
    pub(crate) fn opposite(self) -> Bits
        ensures { result ≡ bits_not self }
    {
        self.xor(Bits::all())
    }

    /// Whether no machine's is in it.
    #[inline(always)]
    pub(crate) fn is_none(self) -> bool
        ensures none { result ≡ true → self ≡ no_bits }
        ensures some { result ≡ false → self ≢ no_bits }
    {
        self.low == 0 && self.high == 0
    }

    /// Whether every machine's is in it.
    #[inline(always)]
    pub(crate) fn is_all(self) -> bool
        ensures all { result ≡ true → self ≡ all_bits }
        ensures not_all { result ≡ false → self ≢ all_bits }
    {
        self.low == u64::MAX && self.high == u64::MAX
    }

    /// One of its words.
    fn word(self, i: usize) -> u64
        requires { i < 2 }
        ensures { result ≡ word_of i self }
    {
        if i == 0 { self.low } else { self.high }
    }

    /// The bit of a machine.
    pub(crate) fn has(self, k: usize) -> bool
        requires { k < 128 }
        ensures { result ≡ bit_in k self }
    {
        bit(self.word(k / 64), k % 64)
    }

    /// With this bit at a place of a word.
    fn put_in(self, i: usize, j: usize, bit: bool) -> Bits
        requires { j < 64 }
        ensures { result ≡ put_in i j bit self }
    {
        if i == 0 {
            Bits {
                low: put(bit, j, self.low),
                high: self.high,
            }
        } else {
            Bits {
                low: self.low,
                high: put(bit, j, self.high),
            }
        }
    }

    /// With this bit of a machine.
    pub(crate) fn with(self, k: usize, bit: bool) -> Bits
        requires { k < 128 }
        ensures made { result ≡ with_bit k bit self }
        ensures same { bit_in k result ≡ bit }
        ensures others { (j : ℕ) → j < 128 → j ≢ k → bit_in j result ≡ bit_in j self }
    {
        self.put_in(k / 64, k % 64, bit)
    }
}
