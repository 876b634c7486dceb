//! Numbers that look drawn, but depend on fault and signal alone, so that an answer doesn't depend on which searches were before it.
use netlist::{Fault, Line, SignalId};

/// A number whose bits depend on all bits of another one. (The finisher of SplitMix64: Steele, Lea and Flood, Fast splittable pseudorandom
/// number generators, 2014.)
pub fn mixed(number: u64) -> u64 {
    let one = (number ^ (number >> 30)).wrapping_mul(0xbf58_476d_1ce4_e5b9);
    let other = (one ^ (one >> 27)).wrapping_mul(0x94d0_49bb_1331_11eb);
    other ^ (other >> 31)
}

/// A number for a fault: one signal and one pin in 2 to the 32 each, and the stuck value.
pub fn salt_of(fault: &Fault) -> u64 {
    let (signal, place) = match &fault.line {
        Line::Stem(x) => (*x, 0),
        Line::Out(x) => (*x, 1),
        Line::Pin(z, k) => (*z, u64::from(*k).wrapping_add(2)),
    };
    mixed((signal.index() as u64) << 32 ^ place << 1 ^ u64::from(fault.value))
}

/// A number for a signal in a round.
pub fn hash_in(round: u32, salt: u64, signal: SignalId) -> u64 {
    mixed(salt ^ u64::from(round) << 32 ^ signal.index() as u64)
}
