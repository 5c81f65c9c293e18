//! Numbers that look random, the same for the same seed.

/// A generator of numbers by SplitMix64 (Steele, Lea and Flood, 2014).
#[derive(Drop)]
pub(crate) struct Rng {
    at: u64,
}

impl Rng {
    /// A generator; each seed gives other numbers.
    pub(crate) fn new(seed: u64) -> Rng {
        Rng { at: seed }
    }

    /// The next 64 bits.
    pub(crate) fn bits(&mut self) -> u64 {
        self.at = self.at.wrapping_add(0x9e37_79b9_7f4a_7c15);
        let mixed = (self.at ^ (self.at >> 30)).wrapping_mul(0xbf58_476d_1ce4_e5b9);
        let mixed = (mixed ^ (mixed >> 27)).wrapping_mul(0x94d0_49bb_1331_11eb);
        mixed ^ (mixed >> 31)
    }

    /// A number below `sides`, or 0 if `sides` is 0.
    pub(crate) fn below(&mut self, sides: u64) -> u64 {
        (self.bits() >> 11).checked_rem(sides).unwrap_or(0)
    }
}
