//! Numbers for drawn runs.

/// A fixed sequence of numbers for each seed: the linear congruential generator of Knuth's MMIX.
#[derive(Drop)]
pub(crate) struct Draw {
    pub(crate) state: u64,
}

impl Draw {
    /// The next number, below `bound`.
    pub(crate) fn below(&mut self, bound: usize) -> usize {
        self.state = self
            .state
            .wrapping_mul(6_364_136_223_846_793_005)
            .wrapping_add(1_442_695_040_888_963_407);
        (self.state >> 33) as usize % bound
    }
}
