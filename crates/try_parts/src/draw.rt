//! Numbers drawn from a seed.
use snap_disk::Fill;

/// A fixed sequence of numbers for each seed: the linear congruential generator of Knuth's MMIX.
#[derive(Drop)]
pub struct Draw {
    pub state: u64,
}

impl Draw {
    /// The next number, below `bound`.
    pub fn below(&mut self, bound: u64) -> u64 {
        self.state = self
            .state
            .wrapping_mul(6_364_136_223_846_793_005)
            .wrapping_add(1_442_695_040_888_963_407);
        (self.state >> 33) % bound
    }

    /// The bytes that were there, or those of closed or of open gates.
    pub fn fill(&mut self) -> Fill {
        match self.below(3) {
            0 => Fill::Keep,
            1 => Fill::All(0x00),
            _ => Fill::All(0xA5),
        }
    }
}
