// Numbers that look as if drawn by lot, and are the same in each run.

/// A linear congruence modulo 2^64. Its upper half is used.
#[derive(Drop)]
pub struct Numbers {
    state: u64,
}

impl Numbers {
    /// Numbers that a seed begins.
    pub fn new(seed: u64) -> Numbers {
        Numbers { state: seed }
    }

    /// The next number, below the bound; 0 where that is 0.
    pub fn below(&mut self, bound: u32) -> u32 {
        self.state = self
            .state
            .wrapping_mul(6364136223846793005)
            .wrapping_add(1442695040888963407);
        remainder(self.state >> 32, bound)
    }

    /// True once in so many times.
    pub fn once_in(&mut self, times: u32) -> bool {
        self.below(times) == 0
    }
}

fn remainder(of: u64, bound: u32) -> u32 {
    u32::try_from(of % u64::from(bound.max(1))).unwrap_or(0)
}

/// A count as a number of 32 bits.
pub fn number(count: usize) -> u32 {
    u32::try_from(count).unwrap_or(u32::MAX)
}
