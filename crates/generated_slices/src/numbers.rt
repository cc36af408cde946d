// Numbers that look random.

/// A line of numbers, each from the one before.
#[derive(Drop)]
pub struct Numbers {
    state: u32,
}

impl Numbers {
    /// The line that begins with this number.
    pub fn new(first: u32) -> Numbers {
        Numbers { state: first }
    }

    /// The next number, below the count; 0 where the count is 0. The low bits of the state repeat soon, so they are left out.
    pub fn below(&mut self, count: u32) -> u32 {
        self.state = self
            .state
            .wrapping_mul(1_664_525)
            .wrapping_add(1_013_904_223);
        if count == 0 {
            return 0;
        }
        (self.state >> 8) % count
    }

    /// Whether what happens once in so many times happens now.
    pub fn once_in(&mut self, times: u32) -> bool {
        self.below(times) == 0
    }
}
