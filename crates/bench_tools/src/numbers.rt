// Numbers that look as if drawn by lot, and are the same in each run.
ghost use Rattle.std.specs.Prelude.{◌<◌};

/// A linear congruence modulo 2^64 with Knuth's factor (The Art of Computer Programming, volume 2, 3.3.4). Its upper half is used.
#[derive(Clone, Copy)]
pub struct Numbers {
    state: u64,
}

impl Numbers {
    /// Numbers that a seed begins. The same seed gives the same numbers.
    pub fn new(seed: u64) -> Numbers {
        Numbers { state: seed }
    }

    /// The next number, below the bound.
    pub fn below(&mut self, bound: u32) -> u32
        requires { 0 < bound }
        ensures { result < bound }
    {
        self.state = self
            .state
            .wrapping_mul(6364136223846793005)
            .wrapping_add(1442695040888963407);
        let upper = self.state >> 32;
        (upper % u64::from(bound)) as u32
    }
}
