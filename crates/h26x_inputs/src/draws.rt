//! Numbers that a seed makes.

ghost use Rattle.std.specs.Prelude.{◌<◌};

/// Numbers of a linear congruence, by the constants of MMIX (Knuth).
#[derive(Clone, Copy)]
pub struct Draws {
    state: u64,
}

impl Draws {
    /// Those of a seed.
    pub fn new(seed: u64) -> Self {
        let mut draws = Draws { state: seed };
        for _ in 0..8 {
            draws.next();
        }
        draws
    }

    /// The next number, of 64 bits, of which the upper ones are the better.
    #[inline]
    pub fn next(&mut self) -> u64 {
        self.state = self
            .state
            .wrapping_mul(6_364_136_223_846_793_005)
            .wrapping_add(1_442_695_040_888_963_407);
        self.state ^ (self.state >> 29)
    }

    /// A number below this one.
    #[inline]
    pub fn below(&mut self, count: u32) -> u32
        requires { 0 < count }
        ensures { result < count }
    {
        (self.next() >> 32) as u32 % count
    }
}
