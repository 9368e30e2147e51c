//! Numbers that follow no pattern, the same at each run.

ghost use Rattle.std.specs.Prelude.{◌<◌};

/// A generator of numbers: a linear congruence with the constants of Knuth's MMIX.
#[derive(Clone, Copy, Debug)]
pub(crate) struct Random {
    state: u64,
}

impl Random {
    /// The generator of a seed.
    pub(crate) fn new(seed: u64) -> Random {
        Random { state: seed }
    }

    /// The next number, which is below another one.
    pub(crate) fn below(&mut self, most: u64) -> u64
        requires { 0 < most }
        ensures { result < most }
    {
        self.state = self
            .state
            .wrapping_mul(6_364_136_223_846_793_005)
            .wrapping_add(1_442_695_040_888_963_407);
        (self.state >> 33) % most
    }

    /// Whether the next number below another one is 0.
    pub(crate) fn is_one_in(&mut self, most: u64) -> bool
        requires { 0 < most }
    {
        self.below(most) == 0
    }

    /// The next byte.
    pub(crate) fn byte(&mut self) -> u8 {
        self.below(256) as u8
    }
}
