//! Pseudo-random numbers.
ghost use Rattle.std.specs.Prelude.{◌<◌, ◌^◌};

/// A row of pseudo-random numbers, always the same one.
#[derive(Clone, Copy)]
pub(crate) struct Random {
    state: u64,
}

impl Random {
    /// The row from its start.
    pub(crate) fn start() -> Random {
        Random { state: 1 }
    }

    /// The next 17 bits.
    pub(crate) fn next(&mut self) -> usize
        ensures { result < 2 ^ 17 }
    {
        self.state = self
            .state
            .wrapping_mul(6_364_136_223_846_793_005)
            .wrapping_add(1_442_695_040_888_963_407);
        (self.state / 140_737_488_355_328) as usize
    }
}
