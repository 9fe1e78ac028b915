// Numbers that look random, and are the same in each run.
ghost use Rattle.std.specs.Prelude.{◌<◌, ◌≤◌};

/// Draws numbers, each from the one before, by the linear congruence of Knuth's MMIX.
#[derive(Drop)]
pub struct Draws {
    state: u64,
}

impl Draws {
    /// Those that a state leads to.
    pub fn new(state: u64) -> Self {
        Draws { state }
    }

    /// A number below a limit and below 2^31, and 0 if the limit is 0.
    pub fn below(&mut self, limit: u32) -> u32
        ensures below { 0 < limit → result < limit }
        ensures small { result ≤ limit }
    {
        self.state = self
            .state
            .wrapping_mul(6_364_136_223_846_793_005)
            .wrapping_add(1_442_695_040_888_963_407);
        let drawn = (self.state >> 33) as u32;
        if limit == 0 { 0 } else { drawn % limit }
    }
}
