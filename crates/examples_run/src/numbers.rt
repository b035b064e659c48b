//! Numbers that look random.

ghost use Rattle.std.specs.Prelude.{◌<◌};

/// Numbers that look random: xorshift32 of Marsaglia, "Xorshift RNGs" (2003).
#[derive(Drop)]
pub struct Numbers {
    state: u32,
}

impl Numbers {
    /// The numbers of a seed, which isn't 0.
    pub fn new(seed: u32) -> Numbers {
        Numbers { state: seed }
    }

    /// The next number.
    pub fn next(&mut self) -> u32 {
        let mut n = self.state;
        n ^= n << 13;
        n ^= n >> 17;
        n ^= n << 5;
        self.state = n;
        n
    }

    /// The next number, modulo a limit.
    pub fn below(&mut self, limit: u32) -> u32
        requires { 0 < limit }
        ensures { result < limit }
    {
        self.next() % limit
    }
}
