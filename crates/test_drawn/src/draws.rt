//! Numbers that look random and are always the same.

ghost use Rattle.std.specs.Prelude.{◌<◌};

/// A generator.
#[derive(Drop)]
pub(crate) struct Draws {
    state: u32,
}

impl Draws {
    pub(crate) fn new(seed: u32) -> Draws {
        Draws {
            state: 0x2545_f491 ^ seed,
        }
    }

    /// A number of 32 bits.
    pub(crate) fn number(&mut self) -> u32 {
        self.state ^= self.state << 13;
        self.state ^= self.state >> 17;
        self.state ^= self.state << 5;
        self.state
    }

    pub(crate) fn below(&mut self, limit: u16) -> u16
        requires some { 0 < limit }
        ensures within { result < limit }
    {
        (self.number() >> 16) as u16 % limit
    }

    /// Whether it is so, once in so many times.
    pub(crate) fn once_in(&mut self, limit: u16) -> bool
        requires some { 0 < limit }
    {
        self.below(limit) == 0
    }
}
