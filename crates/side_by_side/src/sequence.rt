//! A fixed sequence of numbers that look as if they were drawn.
ghost use Rattle.std.specs.Prelude.{◌<◌};

/// A linear congruential generator, with the factor and the increment of Knuth's MMIX.
#[derive(Drop)]
pub struct Sequence {
    state: u64,
}

impl Sequence {
    /// Returns the sequence that begins with this number.
    pub fn new(seed: u64) -> Sequence {
        Sequence { state: seed }
    }

    /// Moves the sequence on, and returns its next number, of 31 bits.
    pub fn next_number(&mut self) -> u32 {
        self.state = self
            .state
            .wrapping_mul(6_364_136_223_846_793_005)
            .wrapping_add(1_442_695_040_888_963_407);
        (self.state >> 33) as u32
    }

    /// Moves the sequence on, and returns its next number modulo `limit`.
    pub fn below(&mut self, limit: u32) -> u32
        requires { 0 < limit }
        ensures { result < limit }
    {
        self.next_number() % limit
    }

    /// Moves the sequence on, and returns one of these numbers by it; 0 if there are none.
    pub fn one_of(&mut self, numbers: &[u32]) -> u32 {
        let place = self.next_number() as usize % numbers.len().max(1);
        numbers.get(place).copied().unwrap_or(0)
    }

    /// Moves the sequence on, and returns one of these texts by it; an empty one if there are none.
    pub fn pick(&mut self, texts: &[&'static str]) -> &'static str {
        let place = self.next_number() as usize % texts.len().max(1);
        texts.get(place).copied().unwrap_or("")
    }
}
