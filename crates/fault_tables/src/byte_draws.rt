ghost use Rattle.std.specs.Prelude.{◌<◌};

/// Numbers below 65,536 by a linear congruential generator.
#[derive(Drop)]
pub struct Draws {
    seed: u32,
}

impl Draws {
    pub fn new(seed: u32) -> Draws {
        Draws { seed }
    }

    /// The next number below this one, which isn't 0.
    pub fn below(&mut self, most: u32) -> u32
        requires { 0 < most }
        ensures { result < most }
    {
        self.seed = self.seed.wrapping_mul(1_103_515_245).wrapping_add(12_345) & 0x7fff_ffff;
        self.seed / 32_768 % most
    }

    /// The next byte.
    pub fn byte(&mut self) -> u8 {
        self.below(256) as u8
    }
}
