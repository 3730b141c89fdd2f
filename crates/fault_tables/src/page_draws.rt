/// Numbers below 65,536 by a linear congruential generator.
#[derive(Drop)]
pub struct Draws {
    seed: u32,
}

impl Draws {
    /// The numbers from this seed on.
    pub fn new(seed: u32) -> Draws {
        Draws { seed }
    }

    /// The next number.
    pub fn next(&mut self) -> u32 {
        self.seed = self.seed.wrapping_mul(1_103_515_245).wrapping_add(12_345) & 0x7fff_ffff;
        self.seed / 32_768
    }

    /// A place in a list of this length, unless it is empty.
    pub fn place(&mut self, length: usize) -> Option<usize> {
        (self.next() as usize).checked_rem(length)
    }
}
