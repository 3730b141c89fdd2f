// Numbers drawn by a linear congruential generator.
use sand_base::COORDINATE_BITS;

/// Draws numbers, one after the other.
#[derive(Drop)]
pub struct Draws {
    seed: u64,
}

impl Draws {
    /// Draws that begin with this number.
    pub fn begin(seed: u64) -> Draws {
        Draws { seed }
    }

    // A number of 32 bits.
    fn word(&mut self) -> u64 {
        self.seed = self
            .seed
            .wrapping_mul(6_364_136_223_846_793_005)
            .wrapping_add(1_442_695_040_888_963_407);
        self.seed / 4_294_967_296
    }

    /// A number below this one, which isn't 0.
    pub fn below(&mut self, most: u32) -> u32 {
        (self.word() % u64::from(most.max(1))) as u32
    }

    /// A coordinate of the plane.
    pub fn coordinate(&mut self) -> u32 {
        self.below(1 << COORDINATE_BITS)
    }
}
