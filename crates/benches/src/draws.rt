ghost use Rattle.std.specs.Prelude.{◌*◌, ◌^◌, ◌<◌};
ghost use Rattle.sand_base.specs.declared.TheConstants.{COORDINATE_BITS};

use sand_base::COORDINATE_BITS;

/// Draws numbers, one after the other.
#[derive(Drop)]
pub struct Draws {
    seed: u64,
}

impl Draws {
    /// Draws that begin with this number.
    pub fn begin(seed: u64) -> Draws {
        Draws { seed }
    }

    /// A number of 32 bits.
    pub fn word(&mut self) -> u64
        ensures { result < 2 ^ 32 }
    {
        self.seed = self
            .seed
            .wrapping_mul(6_364_136_223_846_793_005)
            .wrapping_add(1_442_695_040_888_963_407);
        self.seed / 4_294_967_296
    }

    /// A coordinate of the plane.
    pub fn coordinate(&mut self) -> u32
        ensures { result < 2 ^ COORDINATE_BITS }
    {
        (self.word() % (1 << COORDINATE_BITS)) as u32
    }

    /// The code of a grid point.
    pub fn code(&mut self) -> u64
        ensures { result < 2 ^ (2 * COORDINATE_BITS) }
    {
        self.long_word() % (1 << (2 * COORDINATE_BITS))
    }

    // A number of 64 bits.
    fn long_word(&mut self) -> u64 {
        self.word() * 4_294_967_296 + self.word()
    }

    /// A number of 128 bits.
    pub fn key(&mut self) -> u128 {
        let high = self.long_word();
        let low = self.long_word();
        u128::from(high) * 18_446_744_073_709_551_616 + u128::from(low)
    }
}
