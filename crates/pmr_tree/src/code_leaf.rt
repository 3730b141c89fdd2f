ghost use Rattle.std.specs.Prelude.{◌≡◌, ◌+◌, ◌*◌, ◌/◌, ◌^◌, ◌<◌, ◌≤◌};
ghost use Rattle.sand_base.specs.declared.TheConstants.{COORDINATE_BITS};
ghost use Rattle.z_code.specs.Block.{IsBlock, HasCode, code_count};
ghost use Rattle.pmr_tree.specs.Leaves.{last_key, level_in};

use sand_base::COORDINATE_BITS;
use std::cmp::min;
use z_code::Block;

// The greatest key that a leaf with the code may have.
pub fn last_key(z: u64) -> u128
    requires { z < 2 ^ (2 * COORDINATE_BITS) }
    ensures { result ≡ last_key z }
{
    (u128::from(z) << 40) + ((1 << 40) - 1)
}

// The level in the key of an entry; without one, and of a key that no block has, the finest.
pub fn level_in(found: Option<(u128, u128)>) -> u8
    ensures value { result ≡ level_in found }
    ensures in_tree { result ≤ COORDINATE_BITS }
{
    match found {
        Some(pair) => min((pair.0 >> 32) % 256, u128::from(COORDINATE_BITS)) as u8,
        None => COORDINATE_BITS as u8,
    }
}

// The first code of the block of the level that has the code.
fn first_code(z: u64, level: u8) -> u64
    requires { level ≤ COORDINATE_BITS }
    ensures { result ≡ z / code_count level * code_count level }
{
    let bits = 2 * (COORDINATE_BITS - u32::from(level));
    z >> bits << bits
}

// The block of the level that has the code.
pub fn block_with(z: u64, level: u8) -> Block
    requires code { z < 2 ^ (2 * COORDINATE_BITS) }
    requires level { level ≤ COORDINATE_BITS }
    ensures block { IsBlock result }
    ensures code { HasCode result z }
    ensures level { result.level ≡ level }
{
    Block {
        z: first_code(z, level),
        level,
    }
}
