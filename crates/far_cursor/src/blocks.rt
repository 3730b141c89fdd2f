ghost use Rattle.std.specs.Prelude.{◌≡◌, ◌↔◌, IsTrue};
ghost use Rattle.z_code.specs.Block.{IsBlock};

use sand_base::COORDINATE_BITS;
use z_code::Block;

// Whether the value is a block of the tree: its level is in range, and its code is the first of a block of the level.
pub(crate) fn is_block(block: Block) -> bool
    ensures { IsTrue result ↔ IsBlock block }
{
    if COORDINATE_BITS < u32::from(block.level) {
        return false;
    }
    let count = 1u64 << (2 * (COORDINATE_BITS - u32::from(block.level)));
    block.z < 1 << (2 * COORDINATE_BITS) && block.z % count == 0
}
