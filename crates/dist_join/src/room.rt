ghost use Rattle.std.specs.Prelude.{◌≡◌, ◌+◌, ◌*◌, ◌≤◌, vec_len, vec_capacity, OnOk};

use best_first::Item;
use sand_base::NoMemory;
use z_code::Block;

// Takes room for the pairs of so many on the left with so many on the right.
pub fn reserve_pairs(
    lefts: usize,
    rights: usize,
    found: &mut Vec<Item<(Block, Block)>>,
) -> Result<(), NoMemory>
    ensures items { found.new.items ≡ found.old.items }
    ensures room { OnOk result (vec_len found.new + lefts * rights ≤ vec_capacity found.new) }
{
    let Some(count) = lefts.checked_mul(rights) else {
        return Err(NoMemory {});
    };
    found.reserve(count)?;
    Ok(())
}
