ghost use Rattle.std.specs.Prelude.{◌≡◌, [], ◌∷◌, length, Some, IfOk};

use best_first::Hit;
use plan_iterator::Answer;
use sand_base::{Ids, NoMemory, Row};
use std::alloc::Global;

// Room for the ids of a pair.
pub fn room(alloc: Global) -> Result<Vec<u32>, NoMemory>
    ensures { IfOk result (λ ids. length ids.items ≡ 2) }
{
    let ids = vec![in alloc; 0u32; 2]?;
    Ok(ids)
}

// A pair of rows that was found by its gap, its ids in the room for them.
pub fn pair_answer(alloc: Global, mut ids: Vec<u32>, hit: Hit) -> Answer
    requires { length ids.items ≡ 2 }
    ensures gap { result.gap ≡ Some hit.gap }
    ensures ids { result.ids ≡ hit.left ∷ hit.right ∷ [] }
    ensures values { result.values ≡ [] }
{
    ids[0] = hit.left;
    ids[1] = hit.right;
    Answer {
        gap: Some(hit.gap),
        ids: Ids::new(ids),
        values: Row::new(Vec::new(alloc)),
    }
}
