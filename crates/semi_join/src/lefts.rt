ghost use Rattle.std.specs.Prelude.{◌≡◌, ◌<◌, true, IfOk};
ghost use Rattle.std.specs.FinSet as set;
ghost use Rattle.semi_join.specs.LeftRows.{gives, is_waiting};

use best_first::Wanted;
use sand_base::NoMemory;
use std::alloc::Global;
use std::marker::Model;

// The ids that one word has bits for.
const WORD: u32 = 64;

// Which left rows were given with their first pair, one bit for each id, and how many wait for theirs.
#[derive(Drop)]
pub struct Lefts {
    words: Vec<u64>,
    waiting: u32,
}

impl Model for Lefts {
    ghost use Rattle.std.specs.Prelude.{◌*◌, vec_len};
    ghost use Rattle.semi_join.specs.LeftRows.{LeftRows, left_rows_code, ids_below};

    ghost Value = { LeftRows };

    ghost coded = { left_rows_code };

    ghost view = { λ s. record { given = ids_below s.words.items (64 * vec_len s.words); below = 64 * vec_len s.words; waiting = s.waiting } };
}

impl Lefts {
    // So many left rows, none of which was given. There is a bit for each id up to the greatest.
    pub fn new(alloc: Global, count: u32, greatest: u32) -> Result<Lefts, NoMemory>
        ensures given { IfOk result (λ s. s.given ≡ set.empty) }
        ensures below { IfOk result (λ s. greatest < s.below) }
        ensures waiting { IfOk result (λ s. s.waiting ≡ count) }
    {
        let words = vec![in alloc; 0u64; (greatest / WORD) as usize + 1]?;
        Ok(Lefts {
            words,
            waiting: count,
        })
    }

    // How many left rows wait for their first pair.
    pub fn waiting(&self) -> u32
        ensures { result ≡ self.now.waiting }
    {
        self.waiting
    }

    // The left row of this id, which waits, is given.
    pub fn give(&mut self, id: u32)
        requires some { 0 < self.old.waiting }
        requires waits { is_waiting self.old id ≡ true }
        ensures { self.new ≡ gives id self.old }
    {
        let place = (id / WORD) as usize;
        self.words[place] |= 1u64 << (id % WORD);
        self.waiting -= 1;
    }
}

// Rows are wanted of the left rows that wait.
impl Wanted for Lefts {
    ghost lefts = { λ s. is_waiting s };

    fn wants(&self, left: u32) -> bool {
        let place = (left / WORD) as usize;
        if self.words.len() <= place {
            return false;
        }
        let bit = 1u64 << (left % WORD);
        self.words[place] & bit == 0
    }
}
