ghost use Rattle.std.specs.Prelude.{◌≡◌, ℕ, ◌*◌, ◌≤◌, ◌<◌, ◌⊎◌, length, min, IfOk};
ghost use Rattle.std.specs.Bool.{MatchBool};
ghost use Rattle.knn_join.specs.PartnerCounts.{given_to, gives_to};

use sand_base::NoMemory;
use std::alloc::Global;
use std::marker::Model;

// How many partners each left row was given, one byte for each id, and how many rows are to come.
#[derive(Drop)]
pub struct Partners {
    most: u8,
    given: Vec<u8>,
    waiting: u64,
}

impl Model for Partners {
    ghost use Rattle.knn_join.specs.PartnerCounts.{PartnerCounts, partner_counts_code};

    ghost Value = { PartnerCounts };

    ghost coded = { partner_counts_code };

    ghost view = { λ s. record { most = s.most; given = s.given.items; waiting = s.waiting } };
}

impl Partners {
    // At most so many partners of each left row, none of which was given any. There is a byte for each id up to the
    // greatest.
    pub fn new(
        alloc: Global,
        most: u8,
        lefts: u32,
        rights: u32,
        greatest: u32,
    ) -> Result<Partners, NoMemory>
        ensures most { IfOk result (λ s. s.most ≡ most) }
        ensures none_given { IfOk result (λ s. (id : ℕ) → given_to s id ≡ 0) }
        ensures places { IfOk result (λ s. greatest < length s.given) }
        ensures waiting { IfOk result (λ s. s.waiting ≡ lefts * min most rights) }
    {
        let given = vec![in alloc; 0u8; greatest as usize + 1]?;
        let each = u32::from(most).min(rights);
        Ok(Partners {
            most,
            given,
            waiting: u64::from(lefts) * u64::from(each),
        })
    }

    // How many rows are to come.
    pub fn waiting(&self) -> u64
        ensures { result ≡ self.now.waiting }
    {
        self.waiting
    }

    // The left row of this id is given a partner, and true answered, where it has a byte and had fewer than the most.
    // Else all stays as it is.
    pub fn give(&mut self, id: u32) -> bool
        requires { 0 < self.old.waiting }
        ensures { MatchBool result ((given_to self.old id < self.old.most) × (id < length self.old.given) × (self.new ≡ gives_to id self.old))
            ((self.new ≡ self.old) × ((length self.old.given ≤ id) ⊎ (self.old.most ≤ given_to self.old id))) }
    {
        let place = id as usize;
        if self.given.len() <= place {
            return false;
        }
        if self.most <= self.given[place] {
            return false;
        }
        self.given[place] += 1;
        self.waiting -= 1;
        true
    }
}
