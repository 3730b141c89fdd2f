ghost use Rattle.std.specs.Prelude.{◌≡◌, ℕ, ◌*◌, ◌^◌, ◌<◌, ◌≤◌, ◌↔◌, min, false, IsTrue, [], ◌∷◌, length, All, Contains, IfOk, IfSome, MatchOption, IsPermutation};
ghost use Rattle.std.specs.Bool.{MatchBool};
ghost use Rattle.best_first.specs.Bits.{has_bit, HasNoBit, IsLeastBit};
ghost use Rattle.best_first.specs.ZeroItems.{IsLeastOf, bits_for};

use sand_base::NoMemory;
use std::alloc::Global;
use std::marker::Model;

// The numbers that one word has bits for.
const WORD: u32 = 64;

/// A set of ids below a bound, one bit for each, with its least id.
#[derive(Drop)]
pub struct IdSet {
    words: Vec<u64>,
    least: Option<u32>,
}

impl Model for IdSet {
    ghost use Rattle.std.specs.Prelude.{◌*◌, length};
    ghost use Rattle.best_first.specs.Bits.{numbers_below};
    ghost use Rattle.best_first.specs.ZeroItems.{IdsBelow};
    ghost use Rattle.best_first.specs.IdSet.{IsIdSet};

    ghost Value = { IdsBelow };

    ghost view = { λ s. record { ids = numbers_below s.words.items (64 * length s.words.items); below = 64 * length s.words.items } };

    ghost invariant = { IsIdSet };
}

impl IdSet {
    // No id, and a bit for each below `count`.
    pub fn below(alloc: Global, count: u32) -> Result<IdSet, NoMemory>
        ensures none { IfOk result (λ s. s.ids ≡ []) }
        ensures bits { IfOk result (λ s. (count ≤ s.below) × (s.below ≡ bits_for count)) }
    {
        let words = vec![in alloc; 0u64; count.div_ceil(WORD) as usize]?;
        Ok(IdSet { words, least: None })
    }

    // Whether there is a bit for the id.
    #[inline]
    pub fn has_bit(&self, id: u32) -> bool
        ensures { IsTrue result ↔ (id < self.now.below) }
    {
        ((id / WORD) as usize) < self.words.len()
    }

    // Puts an id in for which there is a bit. Whether it was not there.
    #[inline]
    pub fn insert(&mut self, id: u32) -> bool
        requires { id < self.old.below }
        ensures ids { MatchBool result (IsPermutation (id ∷ self.old.ids) self.new.ids) ((self.new.ids ≡ self.old.ids) × Contains self.old.ids id) }
        ensures bits { self.new.below ≡ self.old.below }
    {
        let place = (id / WORD) as usize;
        let bit = 1u64 << (id % WORD);
        if self.words[place] & bit != 0 {
            return false;
        }
        self.words[place] |= bit;
        self.least = Some(lesser(self.least, id));
        true
    }

    // The least id.
    #[inline]
    pub fn least(&self) -> Option<u32>
        ensures { MatchOption result (self.now.ids ≡ []) (λ id. IsLeastOf id self.now.ids) }
    {
        self.least
    }

    // Takes the least id out.
    #[inline]
    pub fn take_least(&mut self) -> Option<u32>
        ensures ids { MatchOption result ((self.old.ids ≡ []) × (self.new.ids ≡ [])) (λ id. IsPermutation self.old.ids (id ∷ self.new.ids)) }
        ensures least { MatchOption result (self.old.ids ≡ []) (λ id. All (λ other. id < other) self.new.ids) }
        ensures inside { IfSome result (λ id. id < self.old.below) }
        ensures bits { self.new.below ≡ self.old.below }
    {
        let Some(id) = self.least else {
            return None;
        };
        let place = (id / WORD) as usize;
        self.words[place] &= !(1u64 << (id % WORD));
        self.least = least_from(&self.words, place);
        Some(id)
    }
}

// The lesser of a set's least id and another one.
fn lesser(least: Option<u32>, id: u32) -> u32
    ensures { MatchOption least (result ≡ id) (λ m. result ≡ min m id) }
{
    match least {
        Some(least) => least.min(id),
        None => id,
    }
}

// The number of the least bit that is set, where no word before `from` has one.
fn least_from(words: &[u64], from: usize) -> Option<u32>
    requires small { 64 * length words.now ≤ 2 ^ 32 }
    requires before { (n : ℕ) → n < 64 * from → has_bit words.now n ≡ false }
    ensures { MatchOption result (HasNoBit words.now) (IsLeastBit words.now) }
{
    for place in from..words.len() {
        let word = words[place];
        if word != 0 {
            return Some(place as u32 * WORD + word.trailing_zeros());
        }
    }
    None
}
