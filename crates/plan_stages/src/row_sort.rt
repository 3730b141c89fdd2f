use crate::Keyed;
use plan_iterator::Answer;
use sand_base::NoMemory;
use std::alloc::Global;
use std::collections::VecDeque;
use std::marker::Model;

/// Rows with their keys, in the order in which they came, and once they were sorted in that of their keys.
#[derive(Drop)]
pub struct RowSort<K> {
    rows: VecDeque<Keyed<K>>,
}

impl<K> Model for RowSort<K> {
    ghost use Rattle.std.specs.Prelude.{List};
    ghost use Rattle.plan_stages.specs.declared.keyed.Keyed.{Keyed};

    ghost Value = { List (Keyed K) };

    ghost view = { λ s. s.rows.items };
}

impl<K: Ord + Copy> RowSort<K> {
    ghost use Rattle.std.specs.Prelude.{◌≡◌, [], ◌∷◌, ◌++◌, None, IfSome, IfErr, OnOk, OnErr};
    ghost use Rattle.sand_model.specs.Sources.{sorted};
    ghost use Rattle.plan_stages.specs.Keyed.{by_key};

    /// No rows. It takes no memory.
    pub fn new(alloc: Global) -> RowSort<K>
        ensures { result ≡ [] }
    {
        RowSort {
            rows: VecDeque::new(alloc),
        }
    }

    /// Puts in a row behind the others. Where memory is refused, the row comes back, and all is as it was.
    pub fn push(&mut self, key: K, row: Answer) -> Result<(), Answer>
        ensures added { OnOk result (self.new ≡ self.old ++ record { key = key; row = row } ∷ []) }
        ensures unchanged { OnErr result (self.new ≡ self.old) }
        ensures returned { IfErr result (λ back. back ≡ row) }
    {
        match self.rows.push_back(Keyed { key, row }) {
            Ok(()) => Ok(()),
            Err(full) => Err(full.value.row),
        }
    }

    /// Puts the rows in the order of their keys, rows with equal keys as they stood. After a refusal all is as it was.
    pub fn sort(&mut self, alloc: Global) -> Result<(), NoMemory>
        ensures sorted { OnOk result (self.new ≡ sorted (by_key K.cmp) self.old) }
        ensures unchanged { OnErr result (self.new ≡ self.old) }
    {
        let rows = self.rows.make_contiguous();
        match rows.sort_by_key(alloc, |keyed| keyed.key) {
            Ok(()) => Ok(()),
            Err(_) => Err(NoMemory {}),
        }
    }

    /// Takes out the first row; None exactly where there is none.
    pub fn next(&mut self) -> Option<Keyed<K>>
        ensures first { IfSome result (λ keyed. self.old ≡ keyed ∷ self.new) }
        ensures none { result ≡ None → (self.old ≡ []) × (self.new ≡ []) }
    {
        self.rows.pop_front()
    }
}
