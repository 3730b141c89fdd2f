ghost use Rattle.std.specs.Prelude.{◌≡◌, ◌≤◌, length, true};
ghost use Rattle.std.specs.List.{list_all};
ghost use Rattle.sand_model.specs.PlainLines.{fits_line};

use exact_frac::Frac;
use sand_base::{Ids, Row};

/// A row of a plan: its squared distance where it has one, an id for each relation in it, and the values that were
/// fetched. Whatever the disk, it has an id, and no value of it ends the line that it is printed on. Contracts see it as
/// `row_of` says, the distance in lowest terms.
#[derive(Drop)]
pub struct Answer {
    pub gap: Option<Frac>,
    pub ids: Ids,
    pub values: Row,
    pub ghost numbered: { 1 ≤ length ids },
    pub ghost one_line: { list_all fits_line values ≡ true },
}
