ghost use Rattle.std.specs.Prelude.{◌≡◌, ℕ, All, IfOk, IfErr, OnErr, OnOk};
ghost use Rattle.sand_base.specs.InRange.{IsRowInRange};
ghost use Rattle.sand_store.specs.Calls.{Carries, HasStoreCause, IsUnchanged, Loaded};
ghost use Rattle.sand_store.specs.Catalog.{IsCatalog};
ghost use Rattle.statement_exec.specs.Entering.{EntersRows};
ghost use Rattle.statement_exec.specs.Loading.{InSettings, IsOfNoPage, IsRefusedEarly, LoadOf, Yields, shelf_after};

use crate::Reply;
use crate::file_rows::{read_rows, refusal_of};
use page_pool::Disk;
use sand_base::{Label, Refusal, Row, Shelf};
use sand_store::{Catalog, Store};
use std::alloc::Global;

/// The rows of a `load`, before any page is touched.
pub fn rows_to_load<H: Shelf>(
    alloc: Global,
    catalog: &Catalog,
    shelf: &mut H,
    name: &Label,
    file: &Label,
    header: bool,
) -> Result<Vec<Row>, Refusal>
    requires { IsCatalog catalog.now }
    ensures yields { IfOk result (λ rows. InSettings catalog.now (H.files shelf.old)
        (λ setting state. Yields setting state (record { relation = name.now; file = file.now; header = header }) rows.items)) }
    ensures in_range { IfOk result (λ rows. All IsRowInRange rows.items) }
    ensures refused { IfErr result (λ refusal. InSettings catalog.now (H.files shelf.old)
        (λ setting state. IsRefusedEarly setting state (record { relation = name.now; file = file.now; header = header }) refusal)) }
    ensures no_page { IfErr result IsOfNoPage }
    ensures files { H.files shelf.new ≡ H.files shelf.old }
    ensures cause { H.faults shelf.new ≡ shelf_after (H.faults shelf.old) result }
{
    let Some(relation) = catalog.relation(name.as_str()) else {
        return Err(Refusal::UnknownRelation);
    };
    match read_rows(alloc, shelf, file, relation.schema(), header) {
        Ok(rows) => Ok(rows),
        Err(why) => Err(refusal_of(why)),
    }
}

/// The rows of a `load` enter their relation, all or none. After a refusal all is as it was.
pub fn enter_rows<D: Disk>(
    store: &mut Store<D>,
    name: &Label,
    rows: Vec<Row>,
) -> Result<Reply, Refusal>
    requires { All IsRowInRange rows.items }
    ensures performs { (load : LoadOf) → load.relation ≡ name.now → EntersRows load store.old store.new rows.items result }
    ensures loaded { OnOk result ((count : ℕ) × Loaded store.old store.new name.now rows.items count) }
    ensures unchanged { OnErr result (IsUnchanged store.old store.new) }
    ensures carries { Carries store.old store.new }
    ensures cause { HasStoreCause store.old.pool store.new.pool result }
    ensures of_no_file { (n : ℕ) → shelf_after n result ≡ n }
{
    match store.load_rows(name.as_str(), rows) {
        Ok(count) => Ok(Reply::Loaded(count)),
        Err(why) => Err(why),
    }
}
