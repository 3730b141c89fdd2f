ghost use Rattle.std.specs.Prelude.{◌≡◌, IfOk, IfErr};
ghost use Rattle.page_pool.specs.Disk.{PageMap};
ghost use Rattle.sand_base.specs.Shape.{is_spatial};
ghost use Rattle.sand_store.specs.Catalog.{IsCatalog};
ghost use Rattle.far_cursor.specs.FarCursor.{HasTreeColumn, LacksColumn};

use pmr_tree::Pmr;
use sand_base::{Kind, Refusal};
use sand_store::{Catalog, Relation};

// A column of shapes: its relation, its place there, counted from 0, and its quadtree.
#[derive(Clone, Copy)]
pub(crate) struct FarColumn<'s> {
    pub relation: &'s Relation,
    pub column: usize,
    pub tree: Pmr,
}

// Whether columns of the kind hold shapes.
fn is_spatial(kind: Kind) -> bool
    ensures { result ≡ is_spatial kind }
{
    match kind {
        Kind::Int | Kind::Text => false,
        Kind::Point | Kind::Segment | Kind::Polygon => true,
    }
}

// The column of this name, or the first check that fails: its relation is there, it is there, it holds shapes, and it
// has a quadtree.
pub(crate) fn column_of<'s>(
    catalog: &'s Catalog,
    relation: &str,
    column: &str,
) -> Result<FarColumn<'s>, Refusal>
    ensures found { IfOk result (λ c. (pages : PageMap) → HasTreeColumn catalog.entry.now (record { relation = relation.now; column = column.now }) c.relation.now c.column c.tree pages) }
    ensures lacks { IfErr result (λ why. IsCatalog catalog.entry.now → (pages : PageMap) → LacksColumn catalog.entry.now (record { relation = relation.now; column = column.now }) why pages) }
{
    let Some(found) = catalog.relation(relation) else {
        return Err(Refusal::UnknownRelation);
    };
    let Some(at) = found.column(column) else {
        return Err(Refusal::UnknownColumn);
    };
    if !is_spatial(found.schema().columns()[at].1) {
        return Err(Refusal::WrongKind);
    }
    match found.quadtree(at) {
        Some(tree) => Ok(FarColumn {
            relation: found,
            column: at,
            tree: *tree,
        }),
        None => Err(Refusal::NoIndex),
    }
}
