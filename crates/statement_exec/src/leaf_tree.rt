// The quadtree of a column, for which its leaves are printed.
ghost use Rattle.std.specs.Prelude.{◌≡◌, IfOk, IfErr};
ghost use Rattle.page_pool.specs.Disk.{PageMap};
ghost use Rattle.sand_base.specs.Shape.{is_spatial};
ghost use Rattle.sand_store.specs.Catalog.{IsCatalog};
ghost use Rattle.statement_exec.specs.LeafLines.{HasQuadtree, IsOfCheck, LacksTree};

use pmr_tree::Pmr;
use sand_base::{Kind, Label, Refusal};
use sand_store::Catalog;

// Whether columns of the kind hold shapes.
fn is_spatial(kind: Kind) -> bool
    ensures { result ≡ is_spatial kind }
{
    match kind {
        Kind::Int | Kind::Text => false,
        Kind::Point | Kind::Segment | Kind::Polygon => true,
    }
}

/// The quadtree of a column of shapes, or the first check that fails.
pub(crate) fn quadtree_of(
    catalog: &Catalog,
    relation: &Label,
    column: &Label,
) -> Result<Pmr, Refusal>
    requires { IsCatalog catalog.now }
    ensures tree { IfOk result (λ tree. (pages : PageMap) → HasQuadtree catalog.now (record { relation = relation.now; column = column.now }) tree pages) }
    ensures none { IfErr result (λ why. (pages : PageMap) → LacksTree catalog.now (record { relation = relation.now; column = column.now }) why pages) }
    ensures check { IfErr result IsOfCheck }
{
    let Some(found) = catalog.relation(relation.as_str()) else {
        return Err(Refusal::UnknownRelation);
    };
    let Some(at) = found.column(column.as_str()) else {
        return Err(Refusal::UnknownColumn);
    };
    if !is_spatial(found.schema().columns()[at].1) {
        return Err(Refusal::WrongKind);
    }
    match found.quadtree(at) {
        Some(tree) => Ok(*tree),
        None => Err(Refusal::NoIndex),
    }
}
