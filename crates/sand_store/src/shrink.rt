// Access paths lose a row.
ghost use Rattle.std.specs.Prelude.{◌≡◌, ℕ, ◌≤◌, List, All, IfOk, IfErr, IfSome, Some};
ghost use Rattle.page_pool.specs.Pool.{IsOpen, IsTold};
ghost use Rattle.page_pool.specs.Steps.{InCommand};
ghost use Rattle.attr_index.specs.Key.{IsAttribute};
ghost use Rattle.sand_base.specs.declared.kind.Kind.{Kind};
ghost use Rattle.sand_model.specs.Database.{element};
ghost use Rattle.sand_store.specs.declared.path.AccessPath.TheVariants as path;
ghost use Rattle.sand_store.specs.Calls.{HasStoreCause};
ghost use Rattle.sand_store.specs.Catalog.{IsPathOf};
ghost use Rattle.sand_store.specs.Leaving.{Holding, CanLose, losing, PathChanged, AllCanLose, AllChanged};
ghost use Rattle.sand_store.specs.Steps.{SamePlaces, IsOutside};

use crate::AccessPath;
use crate::refusal::refusal_of;
use crate::shapes::{plane_shape_at, value_at};
use attr_index::AttrIndex;
use page_pool::{Disk, Pool};
use pmr_tree::Pmr;
use pmr_tree::laws::growth_laws;
use sand_base::{Refusal, Row, Value};
use std::alloc::Global;

// The value that a row has in a column, where it is no shape.
fn attribute_at<'r>(row: &'r Row, column: usize) -> Option<&'r Value>
    ensures value { IfSome result (λ v. element row.now column ≡ Some v.now) }
    ensures attribute { IfSome result (λ v. IsAttribute v.now) }
{
    let value = value_at(row, column)?;
    match value {
        Value::Int(_) | Value::Text(_) => Some(value),
        Value::Shape(_) => None,
    }
}

// A quadtree without the id of a row.
fn shrunk_tree<D: Disk>(
    alloc: Global,
    pool: &mut Pool<D>,
    tree: Pmr,
    column: usize,
    id: u32,
    row: &Row,
) -> Result<Pmr, Refusal>
    requires opened { IsOpen pool.old }
    requires id { 1 ≤ id }
    requires can { IsTold pool.old → (held : Holding) × CanLose pool.old.pages held id row.now (column, path.Quadtree tree) }
    ensures lost { IfOk result (λ shrunk. IsTold pool.old → (held : Holding) → CanLose pool.old.pages held id row.now (column, path.Quadtree tree)
        → PathChanged pool.old.pages pool.new.pages (losing held id) column (path.Quadtree tree) (path.Quadtree shrunk)) }
    ensures outside { IfErr result IsOutside }
    ensures within { InCommand pool.old pool.new }
    ensures cause { HasStoreCause pool.old pool.new result }
{
    growth_laws();
    let Some(shape) = plane_shape_at(row, column) else {
        return Err(Refusal::Memory);
    };
    let mut shrunk = tree;
    match shrunk.delete(alloc, pool, id, shape) {
        Ok(()) => Ok(shrunk),
        Err(why) => Err(refusal_of(why)),
    }
}

// An attribute index without the entry of a row.
fn shrunk_index<D: Disk>(
    pool: &mut Pool<D>,
    index: AttrIndex,
    column: usize,
    id: u32,
    row: &Row,
) -> Result<AttrIndex, Refusal>
    requires opened { IsOpen pool.old }
    requires can { IsTold pool.old → (held : Holding) × CanLose pool.old.pages held id row.now (column, path.Attribute index) }
    ensures lost { IfOk result (λ shrunk. IsTold pool.old → (held : Holding) → CanLose pool.old.pages held id row.now (column, path.Attribute index)
        → PathChanged pool.old.pages pool.new.pages (losing held id) column (path.Attribute index) (path.Attribute shrunk)) }
    ensures outside { IfErr result IsOutside }
    ensures within { InCommand pool.old pool.new }
    ensures cause { HasStoreCause pool.old pool.new result }
{
    let Some(value) = attribute_at(row, column) else {
        return Err(Refusal::Memory);
    };
    let mut shrunk = index;
    match shrunk.drop_entry(pool, value, id) {
        Ok(()) => Ok(shrunk),
        Err(why) => Err(refusal_of(why)),
    }
}

impl AccessPath {
    /// The access path of a column without the row of an id.
    pub(crate) fn without_row<D: Disk>(
        &self,
        alloc: Global,
        pool: &mut Pool<D>,
        column: usize,
        id: u32,
        row: &Row,
    ) -> Result<AccessPath, Refusal>
        requires opened { IsOpen pool.old }
        requires id { 1 ≤ id }
        requires can { IsTold pool.old → (held : Holding) × CanLose pool.old.pages held id row.now (column, self.now) }
        ensures lost { IfOk result (λ shrunk. IsTold pool.old → (held : Holding) → CanLose pool.old.pages held id row.now (column, self.now)
            → PathChanged pool.old.pages pool.new.pages (losing held id) column self.now shrunk) }
        ensures of { IfOk result (λ shrunk. (schema : List (List ℕ × Kind)) → IsPathOf schema (column, self.now) → IsPathOf schema (column, shrunk)) }
        ensures outside { IfErr result IsOutside }
        ensures within { InCommand pool.old pool.new }
        ensures cause { HasStoreCause pool.old pool.new result }
    {
        match self {
            AccessPath::Quadtree(tree) => match shrunk_tree(alloc, pool, *tree, column, id, row) {
                Ok(shrunk) => Ok(AccessPath::Quadtree(shrunk)),
                Err(why) => Err(why),
            },
            AccessPath::Attribute(index) => match shrunk_index(pool, *index, column, id, row) {
                Ok(shrunk) => Ok(AccessPath::Attribute(shrunk)),
                Err(why) => Err(why),
            },
        }
    }
}

/// All access paths of a relation, in their order, without the row of an id.
pub fn shrunk_paths<D: Disk>(
    alloc: Global,
    pool: &mut Pool<D>,
    paths: &[(usize, AccessPath)],
    id: u32,
    row: &Row,
) -> Result<Vec<(usize, AccessPath)>, Refusal>
    requires opened { IsOpen pool.old }
    requires id { 1 ≤ id }
    requires can { IsTold pool.old → (held : Holding) × AllCanLose pool.old.pages held id row.now paths.now }
    ensures lost { IfOk result (λ shrunk. IsTold pool.old → (held : Holding) → AllCanLose pool.old.pages held id row.now paths.now
        → AllChanged pool.old.pages pool.new.pages (losing held id) paths.now shrunk.items) }
    ensures places { IfOk result (λ shrunk. (schema : List (List ℕ × Kind)) → All (IsPathOf schema) paths.now → SamePlaces schema paths.now shrunk.items) }
    ensures outside { IfErr result IsOutside }
    ensures within { InCommand pool.old pool.new }
    ensures cause { HasStoreCause pool.old pool.new result }
{
    let mut shrunk = Vec::new(alloc);
    'paths: for at in 0..paths.len() {
        let (column, path) = paths[at];
        match path.without_row(alloc, pool, column, id, row) {
            Ok(path) => shrunk.push((column, path))?,
            Err(why) => return Err(why),
        }
    }
    Ok(shrunk)
}
