// Access paths grow by a row.
ghost use Rattle.std.specs.Prelude.{◌≡◌, ℕ, ◌≤◌, true, false, map, All, IfOk, IfErr};
ghost use Rattle.std.specs.List.{list_any};
ghost use Rattle.page_pool.specs.Pool.{IsOpen, IsLive, IsTold};
ghost use Rattle.page_pool.specs.Steps.{InCommand};
ghost use Rattle.code_btree.specs.Tree.{times};
ghost use Rattle.pmr_tree.specs.Quadtree.{store_of, pages_at};
ghost use Rattle.tuple_file.specs.File.{file_pages};
ghost use Rattle.sand_base.specs.InRange.{IsRowInRange, IsRowOf};
ghost use Rattle.tuple_codec.specs.Decoding.{IsRowFor};
ghost use Rattle.sand_base.specs.declared.refusal.Refusal.TheVariants as why;
ghost use Rattle.sand_model.specs.Database.{index_with};
ghost use Rattle.sand_model.specs.Measure.{Measure, IsMeasure};
ghost use Rattle.sand_model.specs.StatementChecks.{is_overfull};
ghost use Rattle.sand_store.specs.declared.path.AccessPath.TheVariants as path;
ghost use Rattle.sand_store.specs.Calls.{HasStoreCause};
ghost use Rattle.sand_store.specs.Catalog.{IsColumnAt, IsPathOf};
ghost use Rattle.sand_store.specs.Contents.{rows_at, index_in, indexes_in};
ghost use Rattle.sand_store.specs.Steps.{CanGrow, PathGrew, AllCanGrow, AllGrew, SamePlaces, IsOutside, IsOutsideOrFull};

use crate::AccessPath;
use crate::refusal::{refusal_of, refusal_of_tree};
use crate::shapes::{RowShapes, shape_at, value_at};
use attr_index::AttrIndex;
use page_pool::{Disk, Pool};
use pmr_tree::Pmr;
use pmr_tree::laws::growth_laws;
use sand_base::{Limits, Refusal, Row, Schema};
use std::alloc::Global;
use tuple_file::TupleFile;

// A quadtree with the last row of the file, whose id is new.
fn grown_tree<D: Disk>(
    alloc: Global,
    pool: &mut Pool<D>,
    tree: Pmr,
    shapes: &RowShapes,
    id: u32,
    row: &Row,
    limits: Limits,
) -> Result<Pmr, Refusal>
    requires opened { IsOpen pool.old }
    requires id { 1 ≤ id }
    requires row { IsRowInRange row.now }
    requires can { IsTold pool.old → CanGrow pool.old.pages limits shapes.now.schema.now shapes.now.file id row.now (shapes.now.column, path.Quadtree tree) }
    requires apart { IsTold pool.old → (n : ℕ) → 1 ≤ times n (file_pages (store_of pool.old.pages) shapes.now.file) → IsLive pool.old n × (times n (pages_at pool.old.pages tree) ≡ 0) }
    ensures grew { IfOk result (λ grown. IsTold pool.old → PathGrew pool.old.pages pool.new.pages limits shapes.now.schema.now
        (rows_at pool.old.pages shapes.now.schema.now shapes.now.file) id shapes.now.column (path.Quadtree tree) (path.Quadtree grown)) }
    ensures full { IfErr result (λ e. e ≡ why.IndexFull → IsTold pool.old → (gap : Measure) → IsMeasure gap
        → is_overfull limits (index_with gap (rows_at pool.old.pages shapes.now.schema.now shapes.now.file) id (shapes.now.column, index_in pool.old.pages (path.Quadtree tree))) ≡ true) }
    ensures outside { IfErr result IsOutsideOrFull }
    ensures within { InCommand pool.old pool.new }
    ensures cause { HasStoreCause pool.old pool.new result }
{
    growth_laws();
    let Some(shape) = shape_at(row, shapes.column) else {
        return Err(Refusal::Memory);
    };
    let mut grown = tree;
    match grown.insert(alloc, pool, shapes, id, shape, limits.listings) {
        Ok(()) => Ok(grown),
        Err(why) => Err(refusal_of_tree(why)),
    }
}

// An attribute index with the last row of the file, whose id is new.
fn grown_index<D: Disk>(
    pool: &mut Pool<D>,
    index: AttrIndex,
    shapes: &RowShapes,
    id: u32,
    row: &Row,
    limits: Limits,
) -> Result<AttrIndex, Refusal>
    requires opened { IsOpen pool.old }
    requires row { IsRowOf shapes.now.schema.now row.now }
    requires column { IsColumnAt shapes.now.schema.now shapes.now.column false }
    requires can { IsTold pool.old → CanGrow pool.old.pages limits shapes.now.schema.now shapes.now.file id row.now (shapes.now.column, path.Attribute index) }
    ensures grew { IfOk result (λ grown. IsTold pool.old → PathGrew pool.old.pages pool.new.pages limits shapes.now.schema.now
        (rows_at pool.old.pages shapes.now.schema.now shapes.now.file) id shapes.now.column (path.Attribute index) (path.Attribute grown)) }
    ensures outside { IfErr result IsOutside }
    ensures within { InCommand pool.old pool.new }
    ensures cause { HasStoreCause pool.old pool.new result }
{
    let _limits = limits;
    let Some(value) = value_at(row, shapes.column) else {
        return Err(Refusal::Memory);
    };
    let mut grown = index;
    match grown.add(pool, value, id) {
        Ok(()) => Ok(grown),
        Err(why) => Err(refusal_of(why)),
    }
}

impl AccessPath {
    ghost use Rattle.sand_store.specs.Ownership.{path_pages};

    /// The access path of a column with the last row of the file, whose id is new. `IndexFull` comes exactly where a
    /// quadtree would have too many listings.
    pub(crate) fn with_row<D: Disk>(
        &self,
        alloc: Global,
        pool: &mut Pool<D>,
        shapes: &RowShapes,
        id: u32,
        row: &Row,
        limits: Limits,
    ) -> Result<AccessPath, Refusal>
        requires opened { IsOpen pool.old }
        requires id { 1 ≤ id }
        requires row { IsRowFor shapes.now.schema.now row.now }
        requires of { IsPathOf shapes.now.schema.now (shapes.now.column, self.now) }
        requires can { IsTold pool.old → CanGrow pool.old.pages limits shapes.now.schema.now shapes.now.file id row.now (shapes.now.column, self.now) }
        requires apart { IsTold pool.old → (n : ℕ) → 1 ≤ times n (file_pages (store_of pool.old.pages) shapes.now.file) → IsLive pool.old n × (times n (path_pages pool.old.pages self.now) ≡ 0) }
        ensures grew { IfOk result (λ grown. IsTold pool.old → PathGrew pool.old.pages pool.new.pages limits shapes.now.schema.now
            (rows_at pool.old.pages shapes.now.schema.now shapes.now.file) id shapes.now.column self.now grown) }
        ensures of { IfOk result (λ grown. IsPathOf shapes.now.schema.now (shapes.now.column, grown)) }
        ensures full { IfErr result (λ e. e ≡ why.IndexFull → IsTold pool.old → (gap : Measure) → IsMeasure gap
            → is_overfull limits (index_with gap (rows_at pool.old.pages shapes.now.schema.now shapes.now.file) id (shapes.now.column, index_in pool.old.pages self.now)) ≡ true) }
        ensures outside { IfErr result IsOutsideOrFull }
        ensures within { InCommand pool.old pool.new }
        ensures cause { HasStoreCause pool.old pool.new result }
    {
        match self {
            AccessPath::Quadtree(tree) => {
                match grown_tree(alloc, pool, *tree, shapes, id, row, limits) {
                    Ok(grown) => Ok(AccessPath::Quadtree(grown)),
                    Err(why) => Err(why),
                }
            }
            AccessPath::Attribute(index) => {
                match grown_index(pool, *index, shapes, id, row, limits) {
                    Ok(grown) => Ok(AccessPath::Attribute(grown)),
                    Err(why) => Err(why),
                }
            }
        }
    }
}

/// All access paths of a relation, in their order, with the last row of the file, whose id is new.
pub fn grown_paths<D: Disk>(
    alloc: Global,
    pool: &mut Pool<D>,
    paths: &[(usize, AccessPath)],
    file: TupleFile,
    schema: &Schema,
    id: u32,
    row: &Row,
    limits: Limits,
) -> Result<Vec<(usize, AccessPath)>, Refusal>
    requires opened { IsOpen pool.old }
    requires id { 1 ≤ id }
    requires row { IsRowFor schema.now row.now }
    requires of { All (IsPathOf schema.now) paths.now }
    requires can { IsTold pool.old → AllCanGrow pool.old.pages limits schema.now file id row.now paths.now }
    ensures grew { IfOk result (λ grown. IsTold pool.old → AllGrew pool.old.pages pool.new.pages limits schema.now (rows_at pool.old.pages schema.now file) id paths.now grown.items) }
    ensures places { IfOk result (λ grown. SamePlaces schema.now paths.now grown.items) }
    ensures full { IfErr result (λ e. e ≡ why.IndexFull → IsTold pool.old → (gap : Measure) → IsMeasure gap
        → list_any (is_overfull limits) (map (index_with gap (rows_at pool.old.pages schema.now file) id) (indexes_in pool.old.pages paths.now)) ≡ true) }
    ensures outside { IfErr result IsOutsideOrFull }
    ensures within { InCommand pool.old pool.new }
    ensures cause { HasStoreCause pool.old pool.new result }
{
    let mut grown = Vec::new(alloc);
    'paths: for at in 0..paths.len() {
        let (column, path) = paths[at];
        let shapes = RowShapes {
            file,
            schema,
            column,
        };
        match path.with_row(alloc, pool, &shapes, id, row, limits) {
            Ok(path) => grown.push((column, path))?,
            Err(why) => return Err(why),
        }
    }
    Ok(grown)
}
