// The columns of a relation: their places, their indexes, and the shapes of their rows.
ghost use Rattle.std.specs.Prelude.{◌≡◌, position, option_map};
ghost use Rattle.sand_model.specs.Database.{same_name};
ghost use Rattle.sand_store.specs.Paths.{path_at, rtree_at};

use crate::shapes::RowShapes;
use crate::{AccessPath, Relation};
use attr_index::AttrIndex;
use page_pool::{PageFault, Pages};
use pmr_tree::{Pmr, ShapeOf};
use r_tree::RTree;
use sand_base::{Kind, Label, NoMemory, Refusal, Schema, Shape};
use std::alloc::Global;
use std::rc::Rc;
use tuple_file::TupleFile;

// The place of the first column of the name.
fn place_in(columns: &[(Label, Kind)], name: &str) -> Option<usize>
    ensures { result ≡ position (λ column. same_name column.0 name.now) columns.now }
{
    columns.iter().position(|column| column.0.as_str() == name)
}

// The access path of a column.
fn path_in(paths: &[(usize, AccessPath)], column: usize) -> Option<&AccessPath>
    ensures { option_map (λ p. p.now) result ≡ path_at paths.now column }
{
    let found = paths.iter().find(|path| path.0 == column)?;
    Some(&found.1)
}

// The R-tree of a column.
fn tree_in(trees: &[(usize, RTree)], column: usize) -> Option<RTree>
    ensures { result ≡ rtree_at trees.now column }
{
    let found = trees.iter().find(|tree| tree.0 == column)?;
    Some(found.1)
}

impl Relation {
    ghost use Rattle.std.specs.Prelude.{◌≡◌, ℕ, ◌-◌, ◌≤◌, ◌<◌, true, false, nat_eq, length, All, None, is_some, IfOk, IfSome, IfErr, OnOk, OnErr, option_map};
    ghost use Rattle.std.specs.List.{list_any};
    ghost use Rattle.sand_base.specs.declared.refusal.Refusal.TheVariants as why;
    ghost use Rattle.page_pool.specs.Disk.{PageMap};
    ghost use Rattle.sand_base.specs.declared.limits.Limits.{Limits};
    ghost use Rattle.r_tree.specs.Listing.{ListsRows};
    ghost use Rattle.sand_model.specs.Database.{column_named, shapes_of};
    ghost use Rattle.sand_store.specs.Contents.{rows_in, relation_in};
    ghost use Rattle.sand_store.specs.Standing.{RelationStands};
    ghost use Rattle.sand_store.specs.Paths.{path_at, rtree_at, tree_in_path, attribute_in_path, IsTreeOf, IsAttributeOf, HasNoIndex};
    ghost use Rattle.sand_store.specs.Building.{indexed_view};
    ghost use Rattle.sand_store.specs.Treeing.{treed_view};

    /// The place of the first column of the name, counted from 0; `None` exactly where none has it.
    pub fn column(&self, name: &str) -> Option<usize>
        ensures place { result ≡ column_named self.now.schema name.now }
        ensures inside { IfSome result (λ at. at < length self.now.schema) }
    {
        place_in(self.schema.columns(), name)
    }

    // The access path of a column.
    pub(crate) fn path(&self, column: usize) -> Option<&AccessPath>
        ensures { option_map (λ p. p.now) result ≡ path_at self.now.paths column }
    {
        path_in(&self.paths, column)
    }

    /// The quadtree of a column. A column of shapes has none exactly where it has no index.
    pub fn quadtree(&self, column: usize) -> Option<&Pmr>
        ensures path { option_map (λ tree. tree.now) result ≡ tree_in_path (path_at self.now.paths column) }
        ensures tree { IfSome result (λ tree. IsTreeOf self.now column tree.now) }
        ensures none { result ≡ None → HasNoIndex self.now column true }
    {
        match self.path(column) {
            Some(AccessPath::Quadtree(tree)) => Some(tree),
            Some(AccessPath::Attribute(_)) => None,
            None => None,
        }
    }

    /// The attribute index of a column. A column of ints or texts has none exactly where it has no index.
    pub fn attribute(&self, column: usize) -> Option<&AttrIndex>
        ensures path { option_map (λ index. index.now) result ≡ attribute_in_path (path_at self.now.paths column) }
        ensures index { IfSome result (λ index. IsAttributeOf self.now column index.now) }
        ensures none { result ≡ None → HasNoIndex self.now column false }
    {
        match self.path(column) {
            Some(AccessPath::Attribute(index)) => Some(index),
            Some(AccessPath::Quadtree(_)) => None,
            None => None,
        }
    }

    /// The R-tree of a column; `None` exactly where it has none.
    pub fn rtree(&self, column: usize) -> Option<RTree>
        ensures tree { result ≡ rtree_at self.now.trees column }
        ensures there { (pages : PageMap) → is_some result ≡ list_any (λ tree. nat_eq tree.0 column) (relation_in pages self.now).rectangles }
        ensures lists { IfSome result (λ tree. (pages : PageMap) (limits : Limits) → RelationStands pages limits self.now → ListsRows pages tree (shapes_of column (rows_in pages self.now))) }
    {
        tree_in(&self.trees, column)
    }

    // The relation with one R-tree more, the last one. After a refusal it is as it was.
    pub(crate) fn take_tree(&mut self, column: usize, tree: RTree) -> Result<(), Refusal>
        ensures added { OnOk result (self.new ≡ treed_view self.old column tree) }
        ensures unchanged { OnErr result (self.new ≡ self.old) }
        ensures memory { IfErr result (λ refusal. refusal ≡ why.Memory) }
    {
        match self.trees.push((column, tree)) {
            Ok(()) => Ok(()),
            Err(_full) => Err(Refusal::Memory),
        }
    }

    // The relation with one access path more, the last one. After a refusal it is as it was.
    pub(crate) fn take_path(&mut self, column: usize, path: AccessPath) -> Result<(), Refusal>
        ensures added { OnOk result (self.new ≡ indexed_view self.old column path) }
        ensures unchanged { OnErr result (self.new ≡ self.old) }
        ensures memory { IfErr result (λ refusal. refusal ≡ why.Memory) }
    {
        match self.paths.push((column, path)) {
            Ok(()) => Ok(()),
            Err(_full) => Err(Refusal::Memory),
        }
    }

    /// The shapes that the rows have in a column.
    pub fn shapes(&self, alloc: Global, column: usize) -> Result<FileShapes, NoMemory>
        ensures file { IfOk result (λ shapes. shapes.file ≡ self.now.file) }
        ensures schema { IfOk result (λ shapes. shapes.schema ≡ self.now.schema) }
        ensures column { IfOk result (λ shapes. shapes.column ≡ column) }
    {
        let schema = self.schema.copy(alloc)?;
        Ok(FileShapes {
            file: self.file,
            schema,
            column,
        })
    }

    /// The relation as it is now, for cursors, which keep it while the catalog's goes on.
    pub fn shared(&self, alloc: Global) -> Result<Rc<Relation>, NoMemory>
        ensures { IfOk result (λ shared. shared.value ≡ self.now) }
    {
        match Rc::new(alloc, self.copy(alloc)?) {
            Ok(shared) => Ok(shared),
            Err(_full) => Err(NoMemory {}),
        }
    }

    /// The number of rows.
    pub fn rows(&self) -> u32
        ensures { (pages : PageMap) (limits : Limits) → RelationStands pages limits self.now → result ≡ length (rows_in pages self.now) }
    {
        // Where the disk doesn't tell, the count may be any number; no relation has more rows than ids.
        self.file.tree.entries.min(u64::from(self.next)) as u32
    }

    /// The number of ids that were given out, and the greatest of them; 0 before the first one.
    pub fn greatest(&self) -> u32
        ensures given { result ≡ self.now.next - 1 }
        ensures greatest { (pages : PageMap) (limits : Limits) → RelationStands pages limits self.now → All (λ row. row.0 ≤ result) (rows_in pages self.now) }
    {
        self.next.saturating_sub(1)
    }
}

/// The shapes that the rows of a file have in a column of shapes, for searches, which keep what they need.
#[derive(Drop)]
pub struct FileShapes {
    pub file: TupleFile,
    pub schema: Schema,
    pub column: usize,
}

impl ShapeOf for FileShapes {
    ghost use Rattle.std.specs.Prelude.{◌+◌, ◌≤◌};
    ghost use Rattle.code_btree.specs.Tree.{times};
    ghost use Rattle.pmr_tree.specs.Quadtree.{store_of};
    ghost use Rattle.sand_model.specs.Database.{shapes_of};
    ghost use Rattle.tuple_file.specs.File.{file_pages};
    ghost use Rattle.sand_store.specs.Contents.{rows_at};
    ghost use Rattle.sand_store.specs.Standing.{TableStands};
    ghost use Rattle.sand_store.specs.TableLaws.{table_same, shapes_same, pages_same, shapes_plane};

    ghost rows = { λ s pages. shapes_of s.column (rows_at pages s.schema s.file) };

    ghost Stands = { λ s pages. TableStands pages s.schema s.file };

    ghost Owns = { λ s pages n. 1 ≤ times n (file_pages (store_of pages) s.file) };

    ghost price = { λ s. s.file.tree.height + 1 };

    fn shape_of<P: Pages>(
        &self,
        alloc: Global,
        pages: &mut P,
        id: u32,
    ) -> Result<Shape, PageFault> {
        let shapes = RowShapes {
            file: self.file,
            schema: &self.schema,
            column: self.column,
        };
        match shapes.shape_of(alloc, pages, id) {
            Ok(shape) => Ok(shape),
            Err(why) => Err(why),
        }
    }

    ghost in_plane = { λ s pages h. shapes_plane s.schema s.column (rows_at pages s.schema s.file) h.rows };

    ghost own_stands = { λ s m w h same. table_same m w s.schema s.file same h };

    ghost own_rows = { λ s m w h same. shapes_same m w s.schema s.file s.column same };

    ghost own_pages = { λ s m w h same. pages_same m w s.file same };
}
