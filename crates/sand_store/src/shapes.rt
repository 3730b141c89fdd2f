// Where trees read the shapes of rows, in the middle of a change and for readers.
ghost use Rattle.std.specs.Prelude.{◌≡◌, ◌↔◌, true, Some, IfOk, IfErr, IfSome, option_map};
ghost use Rattle.sand_base.specs.Grid.{IsInPlane};
ghost use Rattle.sand_base.specs.Plane.{IsShapeInPlane};
ghost use Rattle.sand_base.specs.declared.value.Value.TheVariants as held;
ghost use Rattle.sand_model.specs.Database.{element, shape_in};
ghost use Rattle.page_pool.specs.Causes.{IsMemory};

use page_pool::{PageFault, Pages};
use pmr_tree::ShapeOf;
use sand_base::{COORDINATE_BITS, Point, Row, Schema, Shape, Value};
use std::alloc::Global;
use tuple_file::TupleFile;

// Whether the point is a grid point of the plane.
fn is_in_plane(at: Point) -> bool
    ensures { (result ≡ true) ↔ IsInPlane at }
{
    at.x < 1 << COORDINATE_BITS && at.y < 1 << COORDINATE_BITS
}

/// Whether the shape lies in the plane. A ring does.
pub fn is_shape_in_plane(shape: &Shape) -> bool
    ensures { result ≡ true → IsShapeInPlane shape.now }
{
    match shape {
        Shape::Point(at) => is_in_plane(*at),
        Shape::Segment(way) => is_in_plane(way.a) && is_in_plane(way.b),
        Shape::Polygon(ring) => ring.corners().len() >= 3,
    }
}

/// The value that a row has in a column.
pub fn value_at<'r>(row: &'r Row, column: usize) -> Option<&'r Value>
    ensures { option_map (λ v. v.now) result ≡ element row.now column }
{
    row.values().get(column)
}

/// The shape that a row has in a column.
pub fn shape_at<'r>(row: &'r Row, column: usize) -> Option<&'r Shape>
    ensures { option_map (λ s. s.now) result ≡ shape_in column row.now }
{
    match row.values().get(column) {
        Some(Value::Shape(shape)) => Some(shape),
        _ => None,
    }
}

/// The shape that a row has in a column, where it lies in the plane; every row of a store over a disk that tells has
/// it there.
pub fn plane_shape_at<'r>(row: &'r Row, column: usize) -> Option<&'r Shape>
    ensures shape { IfSome result (λ s. shape_in column row.now ≡ Some s.now) }
    ensures plane { IfSome result (λ s. IsShapeInPlane s.now) }
{
    let shape = shape_at(row, column)?;
    if !is_shape_in_plane(shape) {
        return None;
    }
    Some(shape)
}

// The shape that a value is. Where it is none, or it lies outside the plane, it is out of memory: no row of a store
// over a disk that tells is so.
fn shape_of_value(value: Option<Value>) -> Result<Shape, PageFault>
    ensures value { IfOk result (λ shape. value ≡ Some (held.Shape shape)) }
    ensures plane { IfOk result IsShapeInPlane }
    ensures memory { IfErr result IsMemory }
{
    let Some(Value::Shape(shape)) = value else {
        return Err(PageFault::Memory);
    };
    if !is_shape_in_plane(&shape) {
        return Err(PageFault::Memory);
    }
    Ok(shape)
}

/// The shapes that the rows of a file have in a column.
#[derive(Clone, Copy)]
pub struct RowShapes<'s> {
    pub file: TupleFile,
    pub schema: &'s Schema,
    pub column: usize,
}

impl<'s> ShapeOf for RowShapes<'s> {
    ghost use Rattle.std.specs.Prelude.{◌+◌, ◌≤◌};
    ghost use Rattle.code_btree.specs.Tree.{times};
    ghost use Rattle.pmr_tree.specs.Quadtree.{store_of};
    ghost use Rattle.sand_model.specs.Database.{shapes_of};
    ghost use Rattle.tuple_file.specs.File.{file_pages};
    ghost use Rattle.sand_store.specs.Contents.{rows_at};
    ghost use Rattle.sand_store.specs.Standing.{TableStands};
    ghost use Rattle.sand_store.specs.TableLaws.{table_same, shapes_same, pages_same, shapes_plane};

    ghost rows = { λ s pages. shapes_of s.column (rows_at pages s.schema.now s.file) };

    ghost Stands = { λ s pages. TableStands pages s.schema.now s.file };

    ghost Owns = { λ s pages n. 1 ≤ times n (file_pages (store_of pages) s.file) };

    ghost price = { λ s. s.file.tree.height + 1 };

    fn shape_of<P: Pages>(
        &self,
        alloc: Global,
        pages: &mut P,
        id: u32,
    ) -> Result<Shape, PageFault> {
        // For the proof alone: a count of gets is at most the greatest u64, so it doesn't fall.
        let _before = pages.gets();
        let value = self
            .file
            .fetch_value(alloc, pages, self.schema, id, self.column)?;
        match shape_of_value(value) {
            Ok(shape) => Ok(shape),
            Err(why) => Err(why),
        }
    }

    ghost in_plane = { λ s pages h. shapes_plane s.schema.now s.column (rows_at pages s.schema.now s.file) h.rows };

    ghost own_stands = { λ s m w h same. table_same m w s.schema.now s.file same h };

    ghost own_rows = { λ s m w h same. shapes_same m w s.schema.now s.file s.column same };

    ghost own_pages = { λ s m w h same. pages_same m w s.file same };
}
