ghost use Rattle.std.specs.Prelude.{IfOk, IfSome};
ghost use Rattle.sand_base.specs.InRange.{IsValueInRange};
ghost use Rattle.page_pool.specs.Pool.{IsTold};
ghost use Rattle.code_btree.specs.Tree.{pages_in};
ghost use Rattle.code_btree.specs.Calls.{Looks};
ghost use Rattle.tuple_codec.specs.Decoding.{IsValueIn};
ghost use Rattle.code_btree.specs.Bytes.{piece};
ghost use Rattle.tuple_file.specs.Page.{tuple_at};
ghost use Rattle.tuple_file.specs.File.{bytes_of};
ghost use Rattle.tuple_file.specs.Calls.{IsDecoded};

use crate::page::{piece_of, tuple_of};
use crate::span::Span;
use page_pool::{PageFault, Pages};
use sand_base::{Row, Schema, Value};
use std::alloc::Global;
use tuple_codec::{decode, decode_value};

/// The row of which the tuple of a slot of page `n` is the encoding: one get.
pub fn row_at<P: Pages>(
    alloc: Global,
    pages: &mut P,
    schema: &Schema,
    n: u64,
    slot: u16,
) -> Result<Option<Row>, PageFault>
    ensures value { IfOk result (λ row. IsTold (P.shown pages.old) → IsDecoded schema.now (tuple_at (bytes_of (pages_in (P.shown pages.old) n)) slot) row) }
    ensures looks { Looks (P.shown pages.old) (P.shown pages.new) 1 result }
{
    let page = pages.live_page(n)?;
    let row = decode(alloc, schema, tuple_of(page, slot))?;
    Ok(row)
}

/// The value in a column of the row of which the tuple of a slot of page `n` is the encoding: one get.
pub fn value_at<P: Pages>(
    alloc: Global,
    pages: &mut P,
    schema: &Schema,
    n: u64,
    slot: u16,
    column: usize,
) -> Result<Option<Value>, PageFault>
    ensures value { IfOk result (λ value. IsTold (P.shown pages.old) → IsValueIn schema.now (tuple_at (bytes_of (pages_in (P.shown pages.old) n)) slot) column value) }
    ensures in_range { IfOk result (λ value. IfSome value IsValueInRange) }
    ensures looks { Looks (P.shown pages.old) (P.shown pages.new) 1 result }
{
    let page = pages.live_page(n)?;
    match decode_value(alloc, schema, tuple_of(page, slot), column) {
        Ok(value) => return Ok(value),
        Err(_) => return Err(PageFault::Memory),
    }
}

/// The value in a column of the row of which the bytes of a span are the encoding: one get.
pub fn value_within<P: Pages>(
    alloc: Global,
    pages: &mut P,
    schema: &Schema,
    span: Span,
    column: usize,
) -> Result<Option<Value>, PageFault>
    ensures value { IfOk result (λ value. IsTold (P.shown pages.old) → IsValueIn schema.now (piece span.length span.start (bytes_of (pages_in (P.shown pages.old) span.page))) column value) }
    ensures in_range { IfOk result (λ value. IfSome value IsValueInRange) }
    ensures looks { Looks (P.shown pages.old) (P.shown pages.new) 1 result }
{
    let page = pages.live_page(span.page)?;
    let bytes = piece_of(page, usize::from(span.start), usize::from(span.length));
    match decode_value(alloc, schema, bytes, column) {
        Ok(value) => return Ok(value),
        Err(_) => return Err(PageFault::Memory),
    }
}
