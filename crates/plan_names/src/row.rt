// Values of rows by id.
ghost use Rattle.std.specs.Prelude.{◌≡◌, ◌+◌, IfOk, IfSome};
ghost use Rattle.sand_base.specs.InRange.{IsValueInRange};
ghost use Rattle.page_pool.specs.Pool.{IsTold};
ghost use Rattle.code_btree.specs.Calls.{Looks};
ghost use Rattle.sand_model.specs.Operators.{kth};
ghost use Rattle.sand_model.specs.Sources.{same_value};
ghost use Rattle.sand_store.specs.Contents.{rows_in};
ghost use Rattle.plan_names.specs.Spots.{Stands};
ghost use Rattle.plan_names.specs.Steps.{column_value};

use page_pool::{PageFault, Pages};
use sand_base::Value;
use sand_store::Relation;
use std::alloc::Global;

/// The value that the row of the id has in a column, without the rest of the row: None where the relation has no such
/// row, or the row no such column.
pub(crate) fn value_of<P: Pages>(
    alloc: Global,
    pages: &mut P,
    relation: &Relation,
    id: u32,
    column: usize,
) -> Result<Option<Value>, PageFault>
    requires { IsTold (P.shown pages.old) → Stands (P.shown pages.old).pages relation.now }
    ensures value { IfOk result (λ value. IsTold (P.shown pages.old) → value ≡ column_value (rows_in (P.shown pages.old).pages relation.now) id column) }
    ensures in_range { IfOk result (λ value. IfSome value IsValueInRange) }
    ensures looks { Looks (P.shown pages.old) (P.shown pages.new) (relation.now.file.tree.height + 1) result }
{
    return relation.file().fetch_placed_value(
        alloc,
        pages,
        relation.spans(),
        relation.schema(),
        id,
        column,
    );
}

/// The k-th id, counted from 1.
pub(crate) fn kth(ids: &[u32], k: u32) -> Option<u32>
    ensures { result ≡ kth ids.now k }
{
    let at = k.checked_sub(1)?;
    ids.get(at as usize).copied()
}

/// Whether two values are equal: ints, or texts.
pub(crate) fn is_same(a: &Value, b: &Value) -> bool
    ensures { result ≡ same_value a.now b.now }
{
    match (a, b) {
        (Value::Int(a), Value::Int(b)) => a == b,
        (Value::Text(a), Value::Text(b)) => a.as_str() == b.as_str(),
        _ => false,
    }
}
