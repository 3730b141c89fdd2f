// Tests of rows.
ghost use Rattle.std.specs.Prelude.{◌≡◌, ◌+◌, ◌≤◌, ℕ, List, min, All, IfOk};
ghost use Rattle.sand_base.specs.Faults.{last_count};
ghost use Rattle.page_pool.specs.Causes.{HasPageCause};
ghost use Rattle.page_pool.specs.Pool.{IsTold};
ghost use Rattle.page_pool.specs.Reads.{IsRead};
ghost use Rattle.sand_model.specs.Database.{Database};
ghost use Rattle.sand_model.specs.Operators.{PlanRow, is_order, passes, passes_test, passes_all};
ghost use Rattle.statements.specs.declared.test.Test.{Test};
ghost use Rattle.plan_names.specs.Spots.{Stands};
ghost use Rattle.plan_stages.specs.Prices.{spot_price, tests_price};
ghost use Rattle.plan_stages.specs.Tests.{IsTest, AreTests, TestsStand};

use page_pool::{PageFault, Pages};
use plan_names::Spot;
use sand_base::Value;
use script_text::Op;
use std::alloc::Global;
use std::cmp::Ordering;

/// A test of a filter, its place looked up.
#[derive(Drop)]
pub struct SpotTest {
    pub spot: Spot,
    pub op: Op,
    pub value: Value,
}

// Whether the order of two ints is the one that is asked.
fn is_order(op: Op, order: Ordering) -> bool
    ensures { result ≡ is_order op order }
{
    match op {
        Op::Equal => order.is_eq(),
        Op::NotEqual => order.is_ne(),
        Op::Less => order.is_lt(),
        Op::AtMost => order.is_le(),
        Op::Greater => order.is_gt(),
        Op::AtLeast => order.is_ge(),
    }
}

// Whether a value passes a comparison.
fn passes(op: Op, held: &Value, asked: &Value) -> bool
    ensures { result ≡ passes op held.now asked.now }
{
    match (held, asked) {
        (Value::Int(held), Value::Int(asked)) => is_order(op, held.cmp(asked)),
        (Value::Text(held), Value::Text(asked)) => {
            let is_same = held.as_str() == asked.as_str();
            match op {
                Op::Equal => is_same,
                Op::NotEqual => !is_same,
                _ => false,
            }
        }
        _ => false,
    }
}

// Whether a row with these ids passes the test.
#[inline]
fn passes_one<P: Pages>(
    alloc: Global,
    pages: &mut P,
    test: &SpotTest,
    ids: &[u32],
) -> Result<bool, PageFault>
    requires stands { IsTold (P.shown pages.old) → Stands (P.shown pages.old).pages test.now.spot.relation.value }
    ensures value { IfOk result (λ passed. IsTold (P.shown pages.old) → (d : Database) (names : List (List ℕ)) (asked : Test) (row : PlanRow)
        → IsTest d names (P.shown pages.old).pages test.now asked → row.ids ≡ ids.now → passed ≡ passes_test d names row asked) }
    ensures read { IsRead (P.shown pages.old) (P.shown pages.new) }
    ensures up { min (P.shown pages.old).gets last_count ≤ (P.shown pages.new).gets }
    ensures cause { HasPageCause (P.shown pages.old) (P.shown pages.new) result }
    ensures most { (P.shown pages.new).gets ≤ (P.shown pages.old).gets + spot_price test.now.spot }
{
    match test.spot.value(alloc, pages, ids) {
        Ok(Some(value)) => return Ok(passes(test.op, &value, &test.value)),
        Ok(None) => return Ok(false),
        Err(fault) => return Err(fault),
    }
}

// Whether a row with these ids passes each of the tests, of which each reads one value.
#[inline(never)]
fn passes_each<P: Pages>(
    alloc: Global,
    pages: &mut P,
    tests: &[SpotTest],
    ids: &[u32],
) -> Result<bool, PageFault>
    requires stands { TestsStand (P.shown pages.old) tests.now }
    ensures value { IfOk result (λ passed. IsTold (P.shown pages.old) → (d : Database) (names : List (List ℕ)) (asked : List Test) (row : PlanRow)
        → AreTests d names (P.shown pages.old).pages tests.now asked → row.ids ≡ ids.now → passed ≡ passes_all d names asked row) }
    ensures read { IsRead (P.shown pages.old) (P.shown pages.new) }
    ensures up { min (P.shown pages.old).gets last_count ≤ (P.shown pages.new).gets }
    ensures cause { HasPageCause (P.shown pages.old) (P.shown pages.new) result }
    ensures most { (P.shown pages.new).gets ≤ (P.shown pages.old).gets + tests_price tests.now }
{
    match tests {
        [] => Ok(true),
        [test, rest @ ..] => match passes_one(alloc, pages, test, ids) {
            Ok(true) => passes_each(alloc, pages, rest, ids),
            Ok(false) => Ok(false),
            Err(fault) => Err(fault),
        },
    }
}

/// Whether a row with these ids passes all tests, each of which reads one value. Mostly there is one.
#[inline]
pub(crate) fn passes_all<P: Pages>(
    alloc: Global,
    pages: &mut P,
    tests: &[SpotTest],
    ids: &[u32],
) -> Result<bool, PageFault>
    requires stands { TestsStand (P.shown pages.old) tests.now }
    ensures value { IfOk result (λ passed. IsTold (P.shown pages.old) → (d : Database) (names : List (List ℕ)) (asked : List Test) (row : PlanRow)
        → AreTests d names (P.shown pages.old).pages tests.now asked → row.ids ≡ ids.now → passed ≡ passes_all d names asked row) }
    ensures read { IsRead (P.shown pages.old) (P.shown pages.new) }
    ensures up { min (P.shown pages.old).gets last_count ≤ (P.shown pages.new).gets }
    ensures cause { HasPageCause (P.shown pages.old) (P.shown pages.new) result }
    ensures most { (P.shown pages.new).gets ≤ (P.shown pages.old).gets + tests_price tests.now }
{
    match tests {
        [test] => return passes_one(alloc, pages, test, ids),
        _ => return passes_each(alloc, pages, tests, ids),
    }
}
