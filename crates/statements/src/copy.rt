ghost use Rattle.std.specs.Prelude.{◌≡◌, ◌^◌, ◌-◌, IfOk, box_value, min};
ghost use Rattle.statements.specs.Plan.{plan_value, depth, Rank, Near, PickEqual, Join, Semi, Knn, Filter, Match, Fetch, First, SortBy, SortNear};

use crate::{Column, Place, Places, Plan, Test, Tests};
use sand_base::{NoMemory, Shape, Value};
use std::alloc::Global;
use std::boxed::Box;

impl Column {
    /// An equal column.
    pub fn copy(&self, alloc: Global) -> Result<Column, NoMemory>
        ensures { IfOk result (λ column. column ≡ self.now) }
    {
        Ok(Column {
            relation: self.relation.copy(alloc)?,
            column: self.column.copy(alloc)?,
        })
    }
}

impl Place {
    /// An equal place.
    pub fn copy(&self, alloc: Global) -> Result<Place, NoMemory>
        ensures { IfOk result (λ place. place ≡ self.now) }
    {
        Ok(Place {
            k: self.k,
            column: self.column.copy(alloc)?,
        })
    }
}

impl Test {
    /// An equal test.
    pub fn copy(&self, alloc: Global) -> Result<Test, NoMemory>
        ensures { IfOk result (λ test. test ≡ self.now) }
    {
        Ok(Test {
            place: self.place.copy(alloc)?,
            op: self.op,
            value: self.value.copy(alloc)?,
        })
    }
}

impl Tests {
    /// An equal list.
    pub fn copy(&self, alloc: Global) -> Result<Tests, NoMemory>
        ensures { IfOk result (λ tests. tests ≡ self.now) }
    {
        let mut items = Vec::with_capacity(alloc, self.as_slice().len())?;
        'tests: for test in self.as_slice() {
            items.push(test.copy(alloc)?)?;
        }
        Ok(Tests::new(items))
    }
}

impl Places {
    /// An equal list.
    pub fn copy(&self, alloc: Global) -> Result<Places, NoMemory>
        ensures { IfOk result (λ places. places ≡ self.now) }
    {
        let mut items = Vec::with_capacity(alloc, self.as_slice().len())?;
        'places: for place in self.as_slice() {
            items.push(place.copy(alloc)?)?;
        }
        Ok(Places::new(items))
    }
}

// A copy of each operator that has two parts to copy, in a function of its own.
fn rank(alloc: Global, column: &Column, goal: &Shape, within: Option<u32>) -> Result<Plan, NoMemory>
    ensures { IfOk result (λ copy. plan_value copy ≡ Rank column.now goal.now within) }
{
    Ok(Plan::Rank {
        column: column.copy(alloc)?,
        goal: goal.copy(alloc)?,
        within,
    })
}

fn near(alloc: Global, column: &Column, goal: &Shape, within: Option<u32>) -> Result<Plan, NoMemory>
    ensures { IfOk result (λ copy. plan_value copy ≡ Near column.now goal.now within) }
{
    Ok(Plan::Near {
        column: column.copy(alloc)?,
        goal: goal.copy(alloc)?,
        within,
    })
}

fn pick_equal(alloc: Global, column: &Column, value: &Value) -> Result<Plan, NoMemory>
    ensures { IfOk result (λ copy. plan_value copy ≡ PickEqual column.now value.now) }
{
    Ok(Plan::PickEqual {
        column: column.copy(alloc)?,
        value: value.copy(alloc)?,
    })
}

fn join(alloc: Global, left: &Column, right: &Column, within: Option<u32>) -> Result<Plan, NoMemory>
    ensures { IfOk result (λ copy. plan_value copy ≡ Join left.now right.now within) }
{
    Ok(Plan::Join {
        left: left.copy(alloc)?,
        right: right.copy(alloc)?,
        within,
    })
}

fn semi(alloc: Global, left: &Column, right: &Column, within: Option<u32>) -> Result<Plan, NoMemory>
    ensures { IfOk result (λ copy. plan_value copy ≡ Semi left.now right.now within) }
{
    Ok(Plan::Semi {
        left: left.copy(alloc)?,
        right: right.copy(alloc)?,
        within,
    })
}

fn knn(
    alloc: Global,
    k: u8,
    left: &Column,
    right: &Column,
    within: Option<u32>,
) -> Result<Plan, NoMemory>
    ensures { IfOk result (λ copy. plan_value copy ≡ Knn k left.now right.now within) }
{
    Ok(Plan::Knn {
        k,
        left: left.copy(alloc)?,
        right: right.copy(alloc)?,
        within,
    })
}

// An equal plan in a box of its own.
#[cycle(copy)]
fn boxed(alloc: Global, plan: &Plan) -> Result<Box<Plan>, NoMemory>
    ensures { IfOk result (λ copy. plan_value (box_value copy) ≡ plan_value plan.now) }
{
    Ok(Box::new(alloc, plan.copy(alloc)?)?)
}

// A copy of each operator over another, in a function of its own so that a step of the recursion takes little of the stack.
#[cycle(copy)]
fn filter(alloc: Global, plan: &Plan, tests: &Tests) -> Result<Plan, NoMemory>
    ensures { IfOk result (λ copy. plan_value copy ≡ Filter (plan_value plan.now) tests.now) }
{
    Ok(Plan::Filter {
        plan: boxed(alloc, plan)?,
        tests: tests.copy(alloc)?,
    })
}

#[cycle(copy)]
fn matched(alloc: Global, plan: &Plan, place: &Place, column: &Column) -> Result<Plan, NoMemory>
    ensures { IfOk result (λ copy. plan_value copy ≡ Match (plan_value plan.now) place.now column.now) }
{
    Ok(Plan::Match {
        plan: boxed(alloc, plan)?,
        place: place.copy(alloc)?,
        column: column.copy(alloc)?,
    })
}

#[cycle(copy)]
fn fetch(alloc: Global, plan: &Plan, places: &Places) -> Result<Plan, NoMemory>
    ensures { IfOk result (λ copy. plan_value copy ≡ Fetch (plan_value plan.now) places.now) }
{
    Ok(Plan::Fetch {
        plan: boxed(alloc, plan)?,
        places: places.copy(alloc)?,
    })
}

#[cycle(copy)]
fn first(alloc: Global, count: u32, plan: &Plan) -> Result<Plan, NoMemory>
    ensures { IfOk result (λ copy. plan_value copy ≡ First count (plan_value plan.now)) }
{
    Ok(Plan::First {
        count,
        plan: boxed(alloc, plan)?,
    })
}

#[cycle(copy)]
fn sort_by(alloc: Global, plan: &Plan, place: &Place) -> Result<Plan, NoMemory>
    ensures { IfOk result (λ copy. plan_value copy ≡ SortBy (plan_value plan.now) place.now) }
{
    Ok(Plan::SortBy {
        plan: boxed(alloc, plan)?,
        place: place.copy(alloc)?,
    })
}

#[cycle(copy)]
fn sort_near(alloc: Global, plan: &Plan, place: &Place, goal: &Shape) -> Result<Plan, NoMemory>
    ensures { IfOk result (λ copy. plan_value copy ≡ SortNear (plan_value plan.now) place.now goal.now) }
{
    Ok(Plan::SortNear {
        plan: boxed(alloc, plan)?,
        place: place.copy(alloc)?,
        goal: goal.copy(alloc)?,
    })
}

impl Plan {
    /// An equal plan.
    #[cycle(copy)]
    pub fn copy(&self, alloc: Global) -> Result<Plan, NoMemory>
        ensures { IfOk result (λ copy. plan_value copy ≡ plan_value self.now) }
    {
        match self {
            Plan::Scan { relation } => Ok(Plan::Scan {
                relation: relation.copy(alloc)?,
            }),
            Plan::Rank {
                column,
                goal,
                within,
            } => rank(alloc, column, goal, *within),
            Plan::Near {
                column,
                goal,
                within,
            } => near(alloc, column, goal, *within),
            Plan::Window { column, window } => Ok(Plan::Window {
                column: column.copy(alloc)?,
                window: *window,
            }),
            Plan::PickEqual { column, value } => pick_equal(alloc, column, value),
            Plan::PickBetween { column, low, high } => Ok(Plan::PickBetween {
                column: column.copy(alloc)?,
                low: *low,
                high: *high,
            }),
            Plan::Join {
                left,
                right,
                within,
            } => join(alloc, left, right, *within),
            Plan::Semi {
                left,
                right,
                within,
            } => semi(alloc, left, right, *within),
            Plan::Knn {
                k,
                left,
                right,
                within,
            } => knn(alloc, *k, left, right, *within),
            Plan::Filter { plan, tests } => filter(alloc, plan, tests),
            Plan::Match {
                plan,
                place,
                column,
            } => matched(alloc, plan, place, column),
            Plan::Fetch { plan, places } => fetch(alloc, plan, places),
            Plan::First { count, plan } => first(alloc, *count, plan),
            Plan::SortBy { plan, place } => sort_by(alloc, plan, place),
            Plan::SortNear { plan, place, goal } => sort_near(alloc, plan, place, goal),
        }
    }

    /// How many operators the plan has; the greatest number where there are more.
    #[cycle(depth)]
    pub fn depth(&self) -> usize
        ensures { result ≡ min (depth (plan_value self.now)) (2 ^ 64 - 1) }
    {
        match self {
            Plan::Filter { plan, .. }
            | Plan::Match { plan, .. }
            | Plan::Fetch { plan, .. }
            | Plan::First { plan, .. }
            | Plan::SortBy { plan, .. }
            | Plan::SortNear { plan, .. } => plan.depth().saturating_add(1),
            _ => 1,
        }
    }
}
