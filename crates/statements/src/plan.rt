use crate::{Column, Place, Places, Tests};
use sand_base::{Label, Rect, Shape, Value};
use std::boxed::Box;

/// Which answers a query gives, and in which order. A plan may stand inside another.
#[derive(Drop)]
pub enum Plan {
    /// `scan RELATION`: all rows by id.
    Scan {
        relation: Label,
    },
    /// `rank RELATION.COLUMN from SHAPE [within DISTANCE]`: rows by their gap from the shape, equal gaps by id.
    Rank {
        column: Column,
        goal: Shape,
        within: Option<u32>,
    },
    /// `near RELATION.COLUMN from SHAPE [within DISTANCE]`: the rows of `rank`, found by the column's R-tree.
    Near {
        column: Column,
        goal: Shape,
        within: Option<u32>,
    },
    /// `window RELATION.COLUMN X1 Y1 X2 Y2`: rows whose shape meets the closed rectangle.
    Window {
        column: Column,
        window: Rect,
    },
    /// `pick RELATION.COLUMN = VALUE`: rows with the value.
    PickEqual {
        column: Column,
        value: Value,
    },
    /// `pick RELATION.COLUMN from LOW to HIGH`: rows with an int from the low to the high one.
    PickBetween {
        column: Column,
        low: i64,
        high: i64,
    },
    /// `join LEFT RIGHT [within DISTANCE]`: pairs of rows by their gap.
    Join {
        left: Column,
        right: Column,
        within: Option<u32>,
    },
    /// `semi LEFT RIGHT [within DISTANCE]`: of the pairs by their gap the first with each left row.
    Semi {
        left: Column,
        right: Column,
        within: Option<u32>,
    },
    /// `knn COUNT LEFT RIGHT [within DISTANCE]`: of the pairs by their gap the first COUNT with each left row.
    Knn {
        k: u8,
        left: Column,
        right: Column,
        within: Option<u32>,
    },
    /// `filter (PLAN) where TEST and ..`: the answers that pass all tests.
    Filter {
        plan: Box<Plan>,
        tests: Tests,
    },
    /// `match (PLAN) PLACE = COLUMN`: each answer with each row whose column has the value at the place.
    Match {
        plan: Box<Plan>,
        place: Place,
        column: Column,
    },
    /// `fetch (PLAN) PLACE, ..`: the answers with these values.
    Fetch {
        plan: Box<Plan>,
        places: Places,
    },
    /// `first COUNT (PLAN)`: the first answers.
    First {
        count: u32,
        plan: Box<Plan>,
    },
    /// `sort (PLAN) by PLACE`: the answers by the value at the place.
    SortBy {
        plan: Box<Plan>,
        place: Place,
    },
    /// `sort (PLAN) near PLACE from SHAPE`: the answers by the gap of the shape at the place from the shape.
    SortNear {
        plan: Box<Plan>,
        place: Place,
        goal: Shape,
    },
}
