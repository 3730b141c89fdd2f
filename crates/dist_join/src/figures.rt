ghost use Rattle.std.specs.Prelude.{◌≡◌};
ghost use Rattle.sand_base.specs.Plane.{IsGoalInClosedPlane, IsRectInClosedPlane};
ghost use Rattle.sand_base.specs.declared.goal.Goal.TheVariants as of_figure;
ghost use Rattle.z_code.specs.Block.{IsWithSquare};
ghost use Rattle.pmr_tree.specs.Entries.{figure_of, IsRoughInPlane};
ghost use Rattle.best_first.specs.Item.{IsAlike};
ghost use Rattle.best_first.specs.Reach.{IsSameGap};
ghost use Rattle.rank_cursor.specs.Cursor.{the_measure};
ghost use Rattle.dist_join.specs.OverPages.{blocks_found, is_bound};

use best_first::Item;
use exact_frac::Frac;
use ring_geom::{gap_goal, gap_goal_rect};
use sand_base::{Goal, Rect, Rough, Shape};
use z_code::Block;

// The gap of two figures.
pub fn figures_gap(a: &Goal, b: &Goal) -> Frac
    requires a { IsGoalInClosedPlane a.now }
    requires b { IsGoalInClosedPlane b.now }
    ensures { IsSameGap result (the_measure a.now b.now) }
{
    match b {
        Goal::Shape(shape) => gap_goal(a, shape),
        Goal::Rect(rect) => gap_goal_rect(a, *rect),
    }
}

// The gap of two rectangles.
pub fn rects_gap(left: Rect, right: Rect) -> Frac
    requires left { IsRectInClosedPlane left }
    requires right { IsRectInClosedPlane right }
    ensures { IsSameGap result (the_measure (of_figure.Rect left) (of_figure.Rect right)) }
{
    gap_goal_rect(&Goal::Rect(left), right)
}

// Two blocks as the frontier holds them, under the gap of their squares.
pub fn pair_item(left: (Block, Rect), right: (Block, Rect)) -> Item<(Block, Block)>
    requires left { IsWithSquare left }
    requires right { IsWithSquare right }
    ensures { IsAlike result (blocks_found (left.0, right.0)) }
{
    let gap = rects_gap(left.1, right.1);
    Item::Node {
        gap,
        node: (left.0, right.0),
    }
}

// A rough shape as a figure.
pub fn figure(rough: Rough) -> Goal
    requires { IsRoughInPlane rough }
    ensures figure { result ≡ figure_of rough }
    ensures plane { IsGoalInClosedPlane result }
{
    match rough {
        Rough::Point(p) => Goal::Shape(Shape::Point(p)),
        Rough::Segment(s) => Goal::Shape(Shape::Segment(s)),
        Rough::Bound(r) => Goal::Rect(r),
    }
}

// Whether the rough shape is a bounding rectangle.
pub fn is_bound(rough: Rough) -> bool
    ensures { result ≡ is_bound rough }
{
    match rough {
        Rough::Point(_) => false,
        Rough::Segment(_) => false,
        Rough::Bound(_) => true,
    }
}
