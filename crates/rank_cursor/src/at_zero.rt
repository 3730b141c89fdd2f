ghost use Rattle.std.specs.Prelude.{◌≡◌, ◌<◌, ◌^◌, ◌↔◌, ◌++◌, ◌∷◌, [], List, map, length, IsTrue, OnOk, OnErr};
ghost use Rattle.sand_base.specs.Plane.{IsGoalInClosedPlane, IsInClosedPlane, IsRectInClosedPlane, IsShapeInClosedPlane};
ghost use Rattle.sand_base.specs.declared.goal.Goal.TheVariants as figure;
ghost use Rattle.sand_base.specs.declared.shape.Shape.TheVariants as shape;
ghost use Rattle.sand_base.specs.declared.TheConstants.{COORDINATE_BITS};
ghost use Rattle.z_code.specs.declared.block.Block.{Block};
ghost use Rattle.z_code.specs.Block.{IsBlock, IsWithSquare, children_of};
ghost use Rattle.ring_geom.specs.Bounding.{Overlap};
ghost use Rattle.pmr_tree.specs.Calls.{IsFoundInRange};
ghost use Rattle.pmr_tree.specs.Entries.{IsRoughInPlane};
ghost use Rattle.pmr_tree.specs.Listing.{listed_in};
ghost use Rattle.pmr_tree.specs.declared.listed.Node.TheVariants as of_tree;
ghost use Rattle.best_first.specs.Item.{IsAlike};
ghost use Rattle.best_first.specs.RowsAtZero.{zero_gap};
ghost use Rattle.best_first.specs.ZeroItems.{OpensNode};
ghost use Rattle.rank_cursor.specs.Cursor.{goal_gap, block_found, entry_found, place_found};
ghost use Rattle.rank_cursor.specs.AtZero.{HaveBits, list_found, OpensPlace};

use crate::entries::{rect_gap, shape_gap};
use best_first::{Item, ZeroQueue};
use pmr_tree::{LeafList, Listed, Node, listed_of};
use ring_geom::meets_rect;
use sand_base::{Goal, NoMemory, Point, Rect, Rough, Shape};
use z_code::Block;

// A child under the gap of its square.
#[inline]
fn child_item(goal: &Goal, child: (Block, Rect)) -> Item<Block>
    requires goal { IsGoalInClosedPlane goal.now }
    requires square { IsWithSquare child }
    ensures { IsAlike result (block_found goal.now child.0) }
{
    let (node, square) = child;
    Item::Node {
        gap: rect_gap(goal, square),
        node,
    }
}

// The children that touch the goal take the place of their block.
fn open_children(goal: &Goal, block: Block, queue: &mut ZeroQueue<Block>) -> Result<(), NoMemory>
    requires goal { IsGoalInClosedPlane goal.now }
    requires block { IsBlock block }
    requires above_points { block.level < COORDINATE_BITS }
    ensures opened { OnOk result (OpensPlace block (map (block_found goal.now) (children_of block)) queue.old queue.new) }
    ensures refused { OnErr result (queue.new ≡ queue.old) }
{
    let [first, second, third, fourth] = block.quarters();
    queue.open(&[
        child_item(goal, first),
        child_item(goal, second),
        child_item(goal, third),
        child_item(goal, fourth),
    ])
}

// Whether there is a bit for the id of an entry, where it lists one.
#[inline]
fn has_bit(pair: (u128, u128), queue: &ZeroQueue<Block>) -> bool
    ensures { IsTrue result ↔ HaveBits queue.now.below (listed_in (pair ∷ [])) }
{
    match listed_of(pair) {
        Some(listed) => queue.has_bit(listed.id),
        None => true,
    }
}

// Whether there is a bit for each id that a leaf lists.
fn have_bits(list: &LeafList, queue: &ZeroQueue<Block>) -> bool
    ensures { IsTrue result ↔ HaveBits queue.now.below list.now }
{
    let pairs = list.pairs();
    'ids: for pair in pairs {
        if !has_bit(*pair, queue) {
            return false;
        }
    }
    true
}

// Whether two closed rectangles have a point in common.
#[inline]
fn overlap(a: Rect, b: Rect) -> bool
    ensures { IsTrue result ↔ Overlap a b }
{
    a.low.x <= b.high.x && b.low.x <= a.high.x && a.low.y <= b.high.y && b.low.y <= a.high.y
}

// Whether a rectangle is at the distance 0 from the goal. A window needs no distance for that.
#[inline]
fn touches_rect(goal: &Goal, r: Rect) -> bool
    requires goal { IsGoalInClosedPlane goal.now }
    requires rect { IsRectInClosedPlane r }
    ensures { IsTrue result ↔ ((goal_gap goal.now (figure.Rect r)).num ≡ 0) }
{
    match goal {
        Goal::Rect(window) => overlap(*window, r),
        Goal::Shape(_) => rect_gap(goal, r).num() == 0,
    }
}

// Whether a point is at the distance 0 from the goal.
#[inline]
fn touches_point(goal: &Goal, p: Point) -> bool
    requires goal { IsGoalInClosedPlane goal.now }
    requires point { IsInClosedPlane p }
    ensures { IsTrue result ↔ ((goal_gap goal.now (figure.Shape (shape.Point p))).num ≡ 0) }
{
    match goal {
        Goal::Rect(window) => overlap(Rect { low: p, high: p }, *window),
        Goal::Shape(_) => shape_gap(goal, &Shape::Point(p)).num() == 0,
    }
}

// Whether a shape is at the distance 0 from the goal. A window measures only shapes whose bounding rectangles it
// overlaps.
#[inline]
fn touches_shape(goal: &Goal, shape: &Shape) -> bool
    requires goal { IsGoalInClosedPlane goal.now }
    requires shape { IsShapeInClosedPlane shape.now }
    ensures { IsTrue result ↔ ((goal_gap goal.now (figure.Shape shape.now)).num ≡ 0) }
{
    match goal {
        Goal::Rect(window) => meets_rect(shape, *window),
        Goal::Shape(_) => shape_gap(goal, shape).num() == 0,
    }
}

// Adds what an entry of a leaf gives, if it touches the goal: by its id, for which there is a bit.
#[inline]
fn add_entry(goal: &Goal, listed: Listed, queue: &mut ZeroQueue<Block>)
    requires goal { IsGoalInClosedPlane goal.now }
    requires rough { IsRoughInPlane listed.rough }
    requires bit { listed.id < queue.old.below }
    ensures { OpensNode queue.old.nodes (entry_found goal.now zero_gap listed.id listed.rough) queue.old queue.new }
{
    match listed.rough {
        Rough::Point(p) => {
            if touches_point(goal, p) {
                queue.add_row(listed.id);
            }
        }
        Rough::Segment(s) => {
            if touches_shape(goal, &Shape::Segment(s)) {
                queue.add_row(listed.id);
            }
        }
        Rough::Bound(r) => {
            if touches_rect(goal, r) {
                queue.add_rough(listed.id);
            }
        }
    }
}

// Adds what an entry gives as pages have it, and nothing where it marks an empty leaf.
#[inline]
fn add_pair(goal: &Goal, pair: (u128, u128), queue: &mut ZeroQueue<Block>)
    requires goal { IsGoalInClosedPlane goal.now }
    requires bit { HaveBits queue.old.below (listed_in (pair ∷ [])) }
    ensures { OpensNode queue.old.nodes (list_found goal.now (listed_in (pair ∷ []))) queue.old queue.new }
{
    if let Some(listed) = listed_of(pair) {
        add_entry(goal, listed, queue);
    }
}

// Adds what the entries of a leaf give. There are fewer of them than numbers of 64 bits.
fn add_entries(goal: &Goal, list: &LeafList, queue: &mut ZeroQueue<Block>)
    requires goal { IsGoalInClosedPlane goal.now }
    requires bits { HaveBits queue.old.below list.now }
    ensures added { OpensNode queue.old.nodes (list_found goal.now list.now) queue.old queue.new }
    ensures few { length (list_found goal.now list.now) < 2 ^ 64 }
{
    let pairs = list.pairs();
    let count = pairs.len();
    let mut at = 0;
    'entries: while at < count {
        add_pair(goal, pairs[at], queue);
        at += 1;
    }
}

// What the entries of a leaf give takes the place of its block, if there is a bit for each id.
fn open_leaf(
    goal: &Goal,
    block: Block,
    list: &LeafList,
    queue: &mut ZeroQueue<Block>,
) -> Result<(), NoMemory>
    requires goal { IsGoalInClosedPlane goal.now }
    requires next { (rest : List Block) × (queue.old.nodes ≡ rest ++ block ∷ []) }
    ensures opened { OnOk result (OpensPlace block (list_found goal.now list.now) queue.old queue.new) }
    ensures refused { OnErr result (queue.new ≡ queue.old) }
{
    if !have_bits(list, queue) {
        return Err(NoMemory {});
    }
    queue.take_node();
    add_entries(goal, list, queue);
    Ok(())
}

// What a place gives at the distance 0 takes the place of its block. After a refusal the queue is as it was.
pub fn open_place(
    goal: &Goal,
    block: Block,
    place: &Node,
    queue: &mut ZeroQueue<Block>,
) -> Result<(), NoMemory>
    requires goal { IsGoalInClosedPlane goal.now }
    requires block { IsBlock block }
    requires above_points { place.now ≡ of_tree.Inner → block.level < COORDINATE_BITS }
    requires range { IsFoundInRange place.now }
    requires next { (rest : List Block) × (queue.old.nodes ≡ rest ++ block ∷ []) }
    ensures opened { OnOk result (OpensPlace block (place_found goal.now zero_gap block place.now) queue.old queue.new) }
    ensures refused { OnErr result (queue.new ≡ queue.old) }
{
    match place {
        Node::Inner => open_children(goal, block, queue),
        Node::Leaf(list) => open_leaf(goal, block, list, queue),
    }
}
