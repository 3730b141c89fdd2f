ghost use Rattle.std.specs.Prelude.{◌≡◌, ◌↔◌, All, map, IsTrue, OnOk, OnErr};
ghost use Rattle.sand_base.specs.Plane.{IsGoalInClosedPlane, IsRectInClosedPlane};
ghost use Rattle.pmr_tree.specs.Entries.{figure_of};
ghost use Rattle.best_first.specs.Hierarchy.{FindsAlike};
ghost use Rattle.best_first.specs.Item.{IsAlike};
ghost use Rattle.best_first.specs.Steps.{AddsLess};
ghost use Rattle.near_cursor.specs.NearRanking.{member_found, branch_found, node_found, near_weight};

use crate::figures::{is_rect_in_plane, is_rough_in_plane, rect_gap, segment_gap, shape_gap};
use best_first::Item;
use r_tree::TreeNode;
use sand_base::{Goal, NoMemory, Rect, Rough, Shape};

// Whether all members have rough shapes in the closed square.
fn are_members_in_plane(members: &[(u32, Rough)]) -> bool
    ensures { IsTrue result ↔ All (λ i. IsGoalInClosedPlane (figure_of i.1)) members.now }
{
    'members: for member in members {
        if !is_rough_in_plane(member.1) {
            return false;
        }
    }
    true
}

// Whether all branches have rectangles in the closed square.
fn are_branches_in_plane(branches: &[(Rect, u64)]) -> bool
    ensures { IsTrue result ↔ All (λ b. IsRectInClosedPlane b.0) branches.now }
{
    'branches: for branch in branches {
        if !is_rect_in_plane(branch.0) {
            return false;
        }
    }
    true
}

// What a member of a leaf gives: a row, or a rough object under the gap of its rectangle.
fn member_item(goal: &Goal, id: u32, rough: Rough) -> Item<(u64, u32)>
    requires goal { IsGoalInClosedPlane goal.now }
    requires rough { IsGoalInClosedPlane (figure_of rough) }
    ensures { IsAlike result (member_found goal.now id rough) }
{
    match rough {
        Rough::Point(p) => Item::Row {
            gap: shape_gap(goal, &Shape::Point(p)),
            left: id,
            right: 0,
        },
        Rough::Segment(s) => Item::Row {
            gap: segment_gap(goal, s),
            left: id,
            right: 0,
        },
        Rough::Bound(r) => Item::Rough {
            gap: rect_gap(goal, r),
            left: id,
            right: 0,
        },
    }
}

// Adds what a leaf gives at the end of the list, unless a member lies outside the closed square, as none does that a
// tree of rows lists.
fn push_members(
    goal: &Goal,
    members: &[(u32, Rough)],
    found: &mut Vec<Item<(u64, u32)>>,
) -> Result<(), NoMemory>
    requires { IsGoalInClosedPlane goal.now }
    ensures added { OnOk result (FindsAlike (map (λ i. member_found goal.now i.0 i.1) members.now) found.old.items found.new.items) }
    ensures unchanged { OnErr result (found.new.items ≡ found.old.items) }
{
    if !are_members_in_plane(members) {
        return Err(NoMemory {});
    }
    found.reserve(members.len())?;
    'members: for member in members {
        found.push_reserved(member_item(goal, member.0, member.1));
    }
    Ok(())
}

// Adds the children of an inner node at the end of the list, unless a rectangle lies outside the closed square.
fn push_branches(
    goal: &Goal,
    height: u32,
    branches: &[(Rect, u64)],
    found: &mut Vec<Item<(u64, u32)>>,
) -> Result<(), NoMemory>
    requires { IsGoalInClosedPlane goal.now }
    ensures added { OnOk result (FindsAlike (map (branch_found goal.now height) branches.now) found.old.items found.new.items) }
    ensures unchanged { OnErr result (found.new.items ≡ found.old.items) }
{
    if !are_branches_in_plane(branches) {
        return Err(NoMemory {});
    }
    found.reserve(branches.len())?;
    'branches: for (bound, page) in branches {
        let gap = rect_gap(goal, *bound);
        found.push_reserved(Item::Node {
            gap,
            node: (*page, height),
        });
    }
    Ok(())
}

// Adds what a node of this height gives at the end of the list. It takes room for all of it first, so that a refusal
// leaves the list as it was. A node that no tree has, of too many branches or no level below it, is refused as well.
pub fn add_found(
    goal: &Goal,
    node: (u64, u32),
    entries: &TreeNode,
    found: &mut Vec<Item<(u64, u32)>>,
) -> Result<(), NoMemory>
    requires { IsGoalInClosedPlane goal.now }
    ensures added { OnOk result (FindsAlike (node_found goal.now node.1 entries.now) found.old.items found.new.items) }
    ensures falls { OnOk result (AddsLess near_weight node found.old.items found.new.items) }
    ensures unchanged { OnErr result (found.new.items ≡ found.old.items) }
{
    match entries {
        TreeNode::Leaf(members) => push_members(goal, members.as_slice(), found),
        TreeNode::Inner(branches) => {
            let branches = branches.as_slice();
            let Some(height) = node.1.checked_sub(1) else {
                return Err(NoMemory {});
            };
            if branches.len() > 126 {
                return Err(NoMemory {});
            }
            push_branches(goal, height, branches, found)
        }
    }
}
