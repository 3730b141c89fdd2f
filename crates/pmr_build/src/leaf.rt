// The entries of a leaf.
ghost use Rattle.std.specs.Prelude.{◌≡◌, ◌+◌, ◌++◌, ◌<◌, ◌≤◌, ◌^◌, length, map, max, IfOk, IfErr, OnOk};
ghost use Rattle.sand_base.specs.declared.TheConstants.{COORDINATE_BITS};
ghost use Rattle.z_code.specs.Block.{IsBlock};
ghost use Rattle.pmr_tree.specs.Entries.{packed, value_of, figure_of};
ghost use Rattle.pmr_tree.specs.Keys.{key_of};
ghost use Rattle.pmr_tree.specs.declared.fault.PmrFault.TheVariants.{Memory, IndexFull};
ghost use Rattle.pmr_build.specs.Calls.{IsOwnRefusal, member_entry, leaf_entries};

use crate::met::is_in_plane;
use pmr_tree::PmrFault;
use sand_base::{Point, Rough};
use std::cmp::max;
use z_code::Block;

// The key of an id in the leaf of a block.
fn key_of(block: Block, id: u32) -> u128
    requires { IsBlock block }
    ensures { result ≡ key_of block id }
{
    (u128::from(block.z) << 40) + (u128::from(block.level) << 32) + u128::from(id)
}

// A tag and two points, each coordinate in 31 bits.
fn packed(tag: u128, low: Point, high: Point) -> u128
    requires tag { tag ≤ 3 }
    requires low_x { low.x < 2 ^ 31 }
    requires low_y { low.y < 2 ^ 31 }
    requires high_x { high.x < 2 ^ 31 }
    requires high_y { high.y < 2 ^ 31 }
    ensures { result ≡ packed tag low.x low.y high.x high.y }
{
    (tag << 124)
        + ((u128::from(low.x) << 93)
            + ((u128::from(low.y) << 62) + ((u128::from(high.x) << 31) + u128::from(high.y))))
}

// The same, where both points lie in the plane: no row of a store over a disk that tells has a shape outside it.
fn plane_value(tag: u128, low: Point, high: Point) -> Result<u128, PmrFault>
    requires { tag ≤ 3 }
    ensures value { IfOk result (λ value. value ≡ packed tag low.x low.y high.x high.y) }
    ensures memory { IfErr result (λ e. e ≡ Memory) }
{
    if !is_in_plane(low) || !is_in_plane(high) {
        return Err(PmrFault::Memory);
    }
    Ok(packed(tag, low, high))
}

// What an entry keeps of a rough shape; nothing of one outside the plane.
fn value_of(rough: Rough) -> Result<u128, PmrFault>
    ensures value { IfOk result (λ value. value ≡ value_of (figure_of rough)) }
    ensures memory { IfErr result (λ e. e ≡ Memory) }
{
    match rough {
        Rough::Point(at) => {
            let value = plane_value(1, at, Point { x: 0, y: 0 })?;
            Ok(value)
        }
        Rough::Segment(way) => {
            let value = plane_value(2, way.a, way.b)?;
            Ok(value)
        }
        Rough::Bound(rect) => {
            let value = plane_value(3, rect.low, rect.high)?;
            Ok(value)
        }
    }
}

// Adds the entry of each member.
fn push_entries(
    block: Block,
    list: &[(u32, Rough)],
    entries: &mut Vec<(u128, u128)>,
) -> Result<(), PmrFault>
    requires { IsBlock block }
    ensures pushed { OnOk result (entries.new.items ≡ entries.old.items ++ map (member_entry block) list.now) }
    ensures memory { IfErr result (λ e. e ≡ Memory) }
{
    'members: for (id, rough) in list {
        let value = value_of(*rough)?;
        entries.push((key_of(block, *id), value))?;
    }
    Ok(())
}

/// Adds the entries of a leaf, one that marks it where it has no members. It is refused where there are more than the
/// limit then.
pub fn enter_leaf(
    block: Block,
    list: &[(u32, Rough)],
    limit: u64,
    entries: &mut Vec<(u128, u128)>,
) -> Result<(), PmrFault>
    requires block { IsBlock block }
    requires few { length entries.old.items ≤ limit }
    ensures entered { OnOk result (entries.new.items ≡ entries.old.items ++ leaf_entries block list.now) }
    ensures few { OnOk result (length entries.new.items ≤ limit) }
    ensures full { IfErr result (λ e. e ≡ IndexFull → limit < length entries.old.items + max 1 (length list.now)) }
    ensures own { IfErr result IsOwnRefusal }
{
    if max(1, list.len()) as u64 > limit - entries.len() as u64 {
        return Err(PmrFault::IndexFull);
    }
    if list.is_empty() {
        entries.push((key_of(block, 0), 0))?;
        return Ok(());
    }
    push_entries(block, list, entries)
}
