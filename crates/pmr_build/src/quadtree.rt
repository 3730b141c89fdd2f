// A quadtree of all rows, built at once.
ghost use Rattle.std.specs.Prelude.{◌≡◌, ℕ, ◌<◌, ◌≤◌, IfOk, IfErr};
ghost use Rattle.sand_model.specs.Measure.{Measure, IsMeasure};
ghost use Rattle.sand_model.specs.Database.{tree_of};
ghost use Rattle.sand_model.specs.Tree.{listings};
ghost use Rattle.page_pool.specs.Pool.{IsOpen, IsTold};
ghost use Rattle.page_pool.specs.Steps.{InCommand};
ghost use Rattle.pmr_tree.specs.Calls.{HasPmrCause};
ghost use Rattle.pmr_tree.specs.Quadtree.{tree_at};
ghost use Rattle.pmr_tree.specs.declared.fault.PmrFault.TheVariants.{IndexFull};
ghost use Rattle.pmr_build.specs.Members.{AreMembersOf, AreRowsById};
ghost use Rattle.pmr_build.specs.Calls.{BuildsQuadtree};

use crate::enter::{Rule, enter};
use crate::entries::tree_of_entries;
use page_pool::{Disk, Pool};
use pmr_tree::{Pmr, PmrFault, ShapeOf};
use ring_geom::{measure_laws, ring_laws};
use sand_base::Rough;
use std::alloc::Global;
use z_code::Block;

/// The quadtree of rows whose ids and rough shapes are given, by ascending id, on new pages: the one that the rows
/// make where they are entered one after another. `IndexFull` comes exactly where it would have more listings than the
/// limit. After a refusal the command is to be aborted.
pub fn build<D: Disk, S: ShapeOf>(
    alloc: Global,
    pool: &mut Pool<D>,
    shapes: &S,
    members: &[(u32, Rough)],
    threshold: u8,
    number: u32,
    limit: u64,
) -> Result<Pmr, PmrFault>
    requires opened { IsOpen pool.old }
    requires least { 1 ≤ threshold }
    requires stands { IsTold pool.old → S.Stands shapes.now pool.old.pages }
    requires members { IsTold pool.old → AreMembersOf members.now (S.rows shapes.now pool.old.pages) }
    requires rows { IsTold pool.old → AreRowsById (S.rows shapes.now pool.old.pages) }
    ensures built { IfOk result (λ tree. IsTold pool.old → BuildsQuadtree pool.old.pages pool.new.pages tree threshold (S.rows shapes.now pool.old.pages)) }
    ensures threshold { IfOk result (λ tree. tree.threshold ≡ threshold) }
    ensures number { IfOk result (λ tree. tree.number ≡ number) }
    ensures few { IfOk result (λ tree. IsTold pool.old → listings (tree_at pool.new.pages tree) ≤ limit) }
    ensures full { IfErr result (λ e. e ≡ IndexFull → IsTold pool.old → (gap : Measure) → IsMeasure gap
        → limit < listings (tree_of gap (S.rows shapes.now pool.old.pages) threshold)) }
    ensures within { InCommand pool.old pool.new }
    ensures cause { HasPmrCause pool.old pool.new result }
{
    ring_laws();
    measure_laws();
    let rule = Rule { threshold, limit };
    let mut entries = Vec::new(alloc);
    enter(
        alloc,
        pool,
        shapes,
        rule,
        Block::root(),
        usize::from(threshold),
        members,
        &mut entries,
    )?;
    let map = tree_of_entries(pool, &entries)?;
    Ok(Pmr {
        map,
        threshold,
        number,
    })
}
