// A quadtree of a column from all rows at once.
ghost use Rattle.std.specs.Prelude.{◌≡◌, ◌≤◌, true, Some, IfOk, IfErr};
ghost use Rattle.page_pool.specs.Pool.{IsOpen, IsTold};
ghost use Rattle.page_pool.specs.Steps.{InCommand};
ghost use Rattle.sand_base.specs.declared.refusal.Refusal.TheVariants as why;
ghost use Rattle.sand_model.specs.Database.{new_index};
ghost use Rattle.sand_model.specs.Measure.{Measure, IsMeasure};
ghost use Rattle.sand_model.specs.StatementChecks.{is_overfull};
ghost use Rattle.sand_store.specs.Building.{Builds};
ghost use Rattle.sand_store.specs.Calls.{HasStoreCause};
ghost use Rattle.sand_store.specs.Contents.{rows_in};
ghost use Rattle.sand_store.specs.Standing.{RelationStands};
ghost use Rattle.sand_store.specs.Steps.{IsOutsideOrFull};
ghost use Rattle.sand_store.specs.declared.path.AccessPath.TheVariants as path;

use crate::Relation;
use crate::refusal::refusal_of_tree;
use crate::rtree::members;
use crate::shapes::RowShapes;
use page_pool::{Disk, Pool};
use pmr_build::build;
use pmr_tree::Pmr;
use sand_base::{Limits, Refusal};
use std::alloc::Global;

/// The quadtree of a column of shapes with all rows of the relation, in an open command. `IndexFull` comes exactly where
/// it would have too many listings.
pub fn quadtree_of<D: Disk>(
    alloc: Global,
    pool: &mut Pool<D>,
    relation: &Relation,
    column: usize,
    threshold: u8,
    number: u32,
    limits: Limits,
) -> Result<Pmr, Refusal>
    requires opened { IsOpen pool.old }
    requires least { 1 ≤ threshold }
    requires most { threshold ≤ 64 }
    requires stands { IsTold pool.old → RelationStands pool.old.pages limits relation.now }
    ensures builds { IfOk result (λ tree. IsTold pool.old
        → Builds pool.old.pages pool.new.pages limits relation.now.schema (rows_in pool.old.pages relation.now) column (Some threshold) (path.Quadtree tree)) }
    ensures full { IfErr result (λ e. e ≡ why.IndexFull → IsTold pool.old → (gap : Measure) → IsMeasure gap
        → is_overfull limits (column, new_index gap (rows_in pool.old.pages relation.now) column (Some threshold)) ≡ true) }
    ensures outside { IfErr result IsOutsideOrFull }
    ensures within { InCommand pool.old pool.new }
    ensures cause { HasStoreCause pool.old pool.new result }
{
    // For the proof alone: ids are below the next one, which is a u32.
    let _next = relation.next;
    let shapes = RowShapes {
        file: relation.file,
        schema: &relation.schema,
        column,
    };
    let members = match members(alloc, pool, &shapes) {
        Ok(members) => members,
        Err(why) => return Err(why),
    };
    match build(
        alloc,
        pool,
        &shapes,
        &members,
        threshold,
        number,
        limits.listings,
    ) {
        Ok(tree) => Ok(tree),
        Err(why) => Err(refusal_of_tree(why)),
    }
}
