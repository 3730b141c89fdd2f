// The leaves of a quadtree, printed one by one.
ghost use Rattle.std.specs.Prelude.{◌≡◌, ◌<◌, ◌^◌, ◌*◌, IfOk, IfErr};
ghost use Rattle.page_pool.specs.Causes.{HasPageCause};
ghost use Rattle.page_pool.specs.Pool.{IsTold};
ghost use Rattle.page_pool.specs.Reads.{IsRead};
ghost use Rattle.pmr_tree.specs.Quadtree.{IsPmr, tree_at};
ghost use Rattle.sand_base.specs.Faults.{HasCause};
ghost use Rattle.sand_base.specs.declared.TheConstants.{COORDINATE_BITS};
ghost use Rattle.sand_model.specs.Tree.{leaves, root_block};
ghost use Rattle.statement_exec.specs.LeafWalk.{WalkStopsAt, StopsWith, WritesLeaves, WritesLeaf, code_end, of_walked_pages, of_sink};
ghost use Rattle.statement_exec.specs.declared.leaves.TheConstants.{CODES};

use crate::Stop;
use output_text::{LineRef, write_line};
use page_pool::{Desk, Disk};
use pmr_tree::Pmr;
use sand_base::{COORDINATE_BITS, Failed, Sink};
use std::alloc::Global;

/// The number of codes.
const CODES: u64 = 1 << (2 * COORDINATE_BITS);

// The leaf that has a code, printed; the first code behind it.
fn print_leaf<D: Disk, K: Sink>(
    alloc: Global,
    tree: &Pmr,
    desk: &mut Desk<D>,
    code: u64,
    out: &mut K,
) -> Result<u64, Stop>
    requires code { code < code_end }
    requires tree { IsTold desk.old.pool → IsPmr desk.old.pool.pages tree.now }
    ensures written { IfOk result (λ next. WritesLeaf (IsTold desk.old.pool) (tree_at desk.old.pool.pages tree.now) code next (K.took out.old) (K.took out.new)) }
    ensures stops { IfErr result (WalkStopsAt (IsTold desk.old.pool) (tree_at desk.old.pool.pages tree.now) code (K.took out.old) (K.took out.new)) }
    ensures read { IsRead desk.old.pool desk.new.pool }
    ensures cause { HasPageCause desk.old.pool desk.new.pool (of_walked_pages result) }
    ensures sink { HasCause (K.faults out.old) (K.faults out.new) (of_sink result) }
{
    let (block, ids) = match tree.leaf_at(alloc, desk, code) {
        Ok(found) => found,
        Err(why) => return Err(Stop::Refused(why)),
    };
    let line = LineRef::Leaf {
        block,
        ids: ids.as_slice(),
    };
    match write_line(out, &line) {
        Ok(()) => Ok(block.range().1 + 1),
        Err(Failed {}) => Err(Stop::Failed),
    }
}

/// The leaves of a quadtree in the order of their codes, each printed as it comes.
pub(crate) fn print_leaves<D: Disk, K: Sink>(
    alloc: Global,
    tree: &Pmr,
    desk: &mut Desk<D>,
    out: &mut K,
) -> Result<(), Stop>
    requires tree { IsTold desk.old.pool → IsPmr desk.old.pool.pages tree.now }
    ensures written { IfOk result (λ _. WritesLeaves (IsTold desk.old.pool) (leaves root_block (tree_at desk.old.pool.pages tree.now)) (K.took out.old) (K.took out.new)) }
    ensures stops { IfErr result (StopsWith (IsTold desk.old.pool) (leaves root_block (tree_at desk.old.pool.pages tree.now)) (K.took out.old) (K.took out.new)) }
    ensures read { IsRead desk.old.pool desk.new.pool }
    ensures cause { HasPageCause desk.old.pool desk.new.pool (of_walked_pages result) }
    ensures sink { HasCause (K.faults out.old) (K.faults out.new) (of_sink result) }
{
    let mut code = 0;
    'leaves: while code < CODES {
        code = match print_leaf(alloc, tree, desk, code, out) {
            Ok(next) => next,
            Err(why) => return Err(why),
        };
    }
    Ok(())
}
