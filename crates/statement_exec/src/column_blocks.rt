ghost use Rattle.std.specs.Prelude.{◌≡◌, IfOk, OnErr};
ghost use Rattle.page_pool.specs.Reads.{IsRead};
ghost use Rattle.sand_base.specs.Faults.{HasCause};
ghost use Rattle.statements.specs.Statement.{Blocks};
ghost use Rattle.sand_store.specs.Calls.{refusal_of};
ghost use Rattle.sand_store.specs.Standing.{IsStore};
ghost use Rattle.output_text.specs.Writing.{Writes, WritesPrefix};
ghost use Rattle.statement_exec.specs.Ending.{PagesHaveCause, PagesHaveLineCause, ReadsStatement, WritesUpTo};
ghost use Rattle.statement_exec.specs.Printing.{PrintsSome, WritesOf};

use crate::Stop;
use crate::answers::end_with;
use crate::leaf_tree::quadtree_of;
use crate::leaves::print_leaves;
use page_pool::{Desk, Disk, PageFault};
use sand_base::{Failed, Label, Refusal, Sink};
use sand_store::Catalog;
use std::alloc::Global;

// A fault of a page, as a statement is refused by it.
fn refusal_of(why: PageFault) -> Refusal
    ensures { result ≡ refusal_of why }
{
    match why {
        PageFault::Memory => Refusal::Memory,
        PageFault::Device => Refusal::Device,
        PageFault::Damaged { page, kept, read } => Refusal::Damaged { page, kept, read },
    }
}

// The leaves of a column's quadtree, printed up to their end or to a refusal.
fn print_column<D: Disk, K: Sink>(
    alloc: Global,
    catalog: &Catalog,
    desk: &mut Desk<D>,
    relation: &Label,
    column: &Label,
    out: &mut K,
) -> Result<Option<Refusal>, Failed>
    requires { IsStore catalog.now desk.old.pool }
    ensures written { IfOk result (λ end. WritesUpTo (ReadsStatement (Blocks (record { relation = relation.now; column = column.now })) catalog.now desk.old.pool desk.new.pool) end
        (K.took out.old) (K.took out.new)) }
    ensures prefix { OnErr result (WritesPrefix (PrintsSome (ReadsStatement (Blocks (record { relation = relation.now; column = column.now })) catalog.now desk.old.pool desk.new.pool))
        (K.took out.old) (K.took out.new)) }
    ensures read { IsRead desk.old.pool desk.new.pool }
    ensures cause { PagesHaveCause desk.old.pool desk.new.pool result }
    ensures sink { HasCause (K.faults out.old) (K.faults out.new) result }
{
    let tree = match quadtree_of(catalog, relation, column) {
        Ok(tree) => tree,
        Err(why) => return Ok(Some(why)),
    };
    match print_leaves(alloc, &tree, desk, out) {
        Ok(()) => Ok(None),
        Err(Stop::Refused(why)) => Ok(Some(refusal_of(why))),
        Err(Stop::Failed) => Err(Failed {}),
    }
}

/// `blocks`: the leaves of a column's quadtree, each printed as it comes, and the line of the refusal, where there is
/// one. The pages are only read. The answer says whether it was refused.
pub fn print_blocks<D: Disk, K: Sink>(
    alloc: Global,
    catalog: &Catalog,
    desk: &mut Desk<D>,
    relation: &Label,
    column: &Label,
    out: &mut K,
) -> Result<bool, Failed>
    requires { IsStore catalog.now desk.old.pool }
    ensures written { WritesOf (ReadsStatement (Blocks (record { relation = relation.now; column = column.now })) catalog.now desk.old.pool desk.new.pool) (K.took out.old) (K.took out.new) result }
    ensures stands { IsStore catalog.now desk.new.pool }
    ensures read { IsRead desk.old.pool desk.new.pool }
    ensures cause { PagesHaveLineCause desk.old.pool desk.new.pool result }
    ensures sink { HasCause (K.faults out.old) (K.faults out.new) result }
{
    match print_column(alloc, catalog, desk, relation, column, out) {
        Ok(end) => end_with(out, end),
        Err(Failed {}) => Err(Failed {}),
    }
}
