ghost use Rattle.std.specs.Prelude.{◌≡◌, true, false, None, IfOk};
ghost use Rattle.page_pool.specs.Disk.{PageMap};
ghost use Rattle.sand_base.specs.Shape.{same_kind};
ghost use Rattle.sand_base.specs.declared.kind.Kind.TheVariants.{Int};
ghost use Rattle.sand_model.specs.Checks.{check_column, check_relation};
ghost use Rattle.statements.specs.Plan.{Scan as of_relation, PickEqual as of_column, PickBetween as of_ints, plan_value};
ghost use Rattle.sand_model.specs.Reach.{no_counts};
ghost use Rattle.sand_store.specs.Catalog.{IsCatalog};
ghost use Rattle.sand_store.specs.Contents.{database_in};
ghost use Rattle.sand_store.specs.Standing.{CatalogStands};
ghost use Rattle.plan_iterator.specs.Rows.{counts_of};
ghost use Rattle.plan_iterator.specs.SourceSteps.{nothing_taken};
ghost use Rattle.plan_iterator.specs.Outermost.{is_source};
ghost use Rattle.plan_ops.specs.Checked.{IsChecked};
ghost use Rattle.plan_ops.specs.Openable.{IsOpenable};
ghost use Rattle.plan_ops.specs.Sources.{source_at, source_seen};

use crate::Source;
use crate::columns::{rtree_column, tree_column};
use plan_iterator::RowSource;
use plan_sources::{
    JoinSource, KnnSource, NearSource, PickBetween, PickEqual, RankSource, Scan, SemiSource,
};
use sand_base::{Goal, NoMemory, Value};
use sand_store::Catalog;
use script_text::{Column, Plan};
use std::alloc::Global;

impl Source {
    /// The source of a plan that is a source alone, of which nothing was taken. No page is read.
    pub fn start(alloc: Global, catalog: &Catalog, plan: &Plan) -> Result<Source, NoMemory>
        requires openable { IsOpenable catalog.now plan.now }
        requires source { is_source (plan_value plan.now) ≡ true }
        ensures counts { IfOk result (λ s. counts_of (source_seen s) ≡ no_counts) }
        ensures begun { IfOk result (λ s. (pages : PageMap) → CatalogStands pages catalog.now → source_at s pages (database_in pages catalog.now.relations) (plan_value plan.now) nothing_taken) }
    {
        match plan {
            Plan::Scan { relation } => {
                let scan = scan(alloc, catalog, relation.as_str())?;
                Ok(Source::Scan(scan))
            }
            Plan::Rank {
                column,
                goal,
                within,
            } => {
                let goal = Goal::Shape(goal.copy(alloc)?);
                let ranked = RankSource::start(alloc, tree_column(catalog, column), goal, *within)?;
                Ok(Source::Rank(ranked))
            }
            Plan::Near {
                column,
                goal,
                within,
            } => {
                let goal = goal.copy(alloc)?;
                let near = NearSource::start(alloc, rtree_column(catalog, column), goal, *within)?;
                Ok(Source::Near(near))
            }
            Plan::Window { column, window } => {
                let goal = Goal::Rect(*window);
                let ranked = RankSource::start(alloc, tree_column(catalog, column), goal, Some(0))?;
                Ok(Source::Rank(ranked))
            }
            Plan::PickEqual { column, value } => {
                let value = value.copy(alloc)?;
                let pick = pick_equal(alloc, catalog, column, value)?;
                Ok(Source::PickEqual(pick))
            }
            Plan::PickBetween { column, low, high } => {
                let pick = pick_between(alloc, catalog, column, *low, *high)?;
                Ok(Source::PickBetween(pick))
            }
            Plan::Join {
                left,
                right,
                within,
            } => {
                let left = tree_column(catalog, left);
                let right = tree_column(catalog, right);
                Ok(Source::Join(JoinSource::start(alloc, left, right, *within)?))
            }
            Plan::Semi {
                left,
                right,
                within,
            } => {
                let left = tree_column(catalog, left);
                let right = tree_column(catalog, right);
                Ok(Source::Semi(SemiSource::start(alloc, left, right, *within)?))
            }
            Plan::Knn {
                k,
                left,
                right,
                within,
            } => {
                let left = tree_column(catalog, left);
                let right = tree_column(catalog, right);
                Ok(Source::Knn(KnnSource::start(alloc, *k, left, right, *within)?))
            }
            Plan::Filter { .. }
            | Plan::Match { .. }
            | Plan::Fetch { .. }
            | Plan::First { .. }
            | Plan::SortBy { .. }
            | Plan::SortNear { .. } => unreachable!(),
        }
    }
}

// The scan of a relation that is there.
fn scan(alloc: Global, catalog: &Catalog, relation: &str) -> Result<Scan, NoMemory>
    requires { (pages : PageMap) → check_relation (database_in pages catalog.now.relations) relation.now ≡ None }
    ensures counts { IfOk result (λ s. counts_of (⟦<Scan as RowSource>⟧.seen s) ≡ no_counts) }
    ensures begun { IfOk result (λ s. (pages : PageMap) → CatalogStands pages catalog.now
        → ⟦<Scan as RowSource>⟧.At s pages (database_in pages catalog.now.relations) (of_relation relation.now) nothing_taken) }
{
    match Scan::start(alloc, catalog, relation)? {
        Some(scan) => Ok(scan),
        None => unreachable!(),
    }
}

// The pick of a value from a column of ints or texts that has an index.
fn pick_equal(
    alloc: Global,
    catalog: &Catalog,
    column: &Column,
    value: Value,
) -> Result<PickEqual, NoMemory>
    requires described { IsCatalog catalog.now }
    requires checked { (pages : PageMap) → IsChecked (database_in pages catalog.now.relations) column.now false }
    ensures counts { IfOk result (λ s. counts_of (⟦<PickEqual as RowSource>⟧.seen s) ≡ no_counts) }
    ensures begun { IfOk result (λ s. (pages : PageMap) → CatalogStands pages catalog.now
        → ⟦<PickEqual as RowSource>⟧.At s pages (database_in pages catalog.now.relations) (of_column column.now value) nothing_taken) }
{
    match PickEqual::start(
        alloc,
        catalog,
        column.relation.as_str(),
        column.column.as_str(),
        value,
    )? {
        Some(pick) => Ok(pick),
        None => unreachable!(),
    }
}

// The pick of the ints within bounds from a column of ints that has an index.
fn pick_between(
    alloc: Global,
    catalog: &Catalog,
    column: &Column,
    low: i64,
    high: i64,
) -> Result<PickBetween, NoMemory>
    requires described { IsCatalog catalog.now }
    requires checked { (pages : PageMap) → check_column (database_in pages catalog.now.relations) column.now (same_kind Int) ≡ None }
    ensures counts { IfOk result (λ s. counts_of (⟦<PickBetween as RowSource>⟧.seen s) ≡ no_counts) }
    ensures begun { IfOk result (λ s. (pages : PageMap) → CatalogStands pages catalog.now
        → ⟦<PickBetween as RowSource>⟧.At s pages (database_in pages catalog.now.relations) (of_ints column.now low high) nothing_taken) }
{
    match PickBetween::start(
        alloc,
        catalog,
        column.relation.as_str(),
        column.column.as_str(),
        low,
        high,
    )? {
        Some(pick) => Ok(pick),
        None => unreachable!(),
    }
}
