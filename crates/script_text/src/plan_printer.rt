ghost use Rattle.std.specs.Prelude.{◌≡◌, IfOk};
ghost use Rattle.script_text.specs.Page.{with_pieces};
ghost use Rattle.statements.specs.Plan.{plan_value, Scan, Rank, Window, PickEqual, PickBetween, Join, Semi, Knn, Near, Filter, Match, Fetch, First, SortBy, SortNear};
ghost use Rattle.script_text.specs.Printing.{inner_words, plan_words};

use crate::printer::Printer;
use crate::token::Symbol;
use crate::{Column, Place, Places, Plan, Tests};
use sand_base::{Label, NoMemory, Rect, Shape, Value};

#[tactic(auto, using(crate::proofs::Pages::put_append), unfolding(crate::specs::Page::with_pieces))]
impl Printer {
    // Writes a `scan`.
    fn scan(&mut self, relation: &Label) -> Result<(), NoMemory>
        ensures { IfOk result (λ _. self.new ≡ with_pieces self.old (plan_words (Scan relation.now))) }
    {
        self.name("scan")?;
        self.name(relation.as_str())?;
        Ok(())
    }

    // Writes a `rank`.
    fn rank(&mut self, column: &Column, goal: &Shape, within: Option<u32>) -> Result<(), NoMemory>
        ensures { IfOk result (λ _. self.new ≡ with_pieces self.old (plan_words (Rank column.now goal.now within))) }
    {
        self.name("rank")?;
        self.column(column)?;
        self.name("from")?;
        self.shape(goal)?;
        self.within(within)?;
        Ok(())
    }

    // Writes a `window`.
    fn window(&mut self, column: &Column, window: Rect) -> Result<(), NoMemory>
        ensures { IfOk result (λ _. self.new ≡ with_pieces self.old (plan_words (Window column.now window))) }
    {
        self.name("window")?;
        self.column(column)?;
        self.natural(window.low.x)?;
        self.natural(window.low.y)?;
        self.natural(window.high.x)?;
        self.natural(window.high.y)?;
        Ok(())
    }

    // Writes a `pick` of one value.
    fn pick_equal(&mut self, column: &Column, value: &Value) -> Result<(), NoMemory>
        ensures { IfOk result (λ _. self.new ≡ with_pieces self.old (plan_words (PickEqual column.now value.now))) }
    {
        self.name("pick")?;
        self.column(column)?;
        self.mark(Symbol::Equal)?;
        self.value(value)?;
        Ok(())
    }

    // Writes a `pick` of a range.
    fn pick_between(&mut self, column: &Column, low: i64, high: i64) -> Result<(), NoMemory>
        ensures { IfOk result (λ _. self.new ≡ with_pieces self.old (plan_words (PickBetween column.now low high))) }
    {
        self.name("pick")?;
        self.column(column)?;
        self.name("from")?;
        self.int(low)?;
        self.name("to")?;
        self.int(high)?;
        Ok(())
    }

    // Writes a `join`.
    fn join(&mut self, left: &Column, right: &Column, within: Option<u32>) -> Result<(), NoMemory>
        ensures { IfOk result (λ _. self.new ≡ with_pieces self.old (plan_words (Join left.now right.now within))) }
    {
        self.name("join")?;
        self.column(left)?;
        self.column(right)?;
        self.within(within)?;
        Ok(())
    }

    // Writes a `semi`.
    fn semi(&mut self, left: &Column, right: &Column, within: Option<u32>) -> Result<(), NoMemory>
        ensures { IfOk result (λ _. self.new ≡ with_pieces self.old (plan_words (Semi left.now right.now within))) }
    {
        self.name("semi")?;
        self.column(left)?;
        self.column(right)?;
        self.within(within)?;
        Ok(())
    }

    // Writes a `knn`.
    fn knn(
        &mut self,
        k: u8,
        left: &Column,
        right: &Column,
        within: Option<u32>,
    ) -> Result<(), NoMemory>
        ensures { IfOk result (λ _. self.new ≡ with_pieces self.old (plan_words (Knn k left.now right.now within))) }
    {
        self.name("knn")?;
        self.natural(u32::from(k))?;
        self.column(left)?;
        self.column(right)?;
        self.within(within)?;
        Ok(())
    }

    // Writes a `near`.
    fn near(&mut self, column: &Column, goal: &Shape, within: Option<u32>) -> Result<(), NoMemory>
        ensures { IfOk result (λ _. self.new ≡ with_pieces self.old (plan_words (Near column.now goal.now within))) }
    {
        self.name("near")?;
        self.column(column)?;
        self.name("from")?;
        self.shape(goal)?;
        self.within(within)?;
        Ok(())
    }

    // Writes a plan between brackets.
    #[cycle(plan)]
    fn inner(&mut self, plan: &Plan) -> Result<(), NoMemory>
        ensures { IfOk result (λ _. self.new ≡ with_pieces self.old (inner_words (plan_words (plan_value plan.now)))) }
    {
        self.mark(Symbol::Open)?;
        self.plan(plan)?;
        self.mark(Symbol::Close)?;
        Ok(())
    }

    // Writes a `filter`.
    #[cycle(plan)]
    fn filter(&mut self, plan: &Plan, tests: &Tests) -> Result<(), NoMemory>
        ensures { IfOk result (λ _. self.new ≡ with_pieces self.old (plan_words (Filter (plan_value plan.now) tests.now))) }
    {
        self.name("filter")?;
        self.inner(plan)?;
        self.name("where")?;
        self.tests(tests.as_slice())?;
        Ok(())
    }

    // Writes a `match`.
    #[cycle(plan)]
    fn matched(&mut self, plan: &Plan, place: &Place, column: &Column) -> Result<(), NoMemory>
        ensures { IfOk result (λ _. self.new ≡ with_pieces self.old (plan_words (Match (plan_value plan.now) place.now column.now))) }
    {
        self.name("match")?;
        self.inner(plan)?;
        self.place(place)?;
        self.mark(Symbol::Equal)?;
        self.column(column)?;
        Ok(())
    }

    // Writes a `fetch`.
    #[cycle(plan)]
    fn fetch(&mut self, plan: &Plan, places: &Places) -> Result<(), NoMemory>
        ensures { IfOk result (λ _. self.new ≡ with_pieces self.old (plan_words (Fetch (plan_value plan.now) places.now))) }
    {
        self.name("fetch")?;
        self.inner(plan)?;
        self.places(places.as_slice())?;
        Ok(())
    }

    // Writes a `first`.
    #[cycle(plan)]
    fn first(&mut self, count: u32, plan: &Plan) -> Result<(), NoMemory>
        ensures { IfOk result (λ _. self.new ≡ with_pieces self.old (plan_words (First count (plan_value plan.now)))) }
    {
        self.name("first")?;
        self.natural(count)?;
        self.inner(plan)?;
        Ok(())
    }

    // Writes a `sort` by values.
    #[cycle(plan)]
    fn sort_by(&mut self, plan: &Plan, place: &Place) -> Result<(), NoMemory>
        ensures { IfOk result (λ _. self.new ≡ with_pieces self.old (plan_words (SortBy (plan_value plan.now) place.now))) }
    {
        self.name("sort")?;
        self.inner(plan)?;
        self.name("by")?;
        self.place(place)?;
        Ok(())
    }

    // Writes a `sort` by gaps.
    #[cycle(plan)]
    fn sort_near(&mut self, plan: &Plan, place: &Place, goal: &Shape) -> Result<(), NoMemory>
        ensures { IfOk result (λ _. self.new ≡ with_pieces self.old (plan_words (SortNear (plan_value plan.now) place.now goal.now))) }
    {
        self.name("sort")?;
        self.inner(plan)?;
        self.name("near")?;
        self.place(place)?;
        self.name("from")?;
        self.shape(goal)?;
        Ok(())
    }

    /// Writes a plan. Plans inside it are written by a method for each operator, so that a step of the recursion takes
    /// little of the stack.
    #[cycle(plan)]
    pub fn plan(&mut self, plan: &Plan) -> Result<(), NoMemory>
        ensures { IfOk result (λ _. self.new ≡ with_pieces self.old (plan_words (plan_value plan.now))) }
    {
        match plan {
            Plan::Scan { relation } => self.scan(relation),
            Plan::Rank {
                column,
                goal,
                within,
            } => self.rank(column, goal, *within),
            Plan::Window { column, window } => self.window(column, *window),
            Plan::PickEqual { column, value } => self.pick_equal(column, value),
            Plan::PickBetween { column, low, high } => self.pick_between(column, *low, *high),
            Plan::Join {
                left,
                right,
                within,
            } => self.join(left, right, *within),
            Plan::Semi {
                left,
                right,
                within,
            } => self.semi(left, right, *within),
            Plan::Knn {
                k,
                left,
                right,
                within,
            } => self.knn(*k, left, right, *within),
            Plan::Near {
                column,
                goal,
                within,
            } => self.near(column, goal, *within),
            Plan::Filter { plan, tests } => self.filter(plan, tests),
            Plan::Match {
                plan,
                place,
                column,
            } => self.matched(plan, place, column),
            Plan::Fetch { plan, places } => self.fetch(plan, places),
            Plan::First { count, plan } => self.first(*count, plan),
            Plan::SortBy { plan, place } => self.sort_by(plan, place),
            Plan::SortNear { plan, place, goal } => self.sort_near(plan, place, goal),
        }
    }
}
