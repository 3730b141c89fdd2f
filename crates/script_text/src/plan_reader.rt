ghost use Rattle.std.specs.Prelude.{◌≡◌, ℕ, Option, codes, box_value};
ghost use Rattle.script_text.specs.declared.token.Symbol.TheVariants.{Equal};
ghost use Rattle.script_text.specs.Form.{a_plan, rule, seq};
ghost use Rattle.script_text.specs.Grammar.{reading};
ghost use Rattle.statements.specs.Plan.{PickBetween, Plan as PlanTree, SortNear, plan_value};
ghost use Rattle.statements.specs.declared.column.Column.{Column};
ghost use Rattle.script_text.specs.Reading.{Gives, GivesAs};
ghost use Rattle.script_text.specs.Rules.{after_sign, after_word, column_form, int_form, place_form, shape_form, tests_form, within_form};
ghost use Rattle.script_text.specs.Rules.{inner_form, scan_rest, rank_rest, window_rest, pick_rest, join_rest, semi_rest, knn_rest, near_rest};
ghost use Rattle.script_text.specs.Rules.{filter_rest, match_rest, fetch_rest, first_rest, sort_rest};

use crate::cursor::Cursor;
use crate::stuck::Stuck;
use crate::token::Symbol;
use crate::{Column, MOST_ROWS, Place, Places, Plan, Tests};
use sand_base::{Shape, Value};
use std::alloc::Global;
use std::boxed::Box;

impl<'t> Cursor<'t> {
    // Reads a `scan`, after its word.
    fn scan(&mut self, alloc: Global) -> Result<Plan, Stuck>
        ensures { GivesAs plan_value (reading scan_rest) self.old self.new result }
    {
        let relation = self.name(alloc)?;
        Ok(Plan::Scan { relation })
    }

    // Reads the shape that rows are ranked from, and how far they may be.
    fn goal(&mut self, alloc: Global) -> Result<(Shape, Option<u32>), Stuck>
        ensures { Gives (reading (after_word (codes "from") (seq (λ g w. (g, w)) shape_form within_form))) self.old self.new result }
    {
        self.word("from")?;
        let goal = self.shape(alloc)?;
        let within = self.within()?;
        Ok((goal, within))
    }

    // Reads a `rank`, after its word.
    fn rank(&mut self, alloc: Global) -> Result<Plan, Stuck>
        ensures { GivesAs plan_value (reading rank_rest) self.old self.new result }
    {
        let column = self.column(alloc)?;
        let (goal, within) = self.goal(alloc)?;
        Ok(Plan::Rank {
            column,
            goal,
            within,
        })
    }

    // Reads a `window`, after its word.
    fn window(&mut self, alloc: Global) -> Result<Plan, Stuck>
        ensures { GivesAs plan_value (reading window_rest) self.old self.new result }
    {
        let column = self.column(alloc)?;
        let window = self.rect()?;
        Ok(Plan::Window { column, window })
    }

    // Reads the lowest and the highest number that are picked.
    fn picked_range(&mut self) -> Result<(i64, i64), Stuck>
        ensures { GivesAs {A = Column → PlanTree} (λ r c. PickBetween c r.0 r.1)
            (reading (after_word (codes "from") (seq (λ a b c. PickBetween c a b) int_form (after_word (codes "to") int_form)))) self.old self.new result }
    {
        self.word("from")?;
        let low = self.int()?;
        self.word("to")?;
        let high = self.int()?;
        Ok((low, high))
    }

    // Reads a `pick`, after its word.
    fn pick(&mut self, alloc: Global) -> Result<Plan, Stuck>
        ensures { GivesAs plan_value (reading pick_rest) self.old self.new result }
    {
        let column = self.column(alloc)?;
        if self.accept_mark(Symbol::Equal) {
            let value = self.plain(alloc)?;
            return Ok(Plan::PickEqual { column, value });
        }
        let (low, high) = self.picked_range()?;
        Ok(Plan::PickBetween { column, low, high })
    }

    // Reads the right column of two, and how far its rows may be.
    fn partner(&mut self, alloc: Global) -> Result<(Column, Option<u32>), Stuck>
        ensures { Gives (reading (seq (λ r w. (r, w)) column_form within_form)) self.old self.new result }
    {
        let right = self.column(alloc)?;
        let within = self.within()?;
        Ok((right, within))
    }

    // Reads a `join`, after its word.
    fn join(&mut self, alloc: Global) -> Result<Plan, Stuck>
        ensures { GivesAs plan_value (reading join_rest) self.old self.new result }
    {
        let left = self.column(alloc)?;
        let (right, within) = self.partner(alloc)?;
        Ok(Plan::Join {
            left,
            right,
            within,
        })
    }

    // Reads a `semi`, after its word.
    fn semi(&mut self, alloc: Global) -> Result<Plan, Stuck>
        ensures { GivesAs plan_value (reading semi_rest) self.old self.new result }
    {
        let left = self.column(alloc)?;
        let (right, within) = self.partner(alloc)?;
        Ok(Plan::Semi {
            left,
            right,
            within,
        })
    }

    // Reads the left column, and what may stand behind it.
    fn partners(&mut self, alloc: Global) -> Result<(Column, (Column, Option<u32>)), Stuck>
        ensures { Gives (reading (seq (λ l (r : Column × Option ℕ). (l, r)) column_form (seq (λ r w. (r, w)) column_form within_form))) self.old self.new result }
    {
        let left = self.column(alloc)?;
        let right = self.partner(alloc)?;
        Ok((left, right))
    }

    // Reads a `knn`, after its word.
    fn knn(&mut self, alloc: Global) -> Result<Plan, Stuck>
        ensures { GivesAs plan_value (reading knn_rest) self.old self.new result }
    {
        let k = self.natural(1, 255)?;
        let (left, (right, within)) = self.partners(alloc)?;
        Ok(Plan::Knn {
            k: k as u8,
            left,
            right,
            within,
        })
    }

    // Reads a `near`, after its word.
    fn near(&mut self, alloc: Global) -> Result<Plan, Stuck>
        ensures { GivesAs plan_value (reading near_rest) self.old self.new result }
    {
        let column = self.column(alloc)?;
        let (goal, within) = self.goal(alloc)?;
        Ok(Plan::Near {
            column,
            goal,
            within,
        })
    }

    // Reads the tests that answers must pass.
    fn condition(&mut self, alloc: Global) -> Result<Tests, Stuck>
        ensures { Gives (reading (after_word (codes "where") tests_form)) self.old self.new result }
    {
        self.word("where")?;
        let tests = self.tests(alloc)?;
        Ok(Tests::new(tests))
    }

    // Reads the place and the column whose values must be the same.
    fn equality(&mut self, alloc: Global) -> Result<(Place, Column), Stuck>
        ensures { Gives (reading (seq (λ l c. (l, c)) place_form (after_sign Equal column_form))) self.old self.new result }
    {
        let place = self.place(alloc)?;
        self.mark(Symbol::Equal)?;
        let column = self.column(alloc)?;
        Ok((place, column))
    }

    // Reads the place whose shapes answers are sorted by, and the shape that they are compared with.
    fn sort_goal(&mut self, alloc: Global) -> Result<(Place, Shape), Stuck>
        ensures { GivesAs {A = PlanTree → PlanTree} (λ q p. SortNear p q.0 q.1)
            (reading (after_word (codes "near") (seq (λ l g p. SortNear p l g) place_form (after_word (codes "from") shape_form)))) self.old self.new result }
    {
        self.word("near")?;
        let place = self.place(alloc)?;
        self.word("from")?;
        let goal = self.shape(alloc)?;
        Ok((place, goal))
    }

    // Reads a plan into a box.
    #[cycle(plan)]
    fn boxed(&mut self, alloc: Global) -> Result<Box<Plan>, Stuck>
        ensures { GivesAs (λ b. plan_value (box_value b)) (reading (rule a_plan)) self.old self.new result }
    {
        let plan = self.plan(alloc)?;
        Ok(Box::new(alloc, plan)?)
    }

    // Reads a plan between brackets.
    #[cycle(plan)]
    fn inner(&mut self, alloc: Global) -> Result<Box<Plan>, Stuck>
        ensures { GivesAs (λ b. plan_value (box_value b)) (reading inner_form) self.old self.new result }
    {
        self.mark(Symbol::Open)?;
        let plan = self.boxed(alloc)?;
        self.mark(Symbol::Close)?;
        Ok(plan)
    }

    // Reads a `filter`, after its word.
    #[cycle(plan)]
    fn filter(&mut self, alloc: Global) -> Result<Plan, Stuck>
        ensures { GivesAs plan_value (reading filter_rest) self.old self.new result }
    {
        let plan = self.inner(alloc)?;
        let tests = self.condition(alloc)?;
        Ok(Plan::Filter { plan, tests })
    }

    // Reads a `match`, after its word.
    #[cycle(plan)]
    fn matched(&mut self, alloc: Global) -> Result<Plan, Stuck>
        ensures { GivesAs plan_value (reading match_rest) self.old self.new result }
    {
        let plan = self.inner(alloc)?;
        let (place, column) = self.equality(alloc)?;
        Ok(Plan::Match {
            plan,
            place,
            column,
        })
    }

    // Reads a `fetch`, after its word.
    #[cycle(plan)]
    fn fetch(&mut self, alloc: Global) -> Result<Plan, Stuck>
        ensures { GivesAs plan_value (reading fetch_rest) self.old self.new result }
    {
        let plan = self.inner(alloc)?;
        let places = Places::new(self.places(alloc)?);
        Ok(Plan::Fetch { plan, places })
    }

    // Reads a `first`, after its word.
    #[cycle(plan)]
    fn first(&mut self, alloc: Global) -> Result<Plan, Stuck>
        ensures { GivesAs plan_value (reading first_rest) self.old self.new result }
    {
        let count = self.natural(1, MOST_ROWS)?;
        let plan = self.inner(alloc)?;
        Ok(Plan::First { count, plan })
    }

    // Reads a `sort`.
    #[cycle(plan)]
    fn sort(&mut self, alloc: Global) -> Result<Plan, Stuck>
        ensures { GivesAs plan_value (reading (after_word (codes "sort") sort_rest)) self.old self.new result }
    {
        self.word("sort")?;
        let plan = self.inner(alloc)?;
        if self.accept_word("by") {
            let place = self.place(alloc)?;
            return Ok(Plan::SortBy { plan, place });
        }
        let (place, goal) = self.sort_goal(alloc)?;
        Ok(Plan::SortNear { plan, place, goal })
    }

    /// Reads a plan. Plans inside it are read by a method for each operator, so that a step of the recursion takes
    /// little of the stack.
    #[cycle(plan)]
    #[tactic(auto, using(crate::proofs::Unfold::plan_unfolds))]
    pub fn plan(&mut self, alloc: Global) -> Result<Plan, Stuck>
        ensures { GivesAs plan_value (reading (rule a_plan)) self.old self.new result }
    {
        if self.accept_word("scan") {
            return self.scan(alloc);
        }
        if self.accept_word("rank") {
            return self.rank(alloc);
        }
        if self.accept_word("window") {
            return self.window(alloc);
        }
        if self.accept_word("pick") {
            return self.pick(alloc);
        }
        if self.accept_word("join") {
            return self.join(alloc);
        }
        if self.accept_word("semi") {
            return self.semi(alloc);
        }
        if self.accept_word("knn") {
            return self.knn(alloc);
        }
        if self.accept_word("near") {
            return self.near(alloc);
        }
        if self.accept_word("filter") {
            return self.filter(alloc);
        }
        if self.accept_word("match") {
            return self.matched(alloc);
        }
        if self.accept_word("fetch") {
            return self.fetch(alloc);
        }
        if self.accept_word("first") {
            return self.first(alloc);
        }
        self.sort(alloc)
    }
}
