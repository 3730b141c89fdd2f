ghost use Rattle.std.specs.Prelude.{◌≡◌, ℕ, ◌<◌};
ghost use Rattle.sand_base.specs.InRange.{IsCeilingInRange};
ghost use Rattle.std.proofs.Props.{props};
ghost use Rattle.sand_base.specs.Plane.{IsGoalInClosedPlane};
ghost use Rattle.rank_cursor.specs.Props.{closed_goal_prop};

use pmr_tree::{Pmr, ShapeOf};
use sand_base::Goal;

/// A quadtree and the rows that it indexes, ranked by their distance from a goal. Its nodes are blocks.
#[derive(Drop)]
pub struct RankTree<G> {
    pub(crate) pmr: Pmr,
    pub(crate) shapes: G,
    pub(crate) goal: Goal,
    pub(crate) ceiling: Option<u32>,
    ghost plane: { IsGoalInClosedPlane goal } by { closed_goal_prop goal },
    ghost small: { IsCeilingInRange ceiling } by { Prim.hlevel props },
}

impl<G: ShapeOf> RankTree<G> {
    ghost use Rattle.rank_cursor.specs.Cursor.{IsLawfulOver};

    /// The ranking from the goal, with a greatest distance where there is a ceiling. No page is read.
    pub fn over(pmr: Pmr, shapes: G, goal: Goal, ceiling: Option<u32>) -> RankTree<G>
        requires plane { IsGoalInClosedPlane goal }
        requires small { IsCeilingInRange ceiling }
        ensures pmr { result.pmr ≡ pmr }
        ensures shapes { result.shapes ≡ shapes }
        ensures goal { result.goal ≡ goal }
        ensures ceiling { result.ceiling ≡ ceiling }
        ensures laws { IsLawfulOver (G.rows shapes) (G.Stands shapes) (G.price shapes) pmr goal ceiling }
    {
        let tree = RankTree {
            pmr,
            shapes,
            goal,
            ceiling,
        };
        tree.laws();
        tree
    }

    /// The laws of this ranking, for proofs of callers: over all pages where the quadtree fits the rows it is a
    /// hierarchy, gives the ranked rows and counts as it should. A call does nothing when it runs.
    pub fn laws(&self)
        ensures { IsLawfulOver (G.rows self.now.shapes) (G.Stands self.now.shapes) (G.price self.now.shapes) self.now.pmr self.now.goal self.now.ceiling }
    {}
}
