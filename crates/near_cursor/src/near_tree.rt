ghost use Rattle.std.specs.Prelude.{◌≡◌};
ghost use Rattle.sand_base.specs.InRange.{IsCeilingInRange};
ghost use Rattle.std.proofs.Props.{props};
ghost use Rattle.sand_base.specs.Plane.{IsGoalInClosedPlane};
ghost use Rattle.rank_cursor.specs.Props.{closed_goal_prop};

use pmr_tree::ShapeOf;
use r_tree::RTree;
use sand_base::Goal;

/// An R-tree and the rows that it lists, ranked by their distance from a goal. Its nodes are pairs of a page and that
/// node's height.
#[derive(Drop)]
pub struct NearTree<G> {
    pub(crate) tree: RTree,
    pub(crate) shapes: G,
    pub(crate) goal: Goal,
    pub(crate) ceiling: Option<u32>,
    ghost plane: { IsGoalInClosedPlane goal } by { closed_goal_prop goal },
    ghost small: { IsCeilingInRange ceiling } by { Prim.hlevel props },
}

impl<G: ShapeOf> NearTree<G> {
    ghost use Rattle.near_cursor.specs.NearLaws.{IsLawfulNearOver};

    /// The ranking from the goal, with a greatest distance where there is a ceiling. No page is read.
    pub fn over(tree: RTree, shapes: G, goal: Goal, ceiling: Option<u32>) -> NearTree<G>
        requires plane { IsGoalInClosedPlane goal }
        requires small { IsCeilingInRange ceiling }
        ensures tree { result.tree ≡ tree }
        ensures shapes { result.shapes ≡ shapes }
        ensures goal { result.goal ≡ goal }
        ensures ceiling { result.ceiling ≡ ceiling }
        ensures laws { IsLawfulNearOver (G.rows shapes) (G.Stands shapes) (G.price shapes) tree goal ceiling }
    {
        let near = NearTree {
            tree,
            shapes,
            goal,
            ceiling,
        };
        near.laws();
        near
    }

    /// The laws of this ranking, for proofs of callers: over all pages where the R-tree lists the rows it is a hierarchy
    /// and gives the ranked rows. A call does nothing when it runs.
    pub fn laws(&self)
        ensures { IsLawfulNearOver (G.rows self.now.shapes) (G.Stands self.now.shapes) (G.price self.now.shapes) self.now.tree self.now.goal self.now.ceiling }
    {}
}
