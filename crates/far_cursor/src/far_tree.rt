ghost use Rattle.std.specs.Prelude.{◌≡◌, ℕ, ◌<◌};
ghost use Rattle.std.proofs.Props.{props};
ghost use Rattle.sand_base.specs.Plane.{IsInClosedPlane};

use pmr_tree::{Pmr, ShapeOf};
use sand_base::Point;

/// A quadtree and the rows that it indexes, searched by their distance from a point, farthest first. Its nodes are
/// blocks.
#[derive(Drop)]
pub struct FarTree<G> {
    pub(crate) pmr: Pmr,
    pub(crate) shapes: G,
    pub(crate) goal: Point,
    ghost plane: { IsInClosedPlane goal } by { Prim.hlevel props },
}

impl<G: ShapeOf> FarTree<G> {
    ghost use Rattle.far_cursor.specs.FarLaws.{IsLawfulFarOver};

    /// The search from the point. No page is read.
    pub fn over(pmr: Pmr, shapes: G, goal: Point) -> FarTree<G>
        requires { IsInClosedPlane goal }
        ensures pmr { result.pmr ≡ pmr }
        ensures shapes { result.shapes ≡ shapes }
        ensures goal { result.goal ≡ goal }
        ensures laws { IsLawfulFarOver (G.rows shapes) (G.Stands shapes) (G.price shapes) pmr goal }
    {
        let tree = FarTree { pmr, shapes, goal };
        tree.laws();
        tree
    }

    /// The laws of this search, for proofs of callers: over all pages where the quadtree fits the rows it is a hierarchy
    /// and gives all rows, farthest first. A call does nothing when it runs.
    pub fn laws(&self)
        ensures { IsLawfulFarOver (G.rows self.now.shapes) (G.Stands self.now.shapes) (G.price self.now.shapes) self.now.pmr self.now.goal }
    {}
}
