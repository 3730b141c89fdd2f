ghost use Rattle.std.specs.Prelude.{◌≡◌, ℕ, ◌<◌};
ghost use Rattle.sand_base.specs.InRange.{IsCeilingInRange};
ghost use Rattle.std.proofs.Props.{props};

use pmr_tree::{Pmr, ShapeOf};

/// Two quadtrees and the rows that they index, joined by distance. Its nodes are pairs of blocks, one of each tree;
/// the two may be one, where a relation is joined with itself.
#[derive(Drop)]
pub struct PairTree<G> {
    pub(crate) left: Pmr,
    pub(crate) left_shapes: G,
    pub(crate) right: Pmr,
    pub(crate) right_shapes: G,
    pub(crate) ceiling: Option<u32>,
    ghost small: { IsCeilingInRange ceiling } by { Prim.hlevel props },
}

impl<G: ShapeOf> PairTree<G> {
    ghost use Rattle.dist_join.specs.OverPages.{paged, IsLawfulJoinOver};

    /// The join of both sides, with a greatest distance where there is a ceiling. No page is read.
    pub fn over(
        left: Pmr,
        left_shapes: G,
        right: Pmr,
        right_shapes: G,
        ceiling: Option<u32>,
    ) -> PairTree<G>
        requires small { IsCeilingInRange ceiling }
        ensures left { result.left ≡ left }
        ensures left_shapes { result.left_shapes ≡ left_shapes }
        ensures right { result.right ≡ right }
        ensures right_shapes { result.right_shapes ≡ right_shapes }
        ensures ceiling { result.ceiling ≡ ceiling }
        ensures laws { IsLawfulJoinOver (paged (G.rows left_shapes) (G.Stands left_shapes) (G.price left_shapes) left)
            (paged (G.rows right_shapes) (G.Stands right_shapes) (G.price right_shapes) right) ceiling }
    {
        let tree = PairTree {
            left,
            left_shapes,
            right,
            right_shapes,
            ceiling,
        };
        tree.laws();
        tree
    }

    /// The laws of this join, for proofs of callers: over all pages where both quadtrees fit their rows it is a
    /// hierarchy, gives the joined rows and counts as it should. A call does nothing when it runs.
    pub fn laws(&self)
        ensures { IsLawfulJoinOver (paged (G.rows self.now.left_shapes) (G.Stands self.now.left_shapes) (G.price self.now.left_shapes) self.now.left)
            (paged (G.rows self.now.right_shapes) (G.Stands self.now.right_shapes) (G.price self.now.right_shapes) self.now.right) self.now.ceiling }
    {}
}
