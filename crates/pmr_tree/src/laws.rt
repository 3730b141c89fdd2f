ghost use Rattle.pmr_tree.specs.PageLaws.{OwnPagesDecide, IsAlwaysShallow};
ghost use Rattle.pmr_tree.specs.Laws.{
  ShapesDecide,
  ShapesDecideFit,
  GrownFits,
  GrownIsFull,
  GrownIsShallow,
  ShrunkFits,
  ShrunkIsFull,
  ShrunkIsShallow,
  FittedIsListedWhereMet,
};

use code_btree::laws::own_pages_decide;
use ring_geom::measure_laws;

/// The laws of quadtrees in pages, for proofs of the crates above: a call brings them into scope, and does nothing
/// when it runs.
pub fn page_laws()
    ensures own { OwnPagesDecide }
    ensures shallow { IsAlwaysShallow }
{
    own_pages_decide();
}

/// The same of trees that grow and shrink as values, by rows of shapes.
pub fn growth_laws()
    ensures shapes { ShapesDecide }
    ensures fit { ShapesDecideFit }
    ensures grown_fits { GrownFits }
    ensures grown_full { GrownIsFull }
    ensures grown_shallow { GrownIsShallow }
    ensures shrunk_fits { ShrunkFits }
    ensures shrunk_full { ShrunkIsFull }
    ensures shrunk_shallow { ShrunkIsShallow }
    ensures listed { FittedIsListedWhereMet }
{
    measure_laws();
}
