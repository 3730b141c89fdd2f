ghost use Rattle.ring_geom.specs.Laws.{
  RegionIsOneSide,
  GapIsOne,
  GapExists,
  GapIsSymmetric,
  ZeroIsMeeting,
  BoundIsNoFarther,
  BoundsAreNoFarther,
  WholeIsNoFarther,
  WholesAreNoFarther,
  QuartersMeet,
  HoldersMeet,
  SquareHoldsAll,
  WholeTiles,
  QuartersTile,
  TilesCover,
  TilesCoverPairs,
};
ghost use Rattle.ring_geom.specs.MeasureLaws.{
  TestIsMeeting,
  ChildrenMeet,
  RootMeetsAll,
  RootIsWhole,
  ChildIsPart,
  BlockIsNoFarther,
  RoughIsBounding,
  RoughIsInClosedPlane,
  RoughIsNoFarther,
  RoughsAreNoFarther,
  LeavesCover,
  LeafPairsCover,
};

/// The laws of insides and gaps, for proofs of the crates above: a call brings them into scope, and does
/// nothing when it runs.
pub fn ring_laws()
    ensures region { RegionIsOneSide }
    ensures one { GapIsOne }
    ensures measured { GapExists }
    ensures exchanged { GapIsSymmetric }
    ensures zero { ZeroIsMeeting }
    ensures bound { BoundIsNoFarther }
    ensures bounds { BoundsAreNoFarther }
    ensures part { WholeIsNoFarther }
    ensures parts { WholesAreNoFarther }
    ensures quarters { QuartersMeet }
    ensures holder { HoldersMeet }
    ensures square { SquareHoldsAll }
    ensures tile { WholeTiles }
    ensures tiles { QuartersTile }
    ensures cover { TilesCover }
    ensures pairs { TilesCoverPairs }
{}

/// The same for whoever tells trees and answers by a measure: over blocks, rough shapes and quadtrees.
pub fn measure_laws()
    ensures tested { TestIsMeeting }
    ensures children { ChildrenMeet }
    ensures root { RootMeetsAll }
    ensures whole { RootIsWhole }
    ensures part { ChildIsPart }
    ensures block { BlockIsNoFarther }
    ensures bounding { RoughIsBounding }
    ensures reach { RoughIsInClosedPlane }
    ensures rough { RoughIsNoFarther }
    ensures roughs { RoughsAreNoFarther }
    ensures leaves { LeavesCover }
    ensures leaf_pairs { LeafPairsCover }
{}
