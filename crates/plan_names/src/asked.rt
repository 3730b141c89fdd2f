ghost use Rattle.std.specs.Prelude.{◌≡◌};
ghost use Rattle.sand_base.specs.Shape.{is_spatial};
ghost use Rattle.sand_model.specs.Checks.{can_compare};
ghost use Rattle.plan_names.specs.Asked.{is_asked};

use sand_base::Kind;
use script_text::Op;

/// Which kinds of columns an operator can use.
#[derive(Clone, Copy)]
pub enum Asked {
    /// Each kind.
    Any,
    /// The kinds of shapes.
    Spatial,
    /// Whole numbers.
    Int,
    /// Whole numbers or texts, as a value of the kind is.
    EqualTo(Kind),
    /// Whole numbers or texts, as a place of the kind is; none where the place is not there.
    MatchOf(Option<Kind>),
    /// What can be compared so with a value of the kind.
    ComparedWith(Op, Kind),
}

/// What a column is searched by.
#[derive(Clone, Copy)]
pub enum SearchedBy {
    /// Its quadtree or its attribute index.
    Index,
    /// Its R-tree.
    Rtree,
}

/// Whether columns of the kind hold shapes.
pub fn is_spatial(kind: Kind) -> bool
    ensures { result ≡ is_spatial kind }
{
    match kind {
        Kind::Int | Kind::Text => false,
        Kind::Point | Kind::Segment | Kind::Polygon => true,
    }
}

// Whether a column can be compared so with a value.
fn can_compare(op: Op, column: Kind, value: Kind) -> bool
    ensures { result ≡ can_compare op column value }
{
    match (column, value) {
        (Kind::Int, Kind::Int) => true,
        (Kind::Text, Kind::Text) => matches!(op, Op::Equal | Op::NotEqual),
        _ => false,
    }
}

impl Asked {
    /// Whether the kind is one that is asked.
    pub fn includes(self, kind: Kind) -> bool
        ensures { result ≡ is_asked self kind }
    {
        match self {
            Asked::Any => true,
            Asked::Spatial => is_spatial(kind),
            Asked::Int => matches!(kind, Kind::Int),
            Asked::EqualTo(other) | Asked::MatchOf(Some(other)) => matches!(
                (kind, other),
                (Kind::Int, Kind::Int) | (Kind::Text, Kind::Text)
            ),
            Asked::MatchOf(None) => false,
            Asked::ComparedWith(op, other) => can_compare(op, kind, other),
        }
    }
}
