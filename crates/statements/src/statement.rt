use crate::{Column, Plan};
use sand_base::{Label, Point, Row, Schema};

/// What a line of a script says.
#[derive(Drop)]
pub enum Statement {
    /// `create RELATION (COLUMN KIND, ..)`: an empty relation with these columns.
    Create {
        relation: Label,
        columns: Schema,
    },
    /// `insert RELATION VALUE, ..`: one more row.
    Insert {
        relation: Label,
        values: Row,
    },
    /// `delete RELATION ID`: one row fewer.
    Delete {
        relation: Label,
        id: u32,
    },
    /// `load RELATION "FILE" [header]`: the rows of a file, whose first record may be passed over.
    Load {
        relation: Label,
        file: Label,
        header: bool,
    },
    /// `index RELATION.COLUMN [THRESHOLD]`: an index on the column.
    Index {
        column: Column,
        threshold: Option<u8>,
    },
    /// `rtree RELATION.COLUMN`: an R-tree on the column.
    Rtree {
        column: Column,
    },
    /// `open CURSOR = PLAN`: a cursor over the rows of a plan.
    OpenCursor {
        cursor: Label,
        plan: Plan,
    },
    /// `next CURSOR COUNT`: its next rows, at most as many as the count.
    Next {
        cursor: Label,
        count: u32,
    },
    /// `close CURSOR`.
    CloseCursor {
        cursor: Label,
    },
    /// `show COUNT PLAN`: the first rows of a plan, at most as many as the count.
    Show {
        count: u32,
        plan: Plan,
    },
    /// `stats CURSOR`: what the cursor has spent so far.
    Stats {
        cursor: Label,
    },
    /// `far COUNT RELATION.COLUMN from POINT`: the rows of a column farthest from a point, the farthest first, at most as
    /// many as the count.
    Far {
        count: u32,
        column: Column,
        goal: Point,
    },
    /// `blocks RELATION.COLUMN`: the leaves of a column's quadtree.
    Blocks {
        column: Column,
    },
}
