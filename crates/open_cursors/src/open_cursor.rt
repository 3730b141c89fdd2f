use page_pool::Stamp;
use plan_iterator::RowCursor;
use sand_base::Label;

/// A cursor that is open under a name. Its stamp holds the pages as they were at its opening.
#[derive(Drop)]
pub struct OpenCursor<S, T> {
    pub name: Label,
    pub stamp: Stamp,
    pub cursor: RowCursor<S, T>,
}
