use page_pool::PageFault;

/// Why the leaves of a quadtree were not printed to their end.
#[derive(Clone, Copy, Debug, PartialEq, Eq)]
pub enum Stop {
    /// A page could not be had.
    Refused(PageFault),
    /// The sink failed.
    Failed,
}
