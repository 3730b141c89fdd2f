use exact_frac::Frac;

/// A row of the answer: its squared distance from the query object, exact, and its ids. `right` is 0 where a
/// hierarchy has single objects.
#[derive(Clone, Copy, Debug)]
pub struct Hit {
    pub gap: Frac,
    pub left: u32,
    pub right: u32,
}
