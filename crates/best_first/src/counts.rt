/// How many nodes a search has opened, and how many rough objects it has fetched. Both stay at the greatest u64.
#[derive(Clone, Copy, Debug)]
pub struct Counts {
    pub visited: u64,
    pub fetched: u64,
}
