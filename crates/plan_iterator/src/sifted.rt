/// What a stage says of a row that it looks at: it gives nothing for it, or gives it as it is, or wants to take it.
#[derive(Clone, Copy, Debug, PartialEq, Eq)]
pub enum Sifted {
    Lost,
    Given,
    Wanted,
}
