/// Numbers one after another: so many from a first one on.
#[derive(Clone, Copy, Debug, PartialEq, Eq)]
pub struct NumberRange {
    /// The first of them; where there is none, the one that would come next.
    pub first: u32,
    /// How many there are.
    pub count: u32,
}
