/// How a verdict on a source is told.
#[derive(Clone, Copy, PartialEq, Eq, Debug, Drop)]
pub(crate) enum Way {
    /// Who owns, or which constraints are in conflict.
    Check,
    /// All that the verdict rests on.
    Prove,
    /// One line, with how many procedures the sample has.
    Sample(u32),
}
