//! What an inference answers.

use conflict_proof::{Derivation, Names};
use own_cert::Certificate;

/// What is inferred of a program's constraints.
#[derive(Drop)]
pub enum Inferred {
    /// They can be met: a good certificate.
    Accepted(Certificate),
    /// They cannot: a derivation that refutes them, and the names of the constraints that it uses.
    Refuted(Derivation, Names),
    /// The budget is spent: a derivation that costs more, and without its last line does not.
    Undecided(Derivation),
}

/// What is inferred where lines are known.
#[derive(Drop)]
pub struct Known {
    pub inferred: Inferred,
    /// The known lines and what was learnt besides: lines of groups, no clause twice in one.
    pub lines: Derivation,
}
