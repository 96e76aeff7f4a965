use conflict_proof::ConstraintName;
use zo_core::{Clause, Lit};

/// Why propagation found a literal.
#[derive(Drop)]
pub(crate) enum Cause {
    /// This clause of the constraint of this name, whose other literals are denied by earlier ones.
    Clause(ConstraintName, Clause),
    /// The site of this number carries this literal of the group of this number, which is called there.
    Site(u32, u32, Lit),
}

/// A literal of a group, and why it was found.
#[derive(Drop)]
pub(crate) struct Step {
    pub group: u32,
    pub lit: Lit,
    pub cause: Cause,
}
