use zo_core::Lit;

/// Why a literal is in a set.
#[derive(Clone, Copy, Debug)]
pub enum Reason {
    /// It was given.
    Given,
    /// The clause of this number in the table of the group's clauses holds it, and the opposite of each other literal of
    /// the clause was found before.
    Clause(u32),
    /// At the site of this number it stands for this literal of the set of the group that is called there.
    Site(u32, Lit),
}

/// A literal of a set, and why it is there.
#[derive(Clone, Copy, Debug)]
pub struct Finding {
    pub lit: Lit,
    pub reason: Reason,
}
