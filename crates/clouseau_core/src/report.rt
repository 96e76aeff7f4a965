use conflict_proof::{BadLine, Derivation, Names};
use own_cert::Certificate;
use source_program::Refusal;
use std::marker::Model;

/// Constraints that cannot be met together, and the derivation that shows it.
#[derive(Drop)]
pub struct Conflict {
    /// The names of the constraints on which the derivation stands, ascending, without those that are always in force.
    pub used: Names,
    pub derivation: Derivation,
}

/// Conflicts, which contracts see as a list.
#[derive(Drop)]
pub struct Conflicts {
    pub items: Vec<Conflict>,
}

impl Model for Conflicts {
    ghost use Rattle.std.specs.Prelude.{List};
    ghost use Rattle.clouseau_core.specs.declared.report.Conflict.{Conflict};

    ghost Value = { List Conflict };

    ghost view = { λ c. c.items.items };
}

/// What a call found.
#[derive(Drop)]
pub enum Verdict {
    /// The constraints of the source can be met, as the certificate shows.
    Accepted(Certificate),
    /// They cannot. There is one conflict.
    Conflict(Conflicts),
    /// The budget does not suffice to tell, as the derivation shows.
    Undecided(Derivation),
    /// The source is none that is judged.
    Refused(Refusal),
    /// The text shows a verdict on the source.
    Valid,
    /// It shows none: its first faulty line.
    Invalid(BadLine),
    /// The words are no command.
    Usage,
    /// A file could not be read.
    ReadFault,
    /// The text of the verdict could not be written whole.
    WriteFault,
    /// Memory was wanting.
    NoMemory,
}

/// The verdict, and the status with which the program ends.
#[derive(Drop)]
pub struct Report {
    pub status: u8,
    pub verdict: Verdict,
}
