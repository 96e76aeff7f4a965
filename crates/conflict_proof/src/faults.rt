use thiserror::Error;

/// What is wrong with a line of a text.
#[derive(Clone, Copy, Debug, PartialEq, Eq)]
pub enum Reason {
    /// No text goes on so.
    Form,
    /// A number names nothing, or a line is not the one due.
    Range,
    /// A site names no instance that it may name.
    Site,
    /// Two instances are one.
    Twice,
    /// A group has no instance.
    Missing,
    /// A constraint is false.
    Broken,
    /// The line is no clause of the constraint that it names.
    Axiom,
    /// The line is no resolvent of the lines that it names.
    Resolvent,
    /// The line is not the one that it names, carried to that site.
    Inst,
    /// The last line is not the empty clause of the root.
    NoRefutation,
}

/// A faulty line of a text. Lines are numbered from 1.
#[derive(Clone, Copy, Debug, PartialEq, Eq)]
pub struct BadLine {
    pub line: u64,
    pub reason: Reason,
}

/// Why a text was not read.
#[derive(Clone, Copy, Debug, Error)]
pub enum TextError {
    #[error("Memory")]
    Memory,
    #[error("Invalid")]
    Invalid(BadLine),
}

/// Why a derivation or a certificate was not accepted.
#[derive(Clone, Copy, Debug, Error)]
pub enum CheckError {
    #[error("Memory")]
    Memory,
    #[error("Invalid")]
    Invalid(BadLine),
}
