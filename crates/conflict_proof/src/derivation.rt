use crate::names::ConstraintName;
use std::marker::Model;
use zo_core::Clause;

/// Where a line of a derivation comes from. Lines are numbered from 1.
#[derive(Clone, Copy, Debug, PartialEq, Eq)]
pub enum How {
    /// A clause of the constraint of this name.
    Axiom(ConstraintName),
    /// The resolvent of two earlier lines.
    Resolve(u32, u32),
    /// An earlier line, of the group called at a site: the line's number, then the site's.
    Inst(u32, u32),
}

/// One line of a derivation.
#[derive(Drop)]
pub struct Line {
    /// The number of the call group whose unknowns the line speaks of, or that of the root.
    pub group: u32,
    pub how: How,
    pub lits: Clause,
}

/// Lines, which contracts see as a list.
#[derive(Drop)]
pub struct Lines {
    pub items: Vec<Line>,
}

impl Model for Lines {
    ghost use Rattle.std.specs.Prelude.{List};
    ghost use Rattle.conflict_proof.specs.declared.derivation.Line.{Line};

    ghost Value = { List Line };

    ghost view = { λ l. l.items.items };
}

/// Lines, each of which stands on earlier ones. It refutes a program where its last line is an empty clause of
/// the root.
#[derive(Drop)]
pub struct Derivation {
    pub lines: Lines,
}
