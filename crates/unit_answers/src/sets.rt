ghost use Rattle.std.specs.Prelude.{◌≡◌, ◌<◌, length};
ghost use Rattle.unit_answers.specs.Sets.{set_at};

use crate::findings::Finding;
use std::marker::Model;
use zo_core::Lit;

/// Literals that propagation gives: in ascending order of unknowns, the positive literal of an unknown before the negative
/// one, and in the order in which they were found.
#[derive(Drop)]
pub struct UnitSet {
    pub lits: Vec<Lit>,
    pub findings: Vec<Finding>,
}

impl Model for UnitSet {
    ghost use Rattle.unit_answers.specs.Sets.{UnitSet as Plain};

    ghost Value = { Plain };

    ghost view = { λ s. record { lits = s.lits.items; findings = s.findings.items } };
}

/// The sets of all groups of a program, and last the root's.
#[derive(Drop)]
pub struct Closures {
    pub sets: Vec<UnitSet>,
}

impl Model for Closures {
    ghost use Rattle.std.specs.Prelude.{List};
    ghost use Rattle.unit_answers.specs.Sets.{UnitSet as Plain};

    ghost Value = { List Plain };

    ghost view = { λ c. c.sets.items };
}

impl Closures {
    /// The literals of a group's set, or of the root's, whose number comes after those of the groups: in ascending order of
    /// unknowns, the positive literal of an unknown before the negative one.
    pub fn of(&self, group: u32) -> &[Lit]
        requires { group < length self.now }
        ensures { result.now ≡ (set_at self.now group).lits }
    {
        let set = &self.sets[group as usize];
        set.lits.as_slice()
    }

    /// The same literals in the order in which they were found, each with its reason.
    pub fn findings(&self, group: u32) -> &[Finding]
        requires { group < length self.now }
        ensures { result.now ≡ (set_at self.now group).findings }
    {
        self.findings_at(group as usize)
    }

    /// The same by a number of any width.
    pub(crate) fn findings_at(&self, group: usize) -> &[Finding]
        requires { group < length self.now }
        ensures { result.now ≡ (set_at self.now group).findings }
    {
        let set = &self.sets[group];
        set.findings.as_slice()
    }

    /// How many sets there are: one for each group, and the root's.
    pub(crate) fn count(&self) -> usize
        ensures { result ≡ length self.now }
    {
        self.sets.len()
    }
}
