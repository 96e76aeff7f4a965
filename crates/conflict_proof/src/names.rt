ghost use Rattle.std.proofs.Common.{rules};
ghost use Rattle.std.specs.Cmp.{partial_order_from_own_ties};
ghost use Rattle.std.specs.Cmp.Rules.{comparing};
ghost use Rattle.std.specs.Ordering.{as_partial_cmp};

use std::cmp::Ordering;
use std::marker::Model;

/// The name of a constraint of a program. Names are ordered by procedure, place, edge, rule, slot, field and
/// other.
#[derive(Clone, Copy, Debug, PartialEq, Eq)]
pub struct ConstraintName {
    /// The procedure's number.
    pub proc: u32,
    /// The place that the constraint is about, or from which its edge leads.
    pub place: u32,
    /// Which edge of the place: 0 or 1. For a constraint on a place it is 0.
    pub edge: u8,
    /// The rule's number, from 1.
    pub rule: u8,
    /// The slot's number.
    pub slot: u32,
    /// The field's number; for a constraint without a field it is 0.
    pub field: u32,
    /// The second slot, or the argument's number; for a constraint without one it is 0.
    pub other: u32,
}

impl Ord for ConstraintName {
    ghost use Rattle.conflict_proof.specs.Names.{name_order};

    ghost cmp = { name_order };

    ghost total = { Prim.search (comparing, rules) depth 12 };

    ghost matches_partial_cmp = { Prim.search (comparing, rules) depth 12 };

    ghost matches_eq = { Prim.search (comparing, rules) depth 12 };

    fn cmp(&self, other: &ConstraintName) -> Ordering {
        self.proc
            .cmp(&other.proc)
            .then(self.place.cmp(&other.place))
            .then(self.edge.cmp(&other.edge))
            .then(self.rule.cmp(&other.rule))
            .then(self.slot.cmp(&other.slot))
            .then(self.field.cmp(&other.field))
            .then(self.other.cmp(&other.other))
    }
}

impl PartialOrd for ConstraintName {
    ghost use Rattle.conflict_proof.specs.Names.{name_order};

    ghost partial_cmp = { as_partial_cmp name_order };

    ghost laws = { partial_order_from_own_ties (Prim.search (comparing, rules) depth 12) (Prim.search (comparing, rules) depth 12) };

    fn partial_cmp(&self, other: &ConstraintName) -> Option<Ordering> {
        Some(self.cmp(other))
    }
}

/// Names of constraints, which contracts see as a list.
#[derive(Debug, Drop)]
pub struct Names {
    pub items: Vec<ConstraintName>,
}

impl Model for Names {
    ghost use Rattle.std.specs.Prelude.{List};
    ghost use Rattle.conflict_proof.specs.declared.names.ConstraintName.{ConstraintName};

    ghost Value = { List ConstraintName };

    ghost view = { λ n. n.items.items };
}
