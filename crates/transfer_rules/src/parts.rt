ghost use Rattle.std.specs.Prelude.{◌≡◌, ◌<◌, length};
ghost use Rattle.owner_vars.specs.Fields.{structs_of};
ghost use Rattle.owner_vars.specs.Unknowns.{unknowns, sites};
ghost use Rattle.transfer_rules.specs.Programs.{AreTargets, IsProgram, group_at, pointer_slots};

use crate::index::Index;
use c_types::Typed;
use flow_graph::{Graph, Numbers};
use owner_vars::{Fields, Numbering, Sites};
use path_facts::Facts;
use recursion_groups::Groups;
use std::marker::Model;

/// The numbering of each group in group order, and last the root's.
#[derive(Drop)]
pub struct Numberings {
    pub items: Vec<Numbering>,
}

impl Model for Numberings {
    ghost use Rattle.std.specs.Prelude.{List};
    ghost use Rattle.owner_vars.specs.Unknowns.{Unknown};

    ghost Value = { List (List Unknown) };

    ghost view = { λ n. n.items.items };
}

/// A program as the rules see it: the parts of one typed tree.
///
/// [`program`](crate::program) makes it, and its parts stay those of one tree.
#[derive(Drop)]
pub struct Program {
    pub typed: Typed,
    pub graph: Graph,
    pub facts: Facts,
    pub groups: Groups,
    /// The numbering of each group in group order, and last the root's.
    pub numbers: Numberings,
    pub(crate) index: Index,
}

impl Model for Program {
    ghost use Rattle.c_types.specs.contracts.typed.Typed as typed_tree;
    ghost use Rattle.std.specs.Coded.{codes};
    ghost use Rattle.transfer_rules.specs.Programs.{Parts, IsIndexed};

    ghost Value = { Parts };

    ghost coded = { Prim.hlevel (codes, typed_tree.the_row.coded) };

    ghost view = { λ p. record { typed = p.typed; graph = p.graph; facts = p.facts; groups = p.groups; numbers = p.numbers } };

    ghost invariant = { λ p. IsIndexed (record { typed = p.typed; graph = p.graph; facts = p.facts; groups = p.groups; numbers = p.numbers }) p.index };
}

impl Program {
    /// What the parts keep; it does nothing.
    pub fn law(&self)
        ensures { IsProgram self.now }
    {
        let _ = &self.index;
    }

    /// The procedures of a group, ascending.
    pub fn members(&self, group: u32) -> &[u32]
        requires { group < length self.now.groups }
        ensures { result.now ≡ group_at self.now.groups group }
    {
        self.groups.items[group as usize].items.as_slice()
    }

    /// The numbers of a group's unknowns.
    pub fn numbering(&self, group: u32) -> &Numbering
        requires { group < length self.now.groups }
        ensures { result.now ≡ unknowns self.now.graph (group_at self.now.groups group) }
    {
        &self.numbers.items[group as usize]
    }

    /// The sites of a group.
    pub fn sites(&self, group: u32) -> &Sites
        requires { group < length self.now.groups }
        ensures { result.now ≡ sites self.now.graph (group_at self.now.groups group) }
    {
        &self.index.sites[group as usize]
    }

    /// The slots of a procedure with a body that are pointers.
    pub(crate) fn pointers(&self, proc: u32) -> &[u32]
        requires { proc < self.now.graph.bodies }
        ensures { result.now ≡ pointer_slots self.now.graph proc }
    {
        self.index.pointers(proc)
    }

    /// For each struct the pointer fields that point to it.
    pub(crate) fn targets(&self) -> &[Numbers]
        ensures { AreTargets self.now.graph result.now }
    {
        self.index.targets.as_slice()
    }

    /// The pointer fields.
    pub fn fields(&self) -> &Fields
        ensures { result.now ≡ structs_of self.now.graph }
    {
        &self.index.fields
    }
}
