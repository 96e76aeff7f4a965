ghost use Rattle.std.specs.Prelude.{◌≡◌, ◌+◌, ◌<◌, ◌≤◌, length};
ghost use Rattle.flow_graph.specs.FlowGraph.{members_of};
ghost use Rattle.flow_graph.specs.Fits.{HasPointer};
ghost use Rattle.owner_vars.specs.Unknowns.{field_count};
ghost use Rattle.owner_vars.specs.Fields.{field_number, field_range, field_owner, field_member, field_target};

use c_types::SlotType;
use std::marker::Model;
use zo_core::NumberRange;

/// A member of a struct: its type, and the number of the first pointer field from it on.
#[derive(Clone, Copy)]
pub(crate) struct Member {
    pub kind: SlotType,
    pub number: u32,
}

/// A struct: the numbers of its pointer fields, and its members.
#[derive(Drop)]
pub(crate) struct StructRow {
    pub range: NumberRange,
    pub members: Vec<Member>,
}

impl Model for StructRow {
    ghost use Rattle.owner_vars.specs.Tables.{StructRow as Plain};

    ghost Value = { Plain };

    ghost view = { λ r. record { range = r.range; members = r.members.items } };
}

/// The pointer fields of all structs of a graph, by their numbers, which go from 1 through all structs in the order of
/// the members.
///
/// Contracts see it as the graph's structs, as a graph without procedures. No call takes memory, and each takes
/// constant time.
#[derive(Drop)]
pub struct Fields {
    pub(crate) structs: Vec<StructRow>,
    // for each pointer field the struct that has it, which member it is there, and the struct to which it points
    pub(crate) owners: Vec<u32>,
    pub(crate) members: Vec<u32>,
    pub(crate) targets: Vec<Option<u32>>,
}

impl Model for Fields {
    ghost use Rattle.flow_graph.specs.FlowGraph.{FlowGraph};
    ghost use Rattle.owner_vars.specs.Tables.{graph_with, AreFields};

    ghost Value = { FlowGraph };

    ghost view = { λ f. graph_with f.structs.items };

    ghost invariant = { λ f. AreFields (graph_with f.structs.items) f.structs.items f.owners.items f.members.items f.targets.items };
}

impl Fields {
    /// How many pointer fields there are.
    pub fn count(&self) -> u32
        ensures count { result ≡ field_count self.now }
        ensures small { result ≤ 65536 }
    {
        self.owners.len() as u32
    }

    /// The numbers of the pointer fields of a struct.
    pub fn range(&self, structure: u32) -> NumberRange
        requires { structure < length self.now.structs }
        ensures range { result ≡ field_range self.now structure }
        ensures within { result.first + result.count ≤ field_count self.now + 1 }
        ensures few { result.count ≤ 64 }
    {
        let row = &self.structs[structure as usize];
        row.range
    }

    /// The struct that has a pointer field.
    pub fn owner(&self, field: u32) -> u32
        requires some { 0 < field }
        requires within { field ≤ field_count self.now }
        ensures { result ≡ field_owner self.now field }
    {
        self.owners[field as usize - 1]
    }

    /// Which member of its struct a pointer field is, from 0.
    pub fn member(&self, field: u32) -> u32
        requires some { 0 < field }
        requires within { field ≤ field_count self.now }
        ensures { result ≡ field_member self.now field }
    {
        self.members[field as usize - 1]
    }

    /// The struct to which a pointer field points; none where it points to integers.
    pub fn target(&self, field: u32) -> Option<u32>
        requires some { 0 < field }
        requires within { field ≤ field_count self.now }
        ensures { result ≡ field_target self.now field }
    {
        self.targets[field as usize - 1]
    }

    /// The number of the pointer field that is this member of a struct.
    pub fn number(&self, structure: u32, member: u32) -> u32
        requires { HasPointer (members_of self.now structure) member }
        ensures { result ≡ field_number self.now structure member }
    {
        let row = &self.structs[structure as usize];
        row.members[member as usize].number
    }
}
