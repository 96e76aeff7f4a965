ghost use Rattle.std.specs.Prelude.{◌≡◌, ◌<◌, ◌+◌, ◌≤◌, ◌^◌, length, Some, None};
ghost use Rattle.flow_graph.specs.FlowGraph.{flow_of, members_of};
ghost use Rattle.flow_graph.specs.Fits.{pointer_count};
ghost use Rattle.owner_vars.specs.Fields.{points_to, field_range};
ghost use Rattle.owner_vars.specs.Sites.{site_at};
ghost use Rattle.owner_vars.specs.Unknowns.{field_count};
ghost use Rattle.transfer_rules.specs.Body.{slot_kind, field_behind};

use crate::scene::Scene;
use c_types::SlotType;
use field_rules::View;
use flow_graph::{Edge, Graph, Numbers};
use owner_vars::{Fields, Numbering, Sites};
use path_facts::Facts;
use std::marker::Model;
use zo_core::{NumberRange, Var};

/// One procedure of a call group.
#[derive(Drop)]
pub(crate) struct Body<'a> {
    pub graph: &'a Graph,
    pub facts: &'a Facts,
    pub numbers: &'a Numbering,
    pub fields: &'a Fields,
    pub sites: &'a Sites,
    /// The slots that are pointers.
    pub pointers: &'a [u32],
    /// For each struct the pointer fields that point to it.
    pub targets: &'a [Numbers],
    /// The procedures of the call group.
    pub members: &'a [u32],
    pub proc: u32,
}

impl<'a> Model for Body<'a> {
    ghost use Rattle.transfer_rules.specs.Body.{Body};
    ghost use Rattle.transfer_rules.specs.Bodies.{IsBodyOf};

    ghost Value = { Body };

    ghost view = { λ b. record { graph = b.graph.now; facts = b.facts.now; members = b.members.now; proc = b.proc } };

    ghost invariant = { λ b. IsBodyOf (record { graph = b.graph.now; facts = b.facts.now; members = b.members.now; proc = b.proc })
        b.numbers.now b.fields.now b.sites.now b.pointers.now b.targets.now };
}

/// The struct to which a type points.
fn points_to(kind: SlotType) -> Option<u32>
    ensures { result ≡ points_to kind }
{
    match kind {
        SlotType::StructPtr(structure) => Some(structure),
        SlotType::Int | SlotType::Char | SlotType::IntPtr | SlotType::CharPtr => None,
    }
}

/// How many of these types are pointers.
fn pointer_count(kinds: &[SlotType]) -> u32
    requires { length kinds.now < 2 ^ 32 }
    ensures count { result ≡ pointer_count kinds.now }
    ensures small { result ≤ length kinds.now }
{
    let mut count = 0;
    for kind in kinds {
        count += u32::from(kind.is_pointer());
    }
    count
}

impl<'a> Body<'a> {
    /// The type of a slot.
    fn kind(&self, slot: u32) -> SlotType
        requires { slot < length (flow_of self.now.graph self.now.proc).slots }
        ensures { result ≡ slot_kind self.now slot }
    {
        self.graph.slots(self.proc)[slot as usize]
    }

    /// The number of the site at a place.
    fn site(&self, place: u32) -> Option<u32>
        ensures { result ≡ site_at self.now.graph self.now.members self.now.proc place }
    {
        self.sites.at(self.proc, place)
    }

    /// The pointer fields of a struct.
    fn range(&self, structure: u32) -> NumberRange
        requires { structure < length self.now.graph.structs }
        ensures range { result ≡ field_range self.now.graph structure }
        ensures small { result.first + result.count < 2 ^ 31 }
    {
        self.fields.range(structure)
    }

    /// How many pointer fields there are.
    fn field_count(&self) -> u32
        ensures count { result ≡ field_count self.now.graph }
        ensures small { result ≤ 65536 }
    {
        self.fields.count()
    }
}

impl<'a> View for Body<'a> {
    ghost use Rattle.transfer_rules.specs.Body.{sight};

    ghost sight = { sight };

    fn slots(&self) -> u32 {
        self.graph.slots(self.proc).len() as u32
    }

    fn pointers(&self) -> &[u32] {
        self.pointers
    }

    fn structure(&self, slot: u32) -> Option<u32> {
        points_to(self.kind(slot))
    }

    fn fields(&self) -> u32 {
        self.field_count()
    }

    fn field_of(&self, field: u32) -> u32 {
        self.fields.owner(field)
    }

    fn field_to(&self, field: u32) -> Option<u32> {
        self.fields.target(field)
    }

    fn fields_of(&self, structure: u32) -> NumberRange {
        if structure < self.graph.structs() {
            return self.range(structure);
        }
        NumberRange {
            first: self.field_count() + 1,
            count: 0,
        }
    }

    fn fields_to(&self, structure: u32) -> &[u32] {
        let fields = &self.targets[structure as usize];
        fields.items.as_slice()
    }

    fn phi(&self, field: u32) -> Var {
        self.numbers.phi(field)
    }

    fn rho(&self, place: u32, slot: u32) -> Var {
        self.numbers.rho(self.proc, place, slot)
    }

    fn omega(&self, place: u32, slot: u32, field: u32) -> Var {
        self.numbers.omega(self.proc, place, slot, field)
    }

    fn empty(&self, place: u32, slot: u32) -> bool {
        self.facts.empty(self.proc, place, slot)
    }

    fn fresh(&self, place: u32, slot: u32) -> bool {
        self.facts.fresh(self.proc, place, slot)
    }
}

impl<'a> Scene for Body<'a> {
    ghost use Rattle.transfer_rules.specs.Body.{setting};

    ghost setting = { setting };

    fn proc(&self) -> u32 {
        self.proc
    }

    fn places(&self) -> u32 {
        self.graph.places(self.proc).len() as u32
    }

    fn is_pointer(&self, slot: u32) -> bool {
        self.kind(slot).is_pointer()
    }

    fn params(&self) -> u32 {
        self.graph.params(self.proc).len() as u32
    }

    fn ret(&self) -> Option<u32> {
        self.graph.ret(self.proc)
    }

    fn field_at(&self, slot: u32, member: u32) -> u32 {
        let Some(structure) = points_to(self.kind(slot)) else {
            return 0;
        };
        self.fields.number(structure, member)
    }

    fn has_body(&self, callee: u32) -> bool {
        callee < self.graph.bodies()
    }

    fn entry(&self, slot: u32) -> Var {
        let before = &self.graph.params(self.proc)[..slot as usize];
        self.numbers.pi(self.proc, 1 + pointer_count(before))
    }

    fn exit(&self) -> Var {
        self.numbers.pi(self.proc, 0)
    }

    fn part(&self, place: u32, callee: u32, part: u32) -> Var {
        match self.site(place) {
            None => self.numbers.pi(callee, part),
            Some(site) => self.numbers.sigma(site, part),
        }
    }

    fn edges(&self, place: u32) -> &[Edge] {
        self.graph.edges_from(self.proc, place)
    }
}
