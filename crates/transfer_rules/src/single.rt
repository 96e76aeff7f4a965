ghost use Rattle.std.specs.Prelude.{◌≡◌, ◌+◌, ◌<◌, ◌^◌};
ghost use Rattle.transfer_rules.specs.Single.{only};

use crate::scene::Scene;
use field_rules::View;
use flow_graph::Edge;
use zo_core::{NumberRange, Var};

/// A procedure as the rules see it where no struct has another pointer field than one.
#[derive(Drop)]
pub(crate) struct Single<'a, S> {
    pub scene: &'a S,
    pub field: u32,
}

/// The number alone, where it is of the range.
fn only(range: NumberRange, number: u32) -> NumberRange
    requires { range.first + range.count < 2 ^ 32 }
    ensures is { result ≡ only range number }
    ensures small { result.first + result.count < 2 ^ 32 }
{
    let count = if range.first <= number && number < range.first + range.count {
        1
    } else {
        0
    };
    NumberRange {
        first: number,
        count,
    }
}

impl<'a, S: Scene> View for Single<'a, S> {
    ghost use Rattle.transfer_rules.specs.Single.{one_field};

    ghost sight = { λ x. one_field (S.sight x.scene.now) x.field };

    fn slots(&self) -> u32 {
        self.scene.slots()
    }

    fn pointers(&self) -> &[u32] {
        self.scene.pointers()
    }

    fn structure(&self, slot: u32) -> Option<u32> {
        self.scene.structure(slot)
    }

    fn fields(&self) -> u32 {
        self.scene.fields()
    }

    fn field_of(&self, field: u32) -> u32 {
        self.scene.field_of(field)
    }

    fn field_to(&self, field: u32) -> Option<u32> {
        self.scene.field_to(field)
    }

    fn fields_of(&self, structure: u32) -> NumberRange {
        only(self.scene.fields_of(structure), self.field)
    }

    fn fields_to(&self, structure: u32) -> &[u32] {
        self.scene.fields_to(structure)
    }

    fn phi(&self, field: u32) -> Var {
        self.scene.phi(field)
    }

    fn rho(&self, place: u32, slot: u32) -> Var {
        self.scene.rho(place, slot)
    }

    fn omega(&self, place: u32, slot: u32, field: u32) -> Var {
        self.scene.omega(place, slot, field)
    }

    fn empty(&self, place: u32, slot: u32) -> bool {
        self.scene.empty(place, slot)
    }

    fn fresh(&self, place: u32, slot: u32) -> bool {
        self.scene.fresh(place, slot)
    }
}

impl<'a, S: Scene> Scene for Single<'a, S> {
    ghost setting = { λ x. S.setting x.scene.now };

    fn proc(&self) -> u32 {
        self.scene.proc()
    }

    fn places(&self) -> u32 {
        self.scene.places()
    }

    fn is_pointer(&self, slot: u32) -> bool {
        self.scene.is_pointer(slot)
    }

    fn params(&self) -> u32 {
        self.scene.params()
    }

    fn ret(&self) -> Option<u32> {
        self.scene.ret()
    }

    fn field_at(&self, slot: u32, member: u32) -> u32 {
        self.scene.field_at(slot, member)
    }

    fn has_body(&self, callee: u32) -> bool {
        self.scene.has_body(callee)
    }

    fn entry(&self, slot: u32) -> Var {
        self.scene.entry(slot)
    }

    fn exit(&self) -> Var {
        self.scene.exit()
    }

    fn part(&self, place: u32, callee: u32, part: u32) -> Var {
        self.scene.part(place, callee, part)
    }

    fn edges(&self, place: u32) -> &[Edge] {
        self.scene.edges(place)
    }
}
