ghost use Rattle.std.specs.Prelude.{◌≡◌, is_some};
ghost use Rattle.c_types.specs.Types.{slot_type, tag_number};
ghost use Rattle.c_types.specs.Declarations.{is_defined, signature_of, has_body};
ghost use Rattle.c_types.specs.Exprs.{result_of, params_of, member_of, member_from};

use crate::infos::{MemberInfo, StructInfos};
use crate::kinds::{Operand, SlotType, SlotTypes};
use crate::names::Names;
use c_tree::TypeName;
use std::marker::Model;

/// The types of a procedure's parameters, and of its result where it has one.
#[derive(Drop)]
pub(crate) struct Signature {
    pub params: SlotTypes,
    pub result: Option<SlotType>,
}

/// Signatures, in order.
#[derive(Drop)]
pub(crate) struct Signatures {
    pub items: Vec<Signature>,
}

impl Model for Signatures {
    ghost use Rattle.std.specs.Prelude.{List};
    ghost use Rattle.c_types.specs.declared.tables.Signature.{Signature};

    ghost Value = { List Signature };

    ghost view = { λ s. s.items.items };
}

/// What the declarations of a file say.
#[derive(Drop)]
pub(crate) struct Tables<'t> {
    /// The tags of all structs, by the struct's number.
    pub tags: Names<'t>,
    /// How many structs have a definition: the first ones.
    pub defined: u32,
    /// The structs by number.
    pub structs: StructInfos,
    /// The names of all procedures, by the procedure's number.
    pub procs: Names<'t>,
    /// How many procedures have a body: the first ones.
    pub bodies: u32,
    /// The names of all procedures, in order of their first prototype or body.
    pub declared: Names<'t>,
    /// What these first prototypes and bodies say, in the same order.
    pub signatures: Signatures,
}

/// What a call needs to know of the procedure that it names.
#[derive(Clone, Copy)]
pub(crate) struct Callee<'t> {
    /// Whether it has a prototype or a body.
    pub known: bool,
    pub params: &'t [SlotType],
    pub result: Option<SlotType>,
}

/// The type that a declaration writes.
pub(crate) fn slot_type(tags: &Names, kind: &TypeName) -> SlotType
    ensures { result ≡ slot_type tags.now kind.now }
{
    match kind {
        TypeName::Int => SlotType::Int,
        TypeName::Char => SlotType::Char,
        TypeName::IntPtr => SlotType::IntPtr,
        TypeName::CharPtr => SlotType::CharPtr,
        TypeName::StructPtr(tag) => SlotType::StructPtr(tags.place(tag.items.as_slice())),
    }
}

/// The place and the type of the first member of that name.
#[tactic(auto, using(crate::proofs::Rows::member_from_at))]
fn member_named(members: &[MemberInfo], name: &[u8]) -> Option<(usize, SlotType)>
    ensures { result ≡ member_from 0 members.now name.now }
{
    for (i, m) in members.iter().enumerate() {
        if m.name.items.as_slice() == name {
            return Some((i, m.kind));
        }
    }
    None
}

impl<'t> Tables<'t> {
    pub fn is_defined(&self, tag: &[u8]) -> bool
        ensures { result ≡ is_defined self.now tag.now }
    {
        self.tags.place(tag) < self.defined
    }

    /// Whether a procedure of that name has a body.
    pub fn has_body(&self, name: &[u8]) -> bool
        ensures { result ≡ has_body self.now name.now }
    {
        self.procs.place(name) < self.bodies
    }

    pub fn callee(&self, name: &[u8]) -> Callee<'_>
        ensures known { result.known ≡ is_some (signature_of self.now name.now) }
        ensures params { result.params.now ≡ params_of self.now name.now }
        ensures result_type { result.result ≡ result_of self.now name.now }
    {
        let place = self.declared.place(name) as usize;
        match self.signatures.items.get(place) {
            Some(g) => Callee {
                known: true,
                params: g.params.items.as_slice(),
                result: g.result,
            },
            None => Callee {
                known: false,
                params: &[],
                result: None,
            },
        }
    }

    /// The place and the type of the member to which an arrow over that base leads.
    pub fn member_of(&self, base: Operand, name: &[u8]) -> Option<(usize, SlotType)>
        ensures { result ≡ member_of self.now base name.now }
    {
        match base {
            Operand::Typed(SlotType::StructPtr(n)) => match self.structs.items.get(n as usize) {
                Some(s) => member_named(s.members.items.as_slice(), name),
                None => None,
            },
            Operand::Typed(SlotType::Int)
            | Operand::Typed(SlotType::Char)
            | Operand::Typed(SlotType::IntPtr)
            | Operand::Typed(SlotType::CharPtr)
            | Operand::Zero
            | Operand::Null
            | Operand::Untyped => None,
        }
    }
}
