use crate::kinds::SlotType;
use c_tree::{Name, Span};
use std::marker::Model;

/// A member of a struct.
#[derive(Drop)]
pub struct MemberInfo {
    pub name: Name,
    pub kind: SlotType,
    /// The number of a pointer field, from 1 through all structs in order; 0 for an integer.
    pub field: u32,
}

/// Members, in order of declaration.
#[derive(Drop)]
pub struct MemberInfos {
    pub items: Vec<MemberInfo>,
}

impl Model for MemberInfos {
    ghost use Rattle.std.specs.Prelude.{List};
    ghost use Rattle.c_types.specs.declared.infos.MemberInfo.{MemberInfo};

    ghost Value = { List MemberInfo };

    ghost view = { λ m. m.items.items };
}

/// A struct. One that is only named has no members.
#[derive(Drop)]
pub struct StructInfo {
    pub tag: Name,
    pub members: MemberInfos,
}

/// Structs by number, from 0: those with a definition in order of their definitions, then those that
/// are only named, in order of their first mention.
#[derive(Drop)]
pub struct StructInfos {
    pub items: Vec<StructInfo>,
}

impl Model for StructInfos {
    ghost use Rattle.std.specs.Prelude.{List};
    ghost use Rattle.c_types.specs.declared.infos.StructInfo.{StructInfo};

    ghost Value = { List StructInfo };

    ghost view = { λ s. s.items.items };
}

/// A parameter, a local or the result.
#[derive(Drop)]
pub struct SlotInfo {
    /// Empty for the result and for a parameter without a name.
    pub name: Name,
    pub kind: SlotType,
    /// The declaration; for the result the closing brace.
    pub at: Span,
}

/// Slots by number, from 0: the parameters, the locals in order of declaration, then the result where
/// there is one. A procedure without a body has its parameters alone.
#[derive(Drop)]
pub struct SlotInfos {
    pub items: Vec<SlotInfo>,
}

impl Model for SlotInfos {
    ghost use Rattle.std.specs.Prelude.{List};
    ghost use Rattle.c_types.specs.declared.infos.SlotInfo.{SlotInfo};

    ghost Value = { List SlotInfo };

    ghost view = { λ s. s.items.items };
}

/// What a node of a body is.
#[derive(Clone, Copy, Debug, PartialEq, Eq)]
pub struct NodeInfo {
    /// The type of an expression that has one; NULL, and 0 as NULL, have the type that they are given.
    pub kind: Option<SlotType>,
    /// The slot of a name or of a declaration, the procedure of a call, or the member of an arrow,
    /// counted from 0.
    pub refers: Option<u32>,
}

/// The nodes of a body in preorder, from 0, which is its block.
#[derive(Drop)]
pub struct NodeInfos {
    pub items: Vec<NodeInfo>,
}

impl Model for NodeInfos {
    ghost use Rattle.std.specs.Prelude.{List};
    ghost use Rattle.c_types.specs.declared.infos.NodeInfo.{NodeInfo};

    ghost Value = { List NodeInfo };

    ghost view = { λ n. n.items.items };
}

/// A procedure.
#[derive(Drop)]
pub struct ProcInfo {
    /// The place of its body, or of its first prototype where it has none, among the tree's
    /// procedures.
    pub item: u32,
    /// How many parameters it has.
    pub params: u32,
    /// None for `void`.
    pub result: Option<SlotType>,
    pub slots: SlotInfos,
    pub nodes: NodeInfos,
}

/// Procedures by number, from 0: those with a body in order of their bodies, then the others in order
/// of their first prototype.
#[derive(Drop)]
pub struct ProcInfos {
    pub items: Vec<ProcInfo>,
}

impl Model for ProcInfos {
    ghost use Rattle.std.specs.Prelude.{List};
    ghost use Rattle.c_types.specs.declared.infos.ProcInfo.{ProcInfo};

    ghost Value = { List ProcInfo };

    ghost view = { λ p. p.items.items };
}
