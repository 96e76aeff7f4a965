use crate::action::NewKind;
use c_tree::{BinaryOp, Place};
use c_types::SlotType;
use std::marker::Model;

/// A slot of a procedure whose temporaries have no numbers yet.
#[derive(Clone, Copy, Debug, PartialEq, Eq)]
pub(crate) enum Slot {
    /// A parameter or a local, by its number.
    Var(u32),
    /// The result.
    Ret,
    /// A temporary: the position of its node among the expression nodes of the innermost statement, and its type.
    Temp(u32, SlotType),
}

/// Slots, which contracts see as a list.
#[derive(Debug, Drop)]
pub(crate) struct Slots {
    pub items: Vec<Slot>,
}

impl Model for Slots {
    ghost use Rattle.std.specs.Prelude.{List};
    ghost use Rattle.flow_graph.specs.declared.raw.Slot.{Slot};

    ghost Value = { List Slot };

    ghost view = { λ s. s.items.items };
}

/// An action over slots without numbers; a string is named by its node, and a count of one is None.
#[derive(Debug, Drop)]
pub(crate) enum RawAction {
    Skip,
    Set(Slot, i32),
    Move(Slot, Slot),
    Unset(Slot),
    Null(Slot),
    Text(Slot, u32),
    Copy(Slot, Slot),
    Neg(Slot, Slot),
    Arith(Slot, BinaryOp, Slot, Slot),
    Get(Slot, Slot, u32),
    Load(Slot, Slot, u32),
    At(Slot, Slot, Slot),
    New(Slot, bool, NewKind, Option<Slot>),
    Free(Slot),
    Store(Slot, u32, Slot),
    Put(Slot, u32, Slot),
    PutAt(Slot, Slot, Slot),
    IsNull(Slot),
    NotNull(Slot),
    FieldNull(Slot, u32),
    FieldSet(Slot, u32),
    NonZero(Slot),
    Zero(Slot),
    Equal(Slot, Slot),
    Differ(Slot, Slot),
    Call(Option<Slot>, u32, Slots),
}

/// An edge between places without numbers.
#[derive(Debug, Drop)]
pub(crate) struct RawEdge {
    pub from: Place,
    pub action: RawAction,
    pub to: Place,
}
