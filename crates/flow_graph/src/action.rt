ghost use Rattle.std.specs.Prelude.{◌≡◌};

use crate::numbers::Numbers;
use c_tree::BinaryOp;

/// What an allocation makes.
#[derive(Clone, Copy, Debug, PartialEq, Eq)]
pub enum NewKind {
    /// An object of the struct of this number.
    Struct(u32),
    Ints,
    Chars,
}

/// How many units an allocation asks for.
#[derive(Clone, Copy, Debug, PartialEq, Eq)]
pub enum Count {
    /// As many as this slot says.
    Slot(u32),
    One,
}

/// What a step along an edge does.
///
/// A slot is its number in its procedure, the first part being the slot that is assigned where there is one. A field is
/// the number of a member in the struct of its base, from 0.
#[derive(Debug, Drop)]
pub enum Action {
    Skip,
    /// The integer slot gets a constant.
    Set(u32, i32),
    /// One integer slot gets the value of another.
    Move(u32, u32),
    /// The slot has no value from here on.
    Unset(u32),
    /// The pointer slot becomes null.
    Null(u32),
    /// The slot gets the string of this number.
    Text(u32, u32),
    /// One pointer slot gets the value of another.
    Copy(u32, u32),
    Neg(u32, u32),
    /// Arithmetic or a comparison of two integer slots.
    Arith(u32, BinaryOp, u32, u32),
    /// A slot gets an integer field: the slot, the base, the field.
    Get(u32, u32, u32),
    /// A slot gets a pointer field: the slot, the base, the field.
    Load(u32, u32, u32),
    /// A slot gets the cell of a base with an index.
    At(u32, u32, u32),
    /// An allocation: the slot, whether it is `calloc`, what it makes and how many.
    New(u32, bool, NewKind, Count),
    Free(u32),
    /// A pointer field gets the value of a slot: the base, the field, the slot.
    Store(u32, u32, u32),
    /// An integer field gets the value of a slot: the base, the field, the slot.
    Put(u32, u32, u32),
    /// A cell gets the value of a slot: the base, the index, the slot.
    PutAt(u32, u32, u32),
    IsNull(u32),
    NotNull(u32),
    /// The pointer field of a base is null.
    FieldNull(u32, u32),
    /// The pointer field of a base is not null.
    FieldSet(u32, u32),
    NonZero(u32),
    Zero(u32),
    /// Two pointer slots are equal.
    Equal(u32, u32),
    /// Two pointer slots differ.
    Differ(u32, u32),
    /// A call: the result's slot where there is one, the procedure, the slots of all arguments.
    Call(Option<u32>, u32, Numbers),
}

impl Action {
    ghost use Rattle.flow_graph.specs.Calls.{callee_of};

    /// The procedure that a call calls; none for what is no call.
    pub fn callee(&self) -> Option<u32>
        ensures { result ≡ callee_of self.now }
    {
        match self {
            Action::Call(_, callee, _) => Some(*callee),
            _ => None,
        }
    }
}

/// An edge of a place: what a step along it does, and the place to which it leads.
#[derive(Debug, Drop)]
pub struct Edge {
    pub action: Action,
    pub to: u32,
}
