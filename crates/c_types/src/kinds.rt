ghost use Rattle.std.specs.Prelude.{◌≡◌, ◌||◌};
ghost use Rattle.c_types.specs.Types.{is_pointer, same_type, fits, pointer_only, of_number, of_type, wanted_for, pointer_wanted, type_of, type_as, no_integer};

use std::marker::Model;

/// The type of a slot, of a member or of an expression.
#[derive(Clone, Copy, Debug, PartialEq, Eq)]
pub enum SlotType {
    Int,
    Char,
    IntPtr,
    CharPtr,
    /// A pointer to the struct of this number.
    StructPtr(u32),
}

impl SlotType {
    pub fn is_pointer(self) -> bool
        ensures { result ≡ is_pointer self }
    {
        match self {
            SlotType::Int | SlotType::Char => false,
            SlotType::IntPtr | SlotType::CharPtr | SlotType::StructPtr(_) => true,
        }
    }
}

/// Types, in order.
#[derive(Drop)]
pub(crate) struct SlotTypes {
    pub items: Vec<SlotType>,
}

impl Model for SlotTypes {
    ghost use Rattle.std.specs.Prelude.{List};
    ghost use Rattle.c_types.specs.declared.kinds.SlotType.{SlotType};

    ghost Value = { List SlotType };

    ghost view = { λ s. s.items.items };
}

pub(crate) fn same_type(a: SlotType, b: SlotType) -> bool
    ensures { result ≡ same_type a b }
{
    match (a, b) {
        (SlotType::Int, SlotType::Int) => true,
        (SlotType::Char, SlotType::Char) => true,
        (SlotType::IntPtr, SlotType::IntPtr) => true,
        (SlotType::CharPtr, SlotType::CharPtr) => true,
        (SlotType::StructPtr(n), SlotType::StructPtr(m)) => n == m,
        _ => false,
    }
}

/// Whether an integer goes to an integer, or a pointer to a pointer of its type.
pub(crate) fn fits(target: SlotType, source: SlotType) -> bool
    ensures { result ≡ fits target source }
{
    if target.is_pointer() {
        same_type(target, source)
    } else {
        !source.is_pointer()
    }
}

/// The type where it is a pointer's.
pub(crate) fn pointer_only(kind: SlotType) -> Option<SlotType>
    ensures { result ≡ pointer_only kind }
{
    if kind.is_pointer() { Some(kind) } else { None }
}

/// What is wanted of an expression.
#[derive(Clone, Copy)]
pub(crate) enum Wanted {
    /// No value: it is a statement.
    Nothing,
    /// A value.
    Value,
    /// A value for that type.
    For(SlotType),
}

impl Wanted {
    pub fn of_type(kind: Option<SlotType>) -> Wanted
        ensures { result ≡ wanted_for kind }
    {
        match kind {
            Some(k) => Wanted::For(k),
            None => Wanted::Value,
        }
    }

    /// The pointer type that it gives to NULL.
    pub fn pointer(self) -> Option<SlotType>
        ensures { result ≡ pointer_wanted self }
    {
        match self {
            Wanted::For(k) => pointer_only(k),
            Wanted::Nothing | Wanted::Value => None,
        }
    }
}

/// What the rules of types see of an expression.
#[derive(Clone, Copy)]
pub(crate) enum Operand {
    /// An expression of this type other than the constant 0.
    Typed(SlotType),
    /// The constant 0: an integer, and NULL where a pointer is wanted.
    Zero,
    Null,
    /// An expression without a type, as a name that is not in scope.
    Untyped,
}

impl Operand {
    pub fn of_number(n: i32) -> Operand
        ensures { result ≡ of_number n }
    {
        match n {
            0 => Operand::Zero,
            _ => Operand::Typed(SlotType::Int),
        }
    }

    pub fn of_type(kind: Option<SlotType>) -> Operand
        ensures { result ≡ of_type kind }
    {
        match kind {
            Some(k) => Operand::Typed(k),
            None => Operand::Untyped,
        }
    }

    pub fn type_of(self) -> Option<SlotType>
        ensures { result ≡ type_of self }
    {
        match self {
            Operand::Typed(k) => Some(k),
            Operand::Zero => Some(SlotType::Int),
            Operand::Null | Operand::Untyped => None,
        }
    }

    /// Its type where that is wanted of it, so that NULL, and 0 as NULL, has the pointer's type.
    pub fn type_as(self, wanted: Wanted) -> Option<SlotType>
        ensures { result ≡ type_as wanted self }
    {
        match self {
            Operand::Typed(k) => Some(k),
            Operand::Zero => match wanted.pointer() {
                Some(k) => Some(k),
                None => Some(SlotType::Int),
            },
            Operand::Null => wanted.pointer(),
            Operand::Untyped => None,
        }
    }

    /// Whether it has no integer's type although it is held to have one.
    pub fn is_no_integer(self) -> bool
        ensures { result ≡ no_integer self }
    {
        match self {
            Operand::Typed(k) => k.is_pointer(),
            Operand::Null => true,
            Operand::Zero | Operand::Untyped => false,
        }
    }
}
