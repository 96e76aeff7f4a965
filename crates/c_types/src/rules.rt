//! The rules of types that speak of operands alone, and which broken rule stands first.

ghost use Rattle.std.specs.Prelude.{◌≡◌};
ghost use Rattle.c_types.specs.Breaches.{breach_if, soonest, sooner};
ghost use Rattle.c_types.specs.Types.{breaks_9, element_type, breaks_11, breaks_12, breaks_13, breaks_15, breaks_16, binary_rule, breaks_binary, wanted_by};

use crate::kinds::{Operand, SlotType, Wanted, fits};
use c_tree::{BinaryOp, Span};

/// A broken rule: where the node to which it belongs begins, and the rule's number.
#[derive(Clone, Copy)]
pub(crate) struct Breach {
    pub at: u32,
    pub rule: u32,
}

pub(crate) fn breach_if(is: bool, at: Span, rule: u32) -> Option<Breach>
    ensures { result ≡ breach_if soonest is at rule }
{
    if is {
        Some(Breach { at: at.start, rule })
    } else {
        None
    }
}

/// The one that begins first, and the left one where both begin at one byte.
#[tactic(auto, unfolding(crate::specs::Breaches::sooner))]
pub(crate) fn sooner(a: Option<Breach>, b: Option<Breach>) -> Option<Breach>
    ensures { result ≡ sooner a b }
{
    match (a, b) {
        (None, _) => b,
        (_, None) => a,
        (Some(x), Some(y)) => { if y.at < x.at { b } else { a } }
    }
}

/// The base of an index is an `int *` or a `char *`, and the index is an integer.
pub(crate) fn breaks_9(base: Operand, index: Operand) -> bool
    ensures { result ≡ breaks_9 base index }
{
    match base {
        Operand::Typed(SlotType::IntPtr) | Operand::Typed(SlotType::CharPtr) | Operand::Untyped => {
            index.is_no_integer()
        }
        Operand::Typed(SlotType::Int)
        | Operand::Typed(SlotType::Char)
        | Operand::Typed(SlotType::StructPtr(_))
        | Operand::Zero
        | Operand::Null => true,
    }
}

/// The type of an element of that base.
pub(crate) fn element_type(base: Operand) -> Option<SlotType>
    ensures { result ≡ element_type base }
{
    match base {
        Operand::Typed(SlotType::IntPtr) => Some(SlotType::Int),
        Operand::Typed(SlotType::CharPtr) => Some(SlotType::Char),
        Operand::Typed(SlotType::Int)
        | Operand::Typed(SlotType::Char)
        | Operand::Typed(SlotType::StructPtr(_))
        | Operand::Zero
        | Operand::Null
        | Operand::Untyped => None,
    }
}

/// Two integers are compared, two pointers of one type, or a pointer that has a type with NULL or 0.
pub(crate) fn breaks_11(a: Operand, b: Operand) -> bool
    ensures { result ≡ breaks_11 a b }
{
    match (a, b) {
        (Operand::Untyped, _) | (_, Operand::Untyped) => false,
        (Operand::Null, Operand::Typed(k)) | (Operand::Typed(k), Operand::Null) => !k.is_pointer(),
        (Operand::Null, _) | (_, Operand::Null) => true,
        (Operand::Typed(k), Operand::Typed(l)) => !fits(k, l),
        (Operand::Zero, _) | (_, Operand::Zero) => false,
    }
}

/// A condition is an integer or a pointer that has a type.
pub(crate) fn breaks_12(o: Operand) -> bool
    ensures { result ≡ breaks_12 o }
{
    matches!(o, Operand::Null)
}

/// An integer goes to an integer, a pointer to a pointer of its type, and NULL or 0 to a pointer.
pub(crate) fn breaks_13(target: Option<SlotType>, source: Operand) -> bool
    ensures { result ≡ breaks_13 target source }
{
    match (target, source) {
        (Some(k), Operand::Typed(l)) => !fits(k, l),
        (Some(k), Operand::Null) => !k.is_pointer(),
        (Some(_), Operand::Zero | Operand::Untyped) | (None, _) => false,
    }
}

/// What is freed is a pointer that has a type.
pub(crate) fn breaks_15(o: Operand) -> bool
    ensures { result ≡ breaks_15 o }
{
    match o {
        Operand::Typed(k) => !k.is_pointer(),
        Operand::Zero | Operand::Null => true,
        Operand::Untyped => false,
    }
}

/// A value is returned where there is a result, which it fits.
pub(crate) fn breaks_16(result_type: Option<SlotType>, value: Operand) -> bool
    ensures { result ≡ breaks_16 result_type value }
{
    match result_type {
        Some(_) => breaks_13(result_type, value),
        None => true,
    }
}

/// The number of the rule on the operands of an operator.
#[tactic(auto, unfolding(crate::specs::Types::binary_rule))]
pub(crate) fn binary_rule(op: BinaryOp) -> u32
    ensures { result ≡ binary_rule op }
{
    match op {
        BinaryOp::Eq | BinaryOp::Ne => 11,
        BinaryOp::And | BinaryOp::Or => 12,
        BinaryOp::Mul
        | BinaryOp::Div
        | BinaryOp::Rem
        | BinaryOp::Add
        | BinaryOp::Sub
        | BinaryOp::Lt
        | BinaryOp::Le
        | BinaryOp::Gt
        | BinaryOp::Ge => 10,
    }
}

/// Whether the operands break that rule of an operator.
#[tactic(auto, unfolding(crate::specs::Types::breaks_binary))]
pub(crate) fn breaks_binary(rule: u32, a: Operand, b: Operand) -> bool
    ensures { result ≡ breaks_binary rule a b }
{
    if rule == 11 {
        breaks_11(a, b)
    } else if rule == 12 {
        breaks_12(a) || breaks_12(b)
    } else {
        a.is_no_integer() || b.is_no_integer()
    }
}

/// What an operator wants beside this operand.
#[tactic(auto, unfolding(crate::specs::Types::wanted_by))]
pub(crate) fn wanted_by(op: BinaryOp, beside: Operand) -> Wanted
    ensures { result ≡ wanted_by op beside }
{
    if binary_rule(op) == 11 {
        Wanted::of_type(beside.type_of())
    } else {
        Wanted::Value
    }
}
