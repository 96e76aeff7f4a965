ghost use Rattle.std.specs.Prelude.{◌≡◌, neg_ℤ};
ghost use Rattle.std.specs.Int.{w8, int_wrap};
ghost use Rattle.heap_meaning.specs.Numbers.{stored_as, exact, number_of_truth, result_of};

use crate::choices::Stop;
use c_tree::BinaryOp;
use c_types::SlotType;

/// What eight signed bits hold of a number.
fn wrapped(number: i32) -> i32
    ensures { result ≡ int_wrap w8 number }
{
    let bits = number.rem_euclid(256);
    if bits < 128 { bits } else { bits - 256 }
}

/// What a slot or cell of this type holds of a number that is put into it: a `char` wraps.
pub(crate) fn stored(kind: SlotType, number: i32) -> i32
    ensures { result ≡ stored_as kind number }
{
    match kind {
        SlotType::Char => wrapped(number),
        _ => number,
    }
}

pub(crate) fn negated(number: i32) -> Result<i32, Stop>
    ensures { result ≡ exact (neg_ℤ number) }
{
    number.checked_neg().ok_or(Stop::Overflow)
}

fn truth(holds: bool) -> i32
    ensures { result ≡ number_of_truth holds }
{
    if holds { 1 } else { 0 }
}

/// What an operator gives, or the error at which it stops the run.
pub(crate) fn computed(op: BinaryOp, a: i32, b: i32) -> Result<i32, Stop>
    ensures { result ≡ result_of op a b }
{
    match op {
        BinaryOp::Mul => a.checked_mul(b).ok_or(Stop::Overflow),
        BinaryOp::Div if b == 0 => Err(Stop::ZeroDivisor),
        BinaryOp::Div => a.checked_div(b).ok_or(Stop::Overflow),
        BinaryOp::Rem if b == 0 => Err(Stop::ZeroDivisor),
        BinaryOp::Rem => a.checked_rem(b).ok_or(Stop::Overflow),
        BinaryOp::Add => a.checked_add(b).ok_or(Stop::Overflow),
        BinaryOp::Sub => a.checked_sub(b).ok_or(Stop::Overflow),
        BinaryOp::Lt => Ok(truth(a < b)),
        BinaryOp::Le => Ok(truth(a <= b)),
        BinaryOp::Gt => Ok(truth(a > b)),
        BinaryOp::Ge => Ok(truth(a >= b)),
        BinaryOp::Eq => Ok(truth(a == b)),
        BinaryOp::Ne => Ok(truth(a != b)),
        BinaryOp::And => Ok(truth(a != 0 && b != 0)),
        BinaryOp::Or => Ok(truth(a != 0 || b != 0)),
    }
}
