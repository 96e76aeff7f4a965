ghost use Rattle.std.specs.Prelude.{◌≡◌, ◌≤◌, OnOk, IfOk};
ghost use Rattle.flow_graph.specs.Parts.{kind_at, type_at, refers_at, is_pointer_at, var_at, temp, same_var, one, two};

use crate::raw::{RawAction, RawEdge, Slot};
use c_tree::{Memory, Place};
use c_types::{NodeInfo, SlotType};

/// The type of the node's value, where it has one.
pub(crate) fn kind_at(infos: &[NodeInfo], n: u32) -> Option<SlotType>
    ensures { result ≡ kind_at infos.now n }
{
    match infos.get(n as usize) {
        Some(info) => info.kind,
        None => None,
    }
}

/// The type of the node's value; `Int` where it has none.
pub(crate) fn type_at(infos: &[NodeInfo], n: u32) -> SlotType
    ensures { result ≡ type_at infos.now n }
{
    match kind_at(infos, n) {
        Some(kind) => kind,
        None => SlotType::Int,
    }
}

/// The slot, the procedure or the member that the node names.
pub(crate) fn refers_at(infos: &[NodeInfo], n: u32) -> u32
    ensures { result ≡ refers_at infos.now n }
{
    match infos.get(n as usize) {
        Some(info) => match info.refers {
            Some(number) => number,
            None => 0,
        },
        None => 0,
    }
}

pub(crate) fn is_pointer_at(infos: &[NodeInfo], n: u32) -> bool
    ensures { result ≡ is_pointer_at infos.now n }
{
    type_at(infos, n).is_pointer()
}

/// The variable that the node names.
pub(crate) fn var_at(infos: &[NodeInfo], n: u32) -> Slot
    ensures { result ≡ var_at infos.now n }
{
    Slot::Var(refers_at(infos, n))
}

/// The temporary of node `n`, in a statement whose first expression node is `base`.
pub(crate) fn temp(infos: &[NodeInfo], base: u32, n: u32) -> Slot
    requires { base ≤ n }
    ensures { result ≡ temp infos.now base n }
{
    Slot::Temp(n - base, type_at(infos, n))
}

/// Whether the two are one variable.
pub(crate) fn same_var(x: Slot, y: Slot) -> bool
    ensures { result ≡ same_var x y }
{
    match (x, y) {
        (Slot::Var(x), Slot::Var(y)) => x == y,
        (Slot::Var(_), Slot::Ret)
        | (Slot::Var(_), Slot::Temp(_, _))
        | (Slot::Ret, _)
        | (Slot::Temp(_, _), _) => false,
    }
}

/// Appends an edge, and gives the place at which it begins.
pub(crate) fn put(
    from: Place,
    action: RawAction,
    to: Place,
    out: &mut Vec<RawEdge>,
) -> Result<Place, Memory>
    ensures start { IfOk result (λ p. p ≡ (one from action to).start) }
    ensures edges { OnOk result (out.new.items ≡ (one from action to).after out.old.items) }
{
    out.push(RawEdge { from, action, to })?;
    Ok(from)
}

/// Appends the two sides of a test, each with the place to which it leads.
pub(crate) fn put_two(
    from: Place,
    first: RawAction,
    to: Place,
    second: RawAction,
    other: Place,
    out: &mut Vec<RawEdge>,
) -> Result<Place, Memory>
    ensures start { IfOk result (λ p. p ≡ (two from first to second other).start) }
    ensures edges { OnOk result (out.new.items ≡ (two from first to second other).after out.old.items) }
{
    out.push(RawEdge {
        from,
        action: first,
        to,
    })?;
    out.push(RawEdge {
        from,
        action: second,
        to: other,
    })?;
    Ok(from)
}
