ghost use Rattle.std.specs.Prelude.{◌≡◌, [], map, replicate, IfOk};
ghost use Rattle.flow_graph.specs.declared.raw.RawAction.TheVariants as RawAction;
ghost use Rattle.flow_graph.specs.Fits.{ConstantFits, RowsFit};
ghost use Rattle.flow_graph.specs.Numbers.{count_number, action_number, slot_number, edge_number, edge_rows};

use crate::action::{Action, Count, Edge, NewKind};
use crate::graph::Edges;
use crate::numbering::{Numbering, number_at, place_number, slot_number};
use crate::numbers::Numbers;
use crate::raw::{RawAction, RawEdge, Slot};
use c_tree::{BinaryOp, Memory};
use std::alloc::Global;

fn count_number(ns: &Numbering, count: Option<Slot>) -> Result<Count, Memory>
    ensures { IfOk result (λ c. c ≡ count_number ns.now count) }
{
    match count {
        None => Ok(Count::One),
        Some(x) => Ok(Count::Slot(slot_number(ns, x)?)),
    }
}

#[tactic(auto, using(crate::proofs::NumberRows::slot_numbers_at))]
fn slot_numbers(alloc: Global, ns: &Numbering, slots: &[Slot]) -> Result<Numbers, Memory>
    ensures { IfOk result (λ ks. ks ≡ map (slot_number ns.now) slots.now) }
{
    let mut items = Vec::new(alloc);
    for x in slots {
        let number = slot_number(ns, *x)?;
        items.push(number)?;
    }
    Ok(Numbers { items })
}

/// A call, with the numbers of its slots.
fn call_number(
    alloc: Global,
    ns: &Numbering,
    x: Option<Slot>,
    callee: u32,
    slots: &[Slot],
) -> Result<Action, Memory>
    ensures { IfOk result (λ a. a ≡ action_number ns.now (RawAction.Call x callee slots.now)) }
{
    let numbers = slot_numbers(alloc, ns, slots)?;
    match x {
        None => Ok(Action::Call(None, callee, numbers)),
        Some(x) => Ok(Action::Call(Some(slot_number(ns, x)?), callee, numbers)),
    }
}

fn text_number(ns: &Numbering, x: Slot, node: u32) -> Result<Action, Memory>
    ensures { IfOk result (λ a. a ≡ action_number ns.now (RawAction.Text x node)) }
{
    let texts = ns.texts.as_slice();
    Ok(Action::Text(slot_number(ns, x)?, number_at(texts, node as usize)))
}

fn arith_number(ns: &Numbering, x: Slot, op: BinaryOp, a: Slot, b: Slot) -> Result<Action, Memory>
    ensures { IfOk result (λ r. r ≡ action_number ns.now (RawAction.Arith x op a b)) }
{
    let first = slot_number(ns, a)?;
    Ok(Action::Arith(slot_number(ns, x)?, op, first, slot_number(ns, b)?))
}

fn load_number(ns: &Numbering, x: Slot, y: Slot, f: u32) -> Result<Action, Memory>
    ensures { IfOk result (λ a. a ≡ action_number ns.now (RawAction.Load x y f)) }
{
    Ok(Action::Load(slot_number(ns, x)?, slot_number(ns, y)?, f))
}

fn at_number(ns: &Numbering, x: Slot, y: Slot, i: Slot) -> Result<Action, Memory>
    ensures { IfOk result (λ a. a ≡ action_number ns.now (RawAction.At x y i)) }
{
    Ok(Action::At(
        slot_number(ns, x)?,
        slot_number(ns, y)?,
        slot_number(ns, i)?,
    ))
}

fn new_number(
    ns: &Numbering,
    x: Slot,
    zeroed: bool,
    kind: NewKind,
    count: Option<Slot>,
) -> Result<Action, Memory>
    ensures { IfOk result (λ a. a ≡ action_number ns.now (RawAction.New x zeroed kind count)) }
{
    Ok(Action::New(slot_number(ns, x)?, zeroed, kind, count_number(ns, count)?))
}

fn store_number(ns: &Numbering, y: Slot, f: u32, x: Slot) -> Result<Action, Memory>
    ensures { IfOk result (λ a. a ≡ action_number ns.now (RawAction.Store y f x)) }
{
    Ok(Action::Store(slot_number(ns, y)?, f, slot_number(ns, x)?))
}

fn put_at_number(ns: &Numbering, y: Slot, i: Slot, x: Slot) -> Result<Action, Memory>
    ensures { IfOk result (λ a. a ≡ action_number ns.now (RawAction.PutAt y i x)) }
{
    Ok(Action::PutAt(
        slot_number(ns, y)?,
        slot_number(ns, i)?,
        slot_number(ns, x)?,
    ))
}

/// An action with the numbers of its slots.
fn action_number(alloc: Global, ns: &Numbering, action: &RawAction) -> Result<Action, Memory>
    ensures number { IfOk result (λ a. a ≡ action_number ns.now action.now) }
    ensures constants { IfOk result (λ a. ConstantFits a) }
{
    match action {
        RawAction::Skip => Ok(Action::Skip),
        RawAction::Set(x, c) => Ok(Action::Set(slot_number(ns, *x)?, *c)),
        RawAction::Move(x, a) => Ok(Action::Move(slot_number(ns, *x)?, slot_number(ns, *a)?)),
        RawAction::Unset(x) => Ok(Action::Unset(slot_number(ns, *x)?)),
        RawAction::Null(x) => Ok(Action::Null(slot_number(ns, *x)?)),
        RawAction::Text(x, node) => text_number(ns, *x, *node),
        RawAction::Copy(x, y) => Ok(Action::Copy(slot_number(ns, *x)?, slot_number(ns, *y)?)),
        RawAction::Neg(x, a) => Ok(Action::Neg(slot_number(ns, *x)?, slot_number(ns, *a)?)),
        RawAction::Arith(x, op, a, b) => arith_number(ns, *x, *op, *a, *b),
        RawAction::Get(x, y, f) => Ok(Action::Get(slot_number(ns, *x)?, slot_number(ns, *y)?, *f)),
        RawAction::Load(x, y, f) => load_number(ns, *x, *y, *f),
        RawAction::At(x, y, i) => at_number(ns, *x, *y, *i),
        RawAction::New(x, zeroed, kind, count) => new_number(ns, *x, *zeroed, *kind, *count),
        RawAction::Free(x) => Ok(Action::Free(slot_number(ns, *x)?)),
        RawAction::Store(y, f, x) => store_number(ns, *y, *f, *x),
        RawAction::Put(y, f, x) => Ok(Action::Put(slot_number(ns, *y)?, *f, slot_number(ns, *x)?)),
        RawAction::PutAt(y, i, x) => put_at_number(ns, *y, *i, *x),
        RawAction::IsNull(x) => Ok(Action::IsNull(slot_number(ns, *x)?)),
        RawAction::NotNull(x) => Ok(Action::NotNull(slot_number(ns, *x)?)),
        RawAction::FieldNull(y, f) => Ok(Action::FieldNull(slot_number(ns, *y)?, *f)),
        RawAction::FieldSet(y, f) => Ok(Action::FieldSet(slot_number(ns, *y)?, *f)),
        RawAction::NonZero(x) => Ok(Action::NonZero(slot_number(ns, *x)?)),
        RawAction::Zero(x) => Ok(Action::Zero(slot_number(ns, *x)?)),
        RawAction::Equal(x, y) => Ok(Action::Equal(slot_number(ns, *x)?, slot_number(ns, *y)?)),
        RawAction::Differ(x, y) => Ok(Action::Differ(slot_number(ns, *x)?, slot_number(ns, *y)?)),
        RawAction::Call(x, callee, us) => call_number(alloc, ns, *x, *callee, us.items.as_slice()),
    }
}

fn edge_number(alloc: Global, ns: &Numbering, e: &RawEdge) -> Result<Edge, Memory>
    ensures number { IfOk result (λ d. d ≡ edge_number ns.now e.now) }
    ensures constants { IfOk result (λ d. ConstantFits d.action) }
{
    let action = action_number(alloc, ns, &e.action)?;
    let to = place_number(ns, e.to)?;
    Ok(Edge { action, to })
}

/// So many places without edges, with room for the one edge that most have.
fn empty_rows(alloc: Global, count: usize) -> Result<Vec<Edges>, Memory>
    ensures { IfOk result (λ rows. rows.items ≡ replicate count []) }
{
    let mut rows = Vec::new(alloc);
    for _i in 0..count {
        rows.push(Edges {
            items: Vec::with_capacity(alloc, 1)?,
        })?;
    }
    Ok(rows)
}

/// The edges of each of the first places, in order.
pub(crate) fn edge_rows(
    alloc: Global,
    ns: &Numbering,
    edges: &[RawEdge],
    count: usize,
) -> Result<Vec<Edges>, Memory>
    ensures rows { IfOk result (λ rows. rows.items ≡ edge_rows ns.now edges.now count) }
    ensures constants { IfOk result (λ rows. RowsFit rows.items) }
{
    let mut rows = empty_rows(alloc, count)?;
    for e in edges {
        let from = place_number(ns, e.from)? as usize;
        let edge = edge_number(alloc, ns, e)?;
        if from < rows.len() {
            let row = &mut rows[from];
            row.items.push(edge)?;
        }
    }
    Ok(rows)
}
