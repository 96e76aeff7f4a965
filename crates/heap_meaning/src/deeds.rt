ghost use Rattle.std.specs.Prelude.{◌≡◌, ◌<◌, List, true};
ghost use Rattle.flow_graph.specs.FlowGraph.{slot_type, FlowGraph};
ghost use Rattle.flow_graph.specs.declared.action.Action.TheVariants as act;
ghost use Rattle.heap_meaning.specs.declared.choices.Choice.{Choice as AnyChoice};
ghost use Rattle.heap_meaning.specs.declared.deeds.Deed.TheVariants as deed;
ghost use Rattle.heap_meaning.specs.declared.states.Object.{Object};
ghost use Rattle.heap_meaning.specs.declared.values.Value.TheVariants as value;
ghost use Rattle.heap_meaning.specs.Numbers.{stored_as};
ghost use Rattle.heap_meaning.specs.Reads.{cell_type, kind_at};
ghost use Rattle.heap_meaning.specs.Deeds.{DoesAs, TestsAs, is_plain};

use crate::choices::{Choice, Stop};
use crate::kinds::{type_of_cell, type_of_slot};
use crate::numbers::{computed, negated, stored};
use crate::reads::check_writable;
use crate::states::{Frame, Kind, Objects};
use crate::values::Value;
use c_tree::BinaryOp;
use flow_graph::{Action, Count, Graph, NewKind};

/// What a step does once its checks have passed.
#[derive(Clone, Copy)]
pub(crate) enum Deed {
    /// Nothing but going on.
    Go,
    /// Puts a value into a slot.
    Assign(u32, Value),
    /// Puts a value into a cell of an object.
    Put(u64, u32, Value),
    /// Frees an object.
    Free(u64),
    /// Makes an object and puts it into a slot: the slot, whether its cells are zero, what it is and how many.
    Make(u32, bool, NewKind, u32),
    /// Frees what is no live allocated object.
    FreeTwice,
}

fn assign_number(graph: &Graph, frame: &Frame, slot: u32, number: i32) -> Deed
    requires { frame.now.proc < graph.now.bodies }
    ensures { result
        ≡ deed.Assign slot (value.Int (stored_as (slot_type graph.now frame.now.proc slot) number)) }
{
    let kind = type_of_slot(graph, frame.proc, slot);
    Deed::Assign(slot, Value::Int(stored(kind, number)))
}

fn put_number(graph: &Graph, heap: &Objects, object: u64, place: u32, number: i32) -> Deed
    ensures { result ≡ deed.Put object place
        (value.Int (stored_as (cell_type graph.now (kind_at heap.now object) place) number)) }
{
    let kind = type_of_cell(graph, heap.kind(object), place);
    Deed::Put(object, place, Value::Int(stored(kind, number)))
}

fn neg(graph: &Graph, frame: &Frame, slot: u32, operand: u32) -> Result<Deed, Stop>
    requires { frame.now.proc < graph.now.bodies }
    ensures { (c : AnyChoice) (h : List Object)
        → DoesAs graph.now c frame.now h result (act.Neg slot operand) }
{
    let number = frame.slots.at(operand).number()?;
    let result = negated(number)?;
    Ok(assign_number(graph, frame, slot, result))
}

fn arith(
    graph: &Graph,
    frame: &Frame,
    slot: u32,
    op: BinaryOp,
    left: u32,
    right: u32,
) -> Result<Deed, Stop>
    requires { frame.now.proc < graph.now.bodies }
    ensures { (c : AnyChoice) (h : List Object)
        → DoesAs graph.now c frame.now h result (act.Arith slot op left right) }
{
    let first = frame.slots.at(left).number()?;
    let second = frame.slots.at(right).number()?;
    let result = computed(op, first, second)?;
    Ok(assign_number(graph, frame, slot, result))
}

fn get(
    graph: &Graph,
    frame: &Frame,
    heap: &Objects,
    slot: u32,
    base: u32,
    field: u32,
) -> Result<Deed, Stop>
    requires { frame.now.proc < graph.now.bodies }
    ensures { (c : AnyChoice) → DoesAs graph.now c frame.now heap.now result (act.Get slot base field) }
{
    let object = heap.base(frame.slots.at(base))?;
    let number = heap.cell(object, field).number()?;
    Ok(assign_number(graph, frame, slot, number))
}

fn load(frame: &Frame, heap: &Objects, slot: u32, base: u32, field: u32) -> Result<Deed, Stop>
    ensures { (g : FlowGraph) (c : AnyChoice)
        → DoesAs g c frame.now heap.now result (act.Load slot base field) }
{
    let object = heap.base(frame.slots.at(base))?;
    let value = heap.cell(object, field).set()?;
    Ok(Deed::Assign(slot, value))
}

fn at(
    graph: &Graph,
    frame: &Frame,
    heap: &Objects,
    slot: u32,
    base: u32,
    index: u32,
) -> Result<Deed, Stop>
    requires { frame.now.proc < graph.now.bodies }
    ensures { (c : AnyChoice) → DoesAs graph.now c frame.now heap.now result (act.At slot base index) }
{
    let pointer = frame.slots.at(base).set()?;
    let number = frame.slots.at(index).number()?;
    let object = heap.base(pointer)?;
    let place = heap.index(object, number)?;
    let read = heap.cell(object, place).number()?;
    Ok(assign_number(graph, frame, slot, read))
}

fn store(frame: &Frame, heap: &Objects, base: u32, field: u32, slot: u32) -> Result<Deed, Stop>
    ensures { (g : FlowGraph) (c : AnyChoice)
        → DoesAs g c frame.now heap.now result (act.Store base field slot) }
{
    let pointer = frame.slots.at(base).set()?;
    let value = frame.slots.at(slot).set()?;
    let object = heap.base(pointer)?;
    Ok(Deed::Put(object, field, value))
}

fn put(
    graph: &Graph,
    frame: &Frame,
    heap: &Objects,
    base: u32,
    field: u32,
    slot: u32,
) -> Result<Deed, Stop>
    ensures { (c : AnyChoice) → DoesAs graph.now c frame.now heap.now result (act.Put base field slot) }
{
    let pointer = frame.slots.at(base).set()?;
    let number = frame.slots.at(slot).number()?;
    let object = heap.base(pointer)?;
    Ok(put_number(graph, heap, object, field, number))
}

fn put_at(
    graph: &Graph,
    frame: &Frame,
    heap: &Objects,
    base: u32,
    index: u32,
    slot: u32,
) -> Result<Deed, Stop>
    ensures { (c : AnyChoice)
        → DoesAs graph.now c frame.now heap.now result (act.PutAt base index slot) }
{
    let pointer = frame.slots.at(base).set()?;
    let number = frame.slots.at(index).number()?;
    let value = frame.slots.at(slot).number()?;
    let object = heap.base(pointer)?;
    let place = heap.index(object, number)?;
    check_writable(heap.kind(object))?;
    Ok(put_number(graph, heap, object, place, value))
}

fn new(
    choice: &Choice,
    frame: &Frame,
    slot: u32,
    zeroed: bool,
    kind: NewKind,
    count: Count,
) -> Result<Deed, Stop>
    ensures { (g : FlowGraph) (h : List Object)
        → DoesAs g choice.now frame.now h result (act.New slot zeroed kind count) }
{
    let number = match count {
        Count::One => 1,
        Count::Slot(count) => frame.slots.at(count).number()?,
    };
    if choice.fits && number >= 0 {
        Ok(Deed::Make(slot, zeroed, kind, number as u32))
    } else {
        Ok(Deed::Assign(slot, Value::Null))
    }
}

fn free(frame: &Frame, heap: &Objects, slot: u32) -> Result<Deed, Stop>
    ensures { (g : FlowGraph) (c : AnyChoice)
        → DoesAs g c frame.now heap.now result (act.Free slot) }
{
    match frame.slots.at(slot).set()? {
        Value::Ref(object) if heap.is_live(object) && heap.kind(object) != Kind::Text => {
            Ok(Deed::Free(object))
        }
        Value::Ref(_) => Ok(Deed::FreeTwice),
        _ => Ok(Deed::Go),
    }
}

/// What comes of an action that is neither a test nor a call.
pub(crate) fn deed_of(
    graph: &Graph,
    choice: &Choice,
    frame: &Frame,
    heap: &Objects,
    action: &Action,
) -> Result<Deed, Stop>
    requires body { frame.now.proc < graph.now.bodies }
    ensures { is_plain action.now ≡ true
        → DoesAs graph.now choice.now frame.now heap.now result action.now }
{
    match action {
        Action::Set(x, number) => Ok(assign_number(graph, frame, *x, *number)),
        Action::Move(x, y) => {
            let number = frame.slots.at(*y).number()?;
            Ok(assign_number(graph, frame, *x, number))
        }
        Action::Unset(x) => Ok(Deed::Assign(*x, Value::Unset)),
        Action::Null(x) => Ok(Deed::Assign(*x, Value::Null)),
        Action::Text(x, number) => Ok(Deed::Assign(*x, Value::Ref(u64::from(*number)))),
        Action::Copy(x, y) => Ok(Deed::Assign(*x, frame.slots.at(*y).set()?)),
        Action::Neg(x, y) => neg(graph, frame, *x, *y),
        Action::Arith(x, op, y, z) => arith(graph, frame, *x, *op, *y, *z),
        Action::Get(x, y, f) => get(graph, frame, heap, *x, *y, *f),
        Action::Load(x, y, f) => load(frame, heap, *x, *y, *f),
        Action::At(x, y, i) => at(graph, frame, heap, *x, *y, *i),
        Action::New(x, zeroed, kind, count) => new(choice, frame, *x, *zeroed, *kind, *count),
        Action::Free(x) => free(frame, heap, *x),
        Action::Store(y, f, x) => store(frame, heap, *y, *f, *x),
        Action::Put(y, f, x) => put(graph, frame, heap, *y, *f, *x),
        Action::PutAt(y, i, x) => put_at(graph, frame, heap, *y, *i, *x),
        _ => Ok(Deed::Go),
    }
}

/// Whether the first side of a test holds.
pub(crate) fn holds(frame: &Frame, heap: &Objects, action: &Action) -> Result<bool, Stop>
    ensures { TestsAs frame.now heap.now result action.now }
{
    match action {
        Action::IsNull(x) => Ok(frame.slots.at(*x).set()?.is_null()),
        Action::FieldNull(y, f) => {
            let object = heap.base(frame.slots.at(*y))?;
            Ok(heap.cell(object, *f).set()?.is_null())
        }
        Action::NonZero(x) => Ok(frame.slots.at(*x).number()? != 0),
        Action::Equal(x, y) => {
            let first = frame.slots.at(*x).set()?;
            let second = frame.slots.at(*y).set()?;
            Ok(first.is_same(second))
        }
        _ => Ok(true),
    }
}
