ghost use Rattle.std.specs.Prelude.{◌≡◌, ◌∷◌, [], ◌++◌, length, slice_get, replicate, map, IfOk, OnErr};
ghost use Rattle.heap_meaning.specs.Run.{first_cell, first_cells, made, written, all_written, passed, text_object};
ghost use Rattle.heap_meaning.specs.Deeds.{argument_of};

use crate::choices::{Write, Writes};
use crate::kinds::{first_cell, members, put_as, type_of_cell};
use crate::numbers::stored;
use crate::states::{Kind, Object, Objects};
use crate::values::{Value, Values};
use c_tree::Memory;
use c_types::SlotType;
use flow_graph::{Graph, NewKind, Numbers};
use std::alloc::Global;

/// As many places, each with this value.
pub(crate) fn copies(alloc: Global, value: Value, count: usize) -> Result<Values, Memory>
    ensures { IfOk result (λ v. v ≡ replicate count value) }
{
    let items = vec![in alloc; value; count]?;
    Ok(Values { items })
}

/// The cells of a new object with members of these types.
fn member_cells(alloc: Global, zeroed: bool, types: &[SlotType]) -> Result<Values, Memory>
    ensures { IfOk result (λ v. v ≡ map (first_cell zeroed) types.now) }
{
    let items = types
        .iter()
        .map(|kind| first_cell(zeroed, *kind))
        .collect(alloc)?;
    Ok(Values { items })
}

/// What a slot of a new frame holds: an argument, or nothing.
fn argument(slots: &Values, args: &Numbers, at: usize, kind: SlotType) -> Value
    ensures { result ≡ argument_of slots.now (slice_get args.now at) kind }
{
    match args.items.get(at) {
        Some(arg) => put_as(kind, slots.at(*arg)),
        None => Value::Unset,
    }
}

/// The slots of a new frame: the values of the arguments, then Unset.
pub(crate) fn passed_slots(
    alloc: Global,
    slots: &Values,
    args: &Numbers,
    types: &[SlotType],
) -> Result<Values, Memory>
    ensures { IfOk result (λ v. v ≡ passed slots.now args.now types.now) }
{
    let mut items = Vec::with_capacity(alloc, types.len())?;
    for kind in types {
        let value = argument(slots, args, items.len(), *kind);
        items.push(value)?;
    }
    Ok(Values { items })
}

/// The cells of a new object.
fn cells(
    alloc: Global,
    graph: &Graph,
    zeroed: bool,
    kind: NewKind,
    count: u32,
) -> Result<Values, Memory>
    ensures { IfOk result (λ v. v ≡ first_cells graph.now zeroed kind count) }
{
    match kind {
        NewKind::Struct(structure) => member_cells(alloc, zeroed, members(graph, structure)),
        NewKind::Ints => copies(alloc, first_cell(zeroed, SlotType::Int), count as usize),
        NewKind::Chars => copies(alloc, first_cell(zeroed, SlotType::Char), count as usize),
    }
}

/// The object of a string.
pub(crate) fn text_of(alloc: Global, units: &[u8]) -> Result<Object, Memory>
    ensures { IfOk result (λ o. o ≡ text_object units.now) }
{
    let mut items = Vec::with_capacity(alloc, units.len())?;
    for unit in units {
        let number = stored(SlotType::Char, i32::from(*unit));
        items.push(Value::Int(number))?;
    }
    items.push(Value::Int(0))?;
    Ok(Object {
        kind: Kind::Text,
        live: true,
        cells: Values { items },
    })
}

impl Objects {
    /// Makes an object, and gives its number. No change for want of memory.
    pub(crate) fn make(
        &mut self,
        alloc: Global,
        graph: &Graph,
        zeroed: bool,
        kind: NewKind,
        count: u32,
    ) -> Result<u64, Memory>
        ensures made { IfOk result (λ o. (o ≡ length self.old)
            × (self.new ≡ self.old ++ made graph.now zeroed kind count ∷ [])) }
        ensures memory { OnErr result (self.new ≡ self.old) }
    {
        let cells = cells(alloc, graph, zeroed, kind, count)?;
        let kind = match kind {
            NewKind::Struct(structure) => Kind::Struct(structure),
            NewKind::Ints => Kind::Ints,
            NewKind::Chars => Kind::Chars,
        };
        let number = self.items.len() as u64;
        self.items.push(Object {
            kind,
            live: true,
            cells,
        })?;
        Ok(number)
    }

    /// A write of an external procedure.
    fn write(&mut self, graph: &Graph, write: &Write)
        ensures { self.new ≡ written graph.now self.old write.now }
    {
        let object = write.object;
        let place = write.cell;
        let kind = self.kind(object);
        if !self.is_live(object) || kind == Kind::Text || self.size(object) <= place as usize {
            return;
        }
        let cell = type_of_cell(graph, kind, place);
        if !cell.is_pointer() {
            self.put(object, place, Value::Int(stored(cell, write.value)));
        }
    }

    /// The writes of an external procedure, in order.
    pub(crate) fn write_all(&mut self, graph: &Graph, writes: &Writes)
        ensures { self.new ≡ all_written graph.now self.old writes.now }
    {
        for write in writes.items.iter() {
            self.write(graph, write);
        }
    }
}
