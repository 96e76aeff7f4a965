ghost use Rattle.std.specs.Prelude.{◌≡◌, ◌<◌};
ghost use Rattle.flow_graph.specs.FlowGraph.{slot_type, members_of};
ghost use Rattle.heap_meaning.specs.Reads.{cell_type};
ghost use Rattle.heap_meaning.specs.Run.{put_as, first_cell};

use crate::numbers::stored;
use crate::states::Kind;
use crate::values::Value;
use c_types::SlotType;
use flow_graph::Graph;

/// The type of a slot of a procedure.
pub(crate) fn type_of_slot(graph: &Graph, proc: u32, slot: u32) -> SlotType
    requires { proc < graph.now.bodies }
    ensures { result ≡ slot_type graph.now proc slot }
{
    let types = graph.slots(proc);
    types.get(slot as usize).copied().unwrap_or(SlotType::Int)
}

/// The types of the members of a struct.
pub(crate) fn members(graph: &Graph, structure: u32) -> &[SlotType]
    ensures { result.now ≡ members_of graph.now structure }
{
    if structure < graph.structs() {
        graph.members(structure)
    } else {
        &[]
    }
}

/// The type of a cell of an object.
pub(crate) fn type_of_cell(graph: &Graph, kind: Kind, place: u32) -> SlotType
    ensures { result ≡ cell_type graph.now kind place }
{
    match kind {
        Kind::Struct(structure) => {
            let types = members(graph, structure);
            types.get(place as usize).copied().unwrap_or(SlotType::Int)
        }
        Kind::Ints => SlotType::Int,
        Kind::Chars | Kind::Text => SlotType::Char,
    }
}

/// What a place of this type holds of a value that is put into it.
pub(crate) fn put_as(kind: SlotType, value: Value) -> Value
    ensures { result ≡ put_as kind value }
{
    match value {
        Value::Int(number) => Value::Int(stored(kind, number)),
        other => other,
    }
}

/// What a cell of a new object holds.
pub(crate) fn first_cell(zeroed: bool, kind: SlotType) -> Value
    ensures { result ≡ first_cell zeroed kind }
{
    if !zeroed {
        Value::Unset
    } else if kind.is_pointer() {
        Value::Null
    } else {
        Value::Int(0)
    }
}
