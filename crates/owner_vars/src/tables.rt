ghost use Rattle.std.specs.Prelude.{◌≡◌, ◌+◌, ◌*◌, ◌<◌, ◌≤◌, ◌^◌, ℕ, length, IfOk};
ghost use Rattle.std.specs.List.{All};
ghost use Rattle.std.specs.List.Sorted.{IsStrictlyIncreasing};
ghost use Rattle.c_types.specs.Types.{is_pointer};
ghost use Rattle.flow_graph.specs.FlowGraph.{flow_of};
ghost use Rattle.flow_graph.specs.Fits.{pointer_count};
ghost use Rattle.flow_graph.specs.Fits.{IsFlowGraph, TypeExists};
ghost use Rattle.owner_vars.specs.Fields.{structs_of};
ghost use Rattle.owner_vars.specs.Tables.{range_behind, interface_size, face_of, faces_of, faces_end, slot_rows, slots_width, rows_of, all_rows, rows_end};

use crate::field_table::Fields;
use c_tree::Memory;
use c_types::SlotType;
use flow_graph::Graph;
use std::alloc::Global;
use std::marker::Model;
use zo_core::NumberRange;

/// The unknowns of an interface: how many stand before its first, how many pointer parameters it has, and whether
/// its result is a pointer.
#[derive(Clone, Copy)]
pub(crate) struct Face {
    pub before: u64,
    pub params: u32,
    pub result: bool,
}

/// Interfaces one after another, and how many unknowns stand before the next.
#[derive(Drop)]
pub(crate) struct Faces {
    pub items: Vec<Face>,
    pub end: u64,
}

/// The unknowns of a slot at a place: how many of the place stand before its first, whether it is a pointer, and
/// the pointer fields of its struct.
#[derive(Clone, Copy)]
pub(crate) struct SlotRow {
    pub before: u32,
    pub pointer: bool,
    pub first: u32,
    pub fields: u32,
}

/// The slots of a procedure, and how many unknowns a place has.
#[derive(Drop)]
pub(crate) struct SlotRows {
    pub items: Vec<SlotRow>,
    pub width: u32,
}

/// The unknowns of a procedure at its places: how many stand before the first, how many a place has, how many
/// places there are, and the slots.
#[derive(Drop)]
pub(crate) struct Rows {
    pub before: u64,
    pub width: u32,
    pub places: u32,
    pub slots: Vec<SlotRow>,
}

impl Model for Rows {
    ghost use Rattle.owner_vars.specs.Tables.{Rows as Plain};

    ghost Value = { Plain };

    ghost view = { λ r. record { before = r.before; width = r.width; places = r.places; slots = r.slots.items } };
}

/// The places of the members of a group, and how many unknowns there are up to their end.
#[derive(Drop)]
pub(crate) struct AllRows {
    pub items: Vec<Rows>,
    pub end: u64,
}

/// How many of these types are pointers.
pub(crate) fn pointer_count(types: &[SlotType]) -> usize
    ensures { result ≡ pointer_count types.now }
{
    let mut count = 0;
    for kind in types {
        count += usize::from(kind.is_pointer());
    }
    count
}

/// The interface of a procedure.
fn make_face(graph: &Graph, before: u64, proc: u32) -> Face
    requires { proc < length graph.now.procs }
    ensures face { result ≡ face_of graph.now before proc }
    ensures small { interface_size graph.now proc ≤ 9 }
{
    graph.law();
    Face {
        before,
        params: pointer_count(graph.params(proc)) as u32,
        result: graph.result(proc).is_some_and(SlotType::is_pointer),
    }
}

/// The interfaces of these procedures, after so many unknowns.
pub(crate) fn make_faces(
    alloc: Global,
    graph: &Graph,
    procs: &[u32],
    before: u64,
) -> Result<Faces, Memory>
    requires procs { All (λ k. k < length graph.now.procs) procs.now }
    requires fits { before + 9 * length procs.now < 2 ^ 64 }
    ensures items { IfOk result (λ f. f.items.items ≡ faces_of graph.now before procs.now) }
    ensures end { IfOk result (λ f. f.end ≡ faces_end graph.now before procs.now) }
{
    let mut items = Vec::new(alloc);
    let mut end = before;
    for proc in procs {
        let face = make_face(graph, end, *proc);
        items.push(face)?;
        end += u64::from(face.params) + u64::from(face.result);
    }
    Ok(Faces { items, end })
}

/// The pointer fields of the struct to which a pointer of this type leads.
fn behind(fields: &Fields, kind: SlotType) -> NumberRange
    requires { TypeExists fields.now kind }
    ensures range { result ≡ range_behind fields.now kind }
    ensures few { result.count ≤ 64 }
{
    match kind {
        SlotType::StructPtr(structure) => fields.range(structure),
        SlotType::Int | SlotType::Char | SlotType::IntPtr | SlotType::CharPtr => {
            NumberRange { first: 0, count: 0 }
        }
    }
}

/// The slots of these types.
fn make_slot_rows(alloc: Global, fields: &Fields, types: &[SlotType]) -> Result<SlotRows, Memory>
    requires types { All (TypeExists fields.now) types.now }
    requires count { length types.now < 2 ^ 25 }
    ensures items { IfOk result (λ s. s.items.items ≡ slot_rows fields.now types.now) }
    ensures width { IfOk result (λ s. s.width ≡ slots_width fields.now types.now) }
{
    let mut items = Vec::new(alloc);
    let mut width = 0;
    for kind in types {
        let pointer = kind.is_pointer();
        let range = behind(fields, *kind);
        items.push(SlotRow {
            before: width,
            pointer,
            first: range.first,
            fields: range.count,
        })?;
        if pointer {
            width += 1 + range.count;
        }
    }
    Ok(SlotRows { items, width })
}

/// The places of a procedure with a body, after so many unknowns.
fn rows_from(
    alloc: Global,
    graph: &Graph,
    fields: &Fields,
    before: u64,
    proc: u32,
) -> Result<Rows, Memory>
    requires body { proc < graph.now.bodies }
    requires fields { fields.now ≡ structs_of graph.now }
    ensures { IfOk result (λ r. r ≡ rows_of graph.now before proc) }
{
    graph.law();
    let slots = make_slot_rows(alloc, fields, graph.slots(proc))?;
    Ok(Rows {
        before,
        width: slots.width,
        places: graph.places(proc).len() as u32,
        slots: slots.items,
    })
}

/// The places of these procedures with bodies, after so many unknowns.
pub(crate) fn make_rows(
    alloc: Global,
    graph: &Graph,
    fields: &Fields,
    members: &[u32],
    before: u64,
) -> Result<AllRows, Memory>
    requires ascend { IsStrictlyIncreasing members.now }
    requires bodies { All (λ k. k < graph.now.bodies) members.now }
    requires fields { fields.now ≡ structs_of graph.now }
    requires fits { before < 2 ^ 40 }
    ensures items { IfOk result (λ r. r.items.items ≡ all_rows graph.now before members.now) }
    ensures end { IfOk result (λ r. r.end ≡ rows_end graph.now before members.now) }
{
    let mut items = Vec::new(alloc);
    let mut end = before;
    graph.law();
    for member in members {
        let rows = rows_from(alloc, graph, fields, end, *member)?;
        let size = u64::from(rows.places) * u64::from(rows.width);
        items.push(rows)?;
        end += size;
    }
    Ok(AllRows { items, end })
}
