//! The pointers among the locals of a procedure.

ghost use Rattle.std.specs.Prelude.{◌≡◌, ◌<◌, ◌≤◌, ◌&&◌, nat_le, length, slice_get, IfOk};
ghost use Rattle.c_types.specs.Types.{is_pointer};
ghost use Rattle.flow_graph.specs.FlowGraph.{flow_of};
ghost use Rattle.flow_graph.specs.Fits.{TypeExists};
ghost use Rattle.owner_vars.specs.Tables.{type_size};
ghost use Rattle.annotate.specs.Instances.{bit_at, place_bit};
ghost use Rattle.annotate.specs.Locals.{is_named, is_local, locals_of, owns_at, local_owns};
ghost use Rattle.annotate.specs.Names.{slots_of};

use crate::names::slots_of;
use crate::source::Source;
use c_tree::Memory;
use c_types::{SlotType, Typed};
use own_cert::PlaceBits;
use owner_vars::Fields;
use std::alloc::Global;

/// A pointer among the locals.
#[derive(Clone, Copy)]
pub(crate) struct Local {
    pub slot: u32,
    /// Which bit of a place says whether it owns, from 0.
    pub bit: usize,
}

/// How many unknowns a slot of this type has at a place: whether it owns, and the pointer fields of its struct.
fn type_size(fields: &Fields, kind: SlotType) -> u32
    requires { TypeExists fields.now kind }
    ensures size { result ≡ type_size fields.now kind }
    ensures few { result ≤ 65 }
{
    match kind {
        SlotType::Int | SlotType::Char => 0,
        SlotType::IntPtr | SlotType::CharPtr => 1,
        SlotType::StructPtr(structure) => 1 + fields.range(structure).count,
    }
}

/// Whether a slot is a parameter or a local.
fn is_named(typed: &Typed, proc: u32, slot: usize) -> bool
    ensures { result ≡ is_named (slice_get (slots_of typed.now proc) slot) }
{
    match slots_of(typed, proc).get(slot) {
        Some(info) => !info.name.items.as_slice().is_empty(),
        None => false,
    }
}

/// Whether a slot is a pointer among the locals.
fn is_local(source: &Source, proc: u32, slot: usize, kind: SlotType) -> bool
    requires { proc < length source.now.graph.now.procs }
    ensures { result ≡ (is_pointer kind && (nat_le (length (flow_of source.now.graph.now proc).params) slot && is_named (slice_get (slots_of source.now.typed.now proc) slot))) }
{
    kind.is_pointer()
        && source.graph.params(proc).len() <= slot
        && is_named(source.typed, proc, slot)
}

/// The pointers among the locals of a procedure with a body, in order of declaration.
pub(crate) fn locals_of(alloc: Global, source: &Source, proc: u32) -> Result<Vec<Local>, Memory>
    requires { proc < source.now.graph.now.bodies }
    ensures { IfOk result (λ ls. ls.items ≡ locals_of source.now.typed.now source.now.graph.now proc) }
{
    source.graph.law();
    let kinds = source.graph.slots(proc);
    let mut locals = Vec::new(alloc);
    let mut bit = 0;
    for slot in 0..kinds.len() {
        let kind = kinds[slot];
        if is_local(source, proc, slot, kind) {
            locals.push(Local {
                slot: slot as u32,
                bit,
            })?;
        }
        bit += type_size(source.fields, kind) as usize;
    }
    Ok(locals)
}

/// A bit of a row; 0 where there is none.
pub(crate) fn bit_at(bits: &[bool], bit: usize) -> bool
    ensures { result ≡ bit_at bits.now bit }
{
    match bits.get(bit) {
        Some(bit) => *bit,
        None => false,
    }
}

/// A bit of the row of a place; 0 where there is none.
fn place_bit(rows: &[PlaceBits], place: usize, bit: usize) -> bool
    ensures { result ≡ place_bit rows.now place bit }
{
    match rows.get(place) {
        Some(row) => bit_at(&row.bits.items, bit),
        None => false,
    }
}

/// Whether a local owns at some place at which it is not empty, by the rows of the procedure's places.
pub(crate) fn local_owns(source: &Source, proc: u32, rows: &[PlaceBits], local: Local) -> bool
    requires body { proc < source.now.graph.now.bodies }
    requires slot { local.slot < length (flow_of source.now.graph.now proc).slots }
    ensures { result ≡ local_owns source.now.graph.now source.now.facts.now proc rows.now local }
{
    source.graph.law();
    for place in 0..source.graph.places(proc).len() {
        let empty = source.facts.empty(proc, place as u32, local.slot);
        if !empty && place_bit(rows, place, local.bit) {
            return true;
        }
    }
    false
}
