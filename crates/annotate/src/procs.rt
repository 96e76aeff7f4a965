//! The lines of an annotation on procedures with bodies, in each instance of their groups.

ghost use Rattle.std.specs.Prelude.{◌≡◌, ◌++◌, ◌<◌, codes, length, drop, slice_index_or, OnOk};
ghost use Rattle.std.specs.List.{All};
ghost use Rattle.flow_graph.specs.FlowGraph.{flow_of};
ghost use Rattle.owner_vars.specs.Unknowns.{gather};
ghost use Rattle.recursion_groups.specs.Grouping.{IsGrouping};
ghost use Rattle.annotate.specs.Annotation.{kind_text, param_name, params_text, proc_line, local_line, local_lines, instance_lines, lines_in, proc_lines};
ghost use Rattle.annotate.specs.Instances.{AreInOrder, no_seat};
ghost use Rattle.annotate.specs.Locals.{locals_of};

use crate::kinds::{put_comma, put_kind, put_owning, put_result};
use crate::locals::{Local, bit_at, local_owns, locals_of};
use crate::names::{proc_name, put_slot, slots_of};
use crate::order::of_group;
use crate::seats::{Seat, pointer_count, seats};
use crate::source::Source;
use c_tree::Memory;
use c_types::{SlotType, Typed};
use own_cert::{Instance, PlaceBits};
use recursion_groups::Groups;
use std::alloc::Global;

/// The name of a parameter.
fn param_name(typed: &Typed, proc: u32, place: usize) -> &[u8]
    ensures { result.now ≡ param_name typed.now proc place }
{
    match slots_of(typed, proc).get(place) {
        Some(info) => info.name.items.as_slice(),
        None => &[],
    }
}

/// Adds a parameter: its name and its type; whether it owns is the bit of the interface at its place among the pointers.
fn put_param(out: &mut Vec<u8>, name: &[u8], kind: SlotType, owns: bool) -> Result<(), Memory>
    ensures { OnOk result (out.new.items ≡ out.old.items ++ (name.now ++ codes " " ++ kind_text kind owns)) }
{
    out.extend_from_slice(name)?;
    out.push(b' ')?;
    put_kind(out, kind, owns)
}

/// Adds the parameters of a procedure, which have these types, by the bits of its interface.
fn put_params(
    out: &mut Vec<u8>,
    typed: &Typed,
    proc: u32,
    kinds: &[SlotType],
    face: &[bool],
) -> Result<(), Memory>
    ensures { OnOk result (out.new.items ≡ out.old.items ++ params_text typed.now proc kinds.now face.now) }
{
    let mut part = 0;
    for place in 0..kinds.len() {
        let kind = kinds[place];
        put_comma(out, place)?;
        put_param(
            out,
            param_name(typed, proc, place),
            kind,
            bit_at(face, part),
        )?;
        part += usize::from(kind.is_pointer());
    }
    Ok(())
}

/// Adds the line of a procedure, by the bits of its interface.
fn put_proc_line(out: &mut Vec<u8>, source: &Source, proc: u32, face: &[bool]) -> Result<(), Memory>
    requires { proc < length source.now.graph.now.procs }
    ensures { OnOk result (out.new.items ≡ out.old.items ++ proc_line source.now.typed.now source.now.graph.now proc face.now) }
{
    let kinds = source.graph.params(proc);
    out.extend_from_slice(b"proc ")?;
    out.extend_from_slice(proc_name(source.typed, proc))?;
    out.push(b'(')?;
    put_params(out, source.typed, proc, kinds, face)?;
    out.extend_from_slice(b") -> ")?;
    put_result(
        out,
        source.graph.result(proc),
        bit_at(face, pointer_count(kinds)),
    )?;
    out.push(b'\n')?;
    Ok(())
}

/// Adds the line of a local, by the rows of the procedure's places.
fn put_local(
    out: &mut Vec<u8>,
    source: &Source,
    proc: u32,
    rows: &[PlaceBits],
    local: Local,
) -> Result<(), Memory>
    requires body { proc < source.now.graph.now.bodies }
    requires slot { local.slot < length (flow_of source.now.graph.now proc).slots }
    ensures { OnOk result (out.new.items ≡ out.old.items ++ local_line source.now.typed.now source.now.graph.now source.now.facts.now proc rows.now local) }
{
    let owns = local_owns(source, proc, rows, local);
    out.extend_from_slice(b"  local ")?;
    put_slot(out, source.typed, proc, local.slot)?;
    out.push(b' ')?;
    put_owning(out, owns)?;
    out.push(b'\n')?;
    Ok(())
}

/// Adds the lines of locals, by the rows of the procedure's places.
fn put_locals(
    out: &mut Vec<u8>,
    source: &Source,
    proc: u32,
    rows: &[PlaceBits],
    locals: &[Local],
) -> Result<(), Memory>
    requires body { proc < source.now.graph.now.bodies }
    requires slots { All (λ l. l.slot < length (flow_of source.now.graph.now proc).slots) locals.now }
    ensures { OnOk result (out.new.items ≡ out.old.items ++ local_lines source.now.typed.now source.now.graph.now source.now.facts.now proc rows.now locals.now) }
{
    for local in locals {
        put_local(out, source, proc, rows, *local)?;
    }
    Ok(())
}

/// What is left of a list after so many.
fn after<T>(items: &[T], count: usize) -> &[T]
    ensures { result.now ≡ drop count items.now }
{
    if count < items.len() {
        items.split_at(count).1
    } else {
        &[]
    }
}

/// Adds the lines of a procedure in an instance of its group.
fn put_instance(
    out: &mut Vec<u8>,
    source: &Source,
    proc: u32,
    seat: Seat,
    instance: &Instance,
    locals: &[Local],
) -> Result<(), Memory>
    requires body { proc < source.now.graph.now.bodies }
    requires locals { locals.now ≡ locals_of source.now.typed.now source.now.graph.now proc }
    ensures { OnOk result (out.new.items ≡ out.old.items ++ instance_lines source.now.typed.now source.now.graph.now source.now.facts.now proc seat instance.now) }
{
    source.graph.law();
    let face = after(&instance.iface.items, seat.parts);
    let rows = after(&instance.places.items, seat.places);
    put_proc_line(out, source, proc, face)?;
    put_locals(out, source, proc, rows, locals)
}

/// Adds the lines of a procedure in the instances of these numbers.
fn put_proc(
    alloc: Global,
    out: &mut Vec<u8>,
    source: &Source,
    seat: Seat,
    instances: &[Instance],
    numbers: &[usize],
    proc: u32,
) -> Result<(), Memory>
    requires body { proc < source.now.graph.now.bodies }
    requires numbers { All (λ n. n < length instances.now) numbers.now }
    ensures { OnOk result (out.new.items ≡ out.old.items ++ lines_in source.now.typed.now source.now.graph.now source.now.facts.now proc seat instances.now numbers.now) }
{
    let locals = locals_of(alloc, source, proc)?;
    for number in numbers {
        put_instance(out, source, proc, seat, &instances[*number], &locals)?;
    }
    Ok(())
}

/// The seat of a procedure.
fn seat_at(seats: &[Seat], proc: u32) -> Seat
    requires { proc < length seats.now }
    ensures { result ≡ slice_index_or seats.now proc no_seat }
{
    seats[proc as usize]
}

/// Adds the lines of all procedures with bodies; these are the numbers of all instances in their order.
pub(crate) fn put_procs(
    alloc: Global,
    out: &mut Vec<u8>,
    source: &Source,
    groups: &Groups,
    instances: &[Instance],
    order: &[usize],
) -> Result<(), Memory>
    requires groups { IsGrouping source.now.graph.now groups.now }
    requires order { AreInOrder instances.now order.now }
    ensures { OnOk result (out.new.items ≡ out.old.items ++ gather source.now.graph.now.bodies (proc_lines source.now.typed.now source.now.graph.now source.now.facts.now groups.now instances.now order.now)) }
{
    let seats = seats(alloc, source.graph, groups)?;
    for proc in 0..source.graph.bodies() {
        let seat = seat_at(&seats, proc);
        let numbers = of_group(instances, order, seat.group);
        put_proc(alloc, out, source, seat, instances, numbers, proc)?;
    }
    Ok(())
}
