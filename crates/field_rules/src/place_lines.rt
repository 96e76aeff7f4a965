ghost use Rattle.std.specs.Prelude.{◌≡◌, ◌<◌, ◌≤◌, ◌++◌, ◌+◌, ℕ, [], not, slice_index_or, Some, IfOk, OnOk};
ghost use Rattle.std.specs.List.{All, flat_map};
ghost use Rattle.field_rules.specs.Lists.{gather, when};
ghost use Rattle.field_rules.specs.Sight.{HasOmega, PlaceExists, pointers, over_range};
ghost use Rattle.field_rules.specs.Lines.{bound_lines, is_other, other, others, one_base_line, base_line, base_lines, one_base_lines, pair_lines, place_lines, bases_at};

use crate::bases::{Slots, after, bases, slots_of};
use crate::edge_lines::leads_to;
use crate::edges::FieldLine;
use crate::lists::FieldLines;
use crate::rules::{Bound, FieldRule, OneBase};
use crate::view::View;
use c_tree::Memory;
use std::alloc::Global;

/// The rules on fields at a place, in order of rule, slot, field and other. The place exists. Its one refusal is want of
/// memory.
pub fn place_rules<V: View>(alloc: Global, view: &V, place: u32) -> Result<FieldLines, Memory>
    requires { PlaceExists (V.sight view.now) place }
    ensures { IfOk result (λ ls. ls ≡ place_lines (V.sight view.now) place) }
{
    let mut items = Vec::new(alloc);
    let pointers = view.pointers();
    for y in pointers {
        push_bounds(&mut items, view, place, *y)?;
    }
    push_one_bases(alloc, &mut items, view, place)?;
    Ok(FieldLines { items })
}

/// The bounds of the fields of one slot at a place, in order of the fields. The place and the slot exist. Its one refusal is
/// want of memory.
pub fn bound_rules<V: View>(
    alloc: Global,
    view: &V,
    place: u32,
    slot: u32,
) -> Result<FieldLines, Memory>
    requires place { PlaceExists (V.sight view.now) place }
    requires slot { slot < (V.sight view.now).slots }
    ensures { IfOk result (λ ls. ls ≡ bound_lines (V.sight view.now) place slot) }
{
    let mut items = Vec::new(alloc);
    push_bounds(&mut items, view, place, slot)?;
    Ok(FieldLines { items })
}

/// That a field is not open through a slot and another at a place, in order of the fields: nothing where the other is not a
/// later slot that points to the same struct, or where one of the two is Fresh. The place and the slots exist. Its one
/// refusal is want of memory.
pub fn one_base_rules<V: View>(
    alloc: Global,
    view: &V,
    place: u32,
    slot: u32,
    other: u32,
) -> Result<FieldLines, Memory>
    requires place { PlaceExists (V.sight view.now) place }
    requires slot { slot < (V.sight view.now).slots }
    requires other { other < (V.sight view.now).slots }
    ensures { IfOk result (λ ls. ls ≡ pair_lines (V.sight view.now) place slot other) }
{
    let mut items = Vec::new(alloc);
    push_pair(alloc, &mut items, view, place, slot, other)?;
    Ok(FieldLines { items })
}

/// Adds that a field is not open through a slot and another.
fn push_pair<V: View>(
    alloc: Global,
    out: &mut Vec<FieldLine>,
    view: &V,
    place: u32,
    y: u32,
    z: u32,
) -> Result<(), Memory>
    requires place { PlaceExists (V.sight view.now) place }
    requires slot { y < (V.sight view.now).slots }
    requires other { z < (V.sight view.now).slots }
    ensures { OnOk result (out.new.items ≡ out.old.items ++ pair_lines (V.sight view.now) place y z) }
{
    if view.fresh(place, y) {
        return Ok(());
    }
    let Some(structure) = view.structure(y) else {
        return Ok(());
    };
    let others = other(alloc, view, place, y, structure, z)?;
    push_fields(out, view, place, y, structure, &others)
}

/// The slot alone, where it is a later one that points to a struct and is not Fresh.
fn other<V: View>(
    alloc: Global,
    view: &V,
    place: u32,
    y: u32,
    structure: u32,
    z: u32,
) -> Result<Vec<u32>, Memory>
    requires place { PlaceExists (V.sight view.now) place }
    requires slot { z < (V.sight view.now).slots }
    ensures exact { IfOk result (λ zs. zs.items ≡ other (V.sight view.now) place y structure z) }
    ensures there { IfOk result (λ zs. All (λ z. (z < (V.sight view.now).slots) × ((V.sight view.now).structure z ≡ Some structure)) zs.items) }
{
    let mut out = Vec::new(alloc);
    push_other(&mut out, view, place, y, structure, z)?;
    Ok(out)
}

/// Adds the bounds of the fields of one slot.
fn push_bounds<V: View>(
    out: &mut Vec<FieldLine>,
    view: &V,
    place: u32,
    y: u32,
) -> Result<(), Memory>
    requires place { PlaceExists (V.sight view.now) place }
    requires slot { y < (V.sight view.now).slots }
    ensures { OnOk result (out.new.items ≡ out.old.items ++ bound_lines (V.sight view.now) place y) }
{
    let Some(structure) = view.structure(y) else {
        return Ok(());
    };
    let range = view.fields_of(structure);
    for j in 0..range.count {
        let f = range.first + j;
        out.push(FieldLine {
            rule: FieldRule::Bound(Bound {
                omega_p: view.omega(place, y, f),
                phi: view.phi(f),
            }),
            slot: y,
            field: f,
            other: 0,
        })?;
    }
    Ok(())
}

/// Adds, for all slots, that a field is not open through two.
fn push_one_bases<V: View>(
    alloc: Global,
    out: &mut Vec<FieldLine>,
    view: &V,
    place: u32,
) -> Result<(), Memory>
    requires { PlaceExists (V.sight view.now) place }
    ensures { OnOk result (out.new.items
        ≡ out.old.items ++ gather (V.sight view.now).slots (one_base_lines (V.sight view.now) place)) }
{
    let bases = bases(alloc, view, place)?;
    let pointers = view.pointers();
    for y in pointers {
        push_one_base(alloc, out, view, place, *y, &bases)?;
    }
    Ok(())
}

/// Adds that a field is not open through a slot and a later one.
fn push_one_base<V: View>(
    alloc: Global,
    out: &mut Vec<FieldLine>,
    view: &V,
    place: u32,
    y: u32,
    bases: &[Slots],
) -> Result<(), Memory>
    requires place { PlaceExists (V.sight view.now) place }
    requires slot { y < (V.sight view.now).slots }
    requires bases { (s : ℕ) → slice_index_or bases.now s [] ≡ bases_at (V.sight view.now) place s }
    ensures { OnOk result (out.new.items ≡ out.old.items ++ one_base_lines (V.sight view.now) place y) }
{
    if view.fresh(place, y) {
        return Ok(());
    }
    let Some(structure) = view.structure(y) else {
        return Ok(());
    };
    push_bases(
        alloc,
        out,
        view,
        place,
        y,
        structure,
        slots_of(bases, structure),
    )
}

/// Adds that each field of a struct is not open through a slot and a later one.
fn push_bases<V: View>(
    alloc: Global,
    out: &mut Vec<FieldLine>,
    view: &V,
    place: u32,
    y: u32,
    structure: u32,
    bases: &[u32],
) -> Result<(), Memory>
    requires place { PlaceExists (V.sight view.now) place }
    requires slot { y < (V.sight view.now).slots }
    requires structure { (V.sight view.now).structure y ≡ Some structure }
    requires bases { bases.now ≡ bases_at (V.sight view.now) place structure }
    ensures { OnOk result (out.new.items ≡ out.old.items ++ base_lines (V.sight view.now) place y (Some structure)) }
{
    if view.fields_of(structure).count == 0 {
        return Ok(());
    }
    let others = after(alloc, bases, y)?;
    push_fields(out, view, place, y, structure, &others)
}

/// Adds that each field of a struct is not open through a slot and one of others.
fn push_fields<V: View>(
    out: &mut Vec<FieldLine>,
    view: &V,
    place: u32,
    y: u32,
    structure: u32,
    others: &[u32],
) -> Result<(), Memory>
    requires place { PlaceExists (V.sight view.now) place }
    requires slot { y < (V.sight view.now).slots }
    requires structure { (V.sight view.now).structure y ≡ Some structure }
    requires others { All (λ z. (z < (V.sight view.now).slots) × ((V.sight view.now).structure z ≡ Some structure)) others.now }
    ensures { OnOk result (out.new.items
        ≡ out.old.items ++ over_range ((V.sight view.now).fields_of structure) (base_line (V.sight view.now) place y others.now)) }
{
    let range = view.fields_of(structure);
    for j in 0..range.count {
        push_base(out, view, place, y, range.first + j, others)?;
    }
    Ok(())
}

/// Adds a slot where it is a later one that points to a struct and is not Fresh.
fn push_other<V: View>(
    out: &mut Vec<u32>,
    view: &V,
    place: u32,
    y: u32,
    structure: u32,
    z: u32,
) -> Result<(), Memory>
    requires place { PlaceExists (V.sight view.now) place }
    requires slot { z < (V.sight view.now).slots }
    ensures { OnOk result (out.new.items ≡ out.old.items ++ other (V.sight view.now) place y structure z) }
{
    if is_other(view, place, y, structure, z) {
        out.push(z)?;
    }
    Ok(())
}

/// Whether it is a later slot that points to a struct and is not Fresh.
fn is_other<V: View>(view: &V, place: u32, y: u32, structure: u32, z: u32) -> bool
    requires place { PlaceExists (V.sight view.now) place }
    requires slot { z < (V.sight view.now).slots }
    ensures { result ≡ is_other (V.sight view.now) place y structure z }
{
    y < z && leads_to(view.structure(z), structure) && !view.fresh(place, z)
}

/// Adds that a field is not open through a slot and one of others.
fn push_base<V: View>(
    out: &mut Vec<FieldLine>,
    view: &V,
    place: u32,
    y: u32,
    f: u32,
    others: &[u32],
) -> Result<(), Memory>
    requires base { HasOmega (V.sight view.now) place y f }
    requires others { All (λ z. HasOmega (V.sight view.now) place z f) others.now }
    ensures { OnOk result (out.new.items ≡ out.old.items ++ base_line (V.sight view.now) place y others.now f) }
{
    for z in others {
        out.push(FieldLine {
            rule: FieldRule::OneBase(OneBase {
                first: view.omega(place, y, f),
                second: view.omega(place, *z, f),
            }),
            slot: y,
            field: f,
            other: *z,
        })?;
    }
    Ok(())
}
