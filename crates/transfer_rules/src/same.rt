ghost use Rattle.std.specs.Prelude.{◌≡◌, ◌++◌, ◌+◌, ◌<◌, ◌||◌, not, Bool, OnOk};
ghost use Rattle.field_rules.specs.Lists.{gather, when};
ghost use Rattle.field_rules.specs.Sight.{HasSlot, HasOmega, HasPointer};
ghost use Rattle.flow_graph.specs.Fits.{is_in};
ghost use Rattle.path_facts.specs.Columns.{empty_after, is_it};
ghost use Rattle.transfer_rules.specs.Exist.{WayExists, HasMember, SourceExists, MemberExists};
ghost use Rattle.transfer_rules.specs.Rules.{frees_rho, frees_slot, frees_field, field_of_it, same_field, same_slot, same, each_field, same_rho};

use crate::action::{About, Way, push_form};
use crate::constraint::Constraint;
use crate::scene::Scene;
use c_tree::Memory;
use flow_graph::Action;
use zo_core::Form;

/// Whether a slot is among these.
pub(crate) fn is_in(slots: &[u32], x: u32) -> bool
    ensures { result ≡ is_in slots.now x }
{
    for slot in slots {
        if x == *slot {
            return true;
        }
    }
    false
}

/// Whether it is this slot.
pub(crate) fn is_it(slot: Option<u32>, x: u32) -> bool
    ensures { result ≡ is_it slot x }
{
    match slot {
        None => false,
        Some(slot) => x == slot,
    }
}

/// Whether a slot is Empty after an action at a place.
fn empty_after<S: Scene>(scene: &S, place: u32, action: &Action, x: u32) -> bool
    requires slot { HasSlot (S.sight scene.now) place x }
    requires source { SourceExists (S.sight scene.now) action.now }
    ensures { result ≡ empty_after action.now ((S.sight scene.now).empty place) x }
{
    match action {
        Action::Unset(y) => x == *y || scene.empty(place, x),
        Action::Null(y) => x == *y || scene.empty(place, x),
        Action::IsNull(y) => x == *y || scene.empty(place, x),
        Action::Text(y, _) => x != *y && scene.empty(place, x),
        Action::New(y, _, _, _) => x != *y && scene.empty(place, x),
        Action::Load(y, _, _) => x != *y && scene.empty(place, x),
        Action::Copy(y, z) => {
            if x == *y {
                scene.empty(place, *z)
            } else {
                scene.empty(place, x)
            }
        }
        Action::Call(into, _, slots) => {
            !is_it(*into, x) && (is_in(&slots.items, x) || scene.empty(place, x))
        }
        Action::Skip
        | Action::Set(_, _)
        | Action::Move(_, _)
        | Action::Neg(_, _)
        | Action::Arith(_, _, _, _)
        | Action::Get(_, _, _)
        | Action::At(_, _, _)
        | Action::Free(_)
        | Action::Store(_, _, _)
        | Action::Put(_, _, _)
        | Action::PutAt(_, _, _)
        | Action::NotNull(_)
        | Action::FieldNull(_, _)
        | Action::FieldSet(_, _)
        | Action::NonZero(_)
        | Action::Zero(_)
        | Action::Equal(_, _)
        | Action::Differ(_, _) => scene.empty(place, x),
    }
}

/// Whether an action may change whether a slot owns.
fn frees_rho(action: &Action, x: u32) -> bool
    ensures { result ≡ frees_rho action.now x }
{
    match action {
        Action::Unset(y) => x == *y,
        Action::Null(y) => x == *y,
        Action::Text(y, _) => x == *y,
        Action::New(y, _, _, _) => x == *y,
        Action::Copy(y, z) => x == *y || x == *z,
        Action::Load(y, _, _) => x == *y,
        Action::Call(into, _, slots) => is_it(*into, x) || is_in(&slots.items, x),
        Action::Free(y) => x == *y,
        Action::Store(_, _, y) => x == *y,
        Action::Skip
        | Action::Set(_, _)
        | Action::Move(_, _)
        | Action::Neg(_, _)
        | Action::Arith(_, _, _, _)
        | Action::Get(_, _, _)
        | Action::At(_, _, _)
        | Action::Put(_, _, _)
        | Action::PutAt(_, _, _)
        | Action::IsNull(_)
        | Action::NotNull(_)
        | Action::FieldNull(_, _)
        | Action::FieldSet(_, _)
        | Action::NonZero(_)
        | Action::Zero(_)
        | Action::Equal(_, _)
        | Action::Differ(_, _) => false,
    }
}

/// Whether an action may change what is open through a slot, whatever the field.
fn frees_slot(action: &Action, x: u32) -> bool
    ensures { result ≡ frees_slot action.now x }
{
    match action {
        Action::Unset(y) => x == *y,
        Action::Null(y) => x == *y,
        Action::Text(y, _) => x == *y,
        Action::New(y, _, _, _) => x == *y,
        Action::Copy(y, _) => x == *y,
        Action::Load(y, _, _) => x == *y,
        Action::Call(into, _, slots) => is_it(*into, x) || is_in(&slots.items, x),
        Action::Free(y) => x == *y,
        Action::Skip
        | Action::Set(_, _)
        | Action::Move(_, _)
        | Action::Neg(_, _)
        | Action::Arith(_, _, _, _)
        | Action::Get(_, _, _)
        | Action::At(_, _, _)
        | Action::Store(_, _, _)
        | Action::Put(_, _, _)
        | Action::PutAt(_, _, _)
        | Action::IsNull(_)
        | Action::NotNull(_)
        | Action::FieldNull(_, _)
        | Action::FieldSet(_, _)
        | Action::NonZero(_)
        | Action::Zero(_)
        | Action::Equal(_, _)
        | Action::Differ(_, _) => false,
    }
}

/// Whether it is this field of this slot.
fn is_field<S: Scene>(scene: &S, y: u32, member: u32, x: u32, f: u32) -> bool
    requires { HasMember (S.sight scene.now) (S.setting scene.now) y member }
    ensures { result ≡ field_of_it (S.setting scene.now) y member x f }
{
    x == y && f == scene.field_at(y, member)
}

/// Whether an action may open or close a field through a slot.
fn frees_field<S: Scene>(scene: &S, action: &Action, x: u32, f: u32) -> bool
    requires { SourceExists (S.sight scene.now) action.now × MemberExists (S.sight scene.now) (S.setting scene.now) action.now }
    ensures { result ≡ frees_field (S.sight scene.now) (S.setting scene.now) action.now x f }
{
    match action {
        Action::Load(_, y, member) => is_field(scene, *y, *member, x, f),
        Action::Store(y, member, _) => is_field(scene, *y, *member, x, f),
        Action::FieldNull(y, member) => is_field(scene, *y, *member, x, f),
        Action::Skip
        | Action::Set(_, _)
        | Action::Move(_, _)
        | Action::Unset(_)
        | Action::Null(_)
        | Action::Text(_, _)
        | Action::Copy(_, _)
        | Action::Neg(_, _)
        | Action::Arith(_, _, _, _)
        | Action::Get(_, _, _)
        | Action::At(_, _, _)
        | Action::New(_, _, _, _)
        | Action::Free(_)
        | Action::Put(_, _, _)
        | Action::PutAt(_, _, _)
        | Action::IsNull(_)
        | Action::NotNull(_)
        | Action::FieldSet(_, _)
        | Action::NonZero(_)
        | Action::Zero(_)
        | Action::Equal(_, _)
        | Action::Differ(_, _)
        | Action::Call(_, _, _) => false,
    }
}

/// Adds Same for a field of a slot.
fn push_field<S: Scene>(
    out: &mut Vec<Constraint>,
    scene: &S,
    way: Way,
    action: &Action,
    x: u32,
    f: u32,
) -> Result<(), Memory>
    requires action { SourceExists (S.sight scene.now) action.now × MemberExists (S.sight scene.now) (S.setting scene.now) action.now }
    requires from { HasOmega (S.sight scene.now) way.from x f }
    requires to { HasOmega (S.sight scene.now) way.to x f }
    ensures { OnOk result (out.new.items
        ≡ out.old.items ++ same_field (S.sight scene.now) (S.setting scene.now) way.from way.number way.to action.now x f) }
{
    if frees_field(scene, action, x, f) {
        return Ok(());
    }
    let about = About {
        rule: 21,
        slot: x,
        field: f,
        other: 0,
    };
    let form = Form::Equal(scene.omega(way.from, x, f), scene.omega(way.to, x, f));
    push_form(out, scene, way, about, form)
}

/// Adds Same for the fields of a slot.
fn push_fields<S: Scene>(
    out: &mut Vec<Constraint>,
    scene: &S,
    way: Way,
    action: &Action,
    x: u32,
) -> Result<(), Memory>
    requires action { SourceExists (S.sight scene.now) action.now × MemberExists (S.sight scene.now) (S.setting scene.now) action.now }
    requires from { HasSlot (S.sight scene.now) way.from x }
    requires to { HasSlot (S.sight scene.now) way.to x }
    ensures { OnOk result (out.new.items
        ≡ out.old.items ++ each_field (S.sight scene.now) (S.setting scene.now) x (same_field (S.sight scene.now) (S.setting scene.now) way.from way.number way.to action.now x)) }
{
    let Some(structure) = scene.structure(x) else {
        return Ok(());
    };
    let range = scene.fields_of(structure);
    for j in 0..range.count {
        push_field(out, scene, way, action, x, range.first + j)?;
    }
    Ok(())
}

/// Adds Same for whether a slot owns.
fn push_rho<S: Scene>(
    out: &mut Vec<Constraint>,
    scene: &S,
    way: Way,
    action: &Action,
    x: u32,
) -> Result<(), Memory>
    requires from { HasPointer (S.sight scene.now) way.from x }
    requires to { HasPointer (S.sight scene.now) way.to x }
    ensures { OnOk result (out.new.items
        ≡ out.old.items ++ same_rho (S.sight scene.now) (S.setting scene.now) way.from way.number way.to action.now x) }
{
    if frees_rho(action, x) {
        return Ok(());
    }
    let about = About {
        rule: 21,
        slot: x,
        field: 0,
        other: 0,
    };
    let form = Form::Equal(scene.rho(way.from, x), scene.rho(way.to, x));
    push_form(out, scene, way, about, form)
}

/// Adds Same for a slot.
pub(crate) fn push_slot<S: Scene>(
    out: &mut Vec<Constraint>,
    scene: &S,
    way: Way,
    action: &Action,
    x: u32,
) -> Result<(), Memory>
    requires action { SourceExists (S.sight scene.now) action.now × MemberExists (S.sight scene.now) (S.setting scene.now) action.now }
    requires from { HasSlot (S.sight scene.now) way.from x }
    requires to { HasSlot (S.sight scene.now) way.to x }
    ensures { OnOk result (out.new.items
        ≡ out.old.items ++ same_slot (S.sight scene.now) (S.setting scene.now) way.from way.number way.to action.now x) }
{
    if !scene.is_pointer(x) {
        return Ok(());
    }
    if empty_after(scene, way.from, action, x) {
        return Ok(());
    }
    push_rho(out, scene, way, action, x)?;
    if frees_slot(action, x) {
        return Ok(());
    }
    push_fields(out, scene, way, action, x)
}

/// Adds Same, rule 21, of an edge.
pub(crate) fn push_same<S: Scene>(
    out: &mut Vec<Constraint>,
    scene: &S,
    way: Way,
    action: &Action,
) -> Result<(), Memory>
    requires action { SourceExists (S.sight scene.now) action.now × MemberExists (S.sight scene.now) (S.setting scene.now) action.now }
    requires from { way.from < (S.sight scene.now).places }
    requires to { way.to < (S.sight scene.now).places }
    ensures { OnOk result (out.new.items
        ≡ out.old.items ++ same (S.sight scene.now) (S.setting scene.now) way.from way.number way.to action.now) }
{
    let pointers = scene.pointers();
    for x in pointers {
        push_slot(out, scene, way, action, *x)?;
    }
    Ok(())
}
