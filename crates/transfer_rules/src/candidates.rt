ghost use Rattle.std.specs.Prelude.{◌≡◌, ◌++◌, ◌-◌, ◌<◌, nat_eq, OnOk};
ghost use Rattle.field_rules.specs.Lists.{when};
ghost use Rattle.transfer_rules.specs.Exist.{IsSight, CallArgsExist, WayExists, EdgesExist};
ghost use Rattle.field_rules.specs.Sight.{HasSlot};
ghost use Rattle.field_rules.specs.Lines.{bound_lines};
ghost use Rattle.transfer_rules.specs.Rules.{of_lines};
ghost use Rattle.transfer_rules.specs.Single.{here, named_arg, named_closed, named_result, named_call, named_action, named_same, named_edge, named_among, named_entry, named_exit, named_pair, named_slot, named_place, named_at};

use crate::action::{
    Way, args, call_args, push_args_at, push_assigned, push_copied, push_fields, push_free,
    push_lines, push_made, push_result, push_target, push_text,
};
use crate::constraint::Constraint;
use crate::place::{at, push_exit_closed, push_own, push_param, push_ret};
use crate::same::push_slot;
use crate::scene::Scene;
use crate::single::Single;
use c_tree::Memory;
use conflict_proof::ConstraintName;
use field_rules::{FieldEdge, bound_rules, call_rules, one_base_rules};
use flow_graph::{Action, Edge};
use std::alloc::Global;

/// The name's edge, from its place to another.
fn way(name: &ConstraintName, to: u32) -> Way
    ensures { result ≡ record { number = name.now.edge; from = name.now.place; to = to } }
{
    Way {
        number: name.edge,
        from: name.place,
        to,
    }
}

/// Adds CallArg for the name's slot.
fn push_named_arg<S: Scene>(
    alloc: Global,
    out: &mut Vec<Constraint>,
    scene: &S,
    name: &ConstraintName,
    to: u32,
    callee: u32,
    slots: &[u32],
) -> Result<(), Memory>
    requires { CallArgsExist (S.sight scene.now) (S.setting scene.now) name.now.place callee slots.now }
    ensures { OnOk result (out.new.items
        ≡ out.old.items ++ named_arg (S.sight scene.now) (S.setting scene.now) name.now callee slots.now) }
{
    if name.slot >= scene.slots() {
        return Ok(());
    }
    let args = args(alloc, scene, name.place, callee, slots)?;
    push_args_at(out, scene, way(name, to), &args, name.slot)
}

/// Adds CallClosed for the name's slot and field.
fn push_named_closed<S: Scene>(
    alloc: Global,
    out: &mut Vec<Constraint>,
    scene: &S,
    name: &ConstraintName,
    to: u32,
    callee: u32,
    slots: &[u32],
) -> Result<(), Memory>
    requires sight { IsSight (S.sight scene.now) (S.setting scene.now) }
    requires args { CallArgsExist (S.sight scene.now) (S.setting scene.now) name.now.place callee slots.now }
    ensures { OnOk result (out.new.items
        ≡ out.old.items ++ named_closed (S.sight scene.now) (S.setting scene.now) name.now callee slots.now) }
{
    if name.slot >= scene.slots() {
        return Ok(());
    }
    let passed = args(alloc, scene, name.place, callee, slots)?;
    let args = call_args(alloc, &passed)?;
    let single = Single {
        scene,
        field: name.field,
    };
    let lines = call_rules(alloc, &single, &args, name.place, name.slot)?;
    push_lines(out, scene, way(name, to), lines.items)
}

/// Adds the constraints of a call that can have the name.
fn push_named_call<S: Scene>(
    alloc: Global,
    out: &mut Vec<Constraint>,
    scene: &S,
    name: &ConstraintName,
    to: u32,
    into: Option<u32>,
    callee: u32,
    slots: &[u32],
) -> Result<(), Memory>
    requires { WayExists (S.sight scene.now) (S.setting scene.now) name.now.place to (Action.Call into callee slots.now) }
    ensures { OnOk result (out.new.items
        ≡ out.old.items ++ named_call (S.sight scene.now) (S.setting scene.now) name.now to into callee slots.now) }
{
    if name.rule == 12 {
        return push_named_arg(alloc, out, scene, name, to, callee, slots);
    }
    if name.rule == 14 {
        return push_named_closed(alloc, out, scene, name, to, callee, slots);
    }
    let Some(x) = into else {
        return Ok(());
    };
    let single = Single {
        scene,
        field: name.field,
    };
    push_assigned(out, &single, way(name, to), x)?;
    push_result(out, scene, way(name, to), callee, x)
}

/// Adds the constraints of an action, rules 1 to 14, that can have the name.
fn push_named_action<S: Scene>(
    alloc: Global,
    out: &mut Vec<Constraint>,
    scene: &S,
    name: &ConstraintName,
    to: u32,
    action: &Action,
) -> Result<(), Memory>
    requires { WayExists (S.sight scene.now) (S.setting scene.now) name.now.place to action.now }
    ensures { OnOk result (out.new.items
        ≡ out.old.items ++ named_action (S.sight scene.now) (S.setting scene.now) name.now to action.now) }
{
    let single = Single {
        scene,
        field: name.field,
    };
    let way = way(name, to);
    match action {
        Action::Unset(x) => push_target(out, &single, way, *x),
        Action::Null(x) => push_target(out, &single, way, *x),
        Action::Text(x, _) => push_text(out, &single, way, *x),
        Action::Copy(x, y) => {
            push_target(out, &single, way, *x)?;
            push_copied(out, &single, way, *x, *y)
        }
        Action::New(x, _, _, _) => push_made(out, &single, way, *x),
        Action::Free(x) => push_free(alloc, out, &single, way, *x),
        Action::Load(x, y, member) => {
            push_assigned(out, &single, way, *x)?;
            let f = scene.field_at(*y, *member);
            push_fields(alloc, out, scene, way, &FieldEdge::Load { x: *x, y: *y, f })
        }
        Action::Store(y, member, x) => {
            let f = scene.field_at(*y, *member);
            push_fields(
                alloc,
                out,
                scene,
                way,
                &FieldEdge::Store { y: *y, f, x: *x },
            )
        }
        Action::Call(into, callee, slots) => {
            push_named_call(alloc, out, scene, name, to, *into, *callee, &slots.items)
        }
        Action::Skip
        | Action::Set(_, _)
        | Action::Move(_, _)
        | Action::Neg(_, _)
        | Action::Arith(_, _, _, _)
        | Action::Get(_, _, _)
        | Action::At(_, _, _)
        | Action::Put(_, _, _)
        | Action::PutAt(_, _, _)
        | Action::IsNull(_)
        | Action::NotNull(_)
        | Action::FieldNull(_, _)
        | Action::FieldSet(_, _)
        | Action::NonZero(_)
        | Action::Zero(_)
        | Action::Equal(_, _)
        | Action::Differ(_, _) => Ok(()),
    }
}

/// Adds Same for the name's slot and field.
fn push_named_same<S: Scene>(
    out: &mut Vec<Constraint>,
    scene: &S,
    name: &ConstraintName,
    to: u32,
    action: &Action,
) -> Result<(), Memory>
    requires { WayExists (S.sight scene.now) (S.setting scene.now) name.now.place to action.now }
    ensures { OnOk result (out.new.items
        ≡ out.old.items ++ named_same (S.sight scene.now) (S.setting scene.now) name.now to action.now) }
{
    if name.slot >= scene.slots() {
        return Ok(());
    }
    let single = Single {
        scene,
        field: name.field,
    };
    push_slot(out, &single, way(name, to), action, name.slot)
}

/// Adds the constraints of an edge that can have the name.
fn push_named_edge<S: Scene>(
    alloc: Global,
    out: &mut Vec<Constraint>,
    scene: &S,
    name: &ConstraintName,
    edge: &Edge,
) -> Result<(), Memory>
    requires { WayExists (S.sight scene.now) (S.setting scene.now) name.now.place edge.now.to edge.now.action }
    ensures { OnOk result (out.new.items
        ≡ out.old.items ++ named_edge (S.sight scene.now) (S.setting scene.now) name.now edge.now) }
{
    if name.rule < 15 {
        return push_named_action(alloc, out, scene, name, edge.to, &edge.action);
    }
    if name.rule == 21 {
        return push_named_same(out, scene, name, edge.to, &edge.action);
    }
    Ok(())
}

/// Adds Entry for the name's slot and field.
fn push_named_entry<S: Scene>(
    out: &mut Vec<Constraint>,
    scene: &S,
    name: &ConstraintName,
) -> Result<(), Memory>
    requires sight { IsSight (S.sight scene.now) (S.setting scene.now) }
    requires place { name.now.place < (S.sight scene.now).places }
    ensures { OnOk result (out.new.items
        ≡ out.old.items ++ named_entry (S.sight scene.now) (S.setting scene.now) name.now) }
{
    if name.place == 0 && name.slot < scene.params() {
        let single = Single {
            scene,
            field: name.field,
        };
        return push_param(out, &single, name.place, name.slot);
    }
    Ok(())
}

/// Adds ExitRet, ExitOwn or ExitClosed for the name's slot and field.
fn push_named_exit<S: Scene>(
    out: &mut Vec<Constraint>,
    scene: &S,
    name: &ConstraintName,
) -> Result<(), Memory>
    requires sight { IsSight (S.sight scene.now) (S.setting scene.now) }
    requires slot { HasSlot (S.sight scene.now) name.now.place name.now.slot }
    ensures { OnOk result (out.new.items
        ≡ out.old.items ++ named_exit (S.sight scene.now) (S.setting scene.now) name.now) }
{
    if name.rule == 16 {
        return push_ret(out, scene, name.place, name.slot);
    }
    if name.rule == 17 {
        return push_own(out, scene, name.place, name.slot);
    }
    let single = Single {
        scene,
        field: name.field,
    };
    push_exit_closed(out, &single, name.place, name.slot)
}

/// Adds OneBase for the name's slot, field and other.
fn push_named_pair<S: Scene>(
    alloc: Global,
    out: &mut Vec<Constraint>,
    scene: &S,
    name: &ConstraintName,
) -> Result<(), Memory>
    requires sight { IsSight (S.sight scene.now) (S.setting scene.now) }
    requires slot { HasSlot (S.sight scene.now) name.now.place name.now.slot }
    ensures { OnOk result (out.new.items
        ≡ out.old.items ++ named_pair (S.sight scene.now) (S.setting scene.now) name.now) }
{
    if name.other >= scene.slots() {
        return Ok(());
    }
    let single = Single {
        scene,
        field: name.field,
    };
    let lines = one_base_rules(alloc, &single, name.place, name.slot, name.other)?;
    push_lines(out, scene, at(name.place), lines.items)
}

/// Adds Bound for the name's slot and field.
fn push_named_bound<S: Scene>(
    alloc: Global,
    out: &mut Vec<Constraint>,
    scene: &S,
    name: &ConstraintName,
) -> Result<(), Memory>
    requires sight { IsSight (S.sight scene.now) (S.setting scene.now) }
    requires slot { HasSlot (S.sight scene.now) name.now.place name.now.slot }
    ensures { OnOk result (out.new.items ≡ out.old.items
        ++ of_lines (S.sight scene.now) (S.setting scene.now) name.now.place 0 (bound_lines (here (S.sight scene.now) (S.setting scene.now) name.now) name.now.place name.now.slot)) }
{
    let single = Single {
        scene,
        field: name.field,
    };
    let lines = bound_rules(alloc, &single, name.place, name.slot)?;
    push_lines(out, scene, at(name.place), lines.items)
}

/// Adds the constraints of the name's place, rules 16 to 20, that can have the name.
fn push_named_slot<S: Scene>(
    alloc: Global,
    out: &mut Vec<Constraint>,
    scene: &S,
    name: &ConstraintName,
) -> Result<(), Memory>
    requires sight { IsSight (S.sight scene.now) (S.setting scene.now) }
    requires slot { HasSlot (S.sight scene.now) name.now.place name.now.slot }
    ensures { OnOk result (out.new.items
        ≡ out.old.items ++ named_slot (S.sight scene.now) (S.setting scene.now) name.now) }
{
    if name.rule < 19 {
        if name.place != scene.places() - 1 {
            return Ok(());
        }
        return push_named_exit(out, scene, name);
    }
    if name.rule == 19 {
        return push_named_bound(alloc, out, scene, name);
    }
    push_named_pair(alloc, out, scene, name)
}

/// Adds the constraints of the name's place, rules 15 to 20, that can have the name.
fn push_named_place<S: Scene>(
    alloc: Global,
    out: &mut Vec<Constraint>,
    scene: &S,
    name: &ConstraintName,
) -> Result<(), Memory>
    requires sight { IsSight (S.sight scene.now) (S.setting scene.now) }
    requires place { name.now.place < (S.sight scene.now).places }
    ensures { OnOk result (out.new.items
        ≡ out.old.items ++ named_place (S.sight scene.now) (S.setting scene.now) name.now) }
{
    if name.rule == 15 {
        return push_named_entry(out, scene, name);
    }
    if name.slot >= scene.slots() {
        return Ok(());
    }
    push_named_slot(alloc, out, scene, name)
}

/// Adds the constraints of the name's edge that can have the name.
fn push_named_among<S: Scene>(
    alloc: Global,
    out: &mut Vec<Constraint>,
    scene: &S,
    name: &ConstraintName,
) -> Result<(), Memory>
    requires { EdgesExist (S.sight scene.now) (S.setting scene.now) name.now.place }
    ensures { OnOk result (out.new.items ≡ out.old.items
        ++ named_among (S.sight scene.now) (S.setting scene.now) name.now ((S.setting scene.now).edges name.now.place) name.now.edge) }
{
    let edges = scene.edges(name.place);
    let number = name.edge as usize;
    if number >= edges.len() {
        return Ok(());
    }
    push_named_edge(alloc, out, scene, name, &edges[number])
}

/// Adds the constraints that can have a name: those of its place, edge and rule on its slot, field and other.
pub(crate) fn push_named<S: Scene>(
    alloc: Global,
    out: &mut Vec<Constraint>,
    scene: &S,
    name: &ConstraintName,
) -> Result<(), Memory>
    requires { EdgesExist (S.sight scene.now) (S.setting scene.now) name.now.place }
    ensures { OnOk result (out.new.items
        ≡ out.old.items ++ named_at (S.sight scene.now) (S.setting scene.now) name.now) }
{
    if name.rule <= 14 || name.rule >= 21 {
        return push_named_among(alloc, out, scene, name);
    }
    if name.edge != 0 {
        return Ok(());
    }
    push_named_place(alloc, out, scene, name)
}
