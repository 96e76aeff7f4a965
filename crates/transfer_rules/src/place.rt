ghost use Rattle.std.specs.Prelude.{◌≡◌, ◌++◌, ◌+◌, ◌-◌, ◌<◌, ◌&&◌, not, true, suc, nat_eq, List, [], ◌∷◌, drop, OnOk};
ghost use Rattle.field_rules.specs.Lists.{gather, when};
ghost use Rattle.field_rules.specs.Sight.{HasSlot};
ghost use Rattle.field_rules.specs.Lines.{place_lines};
ghost use Rattle.transfer_rules.specs.Exist.{IsSight, WayExists, EdgesExist};
ghost use Rattle.transfer_rules.specs.Rules.{entry_slot, entry, is_ret, exit_ret, exit_own, exit_closed, exit, of_lines, place_rules, constraints_at, edge_rules, more_edges, rules_with};

use crate::action::{About, Way, is_live, push_action, push_closed, push_form, push_lines};
use crate::constraint::Constraint;
use crate::same::{is_it, push_same};
use crate::scene::Scene;
use c_tree::Memory;
use field_rules::place_rules;
use flow_graph::Edge;
use std::alloc::Global;
use zo_core::Form;

/// What constraints of a place are named by.
pub(crate) fn at(place: u32) -> Way
    ensures { result ≡ record { number = 0; from = place; to = place } }
{
    Way {
        number: 0,
        from: place,
        to: place,
    }
}

/// Adds Entry for a parameter.
pub(crate) fn push_param<S: Scene>(
    out: &mut Vec<Constraint>,
    scene: &S,
    place: u32,
    x: u32,
) -> Result<(), Memory>
    requires sight { IsSight (S.sight scene.now) (S.setting scene.now) }
    requires place { place < (S.sight scene.now).places }
    requires param { x < (S.setting scene.now).params }
    ensures { OnOk result (out.new.items
        ≡ out.old.items ++ entry_slot (S.sight scene.now) (S.setting scene.now) place x) }
{
    if !scene.is_pointer(x) {
        return Ok(());
    }
    let about = About {
        rule: 15,
        slot: x,
        field: 0,
        other: 0,
    };
    let form = Form::Equal(scene.rho(place, x), scene.entry(x));
    push_form(out, scene, at(place), about, form)?;
    push_closed(out, scene, at(place), 15, place, x)
}

/// Adds Entry.
fn push_entry<S: Scene>(out: &mut Vec<Constraint>, scene: &S, place: u32) -> Result<(), Memory>
    requires sight { IsSight (S.sight scene.now) (S.setting scene.now) }
    requires place { place < (S.sight scene.now).places }
    ensures { OnOk result (out.new.items
        ≡ out.old.items ++ entry (S.sight scene.now) (S.setting scene.now) place) }
{
    if place != 0 {
        return Ok(());
    }
    for x in 0..scene.params() {
        push_param(out, scene, place, x)?;
    }
    Ok(())
}

/// Adds ExitRet for a slot.
pub(crate) fn push_ret<S: Scene>(
    out: &mut Vec<Constraint>,
    scene: &S,
    place: u32,
    x: u32,
) -> Result<(), Memory>
    requires sight { IsSight (S.sight scene.now) (S.setting scene.now) }
    requires slot { HasSlot (S.sight scene.now) place x }
    ensures { OnOk result (out.new.items
        ≡ out.old.items ++ exit_ret (S.sight scene.now) (S.setting scene.now) place x) }
{
    if !is_live(scene, place, x) {
        return Ok(());
    }
    if !is_it(scene.ret(), x) {
        return Ok(());
    }
    let about = About {
        rule: 16,
        slot: x,
        field: 0,
        other: 0,
    };
    let form = Form::Equal(scene.rho(place, x), scene.exit());
    push_form(out, scene, at(place), about, form)
}

/// Adds ExitOwn for a slot.
pub(crate) fn push_own<S: Scene>(
    out: &mut Vec<Constraint>,
    scene: &S,
    place: u32,
    x: u32,
) -> Result<(), Memory>
    requires { HasSlot (S.sight scene.now) place x }
    ensures { OnOk result (out.new.items
        ≡ out.old.items ++ exit_own (S.sight scene.now) (S.setting scene.now) place x) }
{
    if !is_live(scene, place, x) {
        return Ok(());
    }
    if is_it(scene.ret(), x) {
        return Ok(());
    }
    let about = About {
        rule: 17,
        slot: x,
        field: 0,
        other: 0,
    };
    push_form(
        out,
        scene,
        at(place),
        about,
        Form::Zero(scene.rho(place, x)),
    )
}

/// Adds ExitClosed for a slot.
pub(crate) fn push_exit_closed<S: Scene>(
    out: &mut Vec<Constraint>,
    scene: &S,
    place: u32,
    x: u32,
) -> Result<(), Memory>
    requires { HasSlot (S.sight scene.now) place x }
    ensures { OnOk result (out.new.items
        ≡ out.old.items ++ exit_closed (S.sight scene.now) (S.setting scene.now) place x) }
{
    if !is_live(scene, place, x) {
        return Ok(());
    }
    push_closed(out, scene, at(place), 18, place, x)
}

/// Adds ExitRet.
fn push_rets<S: Scene>(out: &mut Vec<Constraint>, scene: &S, place: u32) -> Result<(), Memory>
    requires sight { IsSight (S.sight scene.now) (S.setting scene.now) }
    requires place { place < (S.sight scene.now).places }
    ensures { OnOk result (out.new.items
        ≡ out.old.items ++ gather (S.sight scene.now).slots (exit_ret (S.sight scene.now) (S.setting scene.now) place)) }
{
    let pointers = scene.pointers();
    for x in pointers {
        push_ret(out, scene, place, *x)?;
    }
    Ok(())
}

/// Adds ExitOwn.
fn push_owns<S: Scene>(out: &mut Vec<Constraint>, scene: &S, place: u32) -> Result<(), Memory>
    requires { place < (S.sight scene.now).places }
    ensures { OnOk result (out.new.items
        ≡ out.old.items ++ gather (S.sight scene.now).slots (exit_own (S.sight scene.now) (S.setting scene.now) place)) }
{
    let pointers = scene.pointers();
    for x in pointers {
        push_own(out, scene, place, *x)?;
    }
    Ok(())
}

/// Adds ExitClosed.
fn push_exits_closed<S: Scene>(
    out: &mut Vec<Constraint>,
    scene: &S,
    place: u32,
) -> Result<(), Memory>
    requires { place < (S.sight scene.now).places }
    ensures { OnOk result (out.new.items
        ≡ out.old.items ++ gather (S.sight scene.now).slots (exit_closed (S.sight scene.now) (S.setting scene.now) place)) }
{
    let pointers = scene.pointers();
    for x in pointers {
        push_exit_closed(out, scene, place, *x)?;
    }
    Ok(())
}

/// Adds ExitRet, ExitOwn and ExitClosed.
fn push_exit<S: Scene>(out: &mut Vec<Constraint>, scene: &S, place: u32) -> Result<(), Memory>
    requires sight { IsSight (S.sight scene.now) (S.setting scene.now) }
    requires place { place < (S.sight scene.now).places }
    ensures { OnOk result (out.new.items
        ≡ out.old.items ++ exit (S.sight scene.now) (S.setting scene.now) place) }
{
    if place != scene.places() - 1 {
        return Ok(());
    }
    push_rets(out, scene, place)?;
    push_owns(out, scene, place)?;
    push_exits_closed(out, scene, place)
}

/// Adds rules 15 to 20.
fn push_place<S: Scene>(
    alloc: Global,
    out: &mut Vec<Constraint>,
    scene: &S,
    place: u32,
) -> Result<(), Memory>
    requires sight { IsSight (S.sight scene.now) (S.setting scene.now) }
    requires place { place < (S.sight scene.now).places }
    ensures { OnOk result (out.new.items
        ≡ out.old.items ++ place_rules (S.sight scene.now) (S.setting scene.now) place) }
{
    push_entry(out, scene, place)?;
    push_exit(out, scene, place)?;
    let lines = place_rules(alloc, scene, place)?;
    push_lines(out, scene, at(place), lines.items)
}

/// Adds all constraints of an edge.
fn push_edge<S: Scene>(
    alloc: Global,
    out: &mut Vec<Constraint>,
    scene: &S,
    place: u32,
    number: u8,
    edge: &Edge,
) -> Result<(), Memory>
    requires { WayExists (S.sight scene.now) (S.setting scene.now) place edge.now.to edge.now.action }
    ensures { OnOk result (out.new.items
        ≡ out.old.items ++ edge_rules (S.sight scene.now) (S.setting scene.now) place number edge.now) }
{
    let way = Way {
        number,
        from: place,
        to: edge.to,
    };
    push_action(alloc, out, scene, way, &edge.action)?;
    push_same(out, scene, way, &edge.action)
}

/// Adds all constraints of the first edge of a place and of the place itself.
fn push_first<S: Scene>(
    alloc: Global,
    out: &mut Vec<Constraint>,
    scene: &S,
    place: u32,
    edge: &Edge,
) -> Result<(), Memory>
    requires { WayExists (S.sight scene.now) (S.setting scene.now) place edge.now.to edge.now.action }
    ensures { OnOk result (out.new.items
        ≡ out.old.items ++ rules_with (S.sight scene.now) (S.setting scene.now) place (edge.now ∷ [])) }
{
    let way = Way {
        number: 0,
        from: place,
        to: edge.to,
    };
    push_action(alloc, out, scene, way, &edge.action)?;
    push_place(alloc, out, scene, place)?;
    push_same(out, scene, way, &edge.action)
}

/// Adds all constraints of a place, in the order of their names.
pub(crate) fn push_constraints<S: Scene>(
    alloc: Global,
    out: &mut Vec<Constraint>,
    scene: &S,
    place: u32,
) -> Result<(), Memory>
    requires { EdgesExist (S.sight scene.now) (S.setting scene.now) place }
    ensures { OnOk result (out.new.items
        ≡ out.old.items ++ constraints_at (S.sight scene.now) (S.setting scene.now) place) }
{
    match scene.edges(place) {
        [] => push_place(alloc, out, scene, place),
        [edge] => push_first(alloc, out, scene, place, edge),
        [edge, other, ..] => {
            push_first(alloc, out, scene, place, edge)?;
            push_edge(alloc, out, scene, place, 1, other)
        }
    }
}
