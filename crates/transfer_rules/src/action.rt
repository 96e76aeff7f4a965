ghost use Rattle.std.specs.Prelude.{◌≡◌, ◌++◌, ◌+◌, ◌<◌, ◌^◌, Some, [], ◌∷◌, true, length, OnOk, IfOk, cond, None};
ghost use Rattle.std.specs.List.{All, flat_map};
ghost use Rattle.field_rules.specs.Lists.{gather, when};
ghost use Rattle.field_rules.specs.Sight.{HasSlot, HasPointer, HasOmega, over_fields, EdgeExists};
ghost use Rattle.field_rules.specs.Lines.{edge_lines};
ghost use Rattle.transfer_rules.specs.Exist.{IsSight, WayExists, CallArgsExist};
ghost use Rattle.transfer_rules.specs.Rules.{constraint, equation, of_line, of_lines, is_live, each_field, closed_at, nothing_at, target, copied, closed, made, text, freeing, freed, arg_form, call_arg_at, call_arg_of, call_args_rules, call_result, call_results, result_rules, action_rules, args_from, args, call_args};
ghost use Rattle.field_rules.specs.declared.edges.FieldEdge.TheVariants as field_edge;

use crate::args::PassedArg;
use crate::constraint::{Condition, Constraint};
use crate::scene::Scene;
use c_tree::Memory;
use conflict_proof::ConstraintName;
use field_rules::{CallArg, CallArgs, FieldEdge, FieldLine, edge_rules};
use flow_graph::Action;
use std::alloc::Global;
use zo_core::{Form, Var};

/// An edge: its number, where it starts and where it ends.
#[derive(Clone, Copy)]
pub(crate) struct Way {
    pub number: u8,
    pub from: u32,
    pub to: u32,
}

/// A rule, and the slot, field and second slot or argument that it is about.
#[derive(Clone, Copy)]
pub(crate) struct About {
    pub rule: u8,
    pub slot: u32,
    pub field: u32,
    pub other: u32,
}

/// Adds a constraint.
fn push<S: Scene>(
    out: &mut Vec<Constraint>,
    scene: &S,
    way: Way,
    about: About,
    condition: Condition,
) -> Result<(), Memory>
    ensures { OnOk result (out.new.items
        ≡ out.old.items ++ constraint (S.sight scene.now) (S.setting scene.now) way.from way.number about.rule about.slot about.field about.other condition) }
{
    out.push(Constraint {
        name: ConstraintName {
            proc: scene.proc(),
            place: way.from,
            edge: way.number,
            rule: about.rule,
            slot: about.slot,
            field: about.field,
            other: about.other,
        },
        condition,
    })?;
    Ok(())
}

/// Adds a constraint that is one equation.
pub(crate) fn push_form<S: Scene>(
    out: &mut Vec<Constraint>,
    scene: &S,
    way: Way,
    about: About,
    form: Form,
) -> Result<(), Memory>
    ensures { OnOk result (out.new.items
        ≡ out.old.items ++ equation (S.sight scene.now) (S.setting scene.now) way.from way.number about.rule about.slot about.field about.other form) }
{
    push(out, scene, way, about, Condition::Form(form))
}

/// Adds a rule on fields.
fn push_line<S: Scene>(
    out: &mut Vec<Constraint>,
    scene: &S,
    way: Way,
    line: FieldLine,
) -> Result<(), Memory>
    ensures { OnOk result (out.new.items
        ≡ out.old.items ++ of_line (S.sight scene.now) (S.setting scene.now) way.from way.number line) }
{
    let FieldLine {
        rule,
        slot,
        field,
        other,
    } = line;
    let about = About {
        rule: rule.number(),
        slot,
        field,
        other,
    };
    push(out, scene, way, about, Condition::Field(rule))
}

/// Adds rules on fields.
pub(crate) fn push_lines<S: Scene>(
    out: &mut Vec<Constraint>,
    scene: &S,
    way: Way,
    lines: Vec<FieldLine>,
) -> Result<(), Memory>
    ensures { OnOk result (out.new.items
        ≡ out.old.items ++ of_lines (S.sight scene.now) (S.setting scene.now) way.from way.number lines.items) }
{
    for line in lines {
        push_line(out, scene, way, line)?;
    }
    Ok(())
}

/// Adds the rules on fields of an edge.
pub(crate) fn push_fields<S: Scene>(
    alloc: Global,
    out: &mut Vec<Constraint>,
    scene: &S,
    way: Way,
    edge: &FieldEdge,
) -> Result<(), Memory>
    requires { EdgeExists (S.sight scene.now) edge.now way.from way.to }
    ensures { OnOk result (out.new.items
        ≡ out.old.items ++ of_lines (S.sight scene.now) (S.setting scene.now) way.from way.number (edge_lines (S.sight scene.now) edge.now way.from way.to)) }
{
    let lines = edge_rules(alloc, scene, edge, way.from, way.to)?;
    push_lines(out, scene, way, lines.items)
}

/// Whether a slot is a pointer that is not Empty.
pub(crate) fn is_live<S: Scene>(scene: &S, place: u32, slot: u32) -> bool
    requires { HasSlot (S.sight scene.now) place slot }
    ensures { result ≡ is_live (S.sight scene.now) (S.setting scene.now) place slot }
{
    scene.is_pointer(slot) && !scene.empty(place, slot)
}

/// Adds, by a rule, that nothing is open through a slot at a place.
pub(crate) fn push_closed<S: Scene>(
    out: &mut Vec<Constraint>,
    scene: &S,
    way: Way,
    rule: u8,
    place: u32,
    slot: u32,
) -> Result<(), Memory>
    requires { HasSlot (S.sight scene.now) place slot }
    ensures { OnOk result (out.new.items
        ≡ out.old.items ++ each_field (S.sight scene.now) (S.setting scene.now) slot (closed_at (S.sight scene.now) (S.setting scene.now) way.from way.number rule place slot)) }
{
    let Some(structure) = scene.structure(slot) else {
        return Ok(());
    };
    let range = scene.fields_of(structure);
    for j in 0..range.count {
        let field = range.first + j;
        let about = About {
            rule,
            slot,
            field,
            other: 0,
        };
        let form = Form::Zero(scene.omega(place, slot, field));
        push_form(out, scene, way, about, form)?;
    }
    Ok(())
}

/// Adds, by a rule, that a slot owns nothing at a place and that nothing is open through it.
fn push_nothing<S: Scene>(
    out: &mut Vec<Constraint>,
    scene: &S,
    way: Way,
    rule: u8,
    place: u32,
    slot: u32,
) -> Result<(), Memory>
    requires { HasPointer (S.sight scene.now) place slot }
    ensures { OnOk result (out.new.items
        ≡ out.old.items ++ nothing_at (S.sight scene.now) (S.setting scene.now) way.from way.number rule place slot) }
{
    let about = About {
        rule,
        slot,
        field: 0,
        other: 0,
    };
    push_form(out, scene, way, about, Form::Zero(scene.rho(place, slot)))?;
    push_closed(out, scene, way, rule, place, slot)
}

/// Adds Target.
pub(crate) fn push_target<S: Scene>(
    out: &mut Vec<Constraint>,
    scene: &S,
    way: Way,
    x: u32,
) -> Result<(), Memory>
    requires { HasSlot (S.sight scene.now) way.from x }
    ensures { OnOk result (out.new.items
        ≡ out.old.items ++ target (S.sight scene.now) (S.setting scene.now) way.from way.number x) }
{
    if is_live(scene, way.from, x) {
        return push_nothing(out, scene, way, 1, way.from, x);
    }
    Ok(())
}

/// Adds Copy and, where the source is live, Closed.
pub(crate) fn push_copied<S: Scene>(
    out: &mut Vec<Constraint>,
    scene: &S,
    way: Way,
    x: u32,
    y: u32,
) -> Result<(), Memory>
    requires from { way.from < (S.sight scene.now).places }
    requires target { HasPointer (S.sight scene.now) way.to x }
    requires source { HasPointer (S.sight scene.now) way.to y }
    ensures { OnOk result (out.new.items
        ≡ out.old.items ++ (copied (S.sight scene.now) (S.setting scene.now) way.from way.number way.to x y
        ++ when (is_live (S.sight scene.now) (S.setting scene.now) way.from y) (closed (S.sight scene.now) (S.setting scene.now) way.from way.number way.to x))) }
{
    if !is_live(scene, way.from, y) {
        return Ok(());
    }
    let about = About {
        rule: 2,
        slot: x,
        field: 0,
        other: y,
    };
    let form = Form::Sum(
        scene.rho(way.to, x),
        scene.rho(way.to, y),
        scene.rho(way.from, y),
    );
    push_form(out, scene, way, about, form)?;
    push_closed(out, scene, way, 3, way.to, x)
}

/// Adds Free, FreeField and Freed.
pub(crate) fn push_free<S: Scene>(
    alloc: Global,
    out: &mut Vec<Constraint>,
    scene: &S,
    way: Way,
    x: u32,
) -> Result<(), Memory>
    requires sight { IsSight (S.sight scene.now) (S.setting scene.now) }
    requires from { way.from < (S.sight scene.now).places }
    requires slot { HasPointer (S.sight scene.now) way.to x }
    ensures { OnOk result (out.new.items
        ≡ out.old.items ++ (freeing (S.sight scene.now) (S.setting scene.now) way.from way.number x
        ++ of_lines (S.sight scene.now) (S.setting scene.now) way.from way.number (edge_lines (S.sight scene.now) (field_edge.Free x) way.from way.to)
        ++ freed (S.sight scene.now) (S.setting scene.now) way.from way.number way.to x)) }
{
    let live = is_live(scene, way.from, x);
    if live {
        let about = About {
            rule: 6,
            slot: x,
            field: 0,
            other: 0,
        };
        push_form(out, scene, way, about, Form::One(scene.rho(way.from, x)))?;
    }
    push_fields(alloc, out, scene, way, &FieldEdge::Free { x })?;
    if live {
        return push_nothing(out, scene, way, 8, way.to, x);
    }
    Ok(())
}

/// Adds what an assigned pointer asks before and after an edge.
pub(crate) fn push_assigned<S: Scene>(
    out: &mut Vec<Constraint>,
    scene: &S,
    way: Way,
    x: u32,
) -> Result<(), Memory>
    requires from { HasSlot (S.sight scene.now) way.from x }
    requires to { HasSlot (S.sight scene.now) way.to x }
    ensures { OnOk result (out.new.items
        ≡ out.old.items ++ (target (S.sight scene.now) (S.setting scene.now) way.from way.number x
        ++ closed (S.sight scene.now) (S.setting scene.now) way.from way.number way.to x)) }
{
    push_target(out, scene, way, x)?;
    push_closed(out, scene, way, 3, way.to, x)
}

/// The pointer arguments of a call.
pub(crate) fn args<S: Scene>(
    alloc: Global,
    scene: &S,
    place: u32,
    callee: u32,
    slots: &[u32],
) -> Result<Vec<PassedArg>, Memory>
    requires { CallArgsExist (S.sight scene.now) (S.setting scene.now) place callee slots.now }
    ensures exact { IfOk result (λ us. us.items ≡ args (S.sight scene.now) (S.setting scene.now) place callee slots.now) }
    ensures there { IfOk result (λ us. All (λ u. HasPointer (S.sight scene.now) place u.slot) us.items) }
{
    let mut out = Vec::new(alloc);
    let mut part = 1;
    for n in 0..slots.len() {
        let slot = slots[n];
        if scene.is_pointer(slot) {
            let number = n as u32 + 1;
            let sigma = sigma(scene, place, callee, part);
            out.push(PassedArg {
                slot,
                number,
                sigma,
            })?;
            part += 1;
        }
    }
    Ok(out)
}

/// What a call takes in a part of the interface; none where the called procedure is external.
fn sigma<S: Scene>(scene: &S, place: u32, callee: u32, part: u32) -> Option<Var>
    requires place { place < (S.sight scene.now).places }
    requires part { (S.setting scene.now).has_body callee ≡ true → (S.setting scene.now).has_part place callee part ≡ true }
    ensures { result ≡ cond ((S.setting scene.now).has_body callee) (Some ((S.setting scene.now).part place callee part)) None }
{
    if scene.has_body(callee) {
        return Some(scene.part(place, callee, part));
    }
    None
}

/// Adds CallArg.
fn push_args<S: Scene>(
    out: &mut Vec<Constraint>,
    scene: &S,
    way: Way,
    args: &[PassedArg],
) -> Result<(), Memory>
    requires { All (λ u. HasPointer (S.sight scene.now) way.from u.slot) args.now }
    ensures { OnOk result (out.new.items
        ≡ out.old.items ++ call_args_rules (S.sight scene.now) (S.setting scene.now) way.from way.number args.now) }
{
    let pointers = scene.pointers();
    for u in pointers {
        push_args_at(out, scene, way, args, *u)?;
    }
    Ok(())
}

/// Adds CallArg for the arguments of one slot.
pub(crate) fn push_args_at<S: Scene>(
    out: &mut Vec<Constraint>,
    scene: &S,
    way: Way,
    args: &[PassedArg],
    u: u32,
) -> Result<(), Memory>
    requires { All (λ u. HasPointer (S.sight scene.now) way.from u.slot) args.now }
    ensures { OnOk result (out.new.items
        ≡ out.old.items ++ call_arg_of (S.sight scene.now) (S.setting scene.now) way.from way.number args.now u) }
{
    for arg in args {
        push_arg(out, scene, way, u, *arg)?;
    }
    Ok(())
}

/// Adds CallArg for an argument, where it is of that slot.
fn push_arg<S: Scene>(
    out: &mut Vec<Constraint>,
    scene: &S,
    way: Way,
    u: u32,
    arg: PassedArg,
) -> Result<(), Memory>
    requires { HasPointer (S.sight scene.now) way.from arg.slot }
    ensures { OnOk result (out.new.items
        ≡ out.old.items ++ call_arg_at (S.sight scene.now) (S.setting scene.now) way.from way.number u arg) }
{
    if arg.slot != u {
        return Ok(());
    }
    if scene.empty(way.from, u) {
        return Ok(());
    }
    let about = About {
        rule: 12,
        slot: u,
        field: 0,
        other: arg.number,
    };
    let form = arg_form(scene.rho(way.from, u), arg.sigma);
    push_form(out, scene, way, about, form)
}

fn arg_form(rho: Var, sigma: Option<Var>) -> Form
    ensures { result ≡ arg_form rho sigma }
{
    match sigma {
        None => Form::Zero(rho),
        Some(sigma) => Form::Equal(rho, sigma),
    }
}

/// Adds CallResult.
pub(crate) fn push_result<S: Scene>(
    out: &mut Vec<Constraint>,
    scene: &S,
    way: Way,
    callee: u32,
    x: u32,
) -> Result<(), Memory>
    requires from { way.from < (S.sight scene.now).places }
    requires slot { HasSlot (S.sight scene.now) way.to x }
    requires part { (S.sight scene.now).pointer x ≡ true → (S.setting scene.now).has_part way.from callee 0 ≡ true }
    ensures { OnOk result (out.new.items
        ≡ out.old.items ++ call_result (S.sight scene.now) (S.setting scene.now) way.from way.number way.to callee x) }
{
    if !scene.is_pointer(x) {
        return Ok(());
    }
    let about = About {
        rule: 13,
        slot: x,
        field: 0,
        other: 0,
    };
    let form = Form::Equal(scene.rho(way.to, x), scene.part(way.from, callee, 0));
    push_form(out, scene, way, about, form)
}

/// The pointer arguments as rules on fields see them.
pub(crate) fn call_args(alloc: Global, args: &[PassedArg]) -> Result<CallArgs, Memory>
    ensures { IfOk result (λ us. us ≡ call_args args.now) }
{
    let mut items = Vec::new(alloc);
    for arg in args {
        items.push(CallArg {
            slot: arg.slot,
            sigma: arg.sigma,
        })?;
    }
    Ok(CallArgs { items })
}

/// Adds the rules of a call.
fn push_call<S: Scene>(
    alloc: Global,
    out: &mut Vec<Constraint>,
    scene: &S,
    way: Way,
    into: Option<u32>,
    callee: u32,
    slots: &[u32],
) -> Result<(), Memory>
    requires { WayExists (S.sight scene.now) (S.setting scene.now) way.from way.to (Action.Call into callee slots.now) }
    ensures { OnOk result (out.new.items
        ≡ out.old.items ++ action_rules (S.sight scene.now) (S.setting scene.now) way.from way.number way.to (Action.Call into callee slots.now)) }
{
    if let Some(x) = into {
        push_assigned(out, scene, way, x)?;
    }
    let args = args(alloc, scene, way.from, callee, slots)?;
    push_args(out, scene, way, &args)?;
    if let Some(x) = into {
        push_result(out, scene, way, callee, x)?;
    }
    let edge = FieldEdge::Call {
        args: call_args(alloc, &args)?,
    };
    push_fields(alloc, out, scene, way, &edge)
}

/// Adds rules 1 to 14 of an edge.
pub(crate) fn push_action<S: Scene>(
    alloc: Global,
    out: &mut Vec<Constraint>,
    scene: &S,
    way: Way,
    action: &Action,
) -> Result<(), Memory>
    requires { WayExists (S.sight scene.now) (S.setting scene.now) way.from way.to action.now }
    ensures { OnOk result (out.new.items
        ≡ out.old.items ++ action_rules (S.sight scene.now) (S.setting scene.now) way.from way.number way.to action.now) }
{
    match action {
        Action::Unset(x) => push_target(out, scene, way, *x),
        Action::Null(x) => push_target(out, scene, way, *x),
        Action::Text(x, _) => push_text(out, scene, way, *x),
        Action::Copy(x, y) => {
            push_target(out, scene, way, *x)?;
            push_copied(out, scene, way, *x, *y)
        }
        Action::New(x, _, _, _) => push_made(out, scene, way, *x),
        Action::Free(x) => push_free(alloc, out, scene, way, *x),
        Action::Load(x, y, member) => {
            push_assigned(out, scene, way, *x)?;
            let f = scene.field_at(*y, *member);
            push_fields(alloc, out, scene, way, &FieldEdge::Load { x: *x, y: *y, f })
        }
        Action::Store(y, member, x) => {
            let f = scene.field_at(*y, *member);
            push_fields(
                alloc,
                out,
                scene,
                way,
                &FieldEdge::Store { y: *y, f, x: *x },
            )
        }
        Action::Call(into, callee, slots) => {
            push_call(alloc, out, scene, way, *into, *callee, &slots.items)
        }
        Action::Skip
        | Action::Set(_, _)
        | Action::Move(_, _)
        | Action::Neg(_, _)
        | Action::Arith(_, _, _, _)
        | Action::Get(_, _, _)
        | Action::At(_, _, _)
        | Action::Put(_, _, _)
        | Action::PutAt(_, _, _)
        | Action::IsNull(_)
        | Action::NotNull(_)
        | Action::FieldNull(_, _)
        | Action::FieldSet(_, _)
        | Action::NonZero(_)
        | Action::Zero(_)
        | Action::Equal(_, _)
        | Action::Differ(_, _) => Ok(()),
    }
}

/// Adds Target and Text.
pub(crate) fn push_text<S: Scene>(
    out: &mut Vec<Constraint>,
    scene: &S,
    way: Way,
    x: u32,
) -> Result<(), Memory>
    requires from { way.from < (S.sight scene.now).places }
    requires slot { HasPointer (S.sight scene.now) way.to x }
    ensures { OnOk result (out.new.items
        ≡ out.old.items ++ (target (S.sight scene.now) (S.setting scene.now) way.from way.number x
        ++ text (S.sight scene.now) (S.setting scene.now) way.from way.number way.to x)) }
{
    push_target(out, scene, way, x)?;
    let about = About {
        rule: 5,
        slot: x,
        field: 0,
        other: 0,
    };
    push_form(out, scene, way, about, Form::Zero(scene.rho(way.to, x)))
}

/// Adds Target and New.
pub(crate) fn push_made<S: Scene>(
    out: &mut Vec<Constraint>,
    scene: &S,
    way: Way,
    x: u32,
) -> Result<(), Memory>
    requires from { way.from < (S.sight scene.now).places }
    requires slot { HasPointer (S.sight scene.now) way.to x }
    ensures { OnOk result (out.new.items
        ≡ out.old.items ++ (target (S.sight scene.now) (S.setting scene.now) way.from way.number x
        ++ made (S.sight scene.now) (S.setting scene.now) way.from way.number way.to x)) }
{
    push_target(out, scene, way, x)?;
    let about = About {
        rule: 4,
        slot: x,
        field: 0,
        other: 0,
    };
    push_form(out, scene, way, about, Form::One(scene.rho(way.to, x)))
}
