ghost use Rattle.std.specs.Prelude.{◌≡◌, ◌<◌, ◌≤◌, ◌++◌, suc, ◌+◌, not, ◌&&◌, [], Some, length, IfOk, OnOk};
ghost use Rattle.std.specs.List.{All};
ghost use Rattle.field_rules.specs.Lists.{gather, when};
ghost use Rattle.field_rules.specs.Sight.{HasSlot, HasPointer, HasOmega, IsField, RangesExist, LoadExists, StoreExists, FreeExists, CallExists, EdgeExists, leads_to, over_range, over_fields};
ghost use Rattle.field_rules.specs.Lines.{is_arg, load_lines, store_open_lines, store_lines, free_field_lines, free_field_line, phis_to, sigma_to, sigmas_to, argument_line, argument_lines, sealed_line, sealed_lines, call_lines, edge_lines};

use crate::edges::{CallArg, FieldEdge, FieldLine};
use crate::lists::{CallArgs, FieldLines, Sigmas, Vars};
use crate::rules::{CallClosed, FieldRule, FreeField, Load, Store, StoreOpen};
use crate::view::View;
use c_tree::Memory;
use std::alloc::Global;
use zo_core::Var;

/// The rules on fields of an edge from a place to a place, in order of rule, slot, field and other. The slots and places
/// exist, and so does the field of the struct to which its base points. Its one refusal is want of memory.
pub fn edge_rules<V: View>(
    alloc: Global,
    view: &V,
    edge: &FieldEdge,
    from: u32,
    to: u32,
) -> Result<FieldLines, Memory>
    requires { EdgeExists (V.sight view.now) edge.now from to }
    ensures { IfOk result (λ ls. ls ≡ edge_lines (V.sight view.now) edge.now from to) }
{
    let mut items = Vec::new(alloc);
    match edge {
        FieldEdge::Load { x, y, f } => push_load(&mut items, view, from, to, *x, *y, *f)?,
        FieldEdge::Store { y, f, x } => {
            push_store_open(&mut items, view, from, *y, *f)?;
            push_store(&mut items, view, from, to, *y, *f, *x)?;
        }
        FieldEdge::Free { x } => push_free(&mut items, view, from, *x)?,
        FieldEdge::Call { args } => push_call(alloc, &mut items, view, from, &args.items)?,
    }
    Ok(FieldLines { items })
}

/// Adds the rule of a load.
fn push_load<V: View>(
    out: &mut Vec<FieldLine>,
    view: &V,
    from: u32,
    to: u32,
    x: u32,
    y: u32,
    f: u32,
) -> Result<(), Memory>
    requires { LoadExists (V.sight view.now) from to x y f }
    ensures { OnOk result (out.new.items ≡ out.old.items ++ load_lines (V.sight view.now) from to x y f) }
{
    out.push(FieldLine {
        rule: FieldRule::Load(Load {
            rho_q: view.rho(to, x),
            omega_p: view.omega(from, y, f),
            omega_q: view.omega(to, y, f),
        }),
        slot: x,
        field: f,
        other: y,
    })?;
    Ok(())
}

/// Adds that a field is open where it is written.
fn push_store_open<V: View>(
    out: &mut Vec<FieldLine>,
    view: &V,
    from: u32,
    y: u32,
    f: u32,
) -> Result<(), Memory>
    requires field { IsField (V.sight view.now) f }
    requires before { HasOmega (V.sight view.now) from y f }
    ensures { OnOk result (out.new.items ≡ out.old.items ++ store_open_lines (V.sight view.now) from y f) }
{
    out.push(FieldLine {
        rule: FieldRule::StoreOpen(StoreOpen {
            omega_p: view.omega(from, y, f),
            phi: view.phi(f),
        }),
        slot: y,
        field: f,
        other: 0,
    })?;
    Ok(())
}

/// Adds where the ownership goes that is stored.
fn push_store<V: View>(
    out: &mut Vec<FieldLine>,
    view: &V,
    from: u32,
    to: u32,
    y: u32,
    f: u32,
    x: u32,
) -> Result<(), Memory>
    requires { StoreExists (V.sight view.now) from to x y f }
    ensures { OnOk result (out.new.items ≡ out.old.items ++ store_lines (V.sight view.now) from to y f x) }
{
    if view.empty(from, x) {
        return Ok(());
    }
    out.push(FieldLine {
        rule: FieldRule::Store(Store {
            rho_q: view.rho(to, x),
            phi: view.phi(f),
            rho_p: view.rho(from, x),
            omega_q: view.omega(to, y, f),
        }),
        slot: x,
        field: f,
        other: y,
    })?;
    Ok(())
}

/// Adds the rules on the fields of a freed object.
fn push_free<V: View>(out: &mut Vec<FieldLine>, view: &V, from: u32, x: u32) -> Result<(), Memory>
    requires { FreeExists (V.sight view.now) from x }
    ensures { OnOk result (out.new.items ≡ out.old.items ++ free_field_lines (V.sight view.now) from x) }
{
    if view.empty(from, x) {
        return Ok(());
    }
    let Some(structure) = view.structure(x) else {
        return Ok(());
    };
    let range = view.fields_of(structure);
    for j in 0..range.count {
        let f = range.first + j;
        out.push(FieldLine {
            rule: FieldRule::FreeField(FreeField {
                omega_p: view.omega(from, x, f),
                phi: view.phi(f),
            }),
            slot: x,
            field: f,
            other: 0,
        })?;
    }
    Ok(())
}

/// Adds the rules on the slots at a call.
fn push_call<V: View>(
    alloc: Global,
    out: &mut Vec<FieldLine>,
    view: &V,
    from: u32,
    args: &[CallArg],
) -> Result<(), Memory>
    requires { CallExists (V.sight view.now) from args.now }
    ensures { OnOk result (out.new.items
        ≡ out.old.items ++ gather (V.sight view.now).slots (call_lines (V.sight view.now) args.now from)) }
{
    let pointers = view.pointers();
    for y in pointers {
        push_closed(alloc, out, view, from, args, *y)?;
    }
    Ok(())
}

/// The rules on one slot at a call with these pointer arguments, in order of the fields. The place, the slot and the
/// arguments exist. Its one refusal is want of memory.
pub fn call_rules<V: View>(
    alloc: Global,
    view: &V,
    args: &CallArgs,
    from: u32,
    slot: u32,
) -> Result<FieldLines, Memory>
    requires call { CallExists (V.sight view.now) from args.now }
    requires slot { slot < (V.sight view.now).slots }
    ensures { IfOk result (λ ls. ls ≡ call_lines (V.sight view.now) args.now from slot) }
{
    let mut items = Vec::new(alloc);
    push_closed(alloc, &mut items, view, from, &args.items, slot)?;
    Ok(FieldLines { items })
}

/// Adds the rules on one slot at a call.
fn push_closed<V: View>(
    alloc: Global,
    out: &mut Vec<FieldLine>,
    view: &V,
    from: u32,
    args: &[CallArg],
    y: u32,
) -> Result<(), Memory>
    requires call { CallExists (V.sight view.now) from args.now }
    requires slot { y < (V.sight view.now).slots }
    ensures { OnOk result (out.new.items ≡ out.old.items ++ call_lines (V.sight view.now) args.now from y) }
{
    if is_arg(args, y) {
        if view.empty(from, y) {
            return Ok(());
        }
        return push_argument(out, view, from, y);
    }
    if view.fresh(from, y) {
        return Ok(());
    }
    let Some(structure) = view.structure(y) else {
        return Ok(());
    };
    push_sealed(alloc, out, view, from, args, y, structure)
}

/// Whether a slot is an argument.
fn is_arg(args: &[CallArg], y: u32) -> bool
    ensures { result ≡ is_arg args.now y }
{
    for arg in args {
        if arg.slot == y {
            return true;
        }
    }
    false
}

/// Adds the rules on the fields of an argument.
fn push_argument<V: View>(
    out: &mut Vec<FieldLine>,
    view: &V,
    from: u32,
    y: u32,
) -> Result<(), Memory>
    requires { HasSlot (V.sight view.now) from y }
    ensures { OnOk result (out.new.items
        ≡ out.old.items ++ over_fields (V.sight view.now) ((V.sight view.now).structure y) (argument_line (V.sight view.now) from y)) }
{
    let Some(structure) = view.structure(y) else {
        return Ok(());
    };
    let range = view.fields_of(structure);
    for j in 0..range.count {
        let f = range.first + j;
        out.push(FieldLine {
            rule: FieldRule::CallClosed(CallClosed::Argument {
                omega_p: view.omega(from, y, f),
            }),
            slot: y,
            field: f,
            other: 0,
        })?;
    }
    Ok(())
}

/// Adds the rules on the fields of a slot that is no argument.
fn push_sealed<V: View>(
    alloc: Global,
    out: &mut Vec<FieldLine>,
    view: &V,
    from: u32,
    args: &[CallArg],
    y: u32,
    structure: u32,
) -> Result<(), Memory>
    requires call { CallExists (V.sight view.now) from args.now }
    requires slot { y < (V.sight view.now).slots }
    requires structure { (V.sight view.now).structure y ≡ Some structure }
    ensures { OnOk result (out.new.items
        ≡ out.old.items ++ sealed_lines (V.sight view.now) args.now from y (Some structure)) }
{
    let range = view.fields_of(structure);
    if range.count == 0 {
        return Ok(());
    }
    let phis = phis_to(alloc, view, structure)?;
    let sigmas = sigmas_to(alloc, view, from, args, structure)?;
    for j in 0..range.count {
        let f = range.first + j;
        let omega_p = view.omega(from, y, f);
        let rho_p = view.rho(from, y);
        out.push(FieldLine {
            rule: FieldRule::CallClosed(CallClosed::Slot {
                omega_p,
                rho_p,
                phis: Vars {
                    items: phis.to_vec(alloc)?,
                },
                sigmas: Sigmas {
                    items: sigmas.to_vec(alloc)?,
                },
            }),
            slot: y,
            field: f,
            other: 0,
        })?;
    }
    Ok(())
}

/// That each field that points to a struct owns.
fn phis_to<V: View>(alloc: Global, view: &V, structure: u32) -> Result<Vec<Var>, Memory>
    requires { structure < (V.sight view.now).structs }
    ensures { IfOk result (λ vs. vs.items ≡ phis_to (V.sight view.now) structure) }
{
    let mut out = Vec::new(alloc);
    let fields = view.fields_to(structure);
    for field in fields {
        out.push(view.phi(*field))?;
    }
    Ok(out)
}

/// What each live argument gives that points to a struct.
fn sigmas_to<V: View>(
    alloc: Global,
    view: &V,
    from: u32,
    args: &[CallArg],
    structure: u32,
) -> Result<Vec<Option<Var>>, Memory>
    requires { CallExists (V.sight view.now) from args.now }
    ensures { IfOk result (λ vs. vs.items ≡ sigmas_to (V.sight view.now) args.now from structure) }
{
    let mut out = Vec::new(alloc);
    for arg in args {
        push_sigma(&mut out, view, from, arg, structure)?;
    }
    Ok(out)
}

/// Adds what an argument gives, where it is live and points to a struct.
fn push_sigma<V: View>(
    out: &mut Vec<Option<Var>>,
    view: &V,
    from: u32,
    arg: &CallArg,
    structure: u32,
) -> Result<(), Memory>
    requires { HasSlot (V.sight view.now) from arg.now.slot }
    ensures { OnOk result (out.new.items ≡ out.old.items ++ sigma_to (V.sight view.now) from structure arg.now) }
{
    if !leads_to(view.structure(arg.slot), structure) {
        return Ok(());
    }
    if view.empty(from, arg.slot) {
        return Ok(());
    }
    out.push(arg.sigma)?;
    Ok(())
}

/// Whether it is that struct.
pub(crate) fn leads_to(found: Option<u32>, structure: u32) -> bool
    ensures { result ≡ leads_to found structure }
{
    match found {
        None => false,
        Some(found) => found == structure,
    }
}
