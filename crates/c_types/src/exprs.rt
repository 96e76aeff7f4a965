ghost use Rattle.std.specs.Prelude.{◌≡◌, ◌<◌, [], ◌∷◌, ◌++◌, ◌||◌, ◌&&◌, not, length, slice_get, slice_set, IfOk, OnOk, is_none, option_map};
ghost use Rattle.c_tree.specs.View.{expr_view, exprs_view};
ghost use Rattle.c_tree.specs.Plain.{call, arrow, not_of, neg};
ghost use Rattle.c_types.specs.Breaches.{soonest, sooner, breach_if};
ghost use Rattle.c_types.specs.declared.kinds.Wanted.TheVariants.{Value};
ghost use Rattle.c_types.specs.Types.{of_type, type_as, element_type, breaks_9, binary_rule, breaks_binary};
ghost use Rattle.c_types.specs.Scopes.{slot_in, kind_in};
ghost use Rattle.c_types.specs.Exprs.{operand_of, breaches, infos, unit_type, breaks_6, breaks_14, breaks_14_count, breaks_19, cast_undefined, unit_undefined, cast_differs, is_one, is_misfit, misfits, args_breaches, args_infos, is_untyped, type_undefined, wants_value};

use crate::infos::NodeInfo;
use crate::kinds::{Operand, SlotType, Wanted, pointer_only, same_type};
use crate::names::number_of;
use crate::rules::{
    Breach, binary_rule, breach_if, breaks_9, breaks_12, breaks_13, breaks_binary, element_type,
    sooner, wanted_by,
};
use crate::scope::OpenScopes;
use crate::tables::{Tables, slot_type};
use c_tree::{BinaryOp, Expr, ExprForm, Memory, Name, Span, TypeName, Unit};

/// What the rules see of an expression, and the first rule that is broken in it.
#[derive(Clone, Copy)]
pub(crate) struct Seen {
    pub operand: Operand,
    pub first: Option<Breach>,
}

/// The type of an allocation: what its unit says, and `char *` without one.
fn unit_type(tables: &Tables, scope: &OpenScopes, unit: &Option<Unit>) -> Option<SlotType>
    ensures { result ≡ unit_type tables.now scope.now unit.now }
{
    match unit {
        None | Some(Unit::Char) => Some(SlotType::CharPtr),
        Some(Unit::Int) => Some(SlotType::IntPtr),
        Some(Unit::Struct(tag)) => Some(SlotType::StructPtr(
            tables.tags.place(tag.items.as_slice()),
        )),
        Some(Unit::Behind(x)) => match scope.kind_in(x.items.as_slice()) {
            Some(k) => pointer_only(k),
            None => None,
        },
    }
}

fn type_undefined(tables: &Tables, kind: &TypeName) -> bool
    ensures { result ≡ type_undefined tables.now kind.now }
{
    match kind {
        TypeName::StructPtr(tag) => !tables.is_defined(tag.items.as_slice()),
        TypeName::Int | TypeName::Char | TypeName::IntPtr | TypeName::CharPtr => false,
    }
}

fn unit_undefined(tables: &Tables, unit: &Option<Unit>) -> bool
    ensures { result ≡ unit_undefined tables.now unit.now }
{
    match unit {
        Some(Unit::Struct(tag)) => !tables.is_defined(tag.items.as_slice()),
        None | Some(Unit::Int) | Some(Unit::Char) | Some(Unit::Behind(_)) => false,
    }
}

/// Whether a cast names a struct without a definition, or another type than the allocation has.
fn cast_breaks(tables: &Tables, cast: &Option<TypeName>, kind: SlotType) -> bool
    ensures { result ≡ (cast_undefined tables.now cast.now || cast_differs tables.now cast.now kind) }
{
    match cast {
        Some(t) => type_undefined(tables, t) || !same_type(slot_type(&tables.tags, t), kind),
        None => false,
    }
}

/// Whether an allocation of that type breaks its rule by its cast or its unit.
fn breaks_14(
    tables: &Tables,
    kind: Option<SlotType>,
    cast: &Option<TypeName>,
    unit: &Option<Unit>,
) -> bool
    ensures { result ≡ breaks_14 tables.now kind cast.now unit.now }
{
    match kind {
        Some(k) => unit_undefined(tables, unit) || cast_breaks(tables, cast, k),
        None => true,
    }
}

fn is_one(e: &Expr) -> bool
    ensures { result ≡ is_one (expr_view e.now) }
{
    match &e.form {
        ExprForm::Num(n) => *n == 1,
        ExprForm::Text(_)
        | ExprForm::Null
        | ExprForm::Name(_)
        | ExprForm::Call(_, _)
        | ExprForm::New(_)
        | ExprForm::Arrow(_, _)
        | ExprForm::Index(_, _)
        | ExprForm::Not(_)
        | ExprForm::Neg(_)
        | ExprForm::Binary(_, _, _) => false,
    }
}

/// Whether an allocation breaks its rule by its count.
fn breaks_14_count(kind: Option<SlotType>, zeroed: bool, count: &Expr, seen: Operand) -> bool
    ensures { result ≡ breaks_14_count kind zeroed (expr_view count.now) seen }
{
    let is_struct = matches!(kind, Some(SlotType::StructPtr(_)));
    seen.is_no_integer() || is_struct && !(zeroed && is_one(count))
}

/// What the rules see of an expression.
pub(crate) fn operand_of(tables: &Tables, scope: &OpenScopes, e: &Expr) -> Operand
    ensures { result ≡ operand_of tables.now scope.now (expr_view e.now) }
{
    match &e.form {
        ExprForm::Num(n) => Operand::of_number(*n),
        ExprForm::Text(_) => Operand::Typed(SlotType::CharPtr),
        ExprForm::Null => Operand::Null,
        ExprForm::Name(x) => Operand::of_type(scope.kind_in(x.items.as_slice())),
        ExprForm::Call(f, _) => Operand::of_type(tables.callee(f.items.as_slice()).result),
        ExprForm::New(new) => match &new.count {
            Some(_) => Operand::of_type(unit_type(tables, scope, &new.unit)),
            None => Operand::of_type(unit_type(tables, scope, &new.unit)),
        },
        ExprForm::Arrow(base, name) => {
            let base = operand_of(tables, scope, base.get());
            arrow_operand(tables.member_of(base, name.items.as_slice()))
        }
        ExprForm::Index(base, _) => Operand::of_type(element_type(operand_of(
            tables,
            scope,
            base.get(),
        ))),
        ExprForm::Not(_) | ExprForm::Neg(_) | ExprForm::Binary(_, _, _) => Operand::Typed(
            SlotType::Int,
        ),
    }
}

fn arrow_operand(member: Option<(usize, SlotType)>) -> Operand
    ensures { result ≡ of_type (option_map (λ m. m.1) member) }
{
    match member {
        Some(m) => Operand::Typed(m.1),
        None => Operand::Untyped,
    }
}

fn arrow_refers(member: Option<(usize, SlotType)>) -> Result<Option<u32>, Memory>
    ensures { IfOk result (λ refers. refers ≡ option_map (λ m. m.0) member) }
{
    match member {
        Some(m) => Ok(Some(number_of(m.0)?)),
        None => Ok(None),
    }
}

/// Notes a node.
fn note(
    nodes: &mut Vec<NodeInfo>,
    wanted: Wanted,
    operand: Operand,
    refers: Option<u32>,
) -> Result<(), Memory>
    ensures { OnOk result (nodes.new.items ≡ nodes.old.items ++ record { kind = type_as wanted operand; refers = refers } ∷ []) }
{
    nodes.push(NodeInfo {
        kind: operand.type_as(wanted),
        refers,
    })?;
    Ok(())
}

/// Notes what a node is that was noted before those below it.
fn note_at(
    nodes: &mut Vec<NodeInfo>,
    place: usize,
    wanted: Wanted,
    operand: Operand,
    refers: Option<u32>,
)
    requires { place < length nodes.old.items }
    ensures { nodes.new.items ≡ slice_set nodes.old.items place (record { kind = type_as wanted operand; refers = refers }) }
{
    nodes[place] = NodeInfo {
        kind: operand.type_as(wanted),
        refers,
    };
}

/// The arguments of a call: whether they fit their parameters, and the first rule that is broken in
/// them.
#[derive(Clone, Copy)]
pub(crate) struct Args {
    pub misfit: bool,
    pub first: Option<Breach>,
}

pub(crate) fn either(a: bool, b: bool) -> bool
    ensures { result ≡ (a || b) }
{
    a || b
}

fn param_at(params: &[SlotType], i: usize) -> Option<SlotType>
    ensures { result ≡ slice_get params.now i }
{
    params.get(i).copied()
}

fn is_misfit(param: Option<SlotType>, argument: Operand) -> bool
    ensures { result ≡ is_misfit param argument }
{
    match param {
        Some(_) => breaks_13(param, argument),
        None => true,
    }
}

#[cycle(check)]
fn check_args(
    tables: &Tables,
    scope: &OpenScopes,
    params: &[SlotType],
    es: &[Expr],
    nodes: &mut Vec<NodeInfo>,
) -> Result<Args, Memory>
    ensures misfit { IfOk result (λ args. args.misfit ≡ misfits tables.now scope.now params.now (exprs_view es.now)) }
    ensures first { IfOk result (λ args. args.first ≡ args_breaches soonest tables.now scope.now params.now (exprs_view es.now)) }
    ensures nodes { OnOk result (nodes.new.items ≡ nodes.old.items ++ args_infos tables.now scope.now params.now (exprs_view es.now)) }
{
    let mut misfit = false;
    let mut first = None;
    for (i, e) in es.iter().enumerate() {
        let param = param_at(params, i);
        let seen = check_expr(tables, scope, Wanted::of_type(param), e, nodes)?;
        misfit = either(misfit, is_misfit(param, seen.operand));
        first = sooner(first, seen.first);
    }
    let misfit = either(misfit, es.len() < params.len());
    Ok(Args { misfit, first })
}

/// Checks an expression that nothing can be broken in.
fn check_leaf(wanted: Wanted, operand: Operand, nodes: &mut Vec<NodeInfo>) -> Result<Seen, Memory>
    ensures seen { IfOk result (λ seen. seen ≡ record { operand = operand; first = None }) }
    ensures nodes { OnOk result (nodes.new.items ≡ nodes.old.items ++ record { kind = type_as wanted operand; refers = None } ∷ []) }
{
    note(nodes, wanted, operand, None)?;
    Ok(Seen {
        operand,
        first: None,
    })
}

fn check_null(wanted: Wanted, at: Span, nodes: &mut Vec<NodeInfo>) -> Result<Seen, Memory>
    ensures operand { IfOk result (λ seen. seen.operand ≡ Operand.Null) }
    ensures first { IfOk result (λ seen. seen.first ≡ breach_if soonest (breaks_19 wanted) at 19) }
    ensures nodes { OnOk result (nodes.new.items ≡ nodes.old.items ++ record { kind = type_as wanted Operand.Null; refers = None } ∷ []) }
{
    note(nodes, wanted, Operand::Null, None)?;
    Ok(Seen {
        operand: Operand::Null,
        first: breach_if(wanted.pointer().is_none(), at, 19),
    })
}

fn check_name(
    scope: &OpenScopes,
    wanted: Wanted,
    at: Span,
    x: &Name,
    nodes: &mut Vec<NodeInfo>,
) -> Result<Seen, Memory>
    ensures operand { IfOk result (λ seen. seen.operand ≡ of_type (kind_in scope.now x.now)) }
    ensures first { IfOk result (λ seen. seen.first ≡ breach_if soonest (breaks_6 scope.now x.now) at 6) }
    ensures nodes { OnOk result (nodes.new.items ≡ nodes.old.items
        ++ record { kind = type_as wanted (of_type (kind_in scope.now x.now)); refers = slot_in scope.now x.now } ∷ []) }
{
    let slot = scope.slot_in(x.items.as_slice());
    let operand = Operand::of_type(scope.kind_in(x.items.as_slice()));
    note(nodes, wanted, operand, slot)?;
    Ok(Seen {
        operand,
        first: breach_if(slot.is_none(), at, 6),
    })
}

/// Checks a call: its name, its arguments, and whether it has the value that is wanted.
#[cycle(check)]
fn check_call(
    tables: &Tables,
    scope: &OpenScopes,
    wanted: Wanted,
    at: Span,
    f: &Name,
    es: &[Expr],
    nodes: &mut Vec<NodeInfo>,
) -> Result<Seen, Memory>
    ensures operand { IfOk result (λ seen. seen.operand ≡ operand_of tables.now scope.now (call at f.now (exprs_view es.now))) }
    ensures first { IfOk result (λ seen. seen.first ≡ breaches soonest tables.now scope.now wanted (call at f.now (exprs_view es.now))) }
    ensures nodes { OnOk result (nodes.new.items ≡ nodes.old.items ++ infos tables.now scope.now wanted (call at f.now (exprs_view es.now))) }
{
    let name = f.items.as_slice();
    let callee = tables.callee(name);
    let operand = Operand::of_type(callee.result);
    note(nodes, wanted, operand, tables.procs.number(name))?;
    let args = check_args(tables, scope, callee.params, es, nodes)?;
    let unknown = breach_if(!callee.known, at, 6);
    let misfit = breach_if(callee.known && args.misfit, at, 7);
    let void = breach_if(breaks_18(wanted, callee.known, callee.result), at, 18);
    Ok(Seen {
        operand,
        first: sooner(unknown, sooner(misfit, sooner(void, args.first))),
    })
}

/// What an allocation is besides its count.
#[derive(Clone, Copy)]
pub(crate) struct Allocated {
    pub kind: Option<SlotType>,
    /// Whether it is `calloc`.
    pub zeroed: bool,
    /// Whether its cast or its unit breaks the rule.
    pub broken: bool,
}

fn made(
    tables: &Tables,
    scope: &OpenScopes,
    cast: &Option<TypeName>,
    zeroed: bool,
    unit: &Option<Unit>,
) -> Allocated
    ensures kind { result.kind ≡ unit_type tables.now scope.now unit.now }
    ensures zeroed { result.zeroed ≡ zeroed }
    ensures broken { result.broken ≡ breaks_14 tables.now (unit_type tables.now scope.now unit.now) cast.now unit.now }
{
    let kind = unit_type(tables, scope, unit);
    Allocated {
        kind,
        zeroed,
        broken: breaks_14(tables, kind, cast, unit),
    }
}

/// Checks an allocation without a count.
fn check_new(
    wanted: Wanted,
    at: Span,
    made: Allocated,
    nodes: &mut Vec<NodeInfo>,
) -> Result<Seen, Memory>
    ensures operand { IfOk result (λ seen. seen.operand ≡ of_type made.kind) }
    ensures first { IfOk result (λ seen. seen.first ≡ breach_if soonest made.broken at 14) }
    ensures nodes { OnOk result (nodes.new.items ≡ nodes.old.items ++ record { kind = type_as wanted (of_type made.kind); refers = None } ∷ []) }
{
    let operand = Operand::of_type(made.kind);
    note(nodes, wanted, operand, None)?;
    Ok(Seen {
        operand,
        first: breach_if(made.broken, at, 14),
    })
}

/// Notes a node of that operand, and checks the expression below it.
#[cycle(check)]
fn check_operand(
    tables: &Tables,
    scope: &OpenScopes,
    wanted: Wanted,
    operand: Operand,
    below: Wanted,
    e: &Expr,
    nodes: &mut Vec<NodeInfo>,
) -> Result<Seen, Memory>
    ensures operand { IfOk result (λ seen. seen.operand ≡ operand_of tables.now scope.now (expr_view e.now)) }
    ensures first { IfOk result (λ seen. seen.first ≡ breaches soonest tables.now scope.now below (expr_view e.now)) }
    ensures nodes { OnOk result (nodes.new.items
        ≡ nodes.old.items ++ (record { kind = type_as wanted operand; refers = None } ∷ infos tables.now scope.now below (expr_view e.now))) }
{
    note(nodes, wanted, operand, None)?;
    check_expr(tables, scope, below, e, nodes)
}

/// Checks an allocation and its count.
#[cycle(check)]
fn check_counted(
    tables: &Tables,
    scope: &OpenScopes,
    wanted: Wanted,
    at: Span,
    made: Allocated,
    count: &Expr,
    nodes: &mut Vec<NodeInfo>,
) -> Result<Seen, Memory>
    ensures operand { IfOk result (λ seen. seen.operand ≡ of_type made.kind) }
    ensures first { IfOk result (λ seen. seen.first ≡ sooner
        (breach_if soonest (made.broken || breaks_14_count made.kind made.zeroed (expr_view count.now) (operand_of tables.now scope.now (expr_view count.now))) at 14)
        (breaches soonest tables.now scope.now Value (expr_view count.now))) }
    ensures nodes { OnOk result (nodes.new.items ≡ nodes.old.items
        ++ (record { kind = type_as wanted (of_type made.kind); refers = None } ∷ infos tables.now scope.now Value (expr_view count.now))) }
{
    let operand = Operand::of_type(made.kind);
    let seen = check_operand(tables, scope, wanted, operand, Wanted::Value, count, nodes)?;
    let counted = breaks_14_count(made.kind, made.zeroed, count, seen.operand);
    let own = breach_if(either(made.broken, counted), at, 14);
    Ok(Seen {
        operand,
        first: sooner(own, seen.first),
    })
}

/// Checks an arrow over a base.
#[cycle(check)]
#[tactic(auto, using(crate::proofs::Walks::set_noted, crate::proofs::Walks::length_noted))]
fn check_arrow(
    tables: &Tables,
    scope: &OpenScopes,
    wanted: Wanted,
    at: Span,
    base: &Expr,
    name: &Name,
    nodes: &mut Vec<NodeInfo>,
) -> Result<Seen, Memory>
    ensures operand { IfOk result (λ seen. seen.operand ≡ operand_of tables.now scope.now (arrow at (expr_view base.now) name.now)) }
    ensures first { IfOk result (λ seen. seen.first ≡ breaches soonest tables.now scope.now wanted (arrow at (expr_view base.now) name.now)) }
    ensures nodes { OnOk result (nodes.new.items ≡ nodes.old.items ++ infos tables.now scope.now wanted (arrow at (expr_view base.now) name.now)) }
{
    let place = nodes.as_slice().len();
    note(nodes, wanted, Operand::Untyped, None)?;
    let base = check_expr(tables, scope, Wanted::Value, base, nodes)?;
    let member = tables.member_of(base.operand, name.items.as_slice());
    let operand = arrow_operand(member);
    note_at(nodes, place, wanted, operand, arrow_refers(member)?);
    let own = breach_if(breaks_8(base.operand, member), at, 8);
    Ok(Seen {
        operand,
        first: sooner(own, base.first),
    })
}

/// Notes an element, and checks the base of its index.
#[cycle(check)]
#[tactic(auto, using(crate::proofs::Walks::set_noted, crate::proofs::Walks::length_noted))]
fn check_element(
    tables: &Tables,
    scope: &OpenScopes,
    wanted: Wanted,
    base: &Expr,
    nodes: &mut Vec<NodeInfo>,
) -> Result<Seen, Memory>
    ensures operand { IfOk result (λ seen. seen.operand ≡ operand_of tables.now scope.now (expr_view base.now)) }
    ensures first { IfOk result (λ seen. seen.first ≡ breaches soonest tables.now scope.now Value (expr_view base.now)) }
    ensures nodes { OnOk result (nodes.new.items
        ≡ nodes.old.items ++ (record { kind = type_as wanted (of_type (element_type (operand_of tables.now scope.now (expr_view base.now)))); refers = None }
        ∷ infos tables.now scope.now Value (expr_view base.now))) }
{
    let place = nodes.as_slice().len();
    note(nodes, wanted, Operand::Untyped, None)?;
    let seen = check_expr(tables, scope, Wanted::Value, base, nodes)?;
    let operand = Operand::of_type(element_type(seen.operand));
    note_at(nodes, place, wanted, operand, None);
    Ok(seen)
}

/// An index over a base.
fn indexed(at: Span, base: Seen, index: Seen) -> Seen
    ensures { result ≡ record {
      operand = of_type (element_type base.operand);
      first = sooner (breach_if soonest (breaks_9 base.operand index.operand) at 9) (sooner base.first index.first);
    } }
{
    let own = breach_if(breaks_9(base.operand, index.operand), at, 9);
    Seen {
        operand: Operand::of_type(element_type(base.operand)),
        first: sooner(own, sooner(base.first, index.first)),
    }
}

#[cycle(check)]
fn check_not(
    tables: &Tables,
    scope: &OpenScopes,
    wanted: Wanted,
    at: Span,
    e: &Expr,
    nodes: &mut Vec<NodeInfo>,
) -> Result<Seen, Memory>
    ensures operand { IfOk result (λ seen. seen.operand ≡ operand_of tables.now scope.now (not_of at (expr_view e.now))) }
    ensures first { IfOk result (λ seen. seen.first ≡ breaches soonest tables.now scope.now wanted (not_of at (expr_view e.now))) }
    ensures nodes { OnOk result (nodes.new.items ≡ nodes.old.items ++ infos tables.now scope.now wanted (not_of at (expr_view e.now))) }
{
    let operand = Operand::Typed(SlotType::Int);
    let seen = check_operand(tables, scope, wanted, operand, Wanted::Value, e, nodes)?;
    let own = breach_if(breaks_12(seen.operand), at, 12);
    Ok(Seen {
        operand,
        first: sooner(own, seen.first),
    })
}

#[cycle(check)]
fn check_neg(
    tables: &Tables,
    scope: &OpenScopes,
    wanted: Wanted,
    at: Span,
    e: &Expr,
    nodes: &mut Vec<NodeInfo>,
) -> Result<Seen, Memory>
    ensures operand { IfOk result (λ seen. seen.operand ≡ operand_of tables.now scope.now (neg at (expr_view e.now))) }
    ensures first { IfOk result (λ seen. seen.first ≡ breaches soonest tables.now scope.now wanted (neg at (expr_view e.now))) }
    ensures nodes { OnOk result (nodes.new.items ≡ nodes.old.items ++ infos tables.now scope.now wanted (neg at (expr_view e.now))) }
{
    let operand = Operand::Typed(SlotType::Int);
    let seen = check_operand(tables, scope, wanted, operand, Wanted::Value, e, nodes)?;
    let own = breach_if(seen.operand.is_no_integer(), at, 10);
    Ok(Seen {
        operand,
        first: sooner(own, seen.first),
    })
}

/// An operator between two operands.
fn joined(op: BinaryOp, at: Span, left: Seen, right: Seen) -> Seen
    ensures { result ≡ record {
      operand = Operand.Typed SlotType.Int;
      first = sooner (breach_if soonest (breaks_binary (binary_rule op) left.operand right.operand) at (binary_rule op)) (sooner left.first right.first);
    } }
{
    let rule = binary_rule(op);
    let own = breach_if(breaks_binary(rule, left.operand, right.operand), at, rule);
    Seen {
        operand: Operand::Typed(SlotType::Int),
        first: sooner(own, sooner(left.first, right.first)),
    }
}

/// Checks an expression of which that is wanted, and notes its nodes in preorder.
#[cycle(check)]
pub(crate) fn check_expr(
    tables: &Tables,
    scope: &OpenScopes,
    wanted: Wanted,
    e: &Expr,
    nodes: &mut Vec<NodeInfo>,
) -> Result<Seen, Memory>
    ensures operand { IfOk result (λ seen. seen.operand ≡ operand_of tables.now scope.now (expr_view e.now)) }
    ensures first { IfOk result (λ seen. seen.first ≡ breaches soonest tables.now scope.now wanted (expr_view e.now)) }
    ensures nodes { OnOk result (nodes.new.items ≡ nodes.old.items ++ infos tables.now scope.now wanted (expr_view e.now)) }
{
    match &e.form {
        ExprForm::Num(n) => check_leaf(wanted, Operand::of_number(*n), nodes),
        ExprForm::Text(_) => check_leaf(wanted, Operand::Typed(SlotType::CharPtr), nodes),
        ExprForm::Null => check_null(wanted, e.at, nodes),
        ExprForm::Name(x) => check_name(scope, wanted, e.at, x, nodes),
        ExprForm::Call(f, args) => {
            check_call(tables, scope, wanted, e.at, f, args.as_slice(), nodes)
        }
        ExprForm::New(new) => {
            let made = made(tables, scope, &new.cast, new.zeroed, &new.unit);
            match &new.count {
                None => check_new(wanted, e.at, made, nodes),
                Some(count) => {
                    check_counted(tables, scope, wanted, e.at, made, count.get(), nodes)
                }
            }
        }
        ExprForm::Arrow(base, name) => {
            check_arrow(tables, scope, wanted, e.at, base.get(), name, nodes)
        }
        ExprForm::Index(base, index) => {
            let base = check_element(tables, scope, wanted, base.get(), nodes)?;
            let index = check_expr(tables, scope, Wanted::Value, index.get(), nodes)?;
            Ok(indexed(e.at, base, index))
        }
        ExprForm::Not(operand) => check_not(tables, scope, wanted, e.at, operand.get(), nodes),
        ExprForm::Neg(operand) => check_neg(tables, scope, wanted, e.at, operand.get(), nodes),
        ExprForm::Binary(op, left, right) => {
            let own = Operand::Typed(SlotType::Int);
            let beside = wanted_by(*op, operand_of(tables, scope, right.get()));
            let left = check_operand(tables, scope, wanted, own, beside, left.get(), nodes)?;
            let beside = wanted_by(*op, left.operand);
            let right = check_expr(tables, scope, beside, right.get(), nodes)?;
            Ok(joined(*op, e.at, left, right))
        }
    }
}

/// A call of a void procedure is a statement.
fn breaks_18(wanted: Wanted, known: bool, result_type: Option<SlotType>) -> bool
    ensures { result ≡ (wants_value wanted && (known && is_none result_type)) }
{
    match wanted {
        Wanted::Nothing => false,
        Wanted::Value | Wanted::For(_) => known && result_type.is_none(),
    }
}

/// The base of an arrow points to a struct that is defined and has the member.
fn breaks_8(base: Operand, member: Option<(usize, SlotType)>) -> bool
    ensures { result ≡ (not (is_untyped base) && is_none member) }
{
    match base {
        Operand::Untyped => false,
        Operand::Typed(_) | Operand::Zero | Operand::Null => member.is_none(),
    }
}
