ghost use Rattle.std.specs.Prelude.{◌≡◌, ◌++◌, [], ◌∷◌, true, length, take, is_some, Some, IfOk, OnOk};
ghost use Rattle.c_tree.specs.View.{stmt_view, stmts_view, expr_view, cond_view, step_view};
ghost use Rattle.c_types.specs.Breaches.{soonest, sooner, breach_if};
ghost use Rattle.c_types.specs.Scopes.{entered, left, declared, breaks_5};
ghost use Rattle.c_types.specs.Types.{slot_type, type_of, wanted_for, breaks_12, breaks_13, breaks_15, breaks_16};
ghost use Rattle.c_types.specs.Exprs.{operand_of, breaches, infos};
ghost use Rattle.c_types.specs.Stmts.{after, after_all, breaks_12_for, breaks_17, condition_breaches, condition_infos, stmt_breaches, stmts_breaches, stmt_infos, stmts_infos, plain_info, slot_info};

use crate::exprs::{Seen, check_expr};
use crate::infos::NodeInfo;
use crate::kinds::{SlotType, Wanted};
use crate::rules::{Breach, breach_if, breaks_12, breaks_13, breaks_15, breaks_16, sooner};
use crate::scope::OpenScopes;
use crate::tables::{Tables, slot_type};
use c_tree::{Expr, Memory, Name, Span, Stmt, StmtForm, TypeName};
use sqlite_items::Boxed;
use std::alloc::Global;

/// Notes a node that has no type and refers to nothing.
pub(crate) fn note_plain(nodes: &mut Vec<NodeInfo>) -> Result<(), Memory>
    ensures { OnOk result (nodes.new.items ≡ nodes.old.items ++ plain_info ∷ []) }
{
    nodes.push(NodeInfo {
        kind: None,
        refers: None,
    })?;
    Ok(())
}

/// Notes a declaration, which refers to the next slot.
fn note_slot(scope: &OpenScopes, nodes: &mut Vec<NodeInfo>) -> Result<(), Memory>
    ensures { OnOk result (nodes.new.items ≡ nodes.old.items ++ slot_info (length scope.now.slots) ∷ []) }
{
    let refers = Some(scope.slot_count()?);
    nodes.push(NodeInfo { kind: None, refers })?;
    Ok(())
}

/// Notes a statement, and checks the first expression in it.
fn check_head(
    tables: &Tables,
    scope: &OpenScopes,
    wanted: Wanted,
    e: &Expr,
    nodes: &mut Vec<NodeInfo>,
) -> Result<Seen, Memory>
    ensures operand { IfOk result (λ seen. seen.operand ≡ operand_of tables.now scope.now (expr_view e.now)) }
    ensures first { IfOk result (λ seen. seen.first ≡ breaches soonest tables.now scope.now wanted (expr_view e.now)) }
    ensures nodes { OnOk result (nodes.new.items
        ≡ nodes.old.items ++ (plain_info ∷ infos tables.now scope.now wanted (expr_view e.now))) }
{
    note_plain(nodes)?;
    check_expr(tables, scope, wanted, e, nodes)
}

/// The condition of a for statement: whether it is none, and the first rule that is broken in it.
#[derive(Clone, Copy)]
struct Condition {
    broken: bool,
    first: Option<Breach>,
}

fn check_condition(
    tables: &Tables,
    scope: &OpenScopes,
    e: &Option<Expr>,
    nodes: &mut Vec<NodeInfo>,
) -> Result<Condition, Memory>
    ensures broken { IfOk result (λ c. c.broken ≡ breaks_12_for tables.now scope.now (cond_view e.now)) }
    ensures first { IfOk result (λ c. c.first ≡ condition_breaches soonest tables.now scope.now (cond_view e.now)) }
    ensures nodes { OnOk result (nodes.new.items ≡ nodes.old.items ++ condition_infos tables.now scope.now (cond_view e.now)) }
{
    match e {
        Some(e) => {
            let seen = check_expr(tables, scope, Wanted::Value, e, nodes)?;
            Ok(Condition {
                broken: breaks_12(seen.operand),
                first: seen.first,
            })
        }
        None => Ok(Condition {
            broken: false,
            first: None,
        }),
    }
}

/// Notes a declaration, whose name is not yet visible.
fn check_declarator(
    scope: &OpenScopes,
    at: Span,
    x: &Name,
    nodes: &mut Vec<NodeInfo>,
) -> Result<Option<Breach>, Memory>
    ensures first { IfOk result (λ b. b ≡ breach_if soonest (breaks_5 scope.now x.now) at 5) }
    ensures nodes { OnOk result (nodes.new.items ≡ nodes.old.items ++ slot_info (length scope.now.slots) ∷ []) }
{
    note_slot(scope, nodes)?;
    Ok(breach_if(scope.declares(x.items.as_slice()), at, 5))
}

/// Declares a variable without an initialiser.
fn check_local<'t>(
    alloc: Global,
    tables: &Tables,
    scope: &mut OpenScopes<'t>,
    at: Span,
    x: &'t Name,
    t: &TypeName,
    nodes: &mut Vec<NodeInfo>,
) -> Result<Option<Breach>, Memory>
    ensures first { IfOk result (λ b. b ≡ breach_if soonest (breaks_5 scope.old x.now) at 5) }
    ensures after { OnOk result (scope.new ≡ declared scope.old x.now (slot_type tables.now.tags t.now) at) }
    ensures nodes { OnOk result (nodes.new.items ≡ nodes.old.items ++ slot_info (length scope.old.slots) ∷ []) }
{
    let first = check_declarator(scope, at, x, nodes)?;
    scope.declare(alloc, x, slot_type(&tables.tags, t), at)?;
    Ok(first)
}

/// Declares a variable, and checks its initialiser, in which its name is visible.
fn check_initialised<'t>(
    alloc: Global,
    tables: &Tables,
    scope: &mut OpenScopes<'t>,
    at: Span,
    x: &'t Name,
    t: &TypeName,
    e: &Expr,
    nodes: &mut Vec<NodeInfo>,
) -> Result<Option<Breach>, Memory>
    ensures first { IfOk result (λ b. let kind = slot_type tables.now.tags t.now in let inside = declared scope.old x.now kind at in
        b ≡ sooner (breach_if soonest (breaks_5 scope.old x.now) at 5)
        (sooner (breach_if soonest (breaks_13 (Some kind) (operand_of tables.now inside (expr_view e.now))) at 13)
        (breaches soonest tables.now inside (Wanted.For kind) (expr_view e.now)))) }
    ensures after { OnOk result (scope.new ≡ declared scope.old x.now (slot_type tables.now.tags t.now) at) }
    ensures nodes { OnOk result (let kind = slot_type tables.now.tags t.now in
        nodes.new.items ≡ nodes.old.items
        ++ (slot_info (length scope.old.slots) ∷ infos tables.now (declared scope.old x.now kind at) (Wanted.For kind) (expr_view e.now))) }
{
    let kind = slot_type(&tables.tags, t);
    let again = check_declarator(scope, at, x, nodes)?;
    scope.declare(alloc, x, kind, at)?;
    let source = check_expr(tables, scope, Wanted::For(kind), e, nodes)?;
    let misfit = breach_if(breaks_13(Some(kind), source.operand), at, 13);
    Ok(sooner(again, sooner(misfit, source.first)))
}

fn check_assign(
    tables: &Tables,
    scope: &OpenScopes,
    at: Span,
    t: &Expr,
    e: &Expr,
    nodes: &mut Vec<NodeInfo>,
) -> Result<Option<Breach>, Memory>
    ensures first { IfOk result (λ b. b ≡ sooner
        (breach_if soonest (breaks_13 (type_of (operand_of tables.now scope.now (expr_view t.now))) (operand_of tables.now scope.now (expr_view e.now))) at 13)
        (sooner (breaches soonest tables.now scope.now Wanted.Value (expr_view t.now))
        (breaches soonest tables.now scope.now (wanted_for (type_of (operand_of tables.now scope.now (expr_view t.now)))) (expr_view e.now)))) }
    ensures nodes { OnOk result (nodes.new.items ≡ nodes.old.items
        ++ (plain_info ∷ infos tables.now scope.now Wanted.Value (expr_view t.now)
        ++ infos tables.now scope.now (wanted_for (type_of (operand_of tables.now scope.now (expr_view t.now)))) (expr_view e.now))) }
{
    let target = check_head(tables, scope, Wanted::Value, t, nodes)?;
    let kind = target.operand.type_of();
    let source = check_expr(tables, scope, Wanted::of_type(kind), e, nodes)?;
    let misfit = breach_if(breaks_13(kind, source.operand), at, 13);
    Ok(sooner(misfit, sooner(target.first, source.first)))
}

fn check_free(
    tables: &Tables,
    scope: &OpenScopes,
    at: Span,
    e: &Expr,
    nodes: &mut Vec<NodeInfo>,
) -> Result<Option<Breach>, Memory>
    ensures first { IfOk result (λ b. b ≡ sooner
        (breach_if soonest (breaks_15 (operand_of tables.now scope.now (expr_view e.now))) at 15)
        (breaches soonest tables.now scope.now Wanted.Value (expr_view e.now))) }
    ensures nodes { OnOk result (nodes.new.items ≡ nodes.old.items ++ (plain_info ∷ infos tables.now scope.now Wanted.Value (expr_view e.now))) }
{
    let seen = check_head(tables, scope, Wanted::Value, e, nodes)?;
    Ok(sooner(breach_if(breaks_15(seen.operand), at, 15), seen.first))
}

/// What is broken first in a statement with that condition and these statements below it.
fn tested(at: Span, test: Seen, below: Option<Breach>) -> Option<Breach>
    ensures { result ≡ sooner (breach_if soonest (breaks_12 test.operand) at 12) (sooner test.first below) }
{
    let own = breach_if(breaks_12(test.operand), at, 12);
    sooner(own, sooner(test.first, below))
}

/// Checks `break` or `continue`.
fn check_jump(looped: bool, at: Span, nodes: &mut Vec<NodeInfo>) -> Result<Option<Breach>, Memory>
    ensures first { IfOk result (λ b. b ≡ breach_if soonest (breaks_17 looped) at 17) }
    ensures nodes { OnOk result (nodes.new.items ≡ nodes.old.items ++ plain_info ∷ []) }
{
    note_plain(nodes)?;
    Ok(breach_if(!looped, at, 17))
}

/// Checks a return without a value.
fn check_return(
    returned: Option<SlotType>,
    at: Span,
    nodes: &mut Vec<NodeInfo>,
) -> Result<Option<Breach>, Memory>
    ensures first { IfOk result (λ b. b ≡ breach_if soonest (is_some returned) at 16) }
    ensures nodes { OnOk result (nodes.new.items ≡ nodes.old.items ++ plain_info ∷ []) }
{
    note_plain(nodes)?;
    Ok(breach_if(returned.is_some(), at, 16))
}

/// Checks a return of a value.
fn check_value(
    tables: &Tables,
    returned: Option<SlotType>,
    scope: &OpenScopes,
    at: Span,
    e: &Expr,
    nodes: &mut Vec<NodeInfo>,
) -> Result<Option<Breach>, Memory>
    ensures first { IfOk result (λ b. b ≡ sooner
        (breach_if soonest (breaks_16 returned (operand_of tables.now scope.now (expr_view e.now))) at 16)
        (breaches soonest tables.now scope.now (wanted_for returned) (expr_view e.now))) }
    ensures nodes { OnOk result (nodes.new.items ≡ nodes.old.items ++ (plain_info ∷ infos tables.now scope.now (wanted_for returned) (expr_view e.now))) }
{
    let seen = check_head(tables, scope, Wanted::of_type(returned), e, nodes)?;
    Ok(sooner(
        breach_if(breaks_16(returned, seen.operand), at, 16),
        seen.first,
    ))
}

/// What a statement stands in.
#[derive(Clone, Copy)]
pub(crate) struct Context {
    pub alloc: Global,
    /// The result of the procedure.
    pub returned: Option<SlotType>,
    /// Whether it is in a loop.
    pub looped: bool,
}

/// Checks a statement, and notes its nodes in preorder.
#[cycle(stmts)]
pub(crate) fn check_stmt<'t>(
    tables: &Tables,
    context: Context,
    scope: &mut OpenScopes<'t>,
    s: &'t Stmt,
    nodes: &mut Vec<NodeInfo>,
) -> Result<Option<Breach>, Memory>
    ensures first { IfOk result (λ b. b ≡ stmt_breaches soonest tables.now context.returned context.looped scope.old (stmt_view s.now)) }
    ensures after { OnOk result (scope.new ≡ after tables.now scope.old (stmt_view s.now)) }
    ensures nodes { OnOk result (nodes.new.items ≡ nodes.old.items ++ stmt_infos tables.now context.returned scope.old (stmt_view s.now)) }
{
    match &s.form {
        StmtForm::Block(ss) => {
            note_plain(nodes)?;
            check_block(tables, context, scope, ss.as_slice(), nodes)
        }
        StmtForm::Local(x, t, None) => check_local(context.alloc, tables, scope, s.at, x, t, nodes),
        StmtForm::Local(x, t, Some(e)) => {
            check_initialised(context.alloc, tables, scope, s.at, x, t, e, nodes)
        }
        StmtForm::Assign(t, e) => check_assign(tables, scope, s.at, t, e, nodes),
        StmtForm::Do(e) => Ok(check_head(tables, scope, Wanted::Nothing, e, nodes)?.first),
        StmtForm::Free(e) => check_free(tables, scope, s.at, e, nodes),
        StmtForm::If(c, then, None) => {
            check_guarded(tables, context, scope, s.at, then.get(), c, nodes)
        }
        StmtForm::If(c, then, Some(other)) => {
            let test = check_head(tables, scope, Wanted::Value, c, nodes)?;
            let then = check_below(tables, context, scope, then.get(), nodes)?;
            let other = check_below(tables, context, scope, other.get(), nodes)?;
            Ok(tested(s.at, test, sooner(then, other)))
        }
        StmtForm::While(c, body) => {
            let turn = Context {
                looped: true,
                ..context
            };
            check_guarded(tables, turn, scope, s.at, body.get(), c, nodes)
        }
        StmtForm::For(init, c, step, body) => {
            let around = scope.enter()?;
            let ss = init.as_slice();
            let head = check_init(tables, context, scope, ss, c, nodes)?;
            let next = check_step(tables, context, scope, step, nodes)?;
            let turn = Context {
                looped: true,
                ..context
            };
            let turn = check_below(tables, turn, scope, body.get(), nodes)?;
            scope.leave(around);
            let own = breach_if(head.broken, s.at, 12);
            Ok(sooner(own, sooner(head.first, sooner(next, turn))))
        }
        StmtForm::Break | StmtForm::Continue => check_jump(context.looped, s.at, nodes),
        StmtForm::Return(None) => check_return(context.returned, s.at, nodes),
        StmtForm::Return(Some(e)) => check_value(tables, context.returned, scope, s.at, e, nodes),
        StmtForm::Nothing => {
            note_plain(nodes)?;
            Ok(None)
        }
    }
}

/// Notes a statement, and checks its condition and the statement below it.
#[cycle(stmts)]
fn check_guarded<'t>(
    tables: &Tables,
    context: Context,
    scope: &mut OpenScopes<'t>,
    at: Span,
    s: &'t Stmt,
    c: &Expr,
    nodes: &mut Vec<NodeInfo>,
) -> Result<Option<Breach>, Memory>
    ensures first { IfOk result (λ b. b ≡ sooner (breach_if soonest (breaks_12 (operand_of tables.now scope.old (expr_view c.now))) at 12)
        (sooner (breaches soonest tables.now scope.old Wanted.Value (expr_view c.now)) (stmt_breaches soonest tables.now context.returned context.looped scope.old (stmt_view s.now)))) }
    ensures after { OnOk result (scope.new ≡ left scope.old (after tables.now scope.old (stmt_view s.now))) }
    ensures nodes { OnOk result (nodes.new.items ≡ nodes.old.items
        ++ (plain_info ∷ infos tables.now scope.old Wanted.Value (expr_view c.now) ++ stmt_infos tables.now context.returned scope.old (stmt_view s.now))) }
{
    let test = check_head(tables, scope, Wanted::Value, c, nodes)?;
    let below = check_below(tables, context, scope, s, nodes)?;
    Ok(tested(at, test, below))
}

/// Notes a for statement, and checks its first statements and its condition.
#[cycle(stmts)]
fn check_init<'t>(
    tables: &Tables,
    context: Context,
    scope: &mut OpenScopes<'t>,
    ss: &'t [Stmt],
    e: &Option<Expr>,
    nodes: &mut Vec<NodeInfo>,
) -> Result<Condition, Memory>
    ensures broken { IfOk result (λ c. c.broken ≡ breaks_12_for tables.now (after_all tables.now scope.old (stmts_view ss.now)) (cond_view e.now)) }
    ensures first { IfOk result (λ c. c.first ≡ sooner
        (stmts_breaches soonest tables.now context.returned context.looped scope.old (stmts_view ss.now))
        (condition_breaches soonest tables.now (after_all tables.now scope.old (stmts_view ss.now)) (cond_view e.now))) }
    ensures after { OnOk result (scope.new ≡ after_all tables.now scope.old (stmts_view ss.now)) }
    ensures keeps { OnOk result (take (length scope.old.visible) scope.new.visible ≡ scope.old.visible) }
    ensures nodes { OnOk result (nodes.new.items ≡ nodes.old.items
        ++ ((plain_info ∷ stmts_infos tables.now context.returned scope.old (stmts_view ss.now))
        ++ condition_infos tables.now (after_all tables.now scope.old (stmts_view ss.now)) (cond_view e.now))) }
{
    note_plain(nodes)?;
    let first = check_stmts(tables, context, scope, ss, nodes)?;
    let cond = check_condition(tables, scope, e, nodes)?;
    Ok(Condition {
        broken: cond.broken,
        first: sooner(first, cond.first),
    })
}

#[cycle(stmts)]
#[tactic(auto, using(crate::proofs::Firsts::sooner_right))]
fn check_step<'t>(
    tables: &Tables,
    context: Context,
    scope: &mut OpenScopes<'t>,
    step: &'t Option<Boxed<Stmt>>,
    nodes: &mut Vec<NodeInfo>,
) -> Result<Option<Breach>, Memory>
    ensures first { IfOk result (λ b. b ≡ stmts_breaches soonest tables.now context.returned true scope.old (step_view step.now)) }
    ensures after { OnOk result (scope.new ≡ left scope.old (after_all tables.now scope.old (step_view step.now))) }
    ensures nodes { OnOk result (nodes.new.items ≡ nodes.old.items ++ stmts_infos tables.now context.returned scope.old (step_view step.now)) }
{
    match step {
        Some(s) => {
            let turn = Context {
                looped: true,
                ..context
            };
            check_below(tables, turn, scope, s.get(), nodes)
        }
        None => Ok(None),
    }
}

/// A statement below another, after which the same variables are visible as before.
#[cycle(stmts)]
#[tactic(auto, using(crate::proofs::Scopes::keeps_visible))]
fn check_below<'t>(
    tables: &Tables,
    context: Context,
    scope: &mut OpenScopes<'t>,
    s: &'t Stmt,
    nodes: &mut Vec<NodeInfo>,
) -> Result<Option<Breach>, Memory>
    ensures first { IfOk result (λ b. b ≡ stmt_breaches soonest tables.now context.returned context.looped scope.old (stmt_view s.now)) }
    ensures after { OnOk result (scope.new ≡ left scope.old (after tables.now scope.old (stmt_view s.now))) }
    ensures nodes { OnOk result (nodes.new.items ≡ nodes.old.items ++ stmt_infos tables.now context.returned scope.old (stmt_view s.now)) }
{
    let outside = scope.outside();
    let first = check_stmt(tables, context, scope, s, nodes)?;
    scope.leave(outside);
    Ok(first)
}

#[cycle(stmts)]
fn check_block<'t>(
    tables: &Tables,
    context: Context,
    scope: &mut OpenScopes<'t>,
    ss: &'t [Stmt],
    nodes: &mut Vec<NodeInfo>,
) -> Result<Option<Breach>, Memory>
    ensures first { IfOk result (λ b. b ≡ stmts_breaches soonest tables.now context.returned context.looped (entered scope.old) (stmts_view ss.now)) }
    ensures after { OnOk result (scope.new ≡ left scope.old (after_all tables.now (entered scope.old) (stmts_view ss.now))) }
    ensures nodes { OnOk result (nodes.new.items ≡ nodes.old.items ++ stmts_infos tables.now context.returned (entered scope.old) (stmts_view ss.now)) }
{
    let outside = scope.enter()?;
    let first = check_stmts(tables, context, scope, ss, nodes)?;
    scope.leave(outside);
    Ok(first)
}

/// Checks statements of one scope.
#[cycle(stmts)]
pub(crate) fn check_stmts<'t>(
    tables: &Tables,
    context: Context,
    scope: &mut OpenScopes<'t>,
    ss: &'t [Stmt],
    nodes: &mut Vec<NodeInfo>,
) -> Result<Option<Breach>, Memory>
    ensures first { IfOk result (λ b. b ≡ stmts_breaches soonest tables.now context.returned context.looped scope.old (stmts_view ss.now)) }
    ensures after { OnOk result (scope.new ≡ after_all tables.now scope.old (stmts_view ss.now)) }
    ensures keeps { OnOk result (take (length scope.old.visible) scope.new.visible ≡ scope.old.visible) }
    ensures nodes { OnOk result (nodes.new.items ≡ nodes.old.items ++ stmts_infos tables.now context.returned scope.old (stmts_view ss.now)) }
{
    let mut first = None;
    for s in ss {
        let found = check_stmt(tables, context, scope, s, nodes)?;
        first = sooner(first, found);
    }
    Ok(first)
}
