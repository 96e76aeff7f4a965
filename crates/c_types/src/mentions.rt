//! The structs that a file mentions, in its order.

ghost use Rattle.std.specs.Prelude.{◌≡◌, ◌≤◌, length, map, OnOk};
ghost use Rattle.c_tree.specs.View.{expr_view, exprs_view, stmt_view, stmts_view, cond_view, step_view, proc_view};
ghost use Rattle.c_types.specs.Declarations.{with_type, with_maybe, with_unit, with_members, with_expr, with_exprs, with_stmt, with_stmts, with_proc, with_procs, before_count, with_file};

use crate::names::Names;
use c_tree::{
    Expr, ExprForm, Member, Memory, NewForm, ProcItem, Stmt, StmtForm, StructDef, TypeName, Unit,
};
use sqlite_items::Boxed;

fn add_type<'t>(tags: &mut Names<'t>, kind: &'t TypeName) -> Result<(), Memory>
    ensures { OnOk result (tags.new ≡ with_type tags.old kind.now) }
{
    match kind {
        TypeName::StructPtr(tag) => {
            tags.add(tag.items.as_slice())?;
            Ok(())
        }
        TypeName::Int | TypeName::Char | TypeName::IntPtr | TypeName::CharPtr => Ok(()),
    }
}

fn add_maybe<'t>(tags: &mut Names<'t>, kind: &'t Option<TypeName>) -> Result<(), Memory>
    ensures { OnOk result (tags.new ≡ with_maybe tags.old kind.now) }
{
    match kind {
        Some(kind) => add_type(tags, kind),
        None => Ok(()),
    }
}

fn add_unit<'t>(tags: &mut Names<'t>, unit: &'t Option<Unit>) -> Result<(), Memory>
    ensures { OnOk result (tags.new ≡ with_unit tags.old unit.now) }
{
    match unit {
        Some(Unit::Struct(tag)) => {
            tags.add(tag.items.as_slice())?;
            Ok(())
        }
        None | Some(Unit::Int) | Some(Unit::Char) | Some(Unit::Behind(_)) => Ok(()),
    }
}

#[tactic(auto, using(crate::proofs::Tags::with_members_at))]
fn add_members<'t>(tags: &mut Names<'t>, members: &'t [Member]) -> Result<(), Memory>
    ensures { OnOk result (tags.new ≡ with_members tags.old members.now) }
{
    for m in members {
        add_type(tags, &m.kind)?;
    }
    Ok(())
}

#[cycle(exprs)]
fn add_expr<'t>(tags: &mut Names<'t>, e: &'t Expr) -> Result<(), Memory>
    ensures { OnOk result (tags.new ≡ with_expr tags.old (expr_view e.now)) }
{
    match &e.form {
        ExprForm::Num(_) | ExprForm::Text(_) | ExprForm::Null | ExprForm::Name(_) => Ok(()),
        ExprForm::Call(_, args) => add_exprs(tags, args.as_slice()),
        ExprForm::New(new) => match &new.count {
            None => {
                add_maybe(tags, &new.cast)?;
                add_unit(tags, &new.unit)
            }
            Some(count) => {
                add_maybe(tags, &new.cast)?;
                add_unit(tags, &new.unit)?;
                add_expr(tags, count.get())
            }
        },
        ExprForm::Arrow(base, _) => add_expr(tags, base.get()),
        ExprForm::Not(operand) | ExprForm::Neg(operand) => add_expr(tags, operand.get()),
        ExprForm::Index(a, b) | ExprForm::Binary(_, a, b) => {
            add_expr(tags, a.get())?;
            add_expr(tags, b.get())
        }
    }
}

#[cycle(exprs)]
#[tactic(auto, using(crate::proofs::Tags::with_exprs_at))]
fn add_exprs<'t>(tags: &mut Names<'t>, es: &'t [Expr]) -> Result<(), Memory>
    ensures { OnOk result (tags.new ≡ with_exprs tags.old (exprs_view es.now)) }
{
    for e in es {
        add_expr(tags, e)?;
    }
    Ok(())
}

fn add_condition<'t>(tags: &mut Names<'t>, e: &'t Option<Expr>) -> Result<(), Memory>
    ensures { OnOk result (tags.new ≡ with_exprs tags.old (cond_view e.now)) }
{
    match e {
        Some(e) => add_expr(tags, e),
        None => Ok(()),
    }
}

#[cycle(stmts)]
fn add_stmt<'t>(tags: &mut Names<'t>, s: &'t Stmt) -> Result<(), Memory>
    ensures { OnOk result (tags.new ≡ with_stmt tags.old (stmt_view s.now)) }
{
    match &s.form {
        StmtForm::Block(ss) => add_stmts(tags, ss.as_slice()),
        StmtForm::Local(_, t, None) => add_type(tags, t),
        StmtForm::Local(_, t, Some(e)) => {
            add_type(tags, t)?;
            add_expr(tags, e)
        }
        StmtForm::Assign(a, b) => {
            add_expr(tags, a)?;
            add_expr(tags, b)
        }
        StmtForm::Do(e) | StmtForm::Free(e) | StmtForm::Return(Some(e)) => add_expr(tags, e),
        StmtForm::If(c, then, None) => {
            add_expr(tags, c)?;
            add_stmt(tags, then.get())
        }
        StmtForm::If(c, then, Some(other)) => {
            add_expr(tags, c)?;
            add_stmt(tags, then.get())?;
            add_stmt(tags, other.get())
        }
        StmtForm::While(c, body) => {
            add_expr(tags, c)?;
            add_stmt(tags, body.get())
        }
        StmtForm::For(init, c, step, body) => {
            add_stmts(tags, init.as_slice())?;
            add_condition(tags, c)?;
            add_step(tags, step)?;
            add_stmt(tags, body.get())
        }
        StmtForm::Break | StmtForm::Continue | StmtForm::Return(None) | StmtForm::Nothing => Ok(()),
    }
}

#[cycle(stmts)]
#[tactic(auto, using(crate::proofs::Tags::with_stmts_at))]
fn add_stmts<'t>(tags: &mut Names<'t>, ss: &'t [Stmt]) -> Result<(), Memory>
    ensures { OnOk result (tags.new ≡ with_stmts tags.old (stmts_view ss.now)) }
{
    for s in ss {
        add_stmt(tags, s)?;
    }
    Ok(())
}

#[cycle(stmts)]
fn add_step<'t>(tags: &mut Names<'t>, step: &'t Option<Boxed<Stmt>>) -> Result<(), Memory>
    ensures { OnOk result (tags.new ≡ with_stmts tags.old (step_view step.now)) }
{
    match step {
        Some(s) => add_stmt(tags, s.get()),
        None => Ok(()),
    }
}

fn add_proc<'t>(tags: &mut Names<'t>, p: &'t ProcItem) -> Result<(), Memory>
    ensures { OnOk result (tags.new ≡ with_proc tags.old (proc_view p.now)) }
{
    add_maybe(tags, &p.result)?;
    add_members(tags, p.params.as_slice())?;
    match &p.body {
        Some(body) => add_stmt(tags, body),
        None => Ok(()),
    }
}

#[tactic(auto, using(crate::proofs::Tags::with_procs_at))]
fn add_procs<'t>(tags: &mut Names<'t>, ps: &'t [ProcItem]) -> Result<(), Memory>
    ensures { OnOk result (tags.new ≡ with_procs tags.old (map proc_view ps.now)) }
{
    for p in ps {
        add_proc(tags, p)?;
    }
    Ok(())
}

/// How many of the procedures, from the front, stand before that struct in the file.
#[tactic(auto, using(crate::proofs::Tags::before_count_at))]
fn before_count(d: &StructDef, ps: &[ProcItem]) -> usize
    ensures count { result ≡ before_count d.now (map proc_view ps.now) }
    ensures within { result ≤ length ps.now }
{
    for (i, p) in ps.iter().enumerate() {
        if d.at.start <= p.at.start {
            return i;
        }
    }
    ps.len()
}

/// Adds the tags that a file mentions, in its order.
#[tactic(auto, using(crate::proofs::Tags::with_file_at))]
pub(crate) fn add_file<'t>(
    tags: &mut Names<'t>,
    structs: &'t [StructDef],
    procs: &'t [ProcItem],
) -> Result<(), Memory>
    ensures { OnOk result (tags.new ≡ with_file tags.old structs.now (map proc_view procs.now)) }
{
    let mut rest = procs;
    for d in structs {
        let (before, after) = rest.split_at(before_count(d, rest));
        add_procs(tags, before)?;
        add_members(tags, d.members.as_slice())?;
        rest = after;
    }
    add_procs(tags, rest)
}
