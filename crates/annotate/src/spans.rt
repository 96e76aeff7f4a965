ghost use Rattle.std.specs.Prelude.{◌≡◌, OnOk, IfOk};
ghost use Rattle.c_tree.specs.View.{expr_view, exprs_view, stmt_view, stmts_view, cond_view, step_view};
ghost use Rattle.annotate.specs.Spans.{with_expr, with_exprs, with_stmt, with_stmts, node_spans};

use c_tree::{Expr, ExprForm, Memory, Span, Stmt, StmtForm};
use sqlite_items::Boxed;
use std::alloc::Global;

/// The spans of a body's nodes, in preorder.
#[tactic(auto, using(crate::proofs::SpanRows::gathered))]
pub(crate) fn node_spans(alloc: Global, body: &Stmt) -> Result<Vec<Span>, Memory>
    ensures { IfOk result (λ spans. spans.items ≡ node_spans (stmt_view body.now)) }
{
    let mut spans = Vec::new(alloc);
    note_stmt(body, &mut spans)?;
    Ok(spans)
}

/// The nodes of an expression.
#[cycle(note)]
fn note(e: &Expr, spans: &mut Vec<Span>) -> Result<(), Memory>
    ensures { OnOk result (spans.new.items ≡ with_expr (expr_view e.now) spans.old.items) }
{
    spans.push(e.at)?;
    match &e.form {
        ExprForm::Num(_) | ExprForm::Text(_) | ExprForm::Null | ExprForm::Name(_) => Ok(()),
        ExprForm::Call(_, es) => note_all(es.as_slice(), spans),
        ExprForm::New(new) => match &new.count {
            None => Ok(()),
            Some(count) => note(count.get(), spans),
        },
        ExprForm::Arrow(base, _) => note(base.get(), spans),
        ExprForm::Not(operand) => note(operand.get(), spans),
        ExprForm::Neg(operand) => note(operand.get(), spans),
        ExprForm::Index(base, index) => {
            note(base.get(), spans)?;
            note(index.get(), spans)
        }
        ExprForm::Binary(_, left, right) => {
            note(left.get(), spans)?;
            note(right.get(), spans)
        }
    }
}

#[cycle(note)]
#[tactic(auto, using(crate::proofs::SpanRows::with_exprs_at))]
fn note_all(es: &[Expr], spans: &mut Vec<Span>) -> Result<(), Memory>
    ensures { OnOk result (spans.new.items ≡ with_exprs (exprs_view es.now) spans.old.items) }
{
    for e in es {
        note(e, spans)?;
    }
    Ok(())
}

fn note_cond(c: &Option<Expr>, spans: &mut Vec<Span>) -> Result<(), Memory>
    ensures { OnOk result (spans.new.items ≡ with_exprs (cond_view c.now) spans.old.items) }
{
    match c {
        Some(c) => note(c, spans),
        None => Ok(()),
    }
}

/// The nodes of a statement.
#[cycle(note_stmts)]
fn note_stmt(s: &Stmt, spans: &mut Vec<Span>) -> Result<(), Memory>
    ensures { OnOk result (spans.new.items ≡ with_stmt (stmt_view s.now) spans.old.items) }
{
    spans.push(s.at)?;
    match &s.form {
        StmtForm::Block(ss) => note_stmts(ss.as_slice(), spans),
        StmtForm::Local(_, _, Some(e)) => note(e, spans),
        StmtForm::Assign(a, b) => {
            note(a, spans)?;
            note(b, spans)
        }
        StmtForm::Do(e) => note(e, spans),
        StmtForm::Free(e) => note(e, spans),
        StmtForm::Return(Some(e)) => note(e, spans),
        StmtForm::If(c, s, None) => {
            note(c, spans)?;
            note_stmt(s.get(), spans)
        }
        StmtForm::If(c, s, Some(t)) => {
            note(c, spans)?;
            note_stmt(s.get(), spans)?;
            note_stmt(t.get(), spans)
        }
        StmtForm::While(c, s) => {
            note(c, spans)?;
            note_stmt(s.get(), spans)
        }
        StmtForm::For(init, c, step, s) => {
            note_stmts(init.as_slice(), spans)?;
            note_cond(c, spans)?;
            note_step(step, spans)?;
            note_stmt(s.get(), spans)
        }
        StmtForm::Local(_, _, None)
        | StmtForm::Return(None)
        | StmtForm::Break
        | StmtForm::Continue
        | StmtForm::Nothing => Ok(()),
    }
}

#[cycle(note_stmts)]
#[tactic(auto, using(crate::proofs::SpanRows::with_stmts_at))]
fn note_stmts(ss: &[Stmt], spans: &mut Vec<Span>) -> Result<(), Memory>
    ensures { OnOk result (spans.new.items ≡ with_stmts (stmts_view ss.now) spans.old.items) }
{
    for s in ss {
        note_stmt(s, spans)?;
    }
    Ok(())
}

#[cycle(note_stmts)]
fn note_step(step: &Option<Boxed<Stmt>>, spans: &mut Vec<Span>) -> Result<(), Memory>
    ensures { OnOk result (spans.new.items ≡ with_stmts (step_view step.now) spans.old.items) }
{
    match step {
        Some(s) => note_stmt(s.get(), spans),
        None => Ok(()),
    }
}
